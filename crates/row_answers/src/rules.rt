// Rules on three-way answers: what And, Or, Not, Implies and the temporal rows make of their operands' answers.
ghost use Rattle.std.specs.Prelude.{◌≡◌};
ghost use Rattle.row_answers.specs.Private.{taken_in, decides, implied_by, early_historically, early_once, early_covered, settled_historically, settled_once, settled_left};

use pmtl::Answer;

// Implies.
pub fn implied(left: Answer, right: Answer) -> Answer
    ensures { result ≡ implied_by left right }
{
    match (left, right) {
        (Answer::False, _) | (_, Answer::True) => Answer::True,
        (Answer::True, Answer::False) => Answer::False,
        _ => Answer::Open,
    }
}

// And, or Or if `any`, of the operands so far with one more.
pub fn taken_in(any: bool, sofar: Answer, x: Answer) -> Answer
    ensures { result ≡ taken_in any sofar x }
{
    match x {
        Answer::False if any => sofar,
        Answer::True if !any => sofar,
        _ => x,
    }
}

// Historically: Once of the opposite, the other way round.
pub fn early_historically(zero: bool, covers: bool, x: Answer) -> Answer
    ensures { result ≡ early_historically zero covers x }
{
    early_once(zero, covers, x.negated()).negated()
}

pub fn early_once(zero: bool, covers: bool, x: Answer) -> Answer
    ensures { result ≡ early_once zero covers x }
{
    match x {
        Answer::False => Answer::False,
        Answer::True if zero => Answer::True,
        _ if covers => Answer::True,
        _ => Answer::Open,
    }
}

// Since, where right is not false and the set covers.
pub fn early_covered(zero: bool, left: Answer) -> Answer
    ensures { result ≡ early_covered zero left }
{
    match left {
        Answer::True => Answer::True,
        Answer::False if zero => Answer::False,
        _ => Answer::Open,
    }
}

// Whether an operand decides And, or Or if `any`.
pub fn decides_it(any: bool, x: Answer) -> bool
    ensures { result ≡ decides any x }
{
    matches!((any, x), (true, Answer::True) | (false, Answer::False))
}

// Historically, where the set does not cover: Once of the opposite, the other way round.
pub fn settled_historically(zero: bool, gone: bool, x: Answer) -> Answer
    ensures { result ≡ settled_historically zero gone x }
{
    settled_once(zero, gone, x.negated()).negated()
}

// Once, where the set does not cover; and Since, where left does not decide it.
pub fn settled_once(zero: bool, gone: bool, x: Answer) -> Answer
    ensures { result ≡ settled_once zero gone x }
{
    match x {
        Answer::True if zero => Answer::True,
        Answer::False if gone => Answer::False,
        _ => Answer::Open,
    }
}

// Since, as far as left decides it.
pub fn settled_left(zero: bool, covers: bool, left: Answer) -> Answer
    ensures { result ≡ settled_left zero covers left }
{
    match left {
        Answer::True if covers => Answer::True,
        Answer::False if !zero => Answer::False,
        _ => Answer::Open,
    }
}
