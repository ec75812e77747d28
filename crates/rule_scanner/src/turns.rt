// What a symbol does to a reader.
ghost use Rattle.std.specs.Prelude.{◌≡◌};
ghost use Rattle.rule_scanner.specs.Reading.{begun as reading_begun, parting as reading_parting, closing as reading_closing, turn as reading_turn, form_of, parted as reading_parted};

use crate::symbols::Symbol;
use book::kind::Kind;
use numbers::MAX;

// What is wanted next.
#[derive(Clone, Copy)]
pub enum Mode {
    Count,
    Begin,
    First,
    After,
    Atom,
    Left(Kind),
    Lower(Kind),
    Comma(Kind, u64),
    Upper(Kind, u64),
    Right(Kind, u64, u64),
    Open(Kind, u64, u64),
    Over,
}

// How many parts the innermost open operator still takes: any number, this one, this one and another.
#[derive(Clone, Copy)]
pub enum Form {
    Many,
    One,
    Two,
}

// What a symbol does.
#[derive(Clone, Copy)]
pub enum Turn {
    Refused,
    Go(Mode),
    Leaf(Kind, u64),
    Open(Kind, u64, u64),
    Part,
    Close,
    Counted(u64),
    Ended,
}

// What the word does that a property begins with.
fn begun(w: Kind) -> Turn
    ensures { result ≡ reading_begun w }
{
    match w {
        Kind::False | Kind::True => Turn::Leaf(w, 0),
        Kind::Atom => Turn::Go(Mode::Atom),
        Kind::And | Kind::Or | Kind::Not | Kind::Implies => Turn::Go(Mode::Open(w, 0, 0)),
        Kind::Historically | Kind::Once | Kind::Since => Turn::Go(Mode::Left(w)),
    }
}

// A comma where a further part may follow, the closing bracket where none has to.
fn parting(f: Form) -> Turn
    ensures { result ≡ reading_parting f }
{
    match f {
        Form::Many | Form::Two => Turn::Part,
        Form::One => Turn::Refused,
    }
}

fn closing(f: Form) -> Turn
    ensures { result ≡ reading_closing f }
{
    match f {
        Form::Many | Form::One => Turn::Close,
        Form::Two => Turn::Refused,
    }
}

// What a symbol does, by what is wanted and by what the innermost open operator still takes.
pub fn turned(m: Mode, f: Form, s: Symbol) -> Turn
    ensures { result ≡ reading_turn m f s }
{
    match (m, s) {
        (Mode::Count, Symbol::Number(n)) => Turn::Counted(n),
        (Mode::Begin, Symbol::Name(w)) => begun(w),
        (Mode::First, Symbol::Name(w)) => begun(w),
        (Mode::First, Symbol::Closes) => Turn::Close,
        (Mode::After, Symbol::Comma) => parting(f),
        (Mode::After, Symbol::Closes) => closing(f),
        (Mode::Atom, Symbol::Number(n)) => Turn::Leaf(Kind::Atom, n),
        (Mode::Left(w), Symbol::Left) => Turn::Go(Mode::Lower(w)),
        (Mode::Lower(w), Symbol::Number(n)) => Turn::Go(Mode::Comma(w, n)),
        (Mode::Comma(w, l), Symbol::Comma) => Turn::Go(Mode::Upper(w, l)),
        (Mode::Upper(w, l), Symbol::Number(n)) => Turn::Go(Mode::Right(w, l, n)),
        (Mode::Upper(w, l), Symbol::Star) => Turn::Go(Mode::Right(w, l, MAX)),
        (Mode::Right(w, l, u), Symbol::Right) => Turn::Go(Mode::Open(w, l, u)),
        (Mode::Open(w, l, u), Symbol::Opens) => Turn::Open(w, l, u),
        (Mode::Over, Symbol::End) => Turn::Ended,
        _ => Turn::Refused,
    }
}

// What an operator takes as its bracket opens.
pub fn form_of(w: Kind) -> Form
    ensures { result ≡ form_of w }
{
    match w {
        Kind::False | Kind::True | Kind::Atom | Kind::And | Kind::Or => Form::Many,
        Kind::Not | Kind::Historically | Kind::Once => Form::One,
        Kind::Implies | Kind::Since => Form::Two,
    }
}

// What it takes after a comma.
pub fn parted(f: Form) -> Form
    ensures { result ≡ reading_parted f }
{
    match f {
        Form::Many => Form::Many,
        Form::One | Form::Two => Form::One,
    }
}
