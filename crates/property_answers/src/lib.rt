// What a loaded monitor answers of its properties: looks into the tables of its memory.
#![tactic(auto)]

mod record;

ghost use Rattle.std.specs.Prelude.{◌≡◌, ◌<◌, Some, length};
ghost use Rattle.lists.specs.Lists.{listed};
ghost use Rattle.memory.specs.Tables.{property_count};
ghost use Rattle.memory.specs.Kept.{Kept};
ghost use Rattle.property_answers.specs.Verdict.{verdict_of, digits_of, properties_in, answers_number, answers_list};
ghost use Rattle.property_answers.specs.Private.{answer_of};
ghost use Rattle.numbers.specs.Limits.{MOST_PROPERTIES};
ghost use Rattle.numbers.specs.Refusals.{refused_with};

use memory::SIZE;
use numbers::{MOST_PROPERTIES, Refusal};
use pmtl::Answer;
pub use record::{Told, list_into};
use std::fmt;

// The answers of a property.
#[derive(Clone, Copy)]
pub struct Verdict {
    pub value: bool,
    pub early: Answer,
    pub settled: Answer,
}

// The digits of the answers, as a report has them: value, early and settled.
impl fmt::Display for Verdict {
    ghost output = { λ verdict. Some (digits_of verdict) };

    fn fmt<W: fmt::Write>(&self, f: &mut fmt::Formatter<W>) -> fmt::Result {
        let value = u8::from(self.value);
        write!(f, "{value}{}{}", self.early.digit(), self.settled.digit())
    }
}

// The answers of a property that is not there.
const ABSENT: Verdict = Verdict {
    value: false,
    early: Answer::Open,
    settled: Answer::Open,
};

// The answers of all properties, assumes first, and how many properties there are. The list stays an array beside a count, since
// it is handed out by value and there is no heap.
#[derive(Clone, Copy)]
pub struct Verdicts {
    pub count: usize,
    pub list: [Verdict; MOST_PROPERTIES],
}

// The answer whose digit this is.
fn answer_of(digit: u64) -> Answer
    ensures { result ≡ answer_of digit }
{
    match digit {
        0 => Answer::False,
        1 => Answer::True,
        _ => Answer::Open,
    }
}

// The answers of a property that is there.
fn verdict_at(monitor: &[u64; SIZE], i: usize) -> Verdict
    requires kept { Kept monitor.now }
    requires i_bound { i < property_count monitor.now }
    ensures { result ≡ verdict_of monitor.now i }
{
    let value = memory::holds(monitor, memory::property_row(monitor, i));
    let early = answer_of(memory::early_at(monitor, i));
    let settled = answer_of(memory::settled_at(monitor, i));
    Verdict {
        value,
        early,
        settled,
    }
}

// The answers of property `i`, assumes first.
pub fn of_property(monitor: &[u64; SIZE], i: usize) -> Verdict
    requires { Kept monitor.now }
    ensures { result ≡ verdict_of monitor.now i }
{
    if memory::property_count(monitor) <= i {
        return ABSENT;
    }
    verdict_at(monitor, i)
}

// A monitor told as verdicts.
struct AsVerdicts;

impl Told for AsVerdicts {
    type Record = Verdict;

    ghost told = { verdict_of };

    fn of_property(monitor: &[u64; SIZE], i: usize) -> Verdict {
        of_property(monitor, i)
    }
}

// The answers of all properties, assumes first.
pub fn all(monitor: &[u64; SIZE]) -> Verdicts
    requires { Kept monitor.now }
    ensures { (result.count ≡ properties_in monitor.now) × (result.list ≡ listed (verdict_of monitor.now) MOST_PROPERTIES) }
{
    let count = memory::property_count(monitor);
    let mut list = [ABSENT; MOST_PROPERTIES];
    for i in 0..count {
        list[i] = verdict_at(monitor, i);
    }
    Verdicts { count, list }
}

// The answers of all properties, assumes first, into the first records of `out`. Where that is shorter than the properties, the
// refusal is 12 and nothing is changed.
#[tactic(auto, unfolding(crate::specs::Verdict::answers_list))]
pub fn answers(monitor: &[u64; SIZE], out: &mut [Verdict]) -> Result<(), Refusal>
    requires { Kept monitor.now }
    ensures { (refused_with result ≡ answers_number monitor.now (length out.old)) × (out.new ≡ answers_list monitor.now out.old) }
{
    list_into::<AsVerdicts>(monitor, out)
}
