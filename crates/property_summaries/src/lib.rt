// What was counted of each property of a loaded monitor: looks into the ledger of its memory.
#![tactic(auto)]

ghost use Rattle.std.specs.Prelude.{◌≡◌, ◌<◌, length};
ghost use Rattle.memory.specs.Tables.{property_count};
ghost use Rattle.memory.specs.Kept.{Kept};
ghost use Rattle.property_answers.specs.Verdict.{answers_number};
ghost use Rattle.property_summaries.specs.Summaries.{summary_of, summaries_list};
ghost use Rattle.property_summaries.specs.Private.{absent_in};
ghost use Rattle.numbers.specs.Refusals.{refused_with};

use ledger::Summary;
use memory::{FAILED, FIRST, LAST, LONGEST, SETTLED_CALL, SIZE, entry_word};
use numbers::Refusal;
use property_answers::{Told, list_into};

// The summary of a property that is not there: calls were accepted, and nothing is counted of it.
fn absent(monitor: &[u64; SIZE]) -> Summary
    ensures { result ≡ absent_in monitor.now }
{
    Summary {
        accepted: memory::taken(monitor),
        failed: 0,
        first: 0,
        last: 0,
        longest: 0,
        settled: 0,
    }
}

// The summary of a property that is there.
fn summary_at(monitor: &[u64; SIZE], i: usize) -> Summary
    requires kept { Kept monitor.now }
    requires i_bound { i < property_count monitor.now }
    ensures { result ≡ summary_of monitor.now i }
{
    Summary {
        accepted: memory::taken(monitor),
        failed: entry_word(monitor, i, FAILED),
        first: entry_word(monitor, i, FIRST),
        last: entry_word(monitor, i, LAST),
        longest: entry_word(monitor, i, LONGEST),
        settled: entry_word(monitor, i, SETTLED_CALL),
    }
}

// The summary of property `i`, assumes first.
pub fn summary_of(monitor: &[u64; SIZE], i: usize) -> Summary
    requires { Kept monitor.now }
    ensures { result ≡ summary_of monitor.now i }
{
    if memory::property_count(monitor) <= i {
        return absent(monitor);
    }
    summary_at(monitor, i)
}

// A monitor told as summaries.
struct AsSummaries;

impl Told for AsSummaries {
    type Record = Summary;

    ghost told = { summary_of };

    fn of_property(monitor: &[u64; SIZE], i: usize) -> Summary {
        summary_of(monitor, i)
    }
}

// The summaries of all properties, assumes first, into the first records of `out`. Where that is shorter than the properties, the
// refusal is 12 and nothing is changed.
#[tactic(auto, unfolding(crate::specs::Summaries::summaries_list))]
pub fn summaries(monitor: &[u64; SIZE], out: &mut [Summary]) -> Result<(), Refusal>
    requires { Kept monitor.now }
    ensures { (refused_with result ≡ answers_number monitor.now (length out.old)) × (out.new ≡ summaries_list monitor.now out.old) }
{
    list_into::<AsSummaries>(monitor, out)
}
