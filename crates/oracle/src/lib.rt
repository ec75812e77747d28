// The library's face, `PmtlOracle` of the original in lent words: a book is loaded into a memory, calls are made on it, and it answers
// of its properties and tells what was counted of them. A program uses this crate and none of those below it.
#![tactic(auto)]

ghost use Rattle.std.specs.Prelude.{◌≡◌};
ghost use Rattle.memory.specs.Kept.{Kept};
ghost use Rattle.property_answers.specs.Verdict.{properties_in};

pub use book::kind::Kind;
pub use book::loading::Loading;
pub use book::strict::{Excess, first_excess};
pub use calls::{update_stamped, update_state, update_time};
pub use ledger::Summary;
pub use loader::{load, load_by, load_lasting, load_lasting_strict, load_strict};
pub use memory::{SIZE, clock};
pub use numbers::{MOST_PROPERTIES, Refusal, refused_with};
pub use numset::Tally;
pub use pmtl::Answer;
pub use property_answers::{Verdict, Verdicts, all, answers, of_property};
pub use property_summaries::{summaries, summary_of};

// How many properties the book has, assumes and guarantees.
pub fn property_count(monitor: &[u64; SIZE]) -> usize
    requires { Kept monitor.now }
    ensures { result ≡ properties_in monitor.now }
{
    memory::property_count(monitor)
}
