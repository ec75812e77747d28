// A record for each property, put into a lent list: once for verdicts and for summaries.
ghost use Rattle.std.specs.Prelude.{ℕ, List, ◌≡◌, length};
ghost use Rattle.memory.specs.Kept.{Kept};
ghost use Rattle.property_answers.specs.Verdict.{answers_number, records_list};
ghost use Rattle.numbers.specs.Refusals.{refused_with};

use memory::SIZE;
use numbers::Refusal;

// What a loaded monitor tells of each property. Answers and summaries have each a type that stands for them, since a crate may
// implement another's trait for its own types alone, and `Summary` is one of `ledger`.
pub trait Told {
    type Record: Copy;

    // The record of a property of the monitor that a memory holds.
    ghost told: { List ℕ → ℕ → Self.Record };

    // The record of property `i`, assumes first.
    fn of_property(monitor: &[u64; SIZE], i: usize) -> Self::Record
        requires { Kept monitor.now }
        ensures { result ≡ told monitor.now i };
}

// The records of all properties, assumes first, into the first places of `out`. Where that is shorter than the properties, it is
// refused and nothing is changed.
pub fn list_into<T: Told>(monitor: &[u64; SIZE], out: &mut [T::Record]) -> Result<(), Refusal>
    requires { Kept monitor.now }
    ensures { (refused_with result ≡ answers_number monitor.now (length out.old)) × (out.new ≡ records_list monitor.now (T.told monitor.now) out.old) }
{
    let count = memory::property_count(monitor);
    if out.len() < count {
        return Err(Refusal::ListTooShort);
    }
    for i in 0..count {
        out[i] = T::of_property(monitor, i);
    }
    Ok(())
}
