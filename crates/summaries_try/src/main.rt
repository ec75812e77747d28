// Makes calls on a book with two properties, an atom and Historically[0,MAX] of another, and asks for both summaries, and for that of
// a third property, which is not there. A line for each call: the number that it handed back, and then three times six numbers.
#![tactic(auto)]

ghost use Rattle.memory.specs.Kept.{Kept};

use numbers::MAX;
use oracle::{Refusal, SIZE, Summary};

// Both properties, and one more.
const ASKED: usize = 3;

fn show_summary(rt: &(impl Print + Eprint), s: Summary) {
    let Summary {
        accepted,
        failed,
        first,
        last,
        longest,
        settled,
    } = s;
    show::text(rt, b" |");
    for field in [accepted, failed, first, last, longest, settled] {
        show::text(rt, b" ");
        show::number(rt, field);
    }
}

fn show_all(rt: &(impl Print + Eprint), outcome: Result<(), Refusal>, monitor: &[u64; SIZE])
    requires { Kept monitor.now }
{
    show::number(rt, oracle::refused_with(outcome));
    for i in 0..ASKED {
        show_summary(rt, oracle::summary_of(monitor, i));
    }
    show::text(rt, b"\n");
}

fn time(rt: &(impl Print + Eprint), monitor: &mut [u64; SIZE], t: u64)
    requires { Kept monitor.old }
    ensures { Kept monitor.new }
{
    let made = oracle::update_time(monitor, t);
    show_all(rt, made.outcome, monitor);
}

fn state(rt: &(impl Print + Eprint), monitor: &mut [u64; SIZE], first: u8, second: u8)
    requires { Kept monitor.old }
    ensures { Kept monitor.new }
{
    let made = oracle::update_state(monitor, &[first, second]);
    show_all(rt, made.outcome, monitor);
}

// False twice in a row, with a refused call between, then true, and false again to the end; the other settles at the sixth call.
fn main(rt: HostRuntime) {
    let book = [3u64, 2, 0, 0, 0, 2, 1, 0, 0, 7, 1, 0, MAX, 1, 1, 1, 0, 1, 2];
    let mut monitor = [0u64; SIZE];
    let loaded = oracle::load(&book, &mut monitor);
    show_all(&rt, loaded, &monitor);
    state(&rt, &mut monitor, 1, 1);
    state(&rt, &mut monitor, 0, 1);
    state(&rt, &mut monitor, 0, 2);
    time(&rt, &mut monitor, 5);
    state(&rt, &mut monitor, 1, 1);
    state(&rt, &mut monitor, 0, 0);
    time(&rt, &mut monitor, 4);
    time(&rt, &mut monitor, 9);
}
