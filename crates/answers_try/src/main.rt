// Loads books and asks for their answers into a list of four records: of three properties, of four, and of five, for which the
// list is too short. A line shows the number that was handed back, and then the list; a record that was not stored is the one
// that stood there before.
#![tactic(auto)]

ghost use Rattle.memory.specs.Kept.{Kept};

use numbers::MAX;
use oracle::{Answer, SIZE, Verdict};

const ROOM: usize = 4;

fn show_verdict(rt: &(impl Print + Eprint), verdict: Verdict) {
    show::digits(
        rt,
        u8::from(verdict.value),
        verdict.early.digit(),
        verdict.settled.digit(),
    );
}

fn show_list(rt: &(impl Print + Eprint), number: u64, list: &[Verdict]) {
    show::number(rt, number);
    for verdict in list {
        show_verdict(rt, *verdict);
    }
    show::text(rt, b"\n");
}

// Lends a list to be filled, and shows it.
fn show_answers(rt: &(impl Print + Eprint), monitor: &[u64; SIZE], before: [Verdict; ROOM])
    requires { Kept monitor.now }
{
    let mut list = before;
    let answered = oracle::answers(monitor, &mut list);
    show_list(rt, oracle::refused_with(answered), &list);
}

// All verdicts by value, after their count.
fn show_all(rt: &(impl Print + Eprint), monitor: &[u64; SIZE])
    requires { Kept monitor.now }
{
    let count = oracle::all(monitor).count;
    show::number(rt, count as u64);
    for i in 0..count {
        show_verdict(rt, oracle::of_property(monitor, i));
    }
    show::text(rt, b"\n");
}

fn show_book(rt: &(impl Print + Eprint), words: &[u64]) {
    let mut monitor = [0u64; SIZE];
    let _ = oracle::load(words, &mut monitor);
    let old = Verdict {
        value: true,
        early: Answer::True,
        settled: Answer::True,
    };
    show_answers(rt, &monitor, [old; ROOM]);
    show_all(rt, &monitor);
}

// The rows are an atom, Once[0,MAX] of it, True, False, and then an empty And and an empty Or.
fn main(rt: HostRuntime) {
    let three = [
        4u64, 2, 0, 0, 0, 8, 1, 0, MAX, 1, 0, 0, 0, 0, 0, 0, 0, 1, 0, 1, 1, 2, 2, 3,
    ];
    show_book(&rt, &three);
    let four = [
        5u64, 2, 0, 0, 0, 8, 1, 0, MAX, 1, 0, 0, 0, 0, 0, 0, 0, 3, 0, 0, 0, 1, 0, 2, 1, 4, 2, 2, 3,
    ];
    show_book(&rt, &four);
    let five = [
        6u64, 2, 0, 0, 0, 8, 1, 0, MAX, 1, 0, 0, 0, 0, 0, 0, 0, 3, 0, 0, 0, 4, 0, 0, 0, 1, 0, 2, 1,
        4, 3, 2, 3, 5,
    ];
    show_book(&rt, &five);
}
