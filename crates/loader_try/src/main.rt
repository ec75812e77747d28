// Loads a book from each line of the input, and shows the number that it is answered with. A line that begins with # is shown as it is.
#![tactic(auto)]

ghost use Rattle.std.specs.Prelude.{◌≤◌, length};

use numbers::{LONGEST_INPUT, MAX};
use oracle::SIZE;
use show::number;

// More than the words of the longest book, so that words left over are seen.
const MOST_WORDS: usize = 1024;

// What stands in a memory before a book is loaded into it.
const UNKNOWN: u64 = MAX;

// The words of a line, as many as there is room for; how many.
fn words_of(line: &[u8], words: &mut [u64]) -> usize
    ensures { result ≤ length words.old }
{
    let mut at = 0;
    for i in 0..words.len() {
        let Ok(word) = text::next_word(line, at) else {
            return i;
        };
        words[i] = word.number;
        at = word.next;
    }
    words.len()
}

// What the book of a line is answered with, loaded over what is no monitor.
fn number_of(line: &[u8]) -> u64 {
    let mut words = [0u64; MOST_WORDS];
    let count = words_of(line, &mut words);
    let mut monitor = [UNKNOWN; SIZE];
    oracle::refused_with(oracle::load(&words[..count], &mut monitor))
}

fn show_line(rt: &(impl Print + Eprint), line: &[u8]) {
    if line.starts_with(b"#") {
        show::text(rt, line);
    } else {
        number(rt, number_of(line));
    }
    show::text(rt, b"\n");
}

fn main(rt: HostRuntime) {
    let mut input = [0u8; LONGEST_INPUT];
    let Some(count) = console::read_all(&rt, &mut input) else {
        return;
    };
    for line in input[..count].split_inclusive(|byte| *byte == b'\n') {
        show_line(&rt, line.strip_suffix(b"\n").unwrap_or(line));
    }
}
