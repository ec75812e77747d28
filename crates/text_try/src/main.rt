// Shows what the reader of words gives and what the writer of numbers leaves, for texts and scratches at the limits.
#![tactic(auto)]

use numbers::{MAX, Refusal};
use show::number;
use text::Word;

fn show_word(rt: &(impl Print + Eprint), word: Word) {
    number(rt, word.number);
    show::text(rt, b" to ");
    number(rt, word.next as u64);
    show::text(rt, b", ");
}

fn show_end(rt: &(impl Print + Eprint), refusal: Refusal) {
    show::text(rt, b"ends ");
    number(rt, refusal.number());
    show::text(rt, b"\n");
}

// Each word with the place after it, and then the number that ends the reading, which alone ends the loop.
fn show_words(rt: &(impl Print + Eprint), input: &[u8]) {
    let mut at = 0;
    loop {
        match text::next_word(input, at) {
            Ok(word) => {
                show_word(rt, word);
                at = word.next;
            }
            Err(refusal) => {
                show_end(rt, refusal);
                return;
            }
        }
    }
}

// The part with the digits, and then the whole scratch.
fn show_part(rt: &(impl Print + Eprint), n: u64, scratch: &mut [u8]) {
    show::text(rt, b"<");
    let digits = text::decimal(n, scratch);
    show::text(rt, digits);
    show::text(rt, b"> of <");
    show::text(rt, scratch);
    show::text(rt, b">\n");
}

fn show_parts(rt: &(impl Print + Eprint), n: u64) {
    let mut longest = [b'.'; 20];
    show_part(rt, n, &mut longest);
    let mut long = [b'.'; 19];
    show_part(rt, n, &mut long);
    let mut one = [b'.'; 1];
    show_part(rt, n, &mut one);
    let mut none = [b'.'; 0];
    show_part(rt, n, &mut none);
}

fn main(rt: HostRuntime) {
    show_words(&rt, b"");
    show_words(&rt, b" \n \n");
    show_words(&rt, b"0");
    show_words(&rt, b"00");
    show_words(&rt, b"07 1");
    show_words(&rt, b"3\n2 0 0  0\n18446744073709551615\n");
    show_words(&rt, b"12345678901234567890 99999999999999999999");
    show_words(&rt, b"18446744073709551616");
    show_words(&rt, b"18446744073709551620");
    show_words(&rt, b"100000000000000000000");
    show_words(&rt, b"5\r\n");
    show_words(&rt, b"6\t7");
    show_words(&rt, b"8 -1");
    show_words(&rt, b"1 2x 3");
    show_parts(&rt, 0);
    show_parts(&rt, 9);
    show_parts(&rt, 10);
    show_parts(&rt, MAX);
}
