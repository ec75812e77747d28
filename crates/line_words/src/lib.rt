// A line of decimal words, as somebody types it or a barcode gun sends it.
#![tactic(auto)]

ghost use Rattle.std.specs.Prelude.{◌≡◌, length, get_or};
ghost use Rattle.numbers.specs.Refusals.{number_of, refused_with};
ghost use Rattle.text.specs.Words.{supply};
ghost use Rattle.line_words.specs.Line.{without_return, line_supply, blank, word_at, number_for};

use numbers::Refusal;

// The most bytes of a line that is read.
pub const LONGEST_LINE: usize = 255;

// Barcode guns send it at the end of a line.
const CARRIAGE_RETURN: u8 = 13;

// How many words a line has, and why no word follows them.
#[derive(Clone, Copy)]
struct Ending {
    count: usize,
    refusal: Refusal,
}

// A line without a carriage return at its end.
fn without_return(line: &[u8]) -> &[u8]
    ensures { result.now ≡ without_return line.now }
{
    line.strip_suffix(&[CARRIAGE_RETURN]).unwrap_or(line)
}

// How many words a text has, and why no word follows them. It stays a `loop`: only the reading tells where the words end.
fn count_words(input: &[u8]) -> Ending
    ensures { (result.count ≡ length (supply input.now).words) × (number_of result.refusal ≡ (supply input.now).ending) }
{
    let mut at = 0;
    let mut count = 0;
    loop {
        match text::next_word(input, at) {
            Ok(word) => {
                at = word.next;
                count += 1;
            }
            Err(refusal) => return Ending { count, refusal },
        }
    }
}

// Word i of a text; 0 where there is none.
fn word_in(input: &[u8], i: usize) -> u64
    ensures { result ≡ get_or (supply input.now).words i 0 }
{
    let mut at = 0;
    for _ in 0..i {
        let Ok(word) = text::next_word(input, at) else {
            return 0;
        };
        at = word.next;
    }
    match text::next_word(input, at) {
        Ok(word) => word.number,
        Err(_) => 0,
    }
}

// How many words a line has, and why no word follows them.
#[tactic(auto, unfolding(crate::specs::Line::line_supply))]
fn count_line(line: &[u8]) -> Ending
    ensures { (result.count ≡ length (line_supply line.now).words) × (number_of result.refusal ≡ (line_supply line.now).ending) }
{
    if LONGEST_LINE < line.len() {
        return Ending {
            count: 0,
            refusal: Refusal::BadWord,
        };
    }
    count_words(without_return(line))
}

// Whether a line has no word, not even a bad one.
#[tactic(auto, unfolding(crate::specs::Line::no_word))]
pub fn is_blank(line: &[u8]) -> bool
    ensures { result ≡ blank (line_supply line.now) }
{
    let ending = count_line(line);
    ending.count == 0 && ending.refusal == Refusal::WrongLength
}

// What is wrong with a line that is to have n words.
#[tactic(auto, unfolding(crate::specs::Line::judged_by))]
pub fn judge(n: usize, line: &[u8]) -> Result<(), Refusal>
    ensures { refused_with result ≡ number_for n (line_supply line.now) }
{
    let ending = count_line(line);
    if ending.count < n {
        Err(ending.refusal)
    } else if n < ending.count {
        Err(Refusal::WrongLength)
    } else if ending.refusal == Refusal::BadWord {
        Err(Refusal::BadWord)
    } else {
        Ok(())
    }
}

// Word i of a line; 0 where there is none.
#[tactic(auto, unfolding(crate::specs::Line::line_supply))]
pub fn word_at(line: &[u8], i: usize) -> u64
    ensures { result ≡ word_at (line_supply line.now) i }
{
    if LONGEST_LINE < line.len() {
        return 0;
    }
    word_in(without_return(line), i)
}
