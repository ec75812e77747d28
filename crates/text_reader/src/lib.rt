// The book and the states of a text, read word by word into lent memory.
#![tactic(auto)]

ghost use Rattle.std.specs.Prelude.{◌≡◌, ◌+◌, ◌*◌, ◌%◌, ◌<◌, ◌≤◌, min, max, true, length, slice_index};
ghost use Rattle.numbers.specs.Limits.{MOST_ATOMS};
ghost use Rattle.text.specs.Words.{parts, supply_from};
ghost use Rattle.numbers.specs.Refusals.{refused_with};
ghost use Rattle.text_reader.specs.Reads.{left_over, byte_of, BitIn, WordsRead, SectionRead, BookRead, BitsTook, BytesRead, StateRead};

use numbers::{
    MOST_ASSUMES, MOST_ATOMS, MOST_GUARANTEES, MOST_OPERANDS, MOST_ROWS, ROW_WORDS, Refusal,
};

// All sections at their limits, each after its count.
pub const BOOK_WORDS: usize = 1
    + ROW_WORDS * MOST_ROWS
    + 1
    + MOST_OPERANDS
    + 1
    + MOST_ASSUMES
    + 1
    + MOST_GUARANTEES;

// The byte of the word 0, and the first number that is no bit.
const ZERO: u16 = 48;

const NO_BIT: u16 = 2;

// What a byte counts that stands after another, and the two that part words, a space and a line feed, as such.
const HIGH: u16 = 256;

const SPACED: u16 = HIGH * 32;

const FED: u16 = HIGH * 10;

// A bit's word and the byte before it.
const BIT_BYTES: usize = 2;

// So many words the compiler takes at a time. Of a state that has fewer, one word after the other is read sooner.
const NARROW: usize = 16;

// What was read: the words stand in the memory up to `end`, and the next word is looked for from `next` in the text.
#[derive(Clone, Copy, Debug, PartialEq, Eq)]
pub struct Part {
    pub end: usize,
    pub next: usize,
}

// The next `count` words, into `words` from `at` on.
pub fn words_into(
    input: &[u8],
    cursor: usize,
    count: usize,
    words: &mut [u64],
    at: usize,
) -> Result<Part, Refusal>
    requires { at + count ≤ length words.old }
    ensures { WordsRead input.now cursor count words.old at words.new result }
{
    let mut next = cursor;
    for i in 0..count {
        let word = text::next_word(input, next)?;
        words[at + i] = word.number;
        next = word.next;
    }
    Ok(Part {
        end: at + count,
        next,
    })
}

// A section of up to `limit` items of `size` words, into `words` from `at` on: its count, and then its items.
fn section(
    input: &[u8],
    cursor: usize,
    limit: usize,
    size: usize,
    words: &mut [u64],
    at: usize,
) -> Result<Part, Refusal>
    requires { at + 1 + size * limit ≤ length words.old }
    ensures { SectionRead input.now cursor limit size words.old at words.new result }
{
    let count = text::next_word(input, cursor)?;
    if count.number > limit as u64 {
        return Err(Refusal::PastLimit);
    }
    words[at] = count.number;
    words_into(
        input,
        count.next,
        size * count.number as usize,
        words,
        at + 1,
    )
}

// The book that a text begins with, as the words that loading takes.
pub fn book(input: &[u8], words: &mut [u64; BOOK_WORDS]) -> Result<Part, Refusal>
    ensures { BookRead input.now words.new result }
{
    let rows = section(input, 0, MOST_ROWS, ROW_WORDS, words, 0)?;
    let operands = section(input, rows.next, MOST_OPERANDS, 1, words, rows.end)?;
    let assumes = section(input, operands.next, MOST_ASSUMES, 1, words, operands.end)?;
    section(input, assumes.next, MOST_GUARANTEES, 1, words, assumes.end)
}

// A state's word as a byte. Any word over 1 is refused, so that it need not be kept as it is.
fn byte_of(w: u64) -> u8
    ensures { result ≡ byte_of w }
{
    w.min(2) as u8
}

// Two bytes as one number, which the compiler then reads at once. Not part of `bit_in`, where it would take ZERO from the lower byte alone
// and read each by itself.
fn pair(low: u8, high: u8) -> u16
    ensures { result ≡ low + 256 * high }
{
    u16::from(low) + HIGH * u16::from(high)
}

// The lower byte of a number.
fn low_byte(n: u16) -> u8
    ensures { result ≡ n % 256 }
{
    (n % HIGH) as u8
}

// The bit that a word's byte says before one that parts words, both as a pair; of any other pair NO_BIT or more. As a number, so that
// there is no branch on it. What is past all such pairs is brought down first: else the compiler makes two differences of the pair
// itself, and reads each byte by itself, too.
fn bit_in(both: u16) -> u16
    ensures { BitIn both result }
{
    let near = std::num::wrapping_sub_u16(both, ZERO).min(SPACED + NO_BIT);
    std::num::wrapping_sub_u16(near, FED).min(std::num::wrapping_sub_u16(near, SPACED))
}

// The `count` words from the parting byte at `cursor` on as a state's bytes, if each is 0 or 1 between two such bytes: `count`, or 0
// where one is not. There is one way through the loop, so that the compiler takes many words at a time.
fn bits_into(input: &[u8], cursor: usize, count: usize, bytes: &mut [u8]) -> usize
    requires { (cursor + 2 * count < length input.now) × (parts (slice_index input.now cursor) ≡ true) × (count ≤ length bytes.old) }
    ensures { BitsTook input.now cursor count bytes.new result }
{
    let mut most: u16 = 0;
    for i in 0..count {
        let from = cursor + BIT_BYTES * i;
        let bit = bit_in(pair(input[from + 1], input[from + BIT_BYTES]));
        bytes[i] = low_byte(bit);
        most = most.max(bit);
    }
    if most < NO_BIT {
        return count;
    }
    0
}

// The same from any place on: none if the state is narrow, the text may be too short for all, or no byte parts words there.
fn bits(input: &[u8], cursor: usize, count: usize, bytes: &mut [u8]) -> usize
    requires { count ≤ length bytes.old }
    ensures { BitsTook input.now cursor count bytes.new result }
{
    if count < NARROW {
        return 0;
    }
    if cursor < input.len() {
        if count < (input.len() - cursor) / BIT_BYTES {
            if text::parts(input[cursor]) {
                return bits_into(input, cursor, count, bytes);
            }
        }
    }
    0
}

// The next `count` words, as a state's bytes.
fn bytes_into(input: &[u8], cursor: usize, count: usize, bytes: &mut [u8]) -> Result<Part, Refusal>
    requires { count ≤ length bytes.old }
    ensures { BytesRead input.now cursor count bytes.new result }
{
    let told = bits(input, cursor, count, bytes);
    let mut next = cursor + BIT_BYTES * told;
    for i in told..count {
        let word = text::next_short(input, next)?;
        bytes[i] = byte_of(word.number);
        next = word.next;
    }
    Ok(Part { end: count, next })
}

// A state, after its width: so many bytes at the start of `bytes`.
pub fn state(input: &[u8], cursor: usize, bytes: &mut [u8]) -> Result<Part, Refusal>
    requires { MOST_ATOMS ≤ length bytes.old }
    ensures { StateRead input.now cursor bytes.new result }
{
    let width = text::next_short(input, cursor)?;
    if width.number > MOST_ATOMS as u64 {
        return Err(Refusal::PastLimit);
    }
    bytes_into(input, width.next, width.number as usize, bytes)
}

// What a text is refused with of which nothing is wanted from `cursor` on.
pub fn left_over(input: &[u8], cursor: usize) -> Result<(), Refusal>
    ensures { refused_with result ≡ left_over (supply_from input.now cursor) }
{
    match text::next_word(input, cursor) {
        Ok(_) => Err(Refusal::WrongLength),
        Err(refusal) if refusal == Refusal::BadWord => Err(refusal),
        Err(_) => Ok(()),
    }
}
