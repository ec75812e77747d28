// Decimal words in text.
ghost use Rattle.std.specs.Prelude.{◌≡◌, ◌+◌, ◌-◌, ◌/◌, ◌<◌, true, false, Some, length, drop, nat_lt, slice_index};
ghost use Rattle.numbers.specs.Limits.{MAX};
ghost use Rattle.text.specs.Words.{digit0, parts as words_parts, word_here, next_word};
ghost use Rattle.text.specs.Private.{value_of};

use numbers::{MAX, Refusal};

// Words are parted by these two bytes.
const SPACE: u8 = b' ';

const LINE_FEED: u8 = b'\n';

// The byte of the digit 0.
const ZERO: u8 = b'0';

const TEN: u64 = 10;

// Where a word of one digit ends, from the parting byte before it on; and where one of the most digits that are read with no
// test whether they say more than MAX: 19.
const SHORT: usize = 2;

const LONG: usize = 20;

// The largest number that a word says, before its last digit and there.
const MAX_TENTH: u64 = MAX / TEN;

const MAX_LAST: u64 = MAX % TEN;

// A word that was read: the number that it says, and the place after it.
#[derive(Clone, Copy, Debug, PartialEq, Eq)]
pub struct Word {
    pub number: u64,
    pub next: usize,
}

// Whether a byte parts words.
pub fn parts(b: u8) -> bool
    ensures { result ≡ words_parts b }
{
    b == SPACE || b == LINE_FEED
}

// How many bytes stand before the last `count`. A place is below that if more than `count` are left from it on: one test, of a number
// that is the same for every place.
pub fn before_last(bytes: &[u8], count: usize) -> usize
    ensures { result ≡ length bytes.now - count }
{
    bytes.len().saturating_sub(count)
}

// A digit's value. Digits are the most frequent, so that they are told by one test.
fn digit(byte: u8) -> Option<u64>
    ensures { result ≡ value_of byte }
{
    if byte.is_ascii_digit() {
        Some(u64::from(byte - ZERO))
    } else {
        None
    }
}

// Whether `d` as one more digit takes `n` past MAX. One test tells it of any number but those with as many digits as MAX.
fn passes(n: u64, d: u64) -> bool
    requires { d < 10 }
    ensures { result ≡ nat_lt ((MAX - d) / 10) n }
{
    if n < MAX_TENTH {
        return false;
    }
    if MAX_TENTH < n {
        return true;
    }
    MAX_LAST < d
}

// The word that begins at `at` with a zero, which is 0 itself or bad.
fn zero_here(input: &[u8], at: usize) -> Result<Word, Refusal>
    requires { (at < length input.now) × (slice_index input.now at ≡ digit0) }
    ensures { result ≡ word_here (drop at input.now) at }
{
    let next = at + 1;
    if next < input.len() && !parts(input[next]) {
        return Err(Refusal::BadWord);
    }
    Ok(Word { number: 0, next })
}

// The word that begins at `at`. How many digits it has is not counted: with no zero first, more than 20 say more than MAX.
fn word_here(input: &[u8], at: usize) -> Result<Word, Refusal>
    requires { (at < length input.now) × (words_parts (slice_index input.now at) ≡ false) }
    ensures { result ≡ word_here (drop at input.now) at }
{
    if input[at] == ZERO {
        return zero_here(input, at);
    }
    let mut number: u64 = 0;
    for next in at..input.len() {
        let Some(value) = digit(input[next]) else {
            if !parts(input[next]) {
                return Err(Refusal::BadWord);
            }
            return Ok(Word { number, next });
        };
        if passes(number, value) {
            return Err(Refusal::BadWord);
        }
        number = number * TEN + value;
    }
    Ok(Word {
        number,
        next: input.len(),
    })
}

// The next word from `at` on, or what ends the reading: WrongLength at the end of the text, BadWord at a bad word.
pub fn next_word(input: &[u8], at: usize) -> Result<Word, Refusal>
    ensures { result ≡ next_word input.now at }
{
    for i in at..input.len() {
        if !parts(input[i]) {
            return word_here(input, i);
        }
    }
    Err(Refusal::WrongLength)
}

// The same, called by the two below for a word that has not the form they look for first. A function copies what it hands on when it
// begins: as one of its own, so that only such a word pays for that.
fn other_word(input: &[u8], at: usize) -> Result<Word, Refusal>
    ensures { result ≡ next_word input.now at }
{
    next_word(input, at)
}

// The same as `next_word`, for a caller whose words are most often one digit between two parting bytes: such a word is told from three
// bytes, by code small enough to stand in the caller's loop.
pub fn next_short(input: &[u8], at: usize) -> Result<Word, Refusal>
    ensures { result ≡ next_word input.now at }
{
    if at < before_last(input, SHORT) {
        let end = at + SHORT;
        if parts(input[at]) && parts(input[end]) {
            if let Some(number) = digit(input[at + 1]) {
                return Ok(Word { number, next: end });
            }
        }
    }
    other_word(input, at)
}

// The word whose first digit, which is not 0, stands after the parting byte at `at`. If it has no more digits than are looked at
// here, there is no test of its size.
fn number_here(input: &[u8], at: usize, first: u64) -> Result<Word, Refusal>
    requires at_in_bounds { (at + 20 < length input.now) × (words_parts (slice_index input.now at) ≡ true) }
    requires first_value { (value_of (slice_index input.now (at + 1)) ≡ Some first) × (0 < first) }
    ensures { result ≡ next_word input.now at }
{
    let mut number = first;
    for next in at + SHORT..at + LONG {
        let Some(value) = digit(input[next]) else {
            if parts(input[next]) {
                return Ok(Word { number, next });
            }
            return other_word(input, at);
        };
        number = number * TEN + value;
    }
    other_word(input, at)
}

// The same as `next_word`, for a caller whose words most often follow one parting byte and are no zero: by code that stands in the
// caller and has few tests.
pub fn next_number(input: &[u8], at: usize) -> Result<Word, Refusal>
    ensures { result ≡ next_word input.now at }
{
    if at < before_last(input, LONG) {
        if parts(input[at]) {
            if let Some(first) = digit(input[at + 1]) {
                if 0 < first {
                    return number_here(input, at, first);
                }
            }
        }
    }
    other_word(input, at)
}
