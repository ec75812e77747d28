// A report, written from its start into a lent buffer.
#![tactic(auto)]

ghost use Rattle.std.specs.Prelude.{◌≡◌, [], ◌++◌, ◌+◌, ◌≤◌, leb, length, replicate};
ghost use Rattle.std.proofs.lemmas.List.Edits.{sets};
ghost use Rattle.text.specs.Decimals.{decimal as decimals_decimal};
ghost use Rattle.buffer_writer.specs.Buffer.{handed};
ghost use Rattle.buffer_writer.specs.Finish.{finish, Wrote, Laid};

use numbers::MAX;
use text::MOST_DIGITS;

// The place of a report that does not fit. The number for it is MAX, too.
pub const FULL: usize = MAX as usize;

// The first number of two digits, and the byte of the digit 0.
const TEN: u64 = 10;

const ZERO: u8 = b'0';

// Whether `count` bytes fit from a place on.
pub fn has_room(out: &[u8], at: usize, count: usize) -> bool
    ensures { result ≡ leb (at + count) (length out.now) }
{
    at <= out.len() && count <= out.len() - at
}

// Writes bytes where there is room for them. A loop and no `copy_from_slice`: of the word of a property, which is four bytes, the compiler
// makes one store by it, and eight instructions more by the other (docs/SPEED.md).
pub fn copy_to(out: &mut [u8], at: usize, bytes: &[u8])
    requires { at + length bytes.now ≤ length out.old }
    ensures { out.new ≡ sets out.old at bytes.now }
{
    for i in 0..bytes.len() {
        out[at + i] = bytes[i];
    }
}

// The same, and answers with the place after them.
pub fn lay_bytes(out: &mut [u8], at: usize, bytes: &[u8]) -> usize
    requires { at + length bytes.now ≤ length out.old }
    ensures { Laid out.old at bytes.now out.new result }
{
    copy_to(out, at, bytes);
    at + bytes.len()
}

// Writes the digits of a number where there is room for the most that one has. A number of one digit needs no scratch.
pub fn lay_number(out: &mut [u8], at: usize, n: u64) -> usize
    requires { at + 20 ≤ length out.old }
    ensures { Laid out.old at (decimals_decimal n) out.new result × (result ≤ at + 20) }
{
    if n < TEN {
        let digit = [ZERO + n as u8];
        return lay_bytes(out, at, &digit);
    }
    let mut scratch = [0u8; MOST_DIGITS];
    let digits = text::decimal(n, &mut scratch);
    lay_bytes(out, at, digits)
}

// Writes bytes at a place, and answers with the place after them.
pub fn put_bytes(out: &mut [u8], at: usize, bytes: &[u8]) -> usize
    ensures { Wrote out.old at bytes.now out.new result }
{
    if has_room(out, at, bytes.len()) {
        return lay_bytes(out, at, bytes);
    }
    FULL
}

// Writes the digits of a number.
pub fn put_number(out: &mut [u8], at: usize, n: u64) -> usize
    ensures { Wrote out.old at (decimals_decimal n) out.new result }
{
    if has_room(out, at, MOST_DIGITS) {
        return lay_number(out, at, n);
    }
    let mut scratch = [0u8; MOST_DIGITS];
    let digits = text::decimal(n, &mut scratch);
    put_bytes(out, at, digits)
}

// Writes a word, and the digits of a number after it.
pub fn put_numbered(out: &mut [u8], at: usize, word: &[u8], number: u64) -> usize
    ensures { Wrote out.old at (word.now ++ decimals_decimal number) out.new result }
{
    let a = put_bytes(out, at, word);
    put_number(out, a, number)
}

// The end of a report: its length, or zeros and MAX where it does not fit.
pub fn finished(out: &mut [u8], at: usize) -> u64
    ensures { handed result out.new ≡ finish out.old at [] }
{
    if out.len() < at {
        out.fill(0);
        return MAX;
    }
    at as u64
}
