// Numbers in decimal digits.
ghost use Rattle.std.specs.Prelude.{◌≡◌, ◌+◌, ◌-◌, ◌<◌, length, nat_lt};
ghost use Rattle.numbers.specs.Limits.{MAX};
ghost use Rattle.text.specs.Words.{digit0};
ghost use Rattle.text.specs.Decimals.{decimal as decimals_decimal, shown, lastly, Counted, LastOf};

const ZERO: u8 = b'0';

const NINE: u8 = b'9';

const TEN: u64 = 10;

// No number of 64 bits has more digits.
pub const MOST_DIGITS: usize = 20;

// The place of the last digit in a scratch for all of them, and of the one before it.
const LAST: usize = MOST_DIGITS - 1;

const TENS: usize = MOST_DIGITS - 2;

// The byte of a digit.
fn glyph(d: u64) -> u8
    requires { d < 10 }
    ensures { result ≡ digit0 + d }
{
    ZERO + d as u8
}

// How many digits `n` has. What is left of `n` ends the loop: a `for` would count to a limit that is never met.
fn places(n: u64) -> usize
    ensures { result ≡ length (decimals_decimal n) }
{
    let mut count = 1;
    let mut rest = n / TEN;
    while 0 < rest {
        rest /= TEN;
        count += 1;
    }
    count
}

// Whether `size` bytes are too few for the digits of `n`. They are counted only where their number can matter.
fn too_few(size: usize, n: u64) -> bool
    ensures { result ≡ nat_lt size (length (decimals_decimal n)) }
{
    if MOST_DIGITS <= size {
        return false;
    }
    size < places(n)
}

// Writes the digits of `n` as the last bytes of `scratch`, where they fit, and answers where they begin; the length of
// `scratch` where they do not. The number ends the loop and not the scratch: a `for` over its places would want an answer after it
// that is never given.
pub fn write_last(n: u64, scratch: &mut [u8]) -> usize
    ensures { (result ≡ length scratch.old - length (shown n (length scratch.old))) × (scratch.new ≡ lastly n scratch.old) }
{
    let size = scratch.len();
    if too_few(size, n) {
        return size;
    }
    let mut i = size;
    let mut rest = n;
    loop {
        i -= 1;
        scratch[i] = glyph(rest % TEN);
        rest = rest / TEN;
        if rest == 0 {
            return i;
        }
    }
}

// The digits of `n` end `scratch`, from `first` on: writes those of the next number in their place, and answers where they
// begin. Nine times in ten the last digit alone is another, and of the rest nine times in ten the last two.
pub fn count_up(n: u64, scratch: &mut [u8], first: usize) -> usize
    requires { Counted n scratch.old first × (n < MAX) }
    ensures { Counted (n + 1) scratch.new result }
{
    if scratch[LAST] < NINE {
        scratch[LAST] += 1;
        return first;
    }
    if first < LAST && scratch[TENS] < NINE {
        scratch[TENS] += 1;
        scratch[LAST] = ZERO;
        return first;
    }
    write_last(n + 1, scratch)
}

// The digits of `n`, as the last part of `scratch`; an empty part where they do not fit.
pub fn decimal(n: u64, scratch: &mut [u8]) -> &mut [u8]
    ensures { (result.now ≡ shown n (length scratch.old)) × LastOf scratch.entry result }
{
    let at = write_last(n, scratch);
    &mut scratch[at..]
}
