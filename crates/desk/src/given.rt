// Kits as they are given, in words, and what is wrong with them.
ghost use Rattle.std.specs.Prelude.{◌≡◌, ◌+◌, ◌*◌, ◌≤◌, ◌<◌, ◌==◌, length, get_or, position, ltb};
ghost use Rattle.std.proofs.lemmas.List.Edits.{sets};
ghost use Rattle.numbers.specs.Limits.{LAST_TIME, MOST_KITS};
ghost use Rattle.numbers.specs.Refusals.{refused_with};
ghost use Rattle.pmtl.specs.Book.{some};
ghost use Rattle.desk_rules.specs.Scans.{codes, windows, repeats, open_number};
ghost use Rattle.desk_rules.specs.Rows.{KIT_ATOMS};
ghost use Rattle.desk_rules.specs.Desk.{place_of};
ghost use Rattle.desk.specs.Kits.{KIT_WORDS, kits_in};

use numbers::{LAST_TIME, MOST_KITS, Refusal};

// A kit's words: its promise, handout and return barcode, and its window.
pub const KIT_WORDS: usize = 4;

const WINDOW: usize = 3;

// The most words of kits. Kits stay lent words and a count: `open` promises what it does of every count of such words (`kits_in`).
pub const MOST_KIT_WORDS: usize = KIT_WORDS * MOST_KITS;

// How many barcodes a kit has, and the most that a desk has.
pub const KIT_BARCODES: usize = 3;

pub const MOST_BARCODES: usize = KIT_BARCODES * MOST_KITS;

// The first place of a barcode among others.
fn first_place(barcode: u64, barcodes: &[u64]) -> Option<usize>
    ensures { result ≡ position (λ x. x == barcode) barcodes.now }
{
    barcodes.iter().position(|other| *other == barcode)
}

// Where a barcode stands among others; after them if it is none of them.
pub fn place_of(barcode: u64, barcodes: &[u64]) -> usize
    ensures { result ≡ place_of barcode barcodes.now }
{
    first_place(barcode, barcodes).unwrap_or(barcodes.len())
}

// Whether one of them is given twice.
fn repeated(barcodes: &[u64]) -> bool
    ensures { result ≡ repeats barcodes.now }
{
    for i in 0..barcodes.len() {
        if barcodes[i + 1..].contains(&barcodes[i]) {
            return true;
        }
    }
    false
}

// The barcodes of the first kits, so many of them, from a place on.
pub fn put_barcodes(kits: &[u64; MOST_KIT_WORDS], count: usize, words: &mut [u64], at: usize)
    requires { (count ≤ MOST_KITS) × (at + KIT_ATOMS * count ≤ length words.old) }
    ensures { words.new ≡ sets words.old at (codes (kits_in kits.now count)) }
{
    for k in 0..count {
        let barcodes = &kits[KIT_WORDS * k..KIT_WORDS * k + KIT_BARCODES];
        lists::copy(barcodes, words, at + KIT_BARCODES * k);
    }
}

// Whether the first kits have a barcode twice.
fn any_repeated(kits: &[u64; MOST_KIT_WORDS], count: usize) -> bool
    requires { count ≤ MOST_KITS }
    ensures { result ≡ repeats (codes (kits_in kits.now count)) }
{
    let mut barcodes = [0; MOST_BARCODES];
    put_barcodes(kits, count, &mut barcodes, 0);
    repeated(&barcodes[..KIT_BARCODES * count])
}

// A kit's window.
pub fn window_at(kits: &[u64; MOST_KIT_WORDS], k: usize) -> u64
    requires { k < MOST_KITS }
    ensures { result ≡ get_or kits.now (KIT_WORDS * k + 3) 0 }
{
    kits[KIT_WORDS * k + WINDOW]
}

// Whether a window of the first kits is too long.
fn any_too_long(kits: &[u64; MOST_KIT_WORDS], count: usize) -> bool
    requires { count ≤ MOST_KITS }
    ensures { result ≡ some (ltb LAST_TIME) (windows (kits_in kits.now count)) }
{
    for k in 0..count {
        if LAST_TIME < window_at(kits, k) {
            return true;
        }
    }
    false
}

// What is wrong with kits that are neither none nor too many: a barcode given twice, before a window that is too long.
fn judge_few(kits: &[u64; MOST_KIT_WORDS], count: usize) -> Result<(), Refusal>
    requires { (0 < count) × (count ≤ MOST_KITS) }
    ensures { refused_with result ≡ open_number (kits_in kits.now count) }
{
    if any_repeated(kits, count) {
        Err(Refusal::WrongKits)
    } else if any_too_long(kits, count) {
        Err(Refusal::WindowTooLong)
    } else {
        Ok(())
    }
}

// What is wrong with a desk of the first kits.
pub fn judge(kits: &[u64; MOST_KIT_WORDS], count: usize) -> Result<(), Refusal>
    ensures { refused_with result ≡ open_number (kits_in kits.now count) }
{
    if count == 0 || MOST_KITS < count {
        Err(Refusal::WrongKits)
    } else {
        judge_few(kits, count)
    }
}
