// The words of a desk's book: one guarantee for each kit.
ghost use Rattle.std.specs.Prelude.{◌≡◌, ◌+◌, ◌*◌, ◌≤◌, ◌<◌, length};
ghost use Rattle.std.proofs.lemmas.List.Edits.{sets};
ghost use Rattle.numbers.specs.Limits.{MOST_KITS};
ghost use Rattle.desk_rules.specs.Scans.{windows};
ghost use Rattle.desk_rules.specs.Rows.{KIT_OPERANDS, guarantees_from};
ghost use Rattle.desk_rules.specs.BookWords.{kit_words, kit_operands, row_words_from, operands_from, rows_section, operands_section, property_sections};
ghost use Rattle.desk.specs.Kits.{kits_in};
ghost use Rattle.desk.specs.Private.{KIT_ROW_WORDS, MOST_BOOK_WORDS, BookPut};

use crate::given::{KIT_BARCODES, MOST_KIT_WORDS, window_at};
use book::kind::Kind;
use numbers::{MAX, MOST_KITS, ROW_WORDS};

// How many rows a kit has, and operands, and words of rows.
const KIT_ROWS: usize = 7;

const KIT_OPERANDS: usize = 6;

const KIT_ROW_WORDS: usize = ROW_WORDS * KIT_ROWS;

// The row of a kit that is its guarantee.
const GUARANTEE: usize = 6;

// The most words of a book: those of the rows, the operands and the guarantee of each kit, and four counts.
pub const MOST_BOOK_WORDS: usize = (KIT_ROW_WORDS + KIT_OPERANDS + 1) * MOST_KITS + 4;

// The rows of hist[0,*](implies(handout, since[0,window](not(return), promise))) for kit k: kind, arg, lower and upper of each.
fn kit_words(k: usize, window: u64) -> [u64; KIT_ROW_WORDS]
    requires { k < MOST_KITS }
    ensures { result ≡ kit_words k window }
{
    let promise = (KIT_BARCODES * k) as u64;
    let handout = promise + 1;
    let returned = promise + 2;
    [
        Kind::Atom as u64,
        handout,
        0,
        0,
        Kind::Atom as u64,
        returned,
        0,
        0,
        Kind::Not as u64,
        1,
        0,
        0,
        Kind::Atom as u64,
        promise,
        0,
        0,
        Kind::Since as u64,
        2,
        0,
        window,
        Kind::Implies as u64,
        2,
        0,
        0,
        Kind::Historically as u64,
        1,
        0,
        MAX,
    ]
}

// The rows of the first kits, so many of them, from a place on.
fn put_rows(kits: &[u64; MOST_KIT_WORDS], count: usize, words: &mut [u64], at: usize)
    requires { (count ≤ MOST_KITS) × (at + KIT_ROW_WORDS * count ≤ length words.old) }
    ensures { words.new ≡ sets words.old at (row_words_from 0 (windows (kits_in kits.now count))) }
{
    for k in 0..count {
        let rows = kit_words(k, window_at(kits, k));
        lists::copy(&rows, words, at + KIT_ROW_WORDS * k);
    }
}

// The operands of kit k.
fn kit_operands(k: usize) -> [u64; KIT_OPERANDS]
    requires { k < MOST_KITS }
    ensures { result ≡ kit_operands k }
{
    let first = (KIT_ROWS * k) as u64;
    [first + 1, first + 2, first + 3, first, first + 4, first + 5]
}

// The operands of so many kits, from a place on.
fn put_operands(count: usize, words: &mut [u64], at: usize)
    requires { (count ≤ MOST_KITS) × (at + KIT_OPERANDS * count ≤ length words.old) }
    ensures { words.new ≡ sets words.old at (operands_from 0 count) }
{
    for k in 0..count {
        lists::copy(&kit_operands(k), words, at + KIT_OPERANDS * k);
    }
}

// The guarantees of so many kits, from a place on.
fn put_guarantees(count: usize, words: &mut [u64], at: usize)
    requires { (count ≤ MOST_KITS) × (at + count ≤ length words.old) }
    ensures { words.new ≡ sets words.old at (guarantees_from 0 count) }
{
    for k in 0..count {
        words[at + k] = (KIT_ROWS * k + GUARANTEE) as u64;
    }
}

// The section of rows: their count, and they.
fn put_rows_section(kits: &[u64; MOST_KIT_WORDS], count: usize, words: &mut [u64])
    requires { (count ≤ MOST_KITS) × (KIT_ROW_WORDS * count + 1 ≤ length words.old) }
    ensures { words.new ≡ sets words.old 0 (rows_section (windows (kits_in kits.now count))) }
{
    words[0] = (KIT_ROWS * count) as u64;
    put_rows(kits, count, words, 1);
}

// The section of operands, from a place on.
fn put_operands_section(count: usize, words: &mut [u64], at: usize)
    requires { (count ≤ MOST_KITS) × (at + KIT_OPERANDS * count + 1 ≤ length words.old) }
    ensures { words.new ≡ sets words.old at (operands_section count) }
{
    words[at] = (KIT_OPERANDS * count) as u64;
    put_operands(count, words, at + 1);
}

// No assumes, and the section of guarantees, from a place on.
fn put_properties(count: usize, words: &mut [u64], at: usize)
    requires { (count ≤ MOST_KITS) × (at + count + 2 ≤ length words.old) }
    ensures { words.new ≡ sets words.old at (property_sections count) }
{
    words[at] = 0;
    words[at + 1] = count as u64;
    put_guarantees(count, words, at + 2);
}

// The words of the book of a desk of the first kits; answers with how many there are.
pub fn put_book(kits: &[u64; MOST_KIT_WORDS], count: usize, words: &mut [u64]) -> usize
    requires { (count ≤ MOST_KITS) × (MOST_BOOK_WORDS ≤ length words.old) }
    ensures { BookPut (windows (kits_in kits.now count)) words.new result }
{
    let operands = KIT_ROW_WORDS * count + 1;
    let properties = operands + KIT_OPERANDS * count + 1;
    put_rows_section(kits, count, words);
    put_operands_section(count, words, operands);
    put_properties(count, words, properties);
    properties + count + 2
}
