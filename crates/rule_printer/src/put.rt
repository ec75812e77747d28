// The symbols of printed properties.
ghost use Rattle.std.specs.Prelude.{◌≡◌, [], ◌∷◌};
ghost use Rattle.rule_scanner.specs.declared.symbols.Symbol.TheVariants.{Name, Opens};
ghost use Rattle.buffer_writer.specs.Finish.{Wrote};
ghost use Rattle.trees.specs.Forest.{head_of};
ghost use Rattle.rule_scanner.specs.Writing.{upper_said, range_said, head_said, shut};
ghost use Rattle.rule_printer.specs.Printing.{word_spelled, spell, spelled};

use book::kind::Kind;
use buffer_writer::{put_bytes, put_number};
use numbers::MAX;

// Writes a word's letters.
pub fn put_word(out: &mut [u8], at: usize, w: Kind) -> usize
    ensures { Wrote out.old at (word_spelled w) out.new result }
{
    match w {
        Kind::False => put_bytes(out, at, b"false"),
        Kind::True => put_bytes(out, at, b"true"),
        Kind::Atom => put_bytes(out, at, b"a"),
        Kind::And => put_bytes(out, at, b"and"),
        Kind::Or => put_bytes(out, at, b"or"),
        Kind::Not => put_bytes(out, at, b"not"),
        Kind::Implies => put_bytes(out, at, b"implies"),
        Kind::Historically => put_bytes(out, at, b"hist"),
        Kind::Once => put_bytes(out, at, b"once"),
        Kind::Since => put_bytes(out, at, b"since"),
    }
}

// Writes an upper bound.
pub fn put_upper(out: &mut [u8], at: usize, upper: u64) -> usize
    ensures { Wrote out.old at (spell (upper_said upper)) out.new result }
{
    if upper == MAX {
        return put_bytes(out, at, b"*");
    }
    put_number(out, at, upper)
}

// Writes a range, and the bracket that opens after it.
pub fn put_range(out: &mut [u8], at: usize, lower: u64, upper: u64) -> usize
    ensures { Wrote out.old at (spelled (range_said lower upper (Opens ∷ []))) out.new result }
{
    let low = put_bytes(out, at, b"[");
    let comma = put_number(out, low, lower);
    let high = put_bytes(out, comma, b",");
    let end = put_upper(out, high, upper);
    put_bytes(out, end, b"](")
}

// Writes what a property begins with, up to its parts.
pub fn put_head(out: &mut [u8], at: usize, w: Kind, atom: u64, lower: u64, upper: u64) -> usize
    ensures { Wrote out.old at (spelled (Name w ∷ head_said (head_of w atom lower upper))) out.new result }
{
    let next = put_word(out, at, w);
    match w {
        Kind::False | Kind::True => next,
        Kind::Atom => put_number(out, next, atom),
        Kind::And | Kind::Or | Kind::Not | Kind::Implies => put_bytes(out, next, b"("),
        Kind::Historically | Kind::Once | Kind::Since => put_range(out, next, lower, upper),
    }
}

// Writes what a property ends with, after its parts.
pub fn put_shut(out: &mut [u8], at: usize, w: Kind) -> usize
    ensures { Wrote out.old at (spelled (shut w)) out.new result }
{
    match w {
        Kind::False | Kind::True | Kind::Atom => at,
        Kind::And
        | Kind::Or
        | Kind::Not
        | Kind::Implies
        | Kind::Historically
        | Kind::Once
        | Kind::Since => put_bytes(out, at, b")"),
    }
}
