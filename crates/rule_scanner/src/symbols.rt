// The symbols of a written text.
ghost use Rattle.std.specs.Prelude.{◌≡◌, true, [], ◌+◌, ◌-◌, ◌≤◌, ◌<◌, length, get_or, take, drop, eqb, not, position};
ghost use Rattle.text.specs.Words.{all_digits};
ghost use Rattle.rule_scanner.specs.Symbols.{class_of, run_of, name_of, number_of, mark_of};
ghost use Rattle.rule_scanner.specs.Classes.{class_number};
ghost use Rattle.rule_scanner.specs.Steps.{Next};

use book::kind::Kind;

// What a byte is to a symbol.
#[derive(Clone, Copy, Debug, PartialEq, Eq)]
enum Class {
    Blank,
    Letter,
    Digit,
    Other,
}

// A symbol. `Bad` is one that can stand nowhere, `End` the end of the text.
#[derive(Clone, Copy)]
pub enum Symbol {
    Name(Kind),
    Number(u64),
    Left,
    Right,
    Opens,
    Closes,
    Comma,
    Star,
    Bad,
    End,
}

// A symbol that was found: where it begins, and the place after it.
#[derive(Clone, Copy)]
pub struct Found {
    pub symbol: Symbol,
    pub at: usize,
    pub next: usize,
}

// What a byte is to a symbol.
#[tactic(auto, using(crate::proofs::Scanning::letter_is, crate::proofs::Scanning::digit_is), unfolding(crate::specs::Symbols::class_of, text::specs::Words::pick))]
fn class_of(b: u8) -> Class
    ensures { class_number result ≡ class_of b }
{
    if text::parts(b) {
        Class::Blank
    } else if b.is_ascii_alphabetic() {
        Class::Letter
    } else if b.is_ascii_digit() {
        Class::Digit
    } else {
        Class::Other
    }
}

// Whether a byte has a class: by that class's own test alone.
#[tactic(auto, using(crate::proofs::Scanning::letter_is, crate::proofs::Scanning::digit_is), unfolding(crate::specs::Symbols::class_of, crate::specs::Symbols::letter, text::specs::Words::parts, text::specs::Words::digit, text::specs::Words::pick))]
fn has_class(b: u8, class: Class) -> bool
    ensures { result ≡ eqb (class_of b) (class_number class) }
{
    match class {
        Class::Blank => text::parts(b),
        Class::Letter => b.is_ascii_alphabetic(),
        Class::Digit => b.is_ascii_digit(),
        Class::Other => class_of(b) == Class::Other,
    }
}

// Where the first byte of another class stands.
fn first_other(bytes: &[u8], class: Class) -> Option<usize>
    ensures { result ≡ position (λ b. not (eqb (class_of b) (class_number class))) bytes.now }
{
    bytes.iter().position(|b| !has_class(*b, class))
}

// Where a run of bytes of a class ends.
fn run_end(input: &[u8], at: usize, class: Class) -> usize
    requires { at ≤ length input.now }
    ensures { (result ≡ at + length (run_of (class_number class) (drop at input.now))) × (result ≤ length input.now) }
{
    match first_other(&input[at..], class) {
        Some(run) => at + run,
        None => input.len(),
    }
}

// What a run of letters is.
#[tactic(auto, using(crate::proofs::Scanning::same_is), unfolding(crate::specs::Symbols::name_of, text::specs::Words::pick))]
fn name_of(w: &[u8]) -> Symbol
    ensures { result ≡ name_of w.now }
{
    if w == b"false".as_slice() {
        Symbol::Name(Kind::False)
    } else if w == b"true".as_slice() {
        Symbol::Name(Kind::True)
    } else if w == b"a".as_slice() {
        Symbol::Name(Kind::Atom)
    } else if w == b"and".as_slice() {
        Symbol::Name(Kind::And)
    } else if w == b"or".as_slice() {
        Symbol::Name(Kind::Or)
    } else if w == b"not".as_slice() {
        Symbol::Name(Kind::Not)
    } else if w == b"implies".as_slice() {
        Symbol::Name(Kind::Implies)
    } else if w == b"hist".as_slice() {
        Symbol::Name(Kind::Historically)
    } else if w == b"once".as_slice() {
        Symbol::Name(Kind::Once)
    } else if w == b"since".as_slice() {
        Symbol::Name(Kind::Since)
    } else {
        Symbol::Bad
    }
}

// What a run of digits is: a word of 01's text that stands alone.
fn number_of(w: &[u8]) -> Symbol
    requires { (0 < length w.now) × (all_digits w.now ≡ true) }
    ensures { result ≡ number_of w.now }
{
    match text::next_word(w, 0) {
        Ok(word) => Symbol::Number(word.number),
        Err(_) => Symbol::Bad,
    }
}

// What another byte is.
#[tactic(auto, unfolding(crate::specs::Symbols::mark_of, text::specs::Words::pick))]
fn mark_of(b: u8) -> Symbol
    ensures { result ≡ mark_of b }
{
    match b {
        b'[' => Symbol::Left,
        b']' => Symbol::Right,
        b'(' => Symbol::Opens,
        b')' => Symbol::Closes,
        b',' => Symbol::Comma,
        b'*' => Symbol::Star,
        _ => Symbol::Bad,
    }
}

// The symbol that begins at a place where there is no blank.
fn symbol_here(input: &[u8], at: usize) -> Found
    requires { (at < length input.now) × (0 < class_of (get_or input.now at 0)) }
    ensures { Next input.now at result.symbol result.at result.next }
{
    match class_of(input[at]) {
        Class::Letter => {
            let next = run_end(input, at, Class::Letter);
            Found {
                symbol: name_of(&input[at..next]),
                at,
                next,
            }
        }
        Class::Digit => {
            let next = run_end(input, at, Class::Digit);
            Found {
                symbol: number_of(&input[at..next]),
                at,
                next,
            }
        }
        Class::Blank | Class::Other => Found {
            symbol: mark_of(input[at]),
            at,
            next: at + 1,
        },
    }
}

// The next symbol from a place on.
pub fn next_symbol(input: &[u8], from: usize) -> Found
    requires { from ≤ length input.now }
    ensures { Next input.now from result.symbol result.at result.next }
{
    let at = run_end(input, from, Class::Blank);
    if at < input.len() {
        return symbol_here(input, at);
    }
    Found {
        symbol: Symbol::End,
        at,
        next: at,
    }
}
