// Whether a text is written as properties are, with fixed room: a byte for each open bracket.
ghost use Rattle.std.specs.Prelude.{◌≡◌, false, ◌+◌, ◌≤◌, ◌<◌, length};
ghost use Rattle.numbers.specs.Limits.{LONGEST_INPUT};
ghost use Rattle.rule_scanner.specs.Reading.{read_text, first_mode};
ghost use Rattle.rule_scanner.specs.Scanning.{form_byte, byte_form, form_top, refuses as scanning_refuses, ends as scanning_ends, start_pass, between_pass, completed_pass, Steps, scanned};

use crate::symbols::{Found, Symbol, next_symbol};
use crate::turns::{Form, Mode, Turn, form_of, parted, turned};
use book::kind::Kind;

// How far a reader is: what is wanted, how many brackets are open, whether the guarantees are being read, how many
// properties of the section are still to come, its rows and properties so far, and those of the section before.
#[derive(Clone, Copy)]
pub struct Pass {
    pub mode: Mode,
    pub depth: usize,
    pub second: bool,
    pub left: u64,
    pub rows: usize,
    pub here: usize,
    pub past: usize,
    pub before: usize,
}

// How many rows, assumes and guarantees a text has.
#[derive(Clone, Copy)]
pub struct Extent {
    pub rows: usize,
    pub assumes: usize,
    pub guarantees: usize,
}

// What an operator still takes, as a byte, and back. Bytes stay, since `scan_text` takes any bytes to work in.
fn form_byte(f: Form) -> u8
    ensures { result ≡ form_byte f }
{
    match f {
        Form::Many => 0,
        Form::One => 1,
        Form::Two => 2,
    }
}

fn byte_form(b: u8) -> Form
    ensures { result ≡ byte_form b }
{
    match b {
        0 => Form::Many,
        1 => Form::One,
        _ => Form::Two,
    }
}

// What the innermost open operator still takes.
pub fn form_at(forms: &[u8], depth: usize) -> Form
    requires { depth ≤ length forms.now }
    ensures { result ≡ form_top forms.now depth }
{
    if depth == 0 {
        return Form::One;
    }
    byte_form(forms[depth - 1])
}

fn first_mode(f: Form) -> Mode
    ensures { result ≡ first_mode f }
{
    match f {
        Form::Many => Mode::First,
        Form::One | Form::Two => Mode::Begin,
    }
}

// Whether a turn refuses its symbol, where so many brackets are open; whether it ends the text.
pub fn refuses(t: Turn, depth: usize) -> bool
    ensures { result ≡ scanning_refuses t depth }
{
    match t {
        Turn::Refused => true,
        Turn::Part | Turn::Close => depth == 0,
        Turn::Ended => depth != 0,
        Turn::Go(_) | Turn::Leaf(_, _) | Turn::Open(_, _, _) | Turn::Counted(_) => false,
    }
}

pub fn ends(t: Turn) -> bool
    ensures { result ≡ scanning_ends t }
{
    matches!(t, Turn::Ended)
}

// Before the first symbol.
pub fn start() -> Pass
    ensures { result ≡ start_pass }
{
    Pass {
        mode: Mode::Count,
        depth: 0,
        second: false,
        left: 0,
        rows: 0,
        here: 0,
        past: 0,
        before: 0,
    }
}

// Between two properties of a file: after the assumes the guarantees' count is wanted, after these the end.
fn between(p: Pass) -> Pass
    ensures { result ≡ between_pass p.second p.left p.rows p.here p.past p.before }
{
    if p.left != 0 {
        return Pass {
            mode: Mode::Begin,
            depth: 0,
            ..p
        };
    }
    if p.second {
        return Pass {
            mode: Mode::Over,
            depth: 0,
            ..p
        };
    }
    Pass {
        second: true,
        past: p.rows,
        before: p.here,
        ..start()
    }
}

// A property is complete, where so many brackets are open around it.
fn completed(p: Pass, depth: usize) -> Pass
    requires { (p.rows < LONGEST_INPUT) × (p.here < LONGEST_INPUT) }
    ensures { result ≡ completed_pass p depth }
{
    let rows = p.rows + 1;
    if depth == 0 {
        return between(Pass {
            left: p.left.saturating_sub(1),
            rows,
            here: p.here + 1,
            ..p
        });
    }
    Pass {
        mode: Mode::After,
        depth,
        rows,
        ..p
    }
}

// Does what a turn says.
pub fn taken(t: Turn, p: Pass, forms: &mut [u8]) -> Pass
    requires { (p.depth < length forms.old) × (p.rows < LONGEST_INPUT) × (p.here < LONGEST_INPUT) × (scanning_refuses t p.depth ≡ false) }
    ensures { Steps t p forms.old result forms.new }
{
    match t {
        Turn::Go(mode) => Pass { mode, ..p },
        Turn::Leaf(_, _) => completed(p, p.depth),
        Turn::Open(word, _, _) => {
            let form = form_of(word);
            forms[p.depth] = form_byte(form);
            Pass {
                mode: first_mode(form),
                depth: p.depth + 1,
                ..p
            }
        }
        Turn::Part => {
            let top = p.depth - 1;
            forms[top] = form_byte(parted(byte_form(forms[top])));
            Pass {
                mode: Mode::Begin,
                ..p
            }
        }
        Turn::Close => completed(p, p.depth - 1),
        Turn::Counted(left) => between(Pass {
            left,
            rows: 0,
            here: 0,
            ..p
        }),
        Turn::Refused | Turn::Ended => p,
    }
}

// How many rows, assumes and guarantees a text has that is written as properties are; or the place of the first symbol
// that cannot stand there. It stays a `loop`: only the symbols tell where the text ends.
pub fn scan_text(input: &[u8], forms: &mut [u8]) -> Result<Extent, usize>
    requires { (length input.now ≤ LONGEST_INPUT) × (length input.now ≤ length forms.old) }
    ensures { result ≡ scanned (read_text input.now) }
{
    let mut p = start();
    let mut at = 0;
    loop {
        let found = next_symbol(input, at);
        let t = turned(p.mode, form_at(forms, p.depth), found.symbol);
        if refuses(t, p.depth) {
            return Err(found.at);
        }
        if ends(t) {
            return Ok(Extent {
                rows: p.past + p.rows,
                assumes: p.before,
                guarantees: p.here,
            });
        }
        p = taken(t, p, forms);
        at = found.next;
    }
}
