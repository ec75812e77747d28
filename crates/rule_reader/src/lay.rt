// What a turn of the reader does to the rows that are being built.
ghost use Rattle.std.specs.Prelude.{◌≡◌, length};
ghost use Rattle.rule_scanner.specs.declared.turns.Turn.TheVariants as turn;
ghost use Rattle.trees.specs.Building.{arg_of};
ghost use Rattle.rule_reader.specs.Laying.{Makable, Closable, Takable, Lays, LaysRows};

use book::check::{arg_in, kind_in, lower_in, upper_in};
use book::kind::Kind;
use rule_scanner::turns::Turn;
use trees::rows::{RowWords, Spot, emit, put_row};

// How many operands there are so far, and how many rows that no other has taken yet.
#[derive(Clone, Copy)]
pub struct Laid {
    pub operands: usize,
    pub height: usize,
}

// Where a turn is taken: how many brackets are open, the number of the next row, and what is laid so far.
#[derive(Clone, Copy)]
pub struct Site {
    pub depth: usize,
    pub row: usize,
    pub laid: Laid,
}

// The arg of a row with no operands.
fn leaf_arg(word: Kind, atom: u64) -> u64
    ensures { result ≡ arg_of word atom 0 }
{
    match word {
        Kind::Atom => atom,
        _ => 0,
    }
}

// The innermost open operator becomes a row, of the rows that no other has taken since it opened.
fn close(
    site: Site,
    frames: &[u64],
    rows: &mut [u64],
    operands: &mut [u64],
    tops: &mut [u64],
) -> Laid
    requires { Closable site (length frames.now) (length rows.old) (length operands.old) (length tops.old) }
    ensures { Lays turn.Close site frames.now rows.old operands.old tops.old result frames.now rows.new operands.new tops.new }
{
    let laid = site.laid;
    let height = laid.height;
    let top = site.depth - 1;
    let base = arg_in(frames, top) as usize;
    if height < base {
        return laid;
    }
    let spot = Spot {
        row: site.row,
        base,
        height,
        operands: laid.operands,
    };
    let words = RowWords {
        kind: kind_in(frames, top),
        arg: (height - base) as u64,
        lower: lower_in(frames, top),
        upper: upper_in(frames, top),
    };
    emit(rows, operands, tops, spot, words);
    Laid {
        operands: laid.operands + (height - base),
        height: base + 1,
    }
}

// A property with no parts becomes a row.
fn lay_leaf(
    site: Site,
    word: Kind,
    atom: u64,
    rows: &mut [u64],
    operands: &mut [u64],
    tops: &mut [u64],
) -> Laid
    requires { Makable site (length rows.old) (length operands.old) (length tops.old) }
    ensures { LaysRows (turn.Leaf word atom) site rows.old operands.old tops.old result rows.new operands.new tops.new }
{
    let laid = site.laid;
    let height = laid.height;
    let spot = Spot {
        row: site.row,
        base: height,
        height,
        operands: laid.operands,
    };
    let words = RowWords {
        kind: word.word(),
        arg: leaf_arg(word, atom),
        lower: 0,
        upper: 0,
    };
    emit(rows, operands, tops, spot, words);
    Laid {
        operands: laid.operands,
        height: height + 1,
    }
}

// Does what a turn says.
pub fn lay(
    t: Turn,
    site: Site,
    frames: &mut [u64],
    rows: &mut [u64],
    operands: &mut [u64],
    tops: &mut [u64],
) -> Laid
    requires { Takable t site (length frames.old) (length rows.old) (length operands.old) (length tops.old) }
    ensures { Lays t site frames.old rows.old operands.old tops.old result frames.new rows.new operands.new tops.new }
{
    let laid = site.laid;
    match t {
        Turn::Leaf(word, atom) => lay_leaf(site, word, atom, rows, operands, tops),
        Turn::Open(word, lower, upper) => {
            let frame = RowWords {
                kind: word.word(),
                arg: laid.height as u64,
                lower,
                upper,
            };
            put_row(frames, site.depth, frame);
            laid
        }
        Turn::Close => close(site, frames, rows, operands, tops),
        Turn::Go(_) | Turn::Part | Turn::Counted(_) | Turn::Refused | Turn::Ended => laid,
    }
}
