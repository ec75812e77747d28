// The rows, the operands and the properties' rows of a text, built as it is read.
ghost use Rattle.std.specs.Prelude.{length};
ghost use Rattle.rule_reader.specs.Laying.{Buildable, Built};

use crate::lay::{Laid, Site, lay};
use rule_scanner::scan::{Pass, ends, form_at, refuses, start, taken};
use rule_scanner::symbols::{Found, Symbol, next_symbol};
use rule_scanner::turns::{Form, Mode, Turn, turned};

// Builds what a text says that has few enough rows, and answers with how many operands there are. It is known by then
// that the text is written as it should be and how many rows it has, so nothing is asked about room. The loop is
// not that of `scan_text` with a closure in it, whose contract would have to say both.
pub fn make(
    input: &[u8],
    forms: &mut [u8],
    frames: &mut [u64],
    rows: &mut [u64],
    operands: &mut [u64],
    tops: &mut [u64],
) -> usize
    requires { Buildable input.now (length forms.old) (length frames.old) (length rows.old) (length operands.old) (length tops.old) }
    ensures { Built input.now result rows.new operands.new tops.new }
{
    let mut p = start();
    let mut laid = Laid {
        operands: 0,
        height: 0,
    };
    let mut at = 0;
    loop {
        let found = next_symbol(input, at);
        let t = turned(p.mode, form_at(forms, p.depth), found.symbol);
        if refuses(t, p.depth) {
            return 0;
        }
        if ends(t) {
            return laid.operands;
        }
        let site = Site {
            depth: p.depth,
            row: p.past + p.rows,
            laid,
        };
        laid = lay(t, site, frames, rows, operands, tops);
        p = taken(t, p, forms);
        at = found.next;
    }
}
