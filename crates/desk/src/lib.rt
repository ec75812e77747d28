// The kit desk: kits with barcodes, scans of them, and the stop slip of a kit that was handed out with no promise. It stands above the
// library's face, the crate `oracle`. A desk is lent memory, a table of barcodes and the memory of a monitor, and is determined by what
// it holds.
#![tactic(auto)]

pub mod book_words;
pub mod given;

ghost use Rattle.std.specs.Prelude.{◌≡◌, ◌≤◌, ◌<◌, length};
ghost use Rattle.numbers.specs.Limits.{MOST_KITS};
ghost use Rattle.numbers.specs.Refusals.{refused_with};
ghost use Rattle.memory.specs.Memory.{book_of, state_of};
ghost use Rattle.memory.specs.Kept.{Kept};
ghost use Rattle.property_answers.specs.Verdict.{verdict_of};
ghost use Rattle.desk_rules.specs.Scans.{Scan, Fine};
ghost use Rattle.desk_rules.specs.Desk.{pulse, scanned_at};
ghost use Rattle.desk.specs.Kits.{kits_in};
ghost use Rattle.desk.specs.Counted.{pulse_calls, calls_at};
ghost use Rattle.desk.specs.Standing.{TABLE_SIZE, table_of, Stands, Opens, Leaves, slip_for, kit_count, Scans};
ghost use Rattle.desk.specs.Private.{SetUp, Ready};

use book_words::{MOST_BOOK_WORDS, put_book};
use given::{KIT_BARCODES, MOST_BARCODES, MOST_KIT_WORDS, judge, place_of, put_barcodes};
use numbers::Refusal;
use oracle::{Answer, SIZE, Verdict, load_strict, of_property, update_stamped, update_state};

// The words of the table: how many barcodes there are, and they.
pub const TABLE_SIZE: usize = MOST_BARCODES + 1;

const COUNT: usize = 0;

const BARCODES: usize = 1;

// What a scan hands back: why it is refused, if it is, and the kit whose stop slip prints at it, if one does.
#[derive(Clone, Copy)]
pub struct Scanned {
    pub outcome: Result<(), Refusal>,
    pub slip: Option<usize>,
}

// The table of the first kits' barcodes, whatever stood there before.
fn put_table(kits: &[u64; MOST_KIT_WORDS], count: usize, table: &mut [u64])
    requires { (count ≤ MOST_KITS) × (length table.old ≡ TABLE_SIZE) }
    ensures { table.new ≡ table_of (kits_in kits.now count) }
{
    table.fill(0);
    table[COUNT] = (KIT_BARCODES * count) as u64;
    put_barcodes(kits, count, table, BARCODES);
}

// The monitor of the first kits' book, whatever stood there before.
fn load_book(kits: &[u64; MOST_KIT_WORDS], count: usize, monitor: &mut [u64; SIZE])
    requires fine { Fine (kits_in kits.now count) }
    requires count_bound { count ≤ MOST_KITS }
    ensures { SetUp (kits_in kits.now count) monitor.new }
{
    let mut words = [0; MOST_BOOK_WORDS];
    let end = put_book(kits, count, &mut words);
    // No book of such kits is refused.
    let _ = load_strict(&words[..end], monitor);
}

// Opens a desk of the first kits, so many of them, whatever stood in its memory before. A refused desk is one of no kit.
pub fn open(
    kits: &[u64; MOST_KIT_WORDS],
    count: usize,
    table: &mut [u64; TABLE_SIZE],
    monitor: &mut [u64; SIZE],
) -> Result<(), Refusal>
    ensures { Opens (kits_in kits.now count) table.new monitor.new (refused_with result) }
{
    let judged = judge(kits, count);
    let taken = if judged.is_ok() { count } else { 0 };
    put_table(kits, taken, table);
    load_book(kits, taken, monitor);
    judged
}

// An atom goes on at a time, and after it, at the same clock, all are off: no promise is seen again later.
fn on_and_off(
    monitor: &mut [u64; SIZE],
    time: u64,
    width: usize,
    place: usize,
) -> Result<(), Refusal>
    requires ready { Ready monitor.old time width place }
    requires place_lt_width { place < width }
    ensures { Leaves (pulse (book_of monitor.old).rows width (state_of monitor.old) time place) (pulse_calls (book_of monitor.old).rows width (state_of monitor.old) time place) monitor.old monitor.new (refused_with result) }
{
    let mut on = [0u8; MOST_BARCODES];
    on[place] = 1;
    update_stamped(monitor, time, &on[..width]).outcome?;
    let off = [0u8; MOST_BARCODES];
    update_state(monitor, &off[..width]).outcome
}

// A scan of the barcode at a place among so many, or of none of them.
fn scan_at(monitor: &mut [u64; SIZE], time: u64, width: usize, place: usize) -> Result<(), Refusal>
    requires { Ready monitor.old time width place }
    ensures { Leaves (scanned_at (book_of monitor.old).rows width (state_of monitor.old) time place) (calls_at (book_of monitor.old).rows width (state_of monitor.old) time place) monitor.old monitor.new (refused_with result) }
{
    if place < width {
        on_and_off(monitor, time, width, place)
    } else {
        Err(Refusal::UnknownBarcode)
    }
}

// The slip of a kit whose settled answer was `before` and is `after`.
#[tactic(auto, unfolding(crate::specs::Standing::slip_for))]
fn slip_for(kit: usize, before: Answer, after: Answer) -> Option<usize>
    ensures { result ≡ slip_for kit before after }
{
    if before != Answer::False && after == Answer::False {
        Some(kit)
    } else {
        None
    }
}

// A scan: the barcode's atom goes on and off, whole or not at all. A barcode of no kit changes nothing; a time that is refused changes
// nothing but the number of the monitor's calls.
pub fn scan(
    time: u64,
    barcode: u64,
    table: &[u64; TABLE_SIZE],
    monitor: &mut [u64; SIZE],
) -> Scanned
    requires { Stands table.now monitor.old }
    ensures { Scans (record { hour = time; barcode = barcode }) table.now monitor.old monitor.new result }
{
    let width = table[COUNT] as usize;
    let place = place_of(barcode, lists::part_of(table, BARCODES, width));
    let kit = place / KIT_BARCODES;
    let before = of_property(monitor, kit).settled;
    let outcome = scan_at(monitor, time, width, place);
    let after = of_property(monitor, kit).settled;
    Scanned {
        outcome,
        slip: slip_for(kit, before, after),
    }
}

// How many kits a desk has.
pub fn kit_count(table: &[u64; TABLE_SIZE]) -> usize
    ensures { result ≡ kit_count table.now }
{
    table[COUNT] as usize / KIT_BARCODES
}

// The answers of a kit.
pub fn of_kit(monitor: &[u64; SIZE], kit: usize) -> Verdict
    requires { Kept monitor.now }
    ensures { result ≡ verdict_of monitor.now kit }
{
    of_property(monitor, kit)
}
