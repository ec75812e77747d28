// Opens desks and scans at them. A desk has a line with the number that it was opened with; a scan has a line with its time and barcode,
// its number and, for each kit, value, early and settled, of which 2 is open. Where a stop slip prints, its kit follows.
#![tactic(auto)]

ghost use Rattle.std.specs.Prelude.{◌<◌, ◌≤◌};
ghost use Rattle.numbers.specs.Limits.{LAST_TIME, MOST_KITS};
ghost use Rattle.desk.specs.Standing.{Stands};

use desk::TABLE_SIZE;
use desk::given::{KIT_WORDS, MOST_KIT_WORDS};
use numbers::{LAST_TIME, MOST_KITS, refused_with};
use oracle::{SIZE, Verdict};
use show::{number, text};

// The window of most kits here: three days.
const WINDOW: u64 = 72;

// The barcodes of the kits: of the first the promise, and how far each is from the next.
const MICROSCOPE: u64 = 100;

const EYEPIECE: u64 = 200;

const TRIPOD: u64 = 300;

const HANDOUT: u64 = 1;

const RETURN: u64 = 2;

// The words of a kit: its promise, handout and return barcode, and its window.
fn give(kits: &mut [u64; MOST_KIT_WORDS], kit: usize, promise: u64, window: u64)
    requires { (kit < MOST_KITS) × (promise ≤ LAST_TIME) }
{
    let at = KIT_WORDS * kit;
    kits[at] = promise;
    kits[at + 1] = promise + HANDOUT;
    kits[at + 2] = promise + RETURN;
    kits[at + 3] = window;
}

fn verdict(rt: &(impl Print + Eprint), v: Verdict) {
    show::digits(rt, u8::from(v.value), v.early.digit(), v.settled.digit());
}

// The answers of every kit.
fn answers(rt: &(impl Print + Eprint), table: &[u64; TABLE_SIZE], monitor: &[u64; SIZE])
    requires { Stands table.now monitor.now }
{
    for kit in 0..desk::kit_count(table) {
        verdict(rt, desk::of_kit(monitor, kit));
    }
}

fn slip(rt: &(impl Print + Eprint), printed: Option<usize>) {
    if let Some(kit) = printed {
        text(rt, b" slip ");
        number(rt, kit as u64);
    }
}

fn open(
    rt: &(impl Print + Eprint),
    kits: &[u64; MOST_KIT_WORDS],
    count: usize,
    table: &mut [u64; TABLE_SIZE],
    monitor: &mut [u64; SIZE],
)
    ensures { Stands table.new monitor.new }
{
    let opened = desk::open(kits, count, table, monitor);
    text(rt, b"  desk ");
    number(rt, refused_with(opened));
    answers(rt, table, monitor);
    text(rt, b"\n");
}

fn scan(
    rt: &(impl Print + Eprint),
    table: &[u64; TABLE_SIZE],
    monitor: &mut [u64; SIZE],
    time: u64,
    barcode: u64,
)
    requires { Stands table.now monitor.old }
    ensures { Stands table.now monitor.new }
{
    let scanned = desk::scan(time, barcode, table, monitor);
    text(rt, b"  ");
    number(rt, time);
    text(rt, b" ");
    number(rt, barcode);
    text(rt, b": ");
    number(rt, refused_with(scanned.outcome));
    answers(rt, table, monitor);
    slip(rt, scanned.slip);
    text(rt, b"\n");
}

// Two counters promise it and it is handed out twice, which the rule allows; after its return neither promise counts any more.
fn promised_twice(
    rt: &(impl Print + Eprint),
    table: &mut [u64; TABLE_SIZE],
    monitor: &mut [u64; SIZE],
) {
    text(rt, b"The eyepiece that two counters promised\n");
    let mut kits = [0u64; MOST_KIT_WORDS];
    give(&mut kits, 0, MICROSCOPE, WINDOW);
    give(&mut kits, 1, EYEPIECE, WINDOW);
    open(rt, &kits, 2, table, monitor);
    scan(rt, table, monitor, 1, EYEPIECE);
    scan(rt, table, monitor, 2, EYEPIECE);
    scan(rt, table, monitor, 9, EYEPIECE + HANDOUT);
    scan(rt, table, monitor, 10, EYEPIECE + HANDOUT);
    scan(rt, table, monitor, 30, EYEPIECE + RETURN);
    scan(rt, table, monitor, 31, EYEPIECE + HANDOUT);
    scan(rt, table, monitor, 32, EYEPIECE);
    scan(rt, table, monitor, 33, EYEPIECE + HANDOUT);
}

// A gun that sends everything twice: the slip prints once.
fn doubled(rt: &(impl Print + Eprint), table: &mut [u64; TABLE_SIZE], monitor: &mut [u64; SIZE]) {
    text(rt, b"A gun that sends everything twice\n");
    let mut kits = [0u64; MOST_KIT_WORDS];
    give(&mut kits, 0, MICROSCOPE, WINDOW);
    open(rt, &kits, 1, table, monitor);
    scan(rt, table, monitor, 1, MICROSCOPE);
    scan(rt, table, monitor, 1, MICROSCOPE);
    scan(rt, table, monitor, 5, MICROSCOPE + HANDOUT);
    scan(rt, table, monitor, 5, MICROSCOPE + HANDOUT);
    scan(rt, table, monitor, 7, MICROSCOPE + RETURN);
    scan(rt, table, monitor, 7, MICROSCOPE + RETURN);
    scan(rt, table, monitor, 8, MICROSCOPE + HANDOUT);
    scan(rt, table, monitor, 8, MICROSCOPE + HANDOUT);
}

// Refused scans change nothing: an hour that goes back, one above the last, a barcode of no kit.
fn refused(rt: &(impl Print + Eprint), table: &mut [u64; TABLE_SIZE], monitor: &mut [u64; SIZE]) {
    text(rt, b"An hour that goes back, and a barcode of no kit\n");
    let mut kits = [0u64; MOST_KIT_WORDS];
    give(&mut kits, 0, MICROSCOPE, WINDOW);
    open(rt, &kits, 1, table, monitor);
    scan(rt, table, monitor, 10, MICROSCOPE);
    scan(rt, table, monitor, 9, MICROSCOPE + RETURN);
    scan(rt, table, monitor, 9, EYEPIECE);
    scan(rt, table, monitor, LAST_TIME + 1, MICROSCOPE + RETURN);
    scan(rt, table, monitor, 11, MICROSCOPE + HANDOUT);
    scan(rt, table, monitor, LAST_TIME, MICROSCOPE + HANDOUT);
}

// The last hour of a window counts, the next does not.
fn windows(rt: &(impl Print + Eprint), table: &mut [u64; TABLE_SIZE], monitor: &mut [u64; SIZE]) {
    text(rt, b"The last hour of a window, and a window of none\n");
    let mut kits = [0u64; MOST_KIT_WORDS];
    give(&mut kits, 0, MICROSCOPE, WINDOW);
    give(&mut kits, 1, EYEPIECE, WINDOW - 1);
    give(&mut kits, 2, TRIPOD, 0);
    open(rt, &kits, 3, table, monitor);
    scan(rt, table, monitor, 0, MICROSCOPE);
    scan(rt, table, monitor, 0, EYEPIECE);
    scan(rt, table, monitor, WINDOW, TRIPOD);
    scan(rt, table, monitor, WINDOW, MICROSCOPE + HANDOUT);
    scan(rt, table, monitor, WINDOW, EYEPIECE + HANDOUT);
    scan(rt, table, monitor, WINDOW, TRIPOD + HANDOUT);
    scan(rt, table, monitor, WINDOW + 1, TRIPOD + HANDOUT);
}

// What is wrong with kits, each number before the next; a refused desk knows no barcode.
fn wrong_kits(
    rt: &(impl Print + Eprint),
    table: &mut [u64; TABLE_SIZE],
    monitor: &mut [u64; SIZE],
) {
    text(rt, b"Desks that are refused\n");
    let mut kits = [0u64; MOST_KIT_WORDS];
    give(&mut kits, 0, MICROSCOPE, LAST_TIME);
    give(&mut kits, 1, EYEPIECE, LAST_TIME + 1);
    open(rt, &kits, 0, table, monitor);
    open(rt, &kits, MOST_KITS + 1, table, monitor);
    open(rt, &kits, 1, table, monitor);
    open(rt, &kits, 2, table, monitor);
    scan(rt, table, monitor, 1, MICROSCOPE);
    give(&mut kits, 1, MICROSCOPE + RETURN, LAST_TIME + 1);
    open(rt, &kits, 2, table, monitor);
    scan(rt, table, monitor, 1, MICROSCOPE);
}

// As many kits as a desk has.
fn all_kits(rt: &(impl Print + Eprint), table: &mut [u64; TABLE_SIZE], monitor: &mut [u64; SIZE]) {
    text(rt, b"Sixteen kits\n");
    let mut kits = [0u64; MOST_KIT_WORDS];
    let mut promise = MICROSCOPE;
    for kit in 0..MOST_KITS {
        give(&mut kits, kit, promise, WINDOW);
        promise += HANDOUT + RETURN;
    }
    open(rt, &kits, MOST_KITS, table, monitor);
    scan(rt, table, monitor, 1, promise - 3);
    scan(rt, table, monitor, 2, promise - 2);
    scan(rt, table, monitor, 3, MICROSCOPE + HANDOUT);
}

fn main(rt: HostRuntime) {
    let mut table = [0u64; TABLE_SIZE];
    let mut monitor = [0u64; SIZE];
    promised_twice(&rt, &mut table, &mut monitor);
    doubled(&rt, &mut table, &mut monitor);
    refused(&rt, &mut table, &mut monitor);
    windows(&rt, &mut table, &mut monitor);
    wrong_kits(&rt, &mut table, &mut monitor);
    all_kits(&rt, &mut table, &mut monitor);
}
