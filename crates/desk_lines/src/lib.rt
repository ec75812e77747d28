// What a line of the dialogue with a kit desk does: bytes in, bytes out, and the desk changed in place.
#![tactic(auto)]

pub mod writes;

ghost use Rattle.std.specs.Prelude.{◌≡◌, ◌<◌};
ghost use Rattle.numbers.specs.Limits.{MOST_KITS};
ghost use Rattle.numbers.specs.Refusals.{number_of, refused_with};
ghost use Rattle.buffer_writer.specs.Buffer.{handed, in_buffer};
ghost use Rattle.line_words.specs.Line.{line_supply};
ghost use Rattle.desk.specs.Standing.{Stands};
ghost use Rattle.desk_lines.specs.Dialogue.{closed_by, count_heard, count_line, kit_put, open_heard, kit_line, following, reply_to};
ghost use Rattle.desk_lines.specs.Bytes.{last_bytes};
ghost use Rattle.desk_lines.specs.Does.{heard_of, held_of, Good, Does, DoesScan, Answers};

use desk::TABLE_SIZE;
use desk::given::{KIT_WORDS, MOST_KIT_WORDS};
use line_words::{judge, word_at};
use numbers::{ACCEPTED, MOST_KITS, Refusal, refused_with};
use oracle::SIZE;
pub use writes::LONGEST_ANSWER;

// The words of the other lines: the number of kits; a scan's time and barcode.
const COUNT_WORDS: usize = 1;

const SCAN_WORDS: usize = 2;

// How far the dialogue is: the number of kits is awaited; of so many kits so many are given; the desk is open and had so many lines;
// or it was refused.
#[derive(Clone, Copy)]
pub enum Stage {
    Awaited,
    Giving(usize, usize),
    Opened(u64),
    Closed,
}

// What is said after a line: nothing; the desk's number; a scan's line and number, and the kit whose slip prints.
// It says numbers, not Results, and any number: `writes::event` writes any.
#[derive(Clone, Copy)]
pub enum Event {
    Nothing,
    Desk(u64),
    Scan(u64, u64, Option<usize>),
}

// What came of a line: the stage after it, and what is to be said.
#[derive(Clone, Copy)]
pub struct Heard {
    pub stage: Stage,
    pub event: Event,
}

// The same where it was said: so many bytes.
#[derive(Clone, Copy)]
pub struct Answered {
    pub stage: Stage,
    pub length: u64,
}

// A refused desk.
fn closed_by(refusal: Refusal) -> Heard
    ensures { heard_of result ≡ closed_by (number_of refusal) }
{
    Heard {
        stage: Stage::Closed,
        event: Event::Desk(refusal.number()),
    }
}

// What comes of the number of kits.
fn count_heard(count: usize) -> Heard
    ensures { heard_of result ≡ count_heard count }
{
    if count == 0 || MOST_KITS < count {
        closed_by(Refusal::WrongKits)
    } else {
        Heard {
            stage: Stage::Giving(count, 0),
            event: Event::Nothing,
        }
    }
}

// The line with the number of kits.
fn count_line(line: &[u8]) -> Heard
    ensures { heard_of result ≡ count_line (line_supply line.now) }
{
    match judge(COUNT_WORDS, line) {
        Ok(()) => count_heard(word_at(line, 0) as usize),
        Err(refusal) => closed_by(refusal),
    }
}

// The words of kit k, from its line.
fn put_kit(k: usize, line: &[u8], kits: &mut [u64; MOST_KIT_WORDS])
    requires { k < MOST_KITS }
    ensures { kits.new ≡ kit_put k (line_supply line.now) kits.old }
{
    let at = KIT_WORDS * k;
    kits[at] = word_at(line, 0);
    kits[at + 1] = word_at(line, 1);
    kits[at + 2] = word_at(line, 2);
    kits[at + 3] = word_at(line, 3);
}

// What comes of opening a desk.
fn open_heard(opened: Result<(), Refusal>) -> Heard
    ensures { heard_of result ≡ open_heard (refused_with opened) }
{
    match opened {
        Ok(()) => Heard {
            stage: Stage::Opened(0),
            event: Event::Desk(ACCEPTED),
        },
        Err(refusal) => closed_by(refusal),
    }
}

// The line of a kit; after the last one the desk opens.
fn kit_line(
    count: usize,
    given: usize,
    line: &[u8],
    kits: &mut [u64; MOST_KIT_WORDS],
    table: &mut [u64; TABLE_SIZE],
    monitor: &mut [u64; SIZE],
) -> Heard
    requires { Good (Stage.Giving count given) table.old monitor.old }
    ensures { Does (kit_line count given (line_supply line.now) (held_of kits.old table.old monitor.old)) result kits.new table.new monitor.new }
{
    if let Err(refusal) = judge(KIT_WORDS, line) {
        return closed_by(refusal);
    }
    put_kit(given, line, kits);
    if given + 1 < count {
        Heard {
            stage: Stage::Giving(count, given + 1),
            event: Event::Nothing,
        }
    } else {
        open_heard(desk::open(kits, count, table, monitor))
    }
}

// The number of the line after so many.
fn next_number(done: u64) -> u64
    ensures { result ≡ following done }
{
    done.saturating_add(1)
}

// The line of a scan; a bad one is passed over.
fn scan_line(done: u64, line: &[u8], table: &[u64; TABLE_SIZE], monitor: &mut [u64; SIZE]) -> Heard
    requires { Stands table.now monitor.old }
    ensures { DoesScan done (line_supply line.now) table.now monitor.old result monitor.new }
{
    let i = next_number(done);
    match judge(SCAN_WORDS, line) {
        Ok(()) => {
            let scanned = desk::scan(word_at(line, 0), word_at(line, 1), table, monitor);
            Heard {
                stage: Stage::Opened(i),
                event: Event::Scan(i, refused_with(scanned.outcome), scanned.slip),
            }
        }
        Err(refusal) => {
            // By this name the proof knows it, also where the edit `bad_line_unanswered` takes the event away.
            let number = refusal.number();
            Heard {
                stage: Stage::Opened(i),
                event: Event::Scan(i, number, None),
            }
        }
    }
}

// What a line does.
fn hear(
    stage: Stage,
    line: &[u8],
    kits: &mut [u64; MOST_KIT_WORDS],
    table: &mut [u64; TABLE_SIZE],
    monitor: &mut [u64; SIZE],
) -> Heard
    requires { Good stage table.old monitor.old }
    ensures { Does (reply_to stage line.now (held_of kits.old table.old monitor.old)) result kits.new table.new monitor.new }
{
    if line_words::is_blank(line) {
        return Heard {
            stage,
            event: Event::Nothing,
        };
    }
    match stage {
        Stage::Awaited => count_line(line),
        Stage::Giving(count, given) => kit_line(count, given, line, kits, table, monitor),
        Stage::Opened(done) => scan_line(done, line, table, monitor),
        Stage::Closed => Heard {
            stage: Stage::Closed,
            event: Event::Nothing,
        },
    }
}

// Answers a line: what is said is written from the start of `out`, whole if that has room for the longest answer, and the desk is
// changed in place.
pub fn answer(
    stage: Stage,
    line: &[u8],
    kits: &mut [u64; MOST_KIT_WORDS],
    table: &mut [u64; TABLE_SIZE],
    monitor: &mut [u64; SIZE],
    out: &mut [u8],
) -> Answered
    requires { Good stage table.old monitor.old }
    ensures { Answers (reply_to stage line.now (held_of kits.old table.old monitor.old)) result kits.new table.new monitor.new out.old out.new }
{
    let heard = hear(stage, line, kits, table, monitor);
    let length = writes::event(heard.event, table, monitor, out);
    Answered {
        stage: heard.stage,
        length,
    }
}

// What is said at the end of the input.
pub fn last(stage: Stage, out: &mut [u8]) -> u64
    ensures { handed result out.new ≡ in_buffer out.old (last_bytes stage) }
{
    writes::last(stage, out)
}

// The desk before the first line: it has no kit, whatever stood in its memory before.
pub fn start(
    kits: &[u64; MOST_KIT_WORDS],
    table: &mut [u64; TABLE_SIZE],
    monitor: &mut [u64; SIZE],
) -> Stage
    ensures { (result ≡ Stage.Awaited) × Good result table.new monitor.new }
{
    // A desk of no kit is refused, and stands.
    let _ = desk::open(kits, 0, table, monitor);
    Stage::Awaited
}
