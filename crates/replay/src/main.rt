// Prints the reports of recorded inputs. Each stands on standard input after its length, in decimal, and a line feed.
#![tactic(auto)]

// More than all inputs together, and more than any report of them.
const ROOM: usize = 65536;

// Prints the report of one input. One that does not fit is not printed, so that what is printed differs from what is stored.
fn show(rt: &(impl Print + Eprint), input: &[u8]) {
    let mut out = [0u8; ROOM];
    let length = report::binefdar_report(input, &mut out) as usize;
    if ROOM < length {
        return;
    }
    console::print(rt, &out[..length]);
}

// One input after the other, up to the end or to one that is cut short. The place moves on by as much as an input takes, which no `for`
// counts.
fn show_all(rt: &(impl Print + Eprint), inputs: &[u8]) {
    let mut at = 0;
    while at < inputs.len() {
        let Ok(length) = text::next_word(inputs, at) else {
            return;
        };
        if inputs.len() <= length.next {
            return;
        }
        let from = length.next + 1;
        let size = length.number as usize;
        if inputs.len() - from < size {
            return;
        }
        let end = from + size;
        show(rt, &inputs[from..end]);
        at = end;
    }
}

fn main(rt: HostRuntime) {
    let mut inputs = [0u8; ROOM];
    let Some(count) = console::read_all(&rt, &mut inputs) else {
        return;
    };
    show_all(&rt, &inputs[..count]);
}
