// Reads standard input and prints its report, the book loaded for the lasting way, in which a state lasts until the next call.
#![tactic(auto)]

use book::loading::Loading;

fn main(rt: HostRuntime) {
    reporter::run(&rt, Loading::Lasting);
}
