// Reads standard input and prints its report, the book loaded strictly: of one that is accepted no line ever says 11.
#![tactic(auto)]

use book::loading::Loading;

fn main(rt: HostRuntime) {
    reporter::run(&rt, Loading::Strict);
}
