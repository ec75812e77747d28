// Reads standard input and prints its report, the book loaded as any that is in order.
#![tactic(auto)]

use book::loading::Loading;

fn main(rt: HostRuntime) {
    reporter::run(&rt, Loading::Ordinary);
}
