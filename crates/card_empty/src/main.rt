// The image card, run on empty input.
#![tactic(auto)]

fn main(rt: HostRuntime) {
    report::card(&rt);
}
