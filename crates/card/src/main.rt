// The image card, run on an image with tables, a block of an unknown type whose checksum is wrong, and two hunks.
#![tactic(auto)]

fn main(rt: HostRuntime) {
    report::card(&rt);
}
