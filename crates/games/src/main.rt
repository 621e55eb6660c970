// The twelve small games that are known by heart, played through the referee's calls: what it must answer stands in `stdout`.
#![tactic(auto)]

use std::io;

fn main(rt: HostRuntime) -> io::Result<()> {
    serving::serve(&rt)
}
