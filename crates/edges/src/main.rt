// Lines at the edge, through the referee's calls: what is empty, too long, too large or wrong, and the checks and lists of a small board.
#![tactic(auto)]

use std::io;

fn main(rt: HostRuntime) -> io::Result<()> {
    serving::serve(&rt)
}
