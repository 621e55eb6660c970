// Some thousand calls with the crate's answers to them, played through the referee's calls: `compare/sample/make` made its files.
#![tactic(auto)]

use std::io;

fn main(rt: HostRuntime) -> io::Result<()> {
    serving::serve(&rt)
}
