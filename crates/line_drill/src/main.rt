// Reads a stored list of call lines: prices the readings and prints every step on the way to the base, shows the other calls,
// and writes each accepted line again.
#![tactic(auto)]

mod lines;
mod show;
mod written;

use crate::lines::LINES;
use crate::show::show_noted;

fn main(rt: HostRuntime) -> anyhow::Result<()> {
    for noted in LINES {
        show_noted(&rt, noted)?;
    }
    Ok(())
}
