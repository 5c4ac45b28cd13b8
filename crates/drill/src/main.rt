// Prices a stored list of readings, and prints every step on the way to the base.
#![tactic(auto)]

mod readings;
mod show;

use crate::readings::READINGS;
use crate::show::show_noted;
use std::io;

fn main(rt: HostRuntime) -> io::Result<()> {
    for noted in READINGS {
        show_noted(&rt, noted)?;
    }
    Ok(())
}
