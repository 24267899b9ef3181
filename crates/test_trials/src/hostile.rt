//! Tests of the engine with odd patterns, trees, texts and starts, by every call.
//!
//! A call in which an allocation fails is repeated. So the output is the same whichever allocation
//! is refused (`refusals/run.sh` at the top refuses each one in turn).

mod bytes;
mod calls;
mod executors;
mod fields;
mod limits;
mod lists;
mod patterns;
mod replacements;
mod searches;
mod section;
mod table;
mod tool;
mod units;
mod wanted;
mod wide;

use crate::hostile::section::{SECTIONS, Section};
use std::io;

fn try_section(rt: &HostRuntime, section: Section) -> io::Result<()> {
    let name = section.name();
    let mut agree = 0u32;
    for line in section.rows().lines() {
        if section.agrees(rt.alloc(), line) {
            agree = agree.saturating_add(1);
        } else {
            println!(rt; "{name}: differs at {line}")?;
        }
    }
    println!(rt; "{name}: {agree} rows agree")
}

/// Prints for each section of rows how many agree.
///
/// # Errors
///
/// Returns an error if printing fails.
pub fn print_all_results(rt: &HostRuntime) -> io::Result<()> {
    for section in SECTIONS {
        try_section(rt, section)?;
    }
    Ok(())
}
