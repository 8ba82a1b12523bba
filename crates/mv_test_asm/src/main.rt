//! Assembles code, one row a line, and prints its words, and the address of each item and of the end. A line that begins with `#` is printed as it is.
//!
//!     BASE ITEMS
//!
//! Addresses and words are hexadecimal, registers and numbers of ADDI decimal. An item is its kind and its fields with commas
//! between, with `N*` before it where it stands N times.
#![tactic(auto)]

mod asm;

use crate::asm::show_assembled;
use std::io;

fn main(rt: HostRuntime) -> io::Result<()> {
    for line in rt.lines(rt.alloc()) {
        let line = line?;
        if line.as_str().starts_with('#') {
            println!(rt; "{line}")?;
        } else {
            show_assembled(&rt, line.as_str())?;
        }
    }
    Ok(())
}
