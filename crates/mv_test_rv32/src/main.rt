//! Runs the vectors of `steps.txt`: what single instructions give under QEMU.
//!
//! Each step runs on the machine, and where the instruction has an operator of its own, that operator runs as well. Lines that
//! differ are printed.
#![tactic(auto)]

mod operator;
mod single;

use crate::operator::operator;
use crate::single::{Bench, Vector};
use std::{fs, io};

// Whether the machine does what the vector says, and the operator gives it too where the instruction goes on.
fn is_step(bench: &mut Bench, vector: &Vector) -> bool {
    let given = match operator(vector) {
        Some(result) => result == vector.result || !vector.goes_on(),
        None => true,
    };
    given && bench.agrees(vector) == Some(true)
}

fn main(rt: HostRuntime) -> io::Result<()> {
    let alloc = rt.alloc();
    let steps = fs::read_to_string(&rt, "steps.txt")?;
    let mut wrong = Vec::new(alloc);
    let mut bench = Bench::new(alloc)?;
    for line in steps.as_str().lines() {
        match Vector::parse(line) {
            Some(vector) if is_step(&mut bench, &vector) => {}
            _ => wrong.push(line)?,
        }
    }
    for line in wrong.iter() {
        println!(rt; "wrong: {line}")?;
    }
    println!(rt;
        "steps {} wrong {}",
        steps.as_str().lines().count(),
        wrong.len()
    )
}
