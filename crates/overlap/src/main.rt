// The program: a job on standard input; how many corners its outlines have and how many crossings, on standard output.
#![tactic(auto)]

mod failure;
mod look;
#[cfg(test)]
mod tests;

use crate::failure::Failure;
use crate::look::look;
use job::reader::CORNER_BYTES;
use plane::outline::MOST_CORNERS;
use std::io;
use std::io::Read;
use std::process::ExitCode;

// No job is longer: two rings of the most corners, and the byte that ends it.
const LONGEST_JOB: u64 = (2 * MOST_CORNERS * CORNER_BYTES + 1) as u64;

// Reads the job and tells what was found, or why not. A job that is not read is a failure.
fn run(rt: &HostRuntime) -> Result<(), Failure> {
    let mut bytes = Vec::new(rt.alloc());
    rt.stdin().take(LONGEST_JOB).read_to_end(&mut bytes)?;
    match look(bytes.as_slice())?.with_corners() {
        Ok(found) => {
            // Each line by itself, so that the first is out where the second fails.
            for line in found.lines() {
                println!(rt; "{line}")?;
            }
        }
        Err(refusal) => println!(rt; "{refusal}")?,
    }
    Ok(())
}

fn main(rt: HostRuntime) -> Result<ExitCode, io::Error> {
    match run(&rt) {
        Ok(()) => Ok(ExitCode::SUCCESS),
        Err(Failure::Refused(refusal)) => {
            println!(rt; "{refusal}")?;
            Ok(ExitCode::FAILURE)
        }
        Err(Failure::Io(error)) => Err(error),
    }
}
