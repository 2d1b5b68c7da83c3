// Replays vectors: prints each line of standard input, up to an arrow, completed with its answer.
#![tactic(auto)]

mod answer;
mod failure;
mod question;
mod written;

use crate::answer::reply;
use crate::failure::Failure;
use std::io::{BufRead, BufReader};

// What stands before the arrow, or the whole line where there is none.
fn asked(line: &str) -> &str {
    line.split_once(" => ").map_or(line, |(asked, _)| asked)
}

fn main(rt: HostRuntime) -> anyhow::Result<()> {
    let heap = rt.alloc();
    for line in BufReader::new(heap, rt.stdin())?.lines(heap) {
        let line = line?;
        let text = asked(line.as_str());
        match reply(&rt, text) {
            Err(why @ Failure::Unreadable) => println!(rt; "{text} => {why}")?,
            replied => replied?,
        }
    }
    Ok(())
}
