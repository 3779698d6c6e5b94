//! The program `rows`: answers a table of calls of the programs `mothra` and `equivalents`, each in memory.
#![tactic(auto)]

mod answer;
mod block;
mod job;

use anyhow::Result;
use block::Block;
use std::io;
use std::io::Write;

fn main(rt: HostRuntime) -> Result<()> {
    let table = io::read_to_string(rt.alloc(), rt.stdin())?;
    let mut block = Block::new(rt.alloc());
    let mut answers = String::new(rt.alloc());
    for line in table.lines() {
        block.take(&rt, line, &mut answers)?;
    }
    io::writer(&rt).write_all(answers.as_bytes())?;
    Ok(())
}
