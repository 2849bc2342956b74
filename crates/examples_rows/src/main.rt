//! Reads rows from standard input, each a command with its inputs and what comes of it, and does
//! what the program does with them. It prints nothing if all comes as it is written, and else each
//! row that differs, with what came.
//!
//! ```text
//! a row --rows--> words, inputs --mcgate_run::run_job--> status, output, lines of detail
//!     --comparing--> nothing, or what came
//! ```
#![tactic(auto)]

mod comparing;
mod row_inputs;
mod rows;
mod running;

use comparing::difference;
use mcgate_ends::input::text_of;
use rows::{Block, block_of};
use running::came_of;
use std::alloc::{AllocError, Global};
use std::process::ExitCode;
use std::rt::Files;

// What is told of a block of lines: nothing where it is a remark, or a row that comes as it is
// written.
fn told_of(alloc: Global, block: &str) -> Result<Option<String>, AllocError> {
    match block_of(block) {
        Block::Remark => Ok(None),
        Block::Broken => Ok(Some(format!(in alloc; "no row: {block}")?)),
        Block::Row(row) => {
            let came = came_of(alloc, &row)?;
            difference(alloc, &row, &came)
        }
    }
}

// How many blocks were told of, and how many there are.
#[derive(Clone, Copy)]
struct Count {
    told: usize,
    blocks: usize,
}

fn tell_all<R: AllocGlobal + Print>(rt: &R, text: &str) -> Result<Count, AllocError> {
    let mut count = Count { told: 0, blocks: 0 };
    for block in text.split("\n== ") {
        if let Some(told) = told_of(rt.alloc(), block)? {
            let _ = rt.println(told.as_str());
            count.told = count.told.saturating_add(1);
        }
        count.blocks = count.blocks.saturating_add(1);
    }
    Ok(count)
}

fn run<R: AllocGlobal + Input + Files + Print>(rt: &R) -> u8 {
    let Ok(text) = text_of(rt, None) else {
        let _ = rt.println("standard input is no text");
        return 2;
    };
    match tell_all(rt, text.as_str()) {
        Ok(Count { told: 0, blocks }) if blocks > 1 => 0,
        Ok(Count { told: 0, blocks: _ }) => {
            let _ = rt.println("there are no rows");
            2
        }
        Ok(_) => 1,
        Err(_) => {
            let _ = rt.println("memory was refused");
            3
        }
    }
}

fn main(rt: HostRuntime) -> ExitCode {
    ExitCode::from(run(&rt))
}
