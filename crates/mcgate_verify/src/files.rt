//! The two files.

use std::alloc::{AllocError, Global};
use std::fs::File;
use std::io;
use std::io::{ErrorKind, Read};
use std::rt::Files;

/// The most bytes that a file may have.
pub const FILE_LIMIT: usize = 67_108_864;

/// Why a file gave no text.
#[derive(Drop)]
pub enum FileFault {
    /// A line says why.
    Told(String),
    /// Memory was refused.
    NoMemory,
}

// The line that says so of a file.
fn told(line: Result<String, AllocError>) -> FileFault {
    match line {
        Ok(line) => FileFault::Told(line),
        Err(_) => FileFault::NoMemory,
    }
}

// Why it can't be read.
fn fault_of(alloc: Global, name: &str, error: &io::Error) -> FileFault {
    if error.kind() == ErrorKind::OutOfMemory {
        return FileFault::NoMemory;
    }
    told(format!(in alloc; "mcgate-verify: cannot read {name}: {error}"))
}

// The text of its bytes.
fn decoded(alloc: Global, name: &str, bytes: Vec<u8>) -> Result<String, FileFault> {
    if bytes.len() > FILE_LIMIT {
        let line = format!(in alloc; "mcgate-verify: {name} has more than {FILE_LIMIT} bytes");
        return Err(told(line));
    }
    match String::from_utf8(bytes) {
        Ok(text) => Ok(text),
        Err(_) => Err(told(format!(in alloc; "mcgate-verify: {name} isn't UTF-8"))),
    }
}

/// The text of a file, of at most [`FILE_LIMIT`] bytes.
pub fn text_of<R: Files + AllocGlobal>(rt: &R, name: &str) -> Result<String, FileFault> {
    let file = match File::open(rt, name) {
        Ok(file) => file,
        Err(error) => return Err(fault_of(rt.alloc(), name, &error)),
    };
    let mut bytes = Vec::new(rt.alloc());
    let mut limited = file.take(FILE_LIMIT as u64 + 1);
    match limited.read_to_end(&mut bytes) {
        Ok(_) => decoded(rt.alloc(), name, bytes),
        Err(error) => Err(fault_of(rt.alloc(), name, &error)),
    }
}
