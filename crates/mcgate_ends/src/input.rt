//! The input that is named: a file, or standard input.

use crate::input_text::{InputFault, fault_of, read_input_noting};
use std::alloc::Global;
use std::fs::File;
use std::io;
use std::rt::Files;

/// Why a device gave no input.
#[derive(Drop)]
pub enum InputFailure {
    /// The file could not be opened.
    NotOpened(io::Error),
    /// It could not be read.
    NotRead(io::Error),
}

impl InputFailure {
    /// The device's error.
    pub fn error(&self) -> &io::Error {
        match self {
            InputFailure::NotOpened(error) | InputFailure::NotRead(error) => error,
        }
    }
}

// The text of what is open, or why it could not be read.
fn read_noting<R: io::Read + Drop>(
    alloc: Global,
    reader: R,
    failure: &mut Option<InputFailure>,
) -> Result<String, InputFault> {
    let mut error = None;
    let text = read_input_noting(alloc, reader, &mut error);
    if let Some(error) = error {
        *failure = Some(InputFailure::NotRead(error));
    }
    text
}

/// The text of a file, or of standard input where none is named. Where a device fails, its error is put into `failure`.
pub fn text_noting<R: Files + Input + AllocGlobal>(
    rt: &R,
    file: Option<&str>,
    failure: &mut Option<InputFailure>,
) -> Result<String, InputFault> {
    match file {
        None => read_noting(rt.alloc(), rt.reader(), failure),
        Some(path) => match File::open(rt, path) {
            Ok(opened) => read_noting(rt.alloc(), opened, failure),
            Err(error) => {
                let fault = fault_of(&error);
                *failure = Some(InputFailure::NotOpened(error));
                Err(fault)
            }
        },
    }
}

/// The text of a file, or of standard input where none is named.
pub fn text_of<R: Files + Input + AllocGlobal>(
    rt: &R,
    file: Option<&str>,
) -> Result<String, InputFault> {
    let mut failure = None;
    text_noting(rt, file, &mut failure)
}
