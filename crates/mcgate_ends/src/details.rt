//! What is said on standard error beside the line of a stop, or of a bad input.

use crate::input::InputFailure;
use crate::input_text::{INPUT_LIMIT, InputFault};
use std::alloc::{AllocError, Global};
use std::io;
use std::io::ErrorKind;

/// The lines of detail, in their order. One for which memory is refused is left out.
#[derive(Drop)]
pub struct Details {
    lines: Vec<String>,
}

/// How the input of a file is called, or of standard input.
pub fn name_of(file: Option<&str>) -> &str {
    match file {
        Some(path) => path,
        None => "standard input",
    }
}

fn is_memory(error: &io::Error) -> bool {
    error.kind() == ErrorKind::OutOfMemory
}

// The system's words for a cause, without its number.
fn cause_of(alloc: Global, error: &io::Error) -> Result<String, AllocError> {
    let words = format!(in alloc; "{error}")?;
    match words.as_str().split_once(" (os error ") {
        Some((cause, _)) => String::from_str(alloc, cause),
        None => String::from_str(alloc, words.as_str()),
    }
}

// Why a device gave no input of this name.
fn failure_line(alloc: Global, name: &str, failure: &InputFailure) -> Result<String, AllocError> {
    match failure {
        InputFailure::NotOpened(error) => {
            let cause = cause_of(alloc, error)?;
            format!(in alloc; "mcgate: cannot open {name}: {cause}")
        }
        InputFailure::NotRead(error) if error.kind() == ErrorKind::IsADirectory => {
            format!(in alloc; "mcgate: cannot read {name}: it is a folder")
        }
        InputFailure::NotRead(error) => {
            let cause = cause_of(alloc, error)?;
            format!(in alloc; "mcgate: cannot read {name}: {cause}")
        }
    }
}

// Why nothing can listen at a place, as the system says it.
fn place_line(alloc: Global, place: &str, error: &io::Error) -> Result<String, AllocError> {
    let cause = cause_of(alloc, error)?;
    format!(in alloc; "mcgate: cannot listen on {place}: {cause}")
}

// Why the output could not be written.
fn output_line(alloc: Global, error: &io::Error) -> Result<String, AllocError> {
    let cause = cause_of(alloc, error)?;
    format!(in alloc; "mcgate: cannot write to standard output: {cause}")
}

// Why an input of this name was not taken, where no device failed.
fn input_line(alloc: Global, name: &str, fault: InputFault) -> Result<Option<String>, AllocError> {
    match fault {
        InputFault::TooLarge => Ok(Some(format!(in alloc;
            "mcgate: {name} has more than {INPUT_LIMIT} bytes"
        )?)),
        InputFault::NotUtf8 => Ok(Some(format!(in alloc; "mcgate: {name} isn't UTF-8")?)),
        InputFault::NoMemory | InputFault::Device => Ok(None),
    }
}

impl Details {
    /// None so far.
    pub fn new(alloc: Global) -> Details {
        Details {
            lines: Vec::new(alloc),
        }
    }

    /// The lines.
    pub fn lines(&self) -> &[String] {
        self.lines.as_slice()
    }

    // Whether there are none.
    fn is_empty(&self) -> bool {
        self.lines.is_empty()
    }

    /// One more.
    pub fn add(&mut self, line: Result<String, AllocError>) {
        if let Ok(line) = line {
            let _ = self.lines.push(line);
        }
    }

    /// More, if there are.
    pub fn add_all(&mut self, lines: Result<Vec<String>, AllocError>) {
        if let Ok(lines) = lines {
            for line in lines {
                self.add(Ok(line));
            }
        }
    }

    /// Why a device gave no input of this name. Where memory was refused that is all that is to be said, and so below.
    pub fn add_failure(&mut self, alloc: Global, name: &str, failure: &InputFailure) {
        if !is_memory(failure.error()) {
            self.add(failure_line(alloc, name, failure));
        }
    }

    /// Why nothing can listen at a path.
    pub fn add_path(&mut self, alloc: Global, path: &str, error: &io::Error) {
        if !is_memory(error) {
            self.add(place_line(alloc, path, error));
        }
    }

    /// Why the output could not be written.
    pub fn add_output(&mut self, alloc: Global, error: &io::Error) {
        if !is_memory(error) {
            self.add(output_line(alloc, error));
        }
    }

    /// That a device failed of which nothing else is known.
    pub fn add_unknown(&mut self, alloc: Global) {
        if self.is_empty() {
            self.add(String::from_str(
                alloc,
                "mcgate: a socket, or the system's wait or clock failed",
            ));
        }
    }

    /// Why an input was not taken.
    pub fn add_input(&mut self, alloc: Global, name: &str, fault: InputFault) {
        if let Ok(Some(line)) = input_line(alloc, name, fault) {
            self.add(Ok(line));
        }
    }
}
