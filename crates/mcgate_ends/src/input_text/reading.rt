//! How an input is read.

ghost use Rattle.std.specs.Prelude.{◌≡◌, IfSome, string_bytes};
ghost use Rattle.std.specs.IoError.{error_kind};
ghost use Rattle.mcgate_ends.specs.Input.{ReadsInput, InputFails, input_fault_at};

use std::alloc::Global;
use std::io;
use std::io::{ErrorKind, Read};

/// The most bytes that an input may have.
pub const INPUT_LIMIT: usize = 16_777_216;

/// Why an input was not taken.
#[derive(Clone, Copy)]
pub enum InputFault {
    /// It has more than [`INPUT_LIMIT`] bytes.
    TooLarge,
    /// It is no UTF-8.
    NotUtf8,
    /// Memory was refused.
    NoMemory,
    /// It can't be read.
    Device,
}

/// What a device's error means for an input: memory was refused, where the error is of that kind, or else the device failed.
pub fn fault_of(error: &io::Error) -> InputFault
    ensures kind { result ≡ input_fault_at (error_kind error.now) }
    ensures failure { InputFails result }
{
    match error.kind() {
        ErrorKind::OutOfMemory => InputFault::NoMemory,
        _ => InputFault::Device,
    }
}

fn text_of(bytes: Vec<u8>) -> Result<String, InputFault>
    ensures { ReadsInput (λ text. string_bytes text) INPUT_LIMIT bytes.items result }
{
    if bytes.len() > INPUT_LIMIT {
        return Err(InputFault::TooLarge);
    }
    match String::from_utf8(bytes) {
        Ok(text) => Ok(text),
        Err(_) => Err(InputFault::NotUtf8),
    }
}

/// All that a reader has left, as text.
///
/// [`InputFault::TooLarge`] comes where that is more than [`INPUT_LIMIT`] bytes, and [`InputFault::NotUtf8`] where it is not and is
/// no UTF-8. The limit is mcgate's own.
pub fn read_input<R: Read + Drop>(alloc: Global, reader: R) -> Result<String, InputFault>
    ensures { IfSome (R.remaining reader) (λ bytes. ReadsInput (λ text. string_bytes text) INPUT_LIMIT bytes result) }
{
    let mut failure = None;
    read_input_noting(alloc, reader, &mut failure)
}

/// All that a reader has left, as text. Where the reader fails, its error is put into `failure`.
///
/// [`InputFault::TooLarge`] comes where that is more than [`INPUT_LIMIT`] bytes, and [`InputFault::NotUtf8`] where it is not and is
/// no UTF-8. The limit is mcgate's own.
pub fn read_input_noting<R: Read + Drop>(
    alloc: Global,
    reader: R,
    failure: &mut Option<io::Error>,
) -> Result<String, InputFault>
    ensures { IfSome (R.remaining reader) (λ bytes. ReadsInput (λ text. string_bytes text) INPUT_LIMIT bytes result) }
{
    let mut bytes = Vec::new(alloc);
    let mut limited = reader.take(INPUT_LIMIT as u64 + 1);
    match limited.read_to_end(&mut bytes) {
        Ok(_) => text_of(bytes),
        Err(error) => {
            let fault = fault_of(&error);
            *failure = Some(error);
            Err(fault)
        }
    }
}
