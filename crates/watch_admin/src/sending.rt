//! An answer that is sent, as far as it was taken.

ghost use Rattle.std.specs.Prelude.{◌≡◌, ◌≤◌, length};
ghost use Rattle.watch_admin.specs.Sending.{GoesUpTo};

use std::io;
use std::io::{ErrorKind, Write};

/// An answer, and how many bytes of it were taken.
#[derive(Drop)]
pub struct Sending {
    answer: Vec<u8>,
    sent: usize,
    ghost within: { sent ≤ length answer.items },
}

impl Sending {
    /// None was taken so far.
    pub fn new(answer: Vec<u8>) -> Sending
        ensures answer { result.answer.items ≡ answer.items }
        ensures sent { result.sent ≡ 0 }
    {
        Sending { answer, sent: 0 }
    }

    /// A stream is sent what it takes, in order and each byte once, also where an error comes. Whether something is left that it may take later.
    pub fn send<W: Write>(&mut self, stream: &mut W) -> io::Result<bool>
        ensures answer { self.new.answer.items ≡ self.old.answer.items }
        ensures goes { GoesUpTo self.old.answer.items self.old.sent self.new.sent (W.contents stream.old) (W.contents stream.new) }
    {
        for _ in self.sent..self.answer.len() {
            match stream.write(&self.answer[self.sent..]) {
                Ok(0) => return Ok(false),
                Ok(count) => self.sent += count,
                Err(error) if error.kind() == ErrorKind::WouldBlock => return Ok(true),
                Err(error) => return Err(error),
            }
        }
        Ok(false)
    }
}
