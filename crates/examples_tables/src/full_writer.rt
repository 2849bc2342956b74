//! A writer that fails after so many bytes.

use std::io;
use std::io::{ErrorKind, Write};

/// Takes so many bytes, and then fails.
#[derive(Drop)]
pub struct Full {
    pub room: usize,
}

impl Write for Full {
    fn write(&mut self, bytes: &[u8]) -> io::Result<usize> {
        let count = bytes.len().min(self.room);
        if count == 0 {
            return Err(io::Error::from(ErrorKind::StorageFull));
        }
        self.room -= count;
        Ok(count)
    }

    fn flush(&mut self) -> io::Result<()> {
        Ok(())
    }
}
