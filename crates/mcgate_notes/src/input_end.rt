//! The end of standard input.

use mio::unix::SourceFd;
use mio::{Events, Interest, Poll, Token};
use std::alloc::Global;
use std::io;
use std::io::Read;
use std::net::Net;
use std::os::fd::{AsRawFd, RawFd};
use std::time::Duration;

// The descriptor of standard input.
const INPUT: RawFd = 0;

/// Standard input, as far as it is read until its end. What it says is of no account.
#[derive(Drop)]
pub struct InputEnd {
    poll: Poll,
    events: Events,
}

// Reads once, where that doesn't wait: whether the end has come.
fn reads_end<I: Input>(rt: &I) -> bool {
    let mut part = [0u8; 4096];
    matches!(rt.reader().read(&mut part), Ok(0))
}

impl InputEnd {
    /// Watches it. An error comes where the system can't, as for a file.
    pub fn watch<R: Net + AllocGlobal>(rt: &R) -> io::Result<InputEnd> {
        let poll = Poll::new(rt)?;
        poll.registry()
            .register(&mut SourceFd(&INPUT), Token(0), Interest::READABLE)?;
        Ok(InputEnd {
            poll,
            events: Events::with_capacity(rt.alloc(), 1)?,
        })
    }

    /// A descriptor that is readable once something came, or the end.
    pub fn descriptor(&self) -> RawFd {
        self.poll.as_raw_fd()
    }

    /// Whether it has ended. Where the system doesn't tell, it hasn't.
    pub fn has_ended<I: Input>(&mut self, rt: &I) -> bool {
        if self
            .poll
            .poll(&mut self.events, Some(Duration::ZERO))
            .is_err()
        {
            return false;
        }
        for event in self.events.iter() {
            if event.is_read_closed() || reads_end(rt) {
                return true;
            }
        }
        false
    }
}
