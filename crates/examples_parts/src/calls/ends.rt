//! An end over a wire in memory, whose far end gives and takes a few bytes at a time.

use crate::far_ends::{connect, may_take, then};
use examples_memory::{Act, Memory};
use examples_tables::playing::{Stage, cut, first_line, plain, play_lines, shown, yes_or_no};
use mc_types::Body;
use serve_wire::conn::{Conn, Got, Limits, Sent};
use std::alloc::{AllocError, Global};
use std::test::Fail;

// Up to 8 bytes are held, and 4 that are unsent are a backlog. The far end `gives` bytes, each time for a read of its own, and `takes` so many
// more.
fn texts() -> &'static str {
    r"A read that is interrupted is made again, and nothing is read where too much is held.
gives get
interrupts
gives  abcd
read => bytes
held => get
readable => no
wake
read => nothing
readable => yes
read => bytes
held => get abcd
read => full
use 8
wake
read => nothing
readable => no

What was cut from what is held is held again, and what comes goes after it.
gives geta
gives bcd
gives ef
read => bytes
again 2
held => ta
wake
read => bytes
held => tabcd
again 1
held => abcd
again 9
held => nothing
wake
read => bytes
held => ef

The end is read behind the last bytes.
gives q
ends
closing
read => bytes
readable => yes
read => ended
held => q

Short writes send what is unsent in its order.
send => nothing
write END\r\n
backlog => yes
takes 2
send => bytes
backlog => no
-- This one is interrupted.
interrupts
send => nothing
writable => yes
send => nothing
writable => no
takes 9
send => bytes
unsent => nothing
taken => END\r\n

Data that are shared go between the texts round them, and each write goes on where the one before it ended.
write VALUE a 0 3\r\n
share abc
write \r\nEND\r\n
unsent => VALUE a 0 3\r\nabc\r\nEND\r\n
takes 8
send => bytes
unsent => 0 3\r\nabc\r\nEND\r\n
takes 9
send => bytes
unsent => abc\r\nEND\r\n
takes 2
send => bytes
unsent => c\r\nEND\r\n
backlog => yes
takes 9
send => bytes
unsent => \r\nEND\r\n
send => bytes
unsent => nothing
backlog => no
taken => VALUE a 0 3\r\nabc\r\nEND\r\n

A connection that fails has.
gives q
fails
read => bytes
read => failed
write END\r\n
send => failed
unsent => END\r\n
held => q"
}

// An end, and the wire of which it is.
#[derive(Drop)]
struct WireEnd {
    alloc: Global,
    wire: Memory,
    conn: Conn,
}

const LIMITS: Limits = Limits { held: 8, unsent: 4 };

// What the far end is called.
const FAR: u32 = 1;

fn make_end(alloc: Global) -> Result<WireEnd, Fail> {
    let mut wire = Memory::new(alloc);
    let number = connect(alloc, &mut wire, FAR)?;
    Ok(WireEnd {
        alloc,
        wire,
        conn: Conn::new(alloc, number, LIMITS),
    })
}

fn got_word(got: Got) -> &'static str {
    match got {
        Got::Bytes => "bytes",
        Got::Nothing => "nothing",
        Got::Full => "full",
        Got::Ended => "ended",
        Got::Failed => "failed",
    }
}

fn sent_word(sent: Sent) -> &'static str {
    match sent {
        Sent::Bytes => "bytes",
        Sent::Nothing => "nothing",
        Sent::Failed => "failed",
    }
}

impl WireEnd {
    fn share(&mut self, text: &str) -> Result<(), AllocError> {
        let text = plain(self.alloc, text)?;
        let body = Body::from_slice(self.alloc, text.as_bytes())?;
        self.conn
            .unsent
            .push_data(&body, self.conn.unsent.new_text())
    }

    // All that is held is cut off, and held again without so many of its first bytes.
    fn hold_again(&mut self, count: usize) -> Result<(), AllocError> {
        let len = self.conn.held.len();
        self.conn.make_again(len.saturating_add(4))?;
        let cut = self.conn.held.freeze_to(len)?;
        let rest = cut.as_slice().get(count..).unwrap_or(b"".as_slice());
        self.conn.hold_again(rest);
        Ok(())
    }

    // The far end gives these bytes.
    fn give(&mut self, text: &str) -> Result<(), Fail> {
        let bytes = text.as_bytes().to_vec(self.alloc)?;
        then(&mut self.wire, FAR, Act::Sends(bytes))
    }

    // What the far end does gives nothing.
    fn act(&mut self, verb: &str, text: &str) -> Result<&'static str, Fail> {
        match verb {
            "gives" => self.give(text)?,
            "takes" => may_take(&mut self.wire, FAR, text.parse::<usize>()?)?,
            "interrupts" => then(&mut self.wire, FAR, Act::Interrupts)?,
            "ends" => then(&mut self.wire, FAR, Act::Ends)?,
            "fails" => then(&mut self.wire, FAR, Act::Fails)?,
            _ => return Err("no such event")?,
        }
        Ok("")
    }

    // Nor do these.
    fn set(&mut self, verb: &str, text: &str) -> Result<&'static str, Fail> {
        match verb {
            "wake" => self.conn.readable = true,
            "closing" => self.conn.closing = true,
            "use" => self.conn.use_up(text.parse::<usize>()?),
            "again" => self.hold_again(text.parse::<usize>()?)?,
            "write" => self
                .conn
                .unsent
                .text
                .extend_from_slice(plain(self.alloc, text)?.as_bytes())?,
            "share" => self.share(text)?,
            _ => return self.act(verb, text),
        }
        Ok("")
    }

    // Those that give a word.
    fn word(&mut self, verb: &str, text: &str) -> Result<&'static str, Fail> {
        match verb {
            "read" => Ok(got_word(self.conn.read_once(&mut self.wire, 4)?)),
            "send" => Ok(sent_word(self.conn.send_once(&mut self.wire))),
            "readable" => Ok(yes_or_no(self.conn.readable)),
            "writable" => Ok(yes_or_no(self.conn.writable)),
            "backlog" => Ok(yes_or_no(self.conn.has_backlog())),
            _ => self.set(verb, text),
        }
    }
}

impl Stage for WireEnd {
    fn answer(&mut self, event: &str, _want: &str) -> Result<String, Fail> {
        let (verb, text) = cut(event);
        match verb {
            "held" => shown(self.alloc, self.conn.held.as_slice()),
            "unsent" => {
                let bytes = self.conn.unsent.to_vec(self.alloc)?;
                shown(self.alloc, bytes.as_slice())
            }
            "taken" => shown(self.alloc, self.wire.taken(FAR)),
            _ => Ok(self.word(verb, text)?.to_string(self.alloc)?),
        }
    }
}

#[test]
fn an_end_in_memory(rt: HostRuntime) -> Result<(), Fail> {
    for example in texts().split("\n\n") {
        let (name, lines) = first_line(example);
        play_lines(&mut make_end(rt.alloc())?, name, lines)?;
    }
    Ok(())
}
