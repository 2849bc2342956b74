//! The room of buffers that is for all clients, and how long it is kept. Nothing here knows the core.

ghost use Rattle.std.specs.Prelude.{◌≡◌, []};
ghost use Rattle.wire_parts.specs.Sending.{bytes_of};
ghost use Rattle.serve_proxy.specs.Spares.{left_in};

use bytes::BytesMut;
use serve_clients::Client;
use serve_links::{KEPT_ROOM, OWN_ROOM, give_back, has_spare};
use std::alloc::Global;
use wire_parts::to_send::SendBuffer;

// So many buffers of clients are spare at most, and none of them has more room than this.
const SPARES: usize = 8;

const SPARE_ROOM: usize = 8_388_608;

// How long such buffers are kept while nothing large comes, and those of clients that wait for nothing, in milliseconds.
const SPARE_MS: u64 = 1_000;

/// Buffers that no client needs now.
#[derive(Drop)]
pub struct Rooms {
    alloc: Global,
    // What is read of a client comes into this room: a client that is idle keeps none for it.
    input: BytesMut,
    // Buffers with much room that clients had, the last one behind: replies are written into that where one is there.
    spares: Vec<SendBuffer>,
    /// When spare buffers, and those of links and clients, give their room back, if they have much.
    pub until: Option<u64>,
    ghost none: { input.items ≡ [] },
    ghost spare: { left_in spares.items ≡ [] },
}

impl Rooms {
    /// None has room yet.
    pub fn new(alloc: Global) -> Rooms {
        Rooms {
            alloc,
            input: BytesMut::new(alloc),
            spares: Vec::new(alloc),
            until: None,
        }
    }

    // Room that is spare is kept for a while from now on.
    fn keep(&mut self, time: u64) {
        self.until = Some(time.saturating_add(SPARE_MS));
    }

    /// Large data came or went, or room for such is there and not noted yet.
    pub fn note(&mut self, is_large: bool, has_room: bool, time: u64) {
        if is_large || (has_room && self.until.is_none()) {
            self.keep(time);
        }
    }

    /// Whether nothing large came for a while.
    pub fn are_due(&self, time: u64) -> bool {
        match self.until {
            Some(until) => until <= time,
            None => false,
        }
    }

    /// No buffer is spare any more, and the one that clients are read into has little room.
    pub fn clear(&mut self) {
        self.until = None;
        self.spares.clear();
        if self.input.capacity() > KEPT_ROOM {
            self.input = BytesMut::new(self.alloc);
        }
    }

    /// The room to read into is lent to a client's end that holds nothing.
    pub fn lend_input(&mut self, held: &mut BytesMut)
        requires { held.old.items ≡ [] }
        ensures { held.new.items ≡ [] }
    {
        std::mem::swap(held, &mut self.input);
    }

    /// It comes back where nothing is held any more.
    pub fn take_input(&mut self, held: &mut BytesMut)
        ensures { held.new.items ≡ held.old.items }
    {
        give_back(self.alloc, held, &mut self.input);
    }

    /// Whether a buffer is spare.
    pub fn has_spare(&self) -> bool {
        !self.spares.is_empty()
    }

    /// The buffer that became spare last, if there is one.
    #[tactic(auto, using(crate::proofs::Sparing::one_less))]
    pub fn take_spare(&mut self) -> Option<SendBuffer> {
        self.spares.pop()
    }

    /// The buffer is spare, if it has much room. What is in it is lost.
    #[tactic(auto, using(crate::proofs::Sparing::one_more))]
    pub fn keep_spare(&mut self, buffer: SendBuffer, time: u64) {
        let mut buffer = buffer;
        buffer.clear();
        let room = buffer.text.capacity();
        if room > OWN_ROOM && room <= SPARE_ROOM && self.spares.len() < SPARES {
            let _ = self.spares.push(buffer);
            self.note(false, true, time);
        }
    }

    /// A client that has nothing to send keeps no large room for it: it is spare.
    pub fn take_room(&mut self, client: &mut Client, time: u64)
        ensures unsent { bytes_of client.new.conn.unsent ≡ bytes_of client.old.conn.unsent }
        ensures rest { client.new ≡ record client.old { conn = record client.old.conn { unsent = client.new.conn.unsent } } }
    {
        if !has_spare(&client.conn.unsent) {
            return;
        }
        let unsent = std::mem::replace(&mut client.conn.unsent, SendBuffer::new(self.alloc));
        self.keep_spare(unsent, time);
    }
}
