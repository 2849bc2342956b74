//! A far end with its script.

ghost use Rattle.std.specs.Prelude.{◌<◌, length};
ghost use Rattle.serve_wire.specs.Calls.{Adds, FitsOffer};

use bytes::BytesMut;
use serve_wire::{ReadOutcome, Ready, WriteOutcome};
use std::alloc::{AllocError, Global};
use std::collections::VecDeque;

/// What a far end does next.
#[derive(Drop)]
pub enum Act {
    /// It sends these bytes, which no read gives together with others.
    Sends(Vec<u8>),
    /// It does nothing until so many bytes were sent to it in all.
    Awaits(usize),
    /// It does nothing before this time, in milliseconds.
    Until(u64),
    /// It does nothing until it was told that no more is sent to it.
    AwaitsEnd,
    /// The next read or write is interrupted.
    Interrupts,
    /// It sends no more.
    Ends,
    /// The connection fails.
    Fails,
}

/// A far end.
#[derive(Drop)]
pub struct Peer {
    /// What a test calls it.
    pub name: u32,
    acts: VecDeque<Act>,
    // How many bytes of the first act came.
    came: usize,
    /// So many bytes at most are read, or taken, at once.
    pub piece: usize,
    /// So many bytes at most are taken between two waits.
    pub window: usize,
    /// So many bytes at most are taken at all.
    pub room: usize,
    /// A write after so many bytes fails.
    pub fails_at: Option<usize>,
    taken: Vec<u8>,
    // How many bytes were taken since the last wait.
    went: usize,
    // Whether no more is sent to it.
    is_shut: bool,
    // Whether it was reported that it may be read, and that it takes bytes, and nothing has changed since.
    is_read_told: bool,
    is_write_told: bool,
}

impl Peer {
    /// A far end that sends nothing, takes all, and stays.
    pub fn new(alloc: Global, name: u32) -> Peer {
        Peer {
            name,
            acts: VecDeque::new(alloc),
            came: 0,
            piece: usize::MAX,
            window: usize::MAX,
            room: usize::MAX,
            fails_at: None,
            taken: Vec::new(alloc),
            went: 0,
            is_shut: false,
            is_read_told: false,
            is_write_told: false,
        }
    }

    /// After all else it does this.
    pub fn then(&mut self, act: Act) -> Result<(), AllocError> {
        Ok(self.acts.push_back(act)?)
    }

    /// No more is sent to it.
    pub fn shut(&mut self) {
        self.is_shut = true;
    }

    /// All that was sent to it.
    pub fn taken(&self) -> &[u8] {
        self.taken.as_slice()
    }

    // Whether the first act is done, as what it waits for has come.
    fn is_first_done(&self, now: u64) -> bool {
        match self.acts.front() {
            Some(Act::Awaits(count)) => *count <= self.taken.len(),
            Some(Act::Until(time)) => *time <= now,
            Some(Act::AwaitsEnd) => self.is_shut,
            Some(Act::Sends(bytes)) => bytes.len() <= self.came,
            Some(Act::Interrupts) | Some(Act::Ends) | Some(Act::Fails) | None => false,
        }
    }

    // Acts that are done go.
    fn go_on(&mut self, now: u64) {
        for _ in 0..self.acts.len() {
            if !self.is_first_done(now) {
                return;
            }
            let _ = self.acts.pop_front();
            self.came = 0;
            self.is_read_told = false;
        }
    }

    fn has_failed(&self) -> bool {
        matches!(self.acts.front(), Some(Act::Fails))
    }

    fn has_ended(&self) -> bool {
        matches!(self.acts.front(), Some(Act::Ends))
    }

    fn interrupts(&self) -> bool {
        matches!(self.acts.front(), Some(Act::Interrupts))
    }

    // Whether a call is interrupted, which that act does once.
    fn take_interrupt(&mut self) -> bool {
        let interrupts = self.interrupts();
        if interrupts {
            let _ = self.acts.pop_front();
            self.is_read_told = false;
        }
        interrupts
    }

    // What came and wasn't read.
    fn coming(&self) -> &[u8] {
        match self.acts.front() {
            Some(Act::Sends(bytes)) if self.came <= bytes.len() => &bytes[self.came..],
            _ => &[],
        }
    }

    /// From when on it does more, if it waits for a time.
    pub fn wakes_at(&self) -> Option<u64> {
        match self.acts.front() {
            Some(Act::Until(time)) => Some(*time),
            _ => None,
        }
    }

    // How many bytes a write takes now.
    fn takes_now(&self) -> usize {
        let room = self.room.saturating_sub(self.taken.len());
        let window = self.window.saturating_sub(self.went);
        self.piece.min(window).min(room)
    }

    /// What a wait tells of it, if that is new. A wait opens its window.
    pub fn report(&mut self, now: u64) -> Option<Ready> {
        self.go_on(now);
        self.went = 0;
        let closes = self.has_failed() || self.has_ended();
        let gives = closes || self.interrupts() || !self.coming().is_empty();
        let reads = !self.is_read_told && gives;
        let fails = reads && self.has_failed();
        let writes = fails || (!self.is_write_told && self.takes_now() > 0);
        self.is_read_told = self.is_read_told || reads;
        self.is_write_told = self.is_write_told || writes;
        if reads || writes {
            Some(Ready {
                reads,
                writes,
                closes: reads && closes,
            })
        } else {
            None
        }
    }

    /// One read.
    pub fn read(&mut self, now: u64, into: &mut BytesMut) -> ReadOutcome
        requires { 0 < into.old.spare }
        ensures { Adds result into.old.items into.new.items into.old.spare into.new.spare }
    {
        self.go_on(now);
        if self.take_interrupt() {
            return ReadOutcome::Interrupted;
        }
        if self.has_failed() {
            return ReadOutcome::Failed;
        }
        if self.has_ended() {
            return ReadOutcome::Ended;
        }
        let room = into.capacity() - into.len();
        let coming = self.coming();
        let count = room.min(self.piece).min(coming.len());
        into.extend_reserved(&coming[..count]);
        self.came = self.came.saturating_add(count);
        self.is_read_told = count == room;
        if count == 0 {
            return ReadOutcome::NotReady;
        }
        ReadOutcome::Bytes(count)
    }

    // Of so many bytes how many a write takes: more than none, unless it fails.
    fn may_take(&self, count: usize) -> Option<usize> {
        let count = count.min(self.takes_now());
        match self.fails_at {
            Some(limit) if limit <= self.taken.len() => None,
            Some(limit) => Some(count.min(limit.saturating_sub(self.taken.len()))),
            None => Some(count),
        }
    }

    /// One write.
    pub fn write(&mut self, now: u64, bytes: &[u8]) -> WriteOutcome
        ensures { FitsOffer result bytes.now }
    {
        self.go_on(now);
        if self.take_interrupt() {
            return WriteOutcome::Interrupted;
        }
        if self.has_failed() {
            return WriteOutcome::Failed;
        }
        let Some(count) = self.may_take(bytes.len()) else {
            return WriteOutcome::Failed;
        };
        let count = count.min(bytes.len());
        if count == 0 || self.taken.extend_from_slice(&bytes[..count]).is_err() {
            self.is_write_told = false;
            return WriteOutcome::NotReady;
        }
        self.went = self.went.saturating_add(count);
        WriteOutcome::Bytes(count)
    }
}
