//! Who tells a proxy that runs what to do, over a socket at a path.

use std::alloc::Global;
use std::fs::remove_file;
use std::io;
use std::net::Net;
use std::os::fd::RawFd;
use std::rt::{Clock, Files};
use std::time::Instant;
use watch_admin::control::answers::Ruling;
use watch_admin::control::callers::Callers;
use watch_admin::control::paths::listen_at;

// Only the user that it runs as may tell it anything.
const MODE: u32 = 0o600;

/// Those who tell it things, and since when it runs.
#[derive(Drop)]
pub struct Controlling {
    callers: Callers,
    path: String,
    began: Instant,
    // The places of those who wait for the end.
    waiting: Vec<usize>,
}

impl Controlling {
    /// They are listened for at this path, and it runs since now. An error comes where nothing can listen there, or memory was refused.
    pub fn listen<R: Files + Net + Clock + AllocGlobal>(
        rt: &R,
        path: &str,
    ) -> io::Result<Controlling> {
        let listener = listen_at(rt, path, MODE)?;
        Ok(Controlling {
            callers: Callers::new(rt, listener)?,
            path: String::from_str(rt.alloc(), path)?,
            began: Instant::now(rt)?,
            waiting: Vec::new(rt.alloc()),
        })
    }

    /// A descriptor that is readable once one of them can go on.
    pub fn descriptor(&self) -> RawFd {
        self.callers.descriptor()
    }

    /// Where they are listened for.
    pub fn path(&self) -> &str {
        self.path.as_str()
    }

    /// For how many milliseconds it has run.
    pub fn uptime<R: Clock>(&self, rt: &R) -> io::Result<u64> {
        let millis = self.began.elapsed(rt)?.as_millis();
        Ok(u64::try_from(millis).unwrap_or(u64::MAX))
    }

    /// In how many milliseconds a turn is due though none of them can go on.
    pub fn rest<R: Clock>(&self, rt: &R) -> io::Result<Option<u64>> {
        match self.callers.limit() {
            Some(limit) => Ok(Some(limit.saturating_sub(self.uptime(rt)?))),
            None => Ok(None),
        }
    }

    /// Each of them goes on as far as it can, where that is due or something woke the proxy. Where the system doesn't tell, nothing is done.
    pub fn turn<R: Clock>(&mut self, rt: &R, is_woken: bool) {
        if is_woken || matches!(self.rest(rt), Ok(Some(0))) {
            if let Ok(now) = self.uptime(rt) {
                let _ = self.callers.turn(now);
            }
        }
    }

    /// The place and the line of one who waits for an answer, which is owed to it from now on.
    pub fn next_line(&mut self) -> Option<(usize, Vec<u8>)> {
        self.callers.next_line()
    }

    /// The one at this place is answered so.
    pub fn answer(&mut self, place: usize, verdict: Ruling, text: &[u8]) {
        self.callers.answer(place, verdict, text);
    }

    /// The one at this place is answered when it ends. Where memory is refused for that, it is answered so now.
    pub fn keep(&mut self, place: usize) {
        if self.waiting.push(place).is_err() {
            self.callers
                .answer(place, Ruling::Failed, b"out of memory\n");
        }
    }

    /// It ends: those who wait for that are answered so, and nothing stands at the path any more.
    pub fn end<R: Files>(&mut self, rt: &R, verdict: Ruling, text: &[u8]) {
        for place in self.waiting.as_slice() {
            self.callers.answer(*place, verdict, text);
        }
        self.waiting.clear();
        let _ = remove_file(rt, self.path.as_str());
    }
}
