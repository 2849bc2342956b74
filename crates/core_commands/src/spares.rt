//! Memory of commands that ended, for those that begin.

ghost use Rattle.std.specs.Prelude.{◌≡◌, ◌↔◌, List, []};
ghost use Rattle.fresh_runs.specs.Calls.{Call as CallMade};
ghost use Rattle.route_tree.specs.Word.{Given};
ghost use Rattle.route_job.specs.Given.{given_when_done};
ghost use Rattle.route_job.specs.Jobs.{Comes, IsDone};

use crate::held_job::HeldJob;
use mc_types::{Ask, Dialect, Key, Op, SharedAsk, Tokens};
use route_job::Done;
use std::alloc::Global;

// So many asks and so many jobs are kept at most: more than 64 clients have with 16 commands each, which may end together.
const SPARES: usize = 2_048;

// An ask with more data than this is kept only among the first few, since it holds its data until its memory is used again.
const SPARE_DATA: usize = 512;

// So many asks with more data are kept at most: stores of values of some kilobytes use each other's memory so.
const LARGE_SPARES: usize = 64;

// Each ask with more data has so many bytes of them at most, so the data of all asks that are kept have 1.5 MiB at most. Data that share the
// buffer that they came in are longer, so no kept ask holds such a buffer.
const LARGE_DATA: usize = 8_192;

/// Asks and jobs of commands that ended, whose memory is used again.
#[derive(Drop)]
pub struct Spares {
    asks: Vec<SharedAsk>,
    jobs: Vec<HeldJob>,
    // What a job that is kept holds in place of its ask.
    blank: Option<SharedAsk>,
}

// A drop that is a call keeps the proof of a caller short.
fn drop_ask(_ask: SharedAsk) {}

fn drop_job(_job: HeldJob) {}

fn blank_ask(alloc: Global) -> Option<SharedAsk> {
    let key = Key::read(b"-").ok()?;
    SharedAsk::new(
        alloc,
        Ask::bare(Dialect::Classic, Op::Get, key, Tokens::new(alloc)),
    )
    .ok()
}

// This ask once more, if it may be shared once more.
fn copy_of(ask: &SharedAsk) -> Option<SharedAsk> {
    ask.copy().ok()
}

impl Spares {
    /// None. It takes no memory.
    pub fn new(alloc: Global) -> Spares {
        Spares {
            asks: Vec::new(alloc),
            jobs: Vec::new(alloc),
            blank: None,
        }
    }

    /// The ask that was kept last, if one is kept: others may hold it still. It takes no memory.
    pub fn take_ask(&mut self) -> Option<SharedAsk> {
        self.asks.pop()
    }

    /// A job's room, if one is kept. It takes no memory.
    pub fn take_job(&mut self) -> Option<HeldJob> {
        self.jobs.pop()
    }

    // Whether an ask with as many data as this one is kept beside those that are.
    fn has_place(&self, ask: &SharedAsk) -> bool {
        let kept = self.asks.len();
        let data = ask.get().body.len();
        if kept < LARGE_SPARES {
            data <= LARGE_DATA
        } else {
            kept < SPARES && data <= SPARE_DATA
        }
    }

    // One more ask that is kept. Where memory was refused it isn't.
    fn put_ask(&mut self, ask: SharedAsk) {
        if let Err(refused) = self.asks.push(ask) {
            drop_ask(refused.value);
        }
    }

    /// An ask that nobody wants any more is kept, where it holds few data and not many are kept. Where memory was refused it isn't.
    pub fn keep_ask(&mut self, ask: SharedAsk) {
        if self.has_place(&ask) {
            self.put_ask(ask);
        } else {
            drop_ask(ask);
        }
    }

    /// The ask of a command that ended, which others hold still, is kept, where it holds few data and not many are kept.
    pub fn keep_shared(&mut self, ask: &SharedAsk) {
        if !self.has_place(ask) {
            return;
        }
        if let Some(ask) = copy_of(ask) {
            self.put_ask(ask);
        }
    }

    // The ask that jobs which are kept hold.
    fn blank(&mut self, alloc: Global) -> Option<SharedAsk> {
        if self.blank.is_none() {
            self.blank = blank_ask(alloc);
        }
        copy_of(self.blank.as_ref()?)
    }

    // A job that holds nothing of a command any more.
    fn keep_cleared(&mut self, job: HeldJob) {
        if let Err(refused) = self.jobs.push(job) {
            drop_job(refused.value);
        }
    }

    /// The room of this job is kept, where not many are; what it held of its command is let go.
    pub fn keep_job(&mut self, alloc: Global, mut job: HeldJob) {
        if self.jobs.len() >= SPARES {
            drop_job(job);
            return;
        }
        match self.blank(alloc) {
            None => drop_job(job),
            Some(blank) => {
                job.clear(blank);
                self.keep_cleared(job);
            }
        }
    }

    /// How the command of this job ended. Its room is kept, where not many are.
    pub fn end_job(&mut self, alloc: Global, job: HeldJob) -> Done
        requires { IsDone job }
        ensures { (calls : List CallMade) (given : Given) → Comes job calls given ↔ ((calls ≡ []) × (given ≡ given_when_done result)) }
    {
        if self.jobs.len() >= SPARES {
            return job.into_done();
        }
        match self.blank(alloc) {
            None => job.into_done(),
            Some(blank) => {
                let (done, room) = job.end(blank);
                self.keep_cleared(room);
                done
            }
        }
    }
}
