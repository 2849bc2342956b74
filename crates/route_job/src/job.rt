//! A command as a value: it shows its next call, and takes the outcome.

ghost use Rattle.std.specs.Prelude.{◌≡◌, ◌↔◌, MatchBool, ◌+◌, ◌≤◌, List, [], ◌∷◌, IfNone, IfOk, IfSome, OnOk, OnErr, true};
ghost use Rattle.mc_types.specs.declared.call.Origin.TheVariants.{Client};
ghost use Rattle.fresh_runs.specs.Calls.{Call as CallMade};
ghost use Rattle.fresh_runs.specs.Single.{FitsOutcome};
ghost use Rattle.route_tree.specs.At.{tree_at};
ghost use Rattle.route_tree.specs.Word.{Given, PlanWord};
ghost use Rattle.route_job.specs.Given.{given_when_done};
ghost use Rattle.route_job.specs.Settling.{IsKept, kept_prop};

use crate::done::Done;
use crate::entering::server_at_once;
use crate::frame::{Frame, Pending};
use crate::replies::{broken_done, done_by};
use crate::walk::{ask_under, origin_under, settle};
use mc_types::{Origin, Outcome, ServerId, SharedAsk};
use route_tree::{Tree, key_hash};
use std::alloc::{AllocError, Global};
use std::mem::replace;

/// One client command on a tree, stepped by the outcomes of its calls.
///
/// It borrows nothing: what it needs of the tree it shares, so it can be kept while another tree takes that one's place. No
/// part of the tree and no ask is copied. A command that calls one server takes no memory.
///
/// A job in whose `take` memory was refused is broken: it calls nothing more, and its reply is the error line
/// `SERVER_ERROR out of memory storing object`, whatever its calls were answered. Its owner drops it.
///
/// Source: mcgate's own.
#[derive(Drop)]
pub struct Job {
    ask: SharedAsk,
    // The hash of the key, where the tree is walked. (what is short comes before what is long, so that it lies in one line of the processor's cache)
    hash: u32,
    made: u64,
    frames: Vec<Frame>,
    pending: Pending,
    ghost kept: { IsKept hash ask.key ask frames.items pending made } by { kept_prop hash ask.key ask frames.items pending made },
}

/// What a job shows next.
#[derive(Drop)]
pub enum JobStep<'b> {
    /// This call.
    Call {
        server: ServerId,
        ask: &'b SharedAsk,
        origin: Origin,
    },
    /// Nothing more: the command ended so.
    Done(&'b Done),
}

impl Job {
    ghost use Rattle.route_job.specs.Jobs.{Comes, IsBroken, call_of, server_of_pending, JobShows, IsCalling, IsDone, work_of};

    /// The command on this tree for this ask: what may come of it are the words of the key's plain tree. The only error:
    /// memory was refused.
    pub fn new(alloc: Global, tree: &Tree, ask: SharedAsk) -> Result<Job, AllocError>
        ensures words { IfOk result (λ job. (calls : List CallMade) (given : Given) → Comes job calls given ↔ PlanWord (tree_at tree.now ask.key) ask Client 0 calls given) }
        ensures ask { IfOk result (λ job. job.ask ≡ ask) }
    {
        let _form = tree.form();
        if let Some(server) = server_at_once(ask.key(), tree) {
            // (nearly always: it is called without a walk, and no part of the tree is shared)
            return Ok(Job {
                ask,
                hash: 0,
                frames: Vec::new(alloc),
                pending: Pending::Call(server),
                made: 0,
            });
        }
        let hash = key_hash(ask.key());
        let mut frames = Vec::new(alloc);
        let root = tree.copy()?;
        let pending = settle(alloc, hash, &ask, &mut frames, Pending::Enter(root))?;
        Ok(Job {
            ask,
            hash,
            frames,
            pending,
            made: 0,
        })
    }

    /// The command on this tree for this ask takes this job's place, where a server is called at once: whether it is so. Else nothing
    /// changes. What this job held is let go where it stands. It takes no memory, and is refused only where the count of the ask's sharers
    /// is full.
    pub fn begin_at_once(&mut self, tree: &Tree, ask: &SharedAsk) -> Result<bool, AllocError>
        ensures words { IfOk result (λ begun. MatchBool begun ((calls : List CallMade) (given : Given) → Comes self.new calls given ↔ PlanWord (tree_at tree.now ask.now.key) ask.now Client 0 calls given) (self.new ≡ self.old)) }
        ensures ask { IfOk result (λ begun. begun ≡ true → self.new.ask ≡ ask.now) }
    {
        let Some(server) = server_at_once(ask.key(), tree) else {
            return Ok(false);
        };
        self.ask = ask.copy()?;
        self.hash = 0;
        self.frames.clear();
        self.pending = Pending::Call(server);
        self.made = 0;
        Ok(true)
    }

    /// The next call, or how the command ended. It takes no memory.
    pub fn next(&self) -> JobStep<'_>
        ensures { JobShows self.now result }
    {
        match &self.pending {
            Pending::Call(server) => JobStep::Call {
                server: *server,
                ask: ask_under(self.frames.as_slice(), &self.ask),
                origin: origin_under(self.frames.as_slice(), Origin::Client),
            },
            Pending::Back(done) => JobStep::Done(done),
            Pending::Enter(_) => unreachable!(),
        }
    }

    /// The server of the next call, or `None` where the command ended. It takes no memory, and looks at no frame.
    pub fn server(&self) -> Option<ServerId>
        ensures call { IfSome result (λ server. IsCalling self.now × (server ≡ server_of_pending self.now.pending)) }
        ensures done { IfNone result (IsDone self.now) }
    {
        match &self.pending {
            Pending::Call(server) => Some(*server),
            Pending::Back(_) => None,
            Pending::Enter(_) => unreachable!(),
        }
    }

    /// The call that is next had this outcome: what may come now is what is left of what began so. The only error: memory
    /// was refused; the job is broken then.
    #[tactic(auto, using(crate::proofs::Asking::outcome_is_short))]
    pub fn take(&mut self, alloc: Global, outcome: Outcome) -> Result<(), AllocError>
        requires calling { IsCalling self.old }
        requires fits { FitsOutcome (call_of self.old outcome).ask outcome }
        ensures rest { OnOk result ((calls : List CallMade) (given : Given) → Comes self.new calls given ↔ Comes self.old (call_of self.old outcome ∷ calls) given) }
        ensures less { OnOk result (work_of self.new + 1 ≤ work_of self.old) }
        ensures broken { OnErr result (IsBroken self.new) }
        ensures ask { self.new.ask ≡ self.old.ask }
    {
        if self.frames.is_empty() {
            // (nearly always: the reply is put in its place at once, as each hand that it goes through copies it)
            self.pending = Pending::Back(done_by(self.made, outcome));
            self.made += 1;
            return Ok(());
        }
        let done = done_by(self.made, outcome);
        self.made += 1;
        let next = Pending::Back(done);
        match settle(alloc, self.hash, &self.ask, &mut self.frames, next) {
            Ok(pending) => {
                self.pending = pending;
                Ok(())
            }
            Err(error) => {
                self.frames.clear();
                self.pending = Pending::Back(broken_done());
                Err(error)
            }
        }
    }

    /// What the job held is let go where it stands: it calls nothing more, and ends as a broken one of this ask. It takes no memory.
    pub fn break_off(&mut self, ask: SharedAsk)
        ensures { IsBroken self.new }
    {
        self.ask = ask;
        self.hash = 0;
        self.frames.clear();
        self.pending = Pending::Back(broken_done());
        self.made = 0;
    }

    /// How the command ended, whose reply alone is moved: what is left is a broken job of this ask. It takes no memory.
    pub fn take_done(&mut self, ask: SharedAsk) -> Done
        requires { IsDone self.old }
        ensures done { (calls : List CallMade) (given : Given) → Comes self.old calls given ↔ ((calls ≡ []) × (given ≡ given_when_done result)) }
        ensures broken { IsBroken self.new }
    {
        self.ask = ask;
        self.hash = 0;
        self.made = 0;
        match &mut self.pending {
            Pending::Back(done) => replace(done, broken_done()),
            _ => unreachable!(),
        }
    }

    /// How the command ended.
    pub fn into_done(self) -> Done
        requires { IsDone self }
        ensures { (calls : List CallMade) (given : Given) → Comes self calls given ↔ ((calls ≡ []) × (given ≡ given_when_done result)) }
    {
        let Job {
            ask: _ask,
            hash: _hash,
            frames: _frames,
            pending,
            made: _made,
        } = self;
        match pending {
            Pending::Back(done) => done,
            _ => unreachable!(),
        }
    }
}
