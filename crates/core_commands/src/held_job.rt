//! A job that stays where it is while its command is moved.

ghost use Rattle.std.specs.Prelude.{◌≡◌, ◌↔◌, MatchBool, true, List, [], ◌∷◌, IfNone, IfOk, IfSome, OnOk};
ghost use Rattle.mc_types.specs.declared.call.Origin.TheVariants.{Client};
ghost use Rattle.fresh_runs.specs.Calls.{Call as CallMade};
ghost use Rattle.fresh_runs.specs.Single.{FitsOutcome};
ghost use Rattle.route_tree.specs.At.{tree_at};
ghost use Rattle.route_tree.specs.Word.{Given, PlanWord};
ghost use Rattle.route_job.specs.Given.{given_when_done};
ghost use Rattle.route_job.specs.Jobs.{Comes, call_of, server_of_pending, IsBroken, JobShows, IsCalling, IsDone};

use mc_types::{Outcome, ServerId, SharedAsk};
use route_job::{Done, Job, JobStep};
use route_tree::Tree;
use std::alloc::{AllocError, Global};
use std::marker::Model;

/// A job on the heap. A job by value is some two hundred bytes, and a command goes through many hands.
#[derive(Drop)]
pub struct HeldJob {
    job: Box<Job>,
}

impl Model for HeldJob {
    ghost use Rattle.route_job.specs.declared.job.Job.{Job as JobOf};

    ghost Value = { JobOf };

    ghost use Rattle.std.specs.Coded.{codes};
    ghost use Rattle.route_job.specs.contracts.job.Job as jobs;

    ghost coded = { Prim.hlevel (codes, jobs.the_row.coded) };

    ghost view = { λ h. h.job.value };
}

impl HeldJob {
    /// This job. The only error is running out of memory.
    pub fn new(alloc: Global, job: Job) -> Result<HeldJob, AllocError>
        ensures { IfOk result (λ held. held ≡ job) }
    {
        let job = Box::new(alloc, job)?;
        Ok(HeldJob { job })
    }

    /// This job, in the room of another where one is given. The only error is running out of memory, where none is.
    pub fn reusing(alloc: Global, room: Option<HeldJob>, job: Job) -> Result<HeldJob, AllocError>
        ensures { IfOk result (λ held. held ≡ job) }
    {
        match room {
            None => HeldJob::new(alloc, job),
            Some(mut held) => {
                *held.job = job;
                Ok(held)
            }
        }
    }

    /// As `Job::begin_at_once`, in its room.
    pub fn begin_at_once(&mut self, tree: &Tree, ask: &SharedAsk) -> Result<bool, AllocError>
        ensures words { IfOk result (λ begun. MatchBool begun ((calls : List CallMade) (given : Given) → Comes self.new calls given ↔ PlanWord (tree_at tree.now ask.now.key) ask.now Client 0 calls given) (self.new ≡ self.old)) }
        ensures ask { IfOk result (λ begun. begun ≡ true → self.new.ask ≡ ask.now) }
    {
        self.job.begin_at_once(tree, ask)
    }

    /// As `Job::next`.
    pub fn next(&self) -> JobStep<'_>
        ensures { JobShows self.now result }
    {
        self.job.as_ref().next()
    }

    /// As `Job::server`.
    pub fn server(&self) -> Option<ServerId>
        ensures call { IfSome result (λ server. IsCalling self.now × (server ≡ server_of_pending self.now.pending)) }
        ensures done { IfNone result (IsDone self.now) }
    {
        self.job.as_ref().server()
    }

    /// As `Job::take`.
    pub fn take(&mut self, alloc: Global, outcome: Outcome) -> Result<(), AllocError>
        requires calling { IsCalling self.old }
        requires fits { FitsOutcome (call_of self.old outcome).ask outcome }
        ensures rest { OnOk result ((calls : List CallMade) (given : Given) → Comes self.new calls given ↔ Comes self.old (call_of self.old outcome ∷ calls) given) }
        ensures ask { self.new.ask ≡ self.old.ask }
    {
        self.job.take(alloc, outcome)
    }

    /// As `Job::take_done`, and the job's room, which holds nothing of the command any more, but this ask. It takes no memory.
    pub fn end(mut self, blank: SharedAsk) -> (Done, HeldJob)
        requires { IsDone self }
        ensures { (calls : List CallMade) (given : Given) → Comes self calls given ↔ ((calls ≡ []) × (given ≡ given_when_done result.0)) }
    {
        let done = self.job.take_done(blank);
        (done, self)
    }

    /// As `Job::break_off`, in its room. It takes no memory.
    pub fn clear(&mut self, blank: SharedAsk)
        ensures { IsBroken self.new }
    {
        self.job.break_off(blank);
    }

    /// As `Job::into_done`.
    pub fn into_done(self) -> Done
        requires { IsDone self }
        ensures { (calls : List CallMade) (given : Given) → Comes self calls given ↔ ((calls ≡ []) × (given ≡ given_when_done result)) }
    {
        let HeldJob { job } = self;
        Box::into_inner(job).into_done()
    }
}
