//! A command as it begins, and its next call as it goes out.

ghost use Rattle.std.specs.Prelude.{◌≡◌, ◌↔◌, List, true, IfOk, OnErr};
ghost use Rattle.mc_types.specs.declared.call.Origin.TheVariants.{Client as OfClient};
ghost use Rattle.fresh_runs.specs.Calls.{Call};
ghost use Rattle.route_tree.specs.At.{tree_at};
ghost use Rattle.route_tree.specs.Route.{IsTree};
ghost use Rattle.route_tree.specs.Word.{Given, PlanWord};
ghost use Rattle.route_job.specs.Jobs.{Comes, IsCalling};
ghost use Rattle.core_commands.specs.Begun.{IsBegun, IsTicketFor};

use crate::claim::Claim;
use crate::command::Command;
use crate::held_job::HeldJob;
use crate::ticket::Ticket;
use mc_types::SharedAsk;
use route_job::{FormedAsk, Job, JobStep};
use route_tree::Tree;
use std::alloc::{AllocError, Global};

/// A drop that is a call keeps the proof of a caller short.
pub fn drop_ask(_ask: SharedAsk) {}

/// Drops a command: a drop that is a call keeps the proof of a caller short.
pub fn drop_command(_command: Command) {}

// A job of the ask, which it shares, moved into the room of another where one is given.
fn job_anew(
    alloc: Global,
    room: Option<HeldJob>,
    tree: &Tree,
    ask: &SharedAsk,
) -> Result<HeldJob, AllocError>
    ensures words { IfOk result (λ job. (calls : List Call) (given : Given) → Comes job calls given ↔ PlanWord (tree_at tree.now ask.now.key) ask.now OfClient 0 calls given) }
    ensures ask { IfOk result (λ job. job.ask ≡ ask.now) }
{
    let ask = ask.copy()?;
    let job = Job::new(alloc, tree, ask)?;
    HeldJob::reusing(alloc, room, job)
}

// A job of the ask, which it shares, in the room of another where one is given.
fn job_of(
    alloc: Global,
    room: Option<HeldJob>,
    tree: &Tree,
    ask: &SharedAsk,
) -> Result<HeldJob, AllocError>
    ensures words { IfOk result (λ job. (calls : List Call) (given : Given) → Comes job calls given ↔ PlanWord (tree_at tree.now ask.now.key) ask.now OfClient 0 calls given) }
    ensures ask { IfOk result (λ job. job.ask ≡ ask.now) }
{
    let Some(mut room) = room else {
        return job_anew(alloc, None, tree, ask);
    };
    // (nearly always: nothing of the job is moved then)
    if room.begin_at_once(tree, ask)? {
        return Ok(room);
    }
    job_anew(alloc, Some(room), tree, ask)
}

/// A command of a client for this ask with this claim, as it begins on this tree, with its job in the room of another where one is
/// given. The only error is running out of memory.
#[tactic(auto, using(crate::proofs::Formed::same_is_ask))]
pub fn command_of(
    alloc: Global,
    room: Option<HeldJob>,
    tree: &Tree,
    client: usize,
    ask: &FormedAsk,
    claim: Claim,
) -> Result<Command, AllocError>
    ensures begun { IfOk result (λ command. IsBegun tree.now client ask.now.ask claim command) }
    ensures tree { IsTree tree.now }
{
    let _form = tree.form();
    let kept = ask.ask.copy()?;
    match job_of(alloc, room, tree, &ask.ask) {
        Ok(job) => Ok(Command {
            job,
            ask: kept,
            client,
            claim,
            is_out: false,
        }),
        Err(error) => {
            drop_ask(kept);
            Err(error)
        }
    }
}

// The call that the command's job shows.
fn ticket_of(number: u64, command: &Command) -> Result<Ticket, AllocError>
    requires { IsCalling command.now.job }
    ensures { IfOk result (IsTicketFor number command.now.job) }
{
    match command.job.next() {
        JobStep::Call {
            server,
            ask,
            origin,
        } => Ok(Ticket {
            ask: ask.copy()?,
            number,
            origin,
            server,
        }),
        JobStep::Done(_) => unreachable!(),
    }
}

impl Command {
    /// The command's next call, which is out then. The only error is running out of memory, which leaves the command as it was; it takes none, and
    /// is refused only where the count of the ask's sharers is full.
    pub fn send(&mut self, number: u64) -> Result<Ticket, AllocError>
        requires { IsCalling self.old.job }
        ensures ticket { IfOk result (IsTicketFor number self.old.job) }
        ensures out { IfOk result (λ ticket. self.new ≡ record self.old { is_out = true }) }
        ensures err { OnErr result (self.new ≡ self.old) }
    {
        let ticket = ticket_of(number, self)?;
        self.is_out = true;
        Ok(ticket)
    }
}
