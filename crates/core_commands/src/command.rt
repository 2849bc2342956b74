//! A command that has begun and has not ended.

ghost use Rattle.std.specs.Prelude.{◌≡◌, true, false, OnOk, IfSome, Some, option_map};
ghost use Rattle.mc_types.specs.Asks.{IsAsk};
ghost use Rattle.fresh_runs.specs.Single.{FitsOutcome};
ghost use Rattle.route_job.specs.AtMostOne.{is_ask_prop};
ghost use Rattle.route_job.specs.Jobs.{server_of_pending};
ghost use Rattle.route_job.specs.Rest.{ask_under};

use crate::claim::Claim;
use crate::held_job::HeldJob;
use crate::ticket::OutCall;
use mc_types::{Ask, Key, Outcome, ServerId, SharedAsk};
use route_job::JobStep;
use std::alloc::{AllocError, Global};

/// A command that has begun and has not ended.
#[derive(Drop)]
pub struct Command {
    pub job: HeldJob,
    pub ask: SharedAsk,
    /// Whose command it is.
    pub client: usize,
    pub claim: Claim,
    /// Whether its next call is out.
    pub is_out: bool,
    pub ghost formed: { IsAsk job.ask } by { is_ask_prop job.ask },
}

impl Command {
    ghost use Rattle.core_commands.specs.Out.{has_call_out};
    ghost use Rattle.core_commands.specs.Counts.{is_called};
    ghost use Rattle.core_commands.specs.Outcomes.{TakesOutcome, asked_by, IsOutAs};

    /// The key of the command.
    pub fn key(&self) -> Key
        ensures { result ≡ self.now.ask.key }
    {
        *self.ask.key()
    }

    /// Whether a call of it is out. It takes no memory.
    pub fn has_call_out(&self) -> bool
        ensures { result ≡ has_call_out self.now }
    {
        self.is_out
            && match self.job.server() {
                Some(_) => true,
                None => false,
            }
    }

    /// Whether a call of it is out at this server. It takes no memory.
    pub fn is_called(&self, server: ServerId) -> bool
        ensures { result ≡ is_called server self.now }
    {
        self.is_out
            && match self.job.server() {
                Some(at) => at == server,
                None => false,
            }
    }

    /// The server of the command's call that is out. It takes no memory.
    pub fn server(&self) -> ServerId
        requires { has_call_out self.now ≡ true }
        ensures { result ≡ server_of_pending self.now.job.pending }
    {
        match self.job.server() {
            Some(server) => server,
            None => unreachable!(),
        }
    }

    /// What the command's call that is out asks, if one is. It takes no memory.
    pub fn asked(&self) -> Option<&Ask>
        ensures exact { option_map (λ ask. ask.now) result ≡ asked_by (Some self.now) }
        ensures formed { IfSome result (λ ask. IsAsk ask.now) }
    {
        if !self.is_out {
            return None;
        }
        match self.job.next() {
            JobStep::Call { ask, .. } => Some(ask.get()),
            JobStep::Done(_) => None,
        }
    }

    /// The command's call that is out, if one is. It takes no memory.
    pub fn called(&self) -> Option<OutCall<'_>>
        ensures { IfSome result (λ call. IsOutAs self.now call.server call.ask.now call.origin) }
    {
        if !self.is_out {
            return None;
        }
        match self.job.next() {
            JobStep::Call {
                server,
                ask,
                origin,
            } => Some(OutCall {
                ask: ask.get(),
                origin,
                server,
            }),
            JobStep::Done(_) => None,
        }
    }

    /// The call that is out had this outcome. The only error: memory was refused, and its job is broken then.
    #[tactic(auto, using(crate::proofs::Formed::same_is_ask))]
    pub fn take(&mut self, alloc: Global, outcome: Outcome) -> Result<(), AllocError>
        requires out { has_call_out self.old ≡ true }
        requires fits { FitsOutcome (ask_under self.old.job.frames.items self.old.job.ask) outcome }
        ensures idle { self.new.is_out ≡ false }
        ensures ask { self.new.ask ≡ self.old.ask }
        ensures claim { self.new.claim ≡ self.old.claim }
        ensures ok { OnOk result (TakesOutcome self.old outcome self.new) }
    {
        self.is_out = false;
        self.job.take(alloc, outcome)
    }
}
