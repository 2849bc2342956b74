//! How a command, or a part of it, may end without asking any further route.
ghost use Rattle.std.specs.Prelude.{◌≡◌, ◌≤◌, None, length};
ghost use Rattle.mc_types.specs.Asks.{data_limit};
ghost use Rattle.fresh_runs.specs.Single.{reply_of};
ghost use Rattle.route_tree.specs.Word.{given_by, answer_of_nothing, code_of_nothing, word_of_nothing, failing_reply};
ghost use Rattle.route_job.specs.Given.{given_when_done};
ghost use Rattle.route_job.specs.Parts.{worse, broken_reply, hit_data};

use crate::done::Done;
use mc_types::{Answer, Code, Dialect, ErrorText, Fields, Op, Outcome, OwnText};

/// What the call of this number gives: its answer, or an error where it failed.
pub(crate) fn done_by(b: u64, outcome: Outcome) -> Done
    requires { length (hit_data (reply_of outcome)) ≤ data_limit }
    ensures { given_when_done result ≡ given_by b outcome }
{
    match outcome {
        Outcome::Answered(reply) => {
            let from = if reply.shows() { Some(b) } else { None };
            Done { from, reply }
        }
        Outcome::Failed => Done {
            from: None,
            reply: Answer::ServerError(ErrorText::own(OwnText::CallFailed)),
        },
    }
}

fn code_of_nothing(op: Op) -> Code
    ensures { result ≡ code_of_nothing op }
{
    match op {
        Op::Get | Op::Gat => Code::En,
        Op::Set | Op::Add | Op::Replace | Op::Append | Op::Prepend => Code::Ns,
        Op::Cas | Op::Delete | Op::Incr | Op::Decr | Op::Touch => Code::Nf,
    }
}

fn word_of_nothing(op: Op) -> Answer
    ensures { result ≡ word_of_nothing op }
{
    match op {
        Op::Get | Op::Gat => Answer::Miss,
        Op::Set | Op::Add | Op::Replace | Op::Append | Op::Prepend => Answer::NotStored,
        Op::Cas | Op::Delete | Op::Incr | Op::Decr | Op::Touch => Answer::NotFound,
    }
}

fn answer_of_nothing(dialect: Dialect, op: Op) -> Answer
    ensures { result ≡ answer_of_nothing dialect op }
{
    match dialect {
        Dialect::Classic => word_of_nothing(op),
        Dialect::Meta => Answer::Meta(code_of_nothing(op), Fields::none()),
    }
}

/// The reply of a server that holds nothing and keeps nothing.
#[tactic(auto, using(crate::proofs::Asking::nothing_is_short))]
pub fn null_done(dialect: Dialect, op: Op) -> Done
    ensures { given_when_done result ≡ record { reply = answer_of_nothing dialect op; from = None } }
{
    Done {
        from: None,
        reply: answer_of_nothing(dialect, op),
    }
}

/// The reply of the route that is an error.
pub fn failing_done() -> Done
    ensures { given_when_done result ≡ failing_reply }
{
    Done {
        from: None,
        reply: Answer::ServerError(ErrorText::own(OwnText::ErrorRoute)),
    }
}

/// The end of a command that was refused memory.
pub fn broken_done() -> Done
    ensures { given_when_done result ≡ broken_reply }
{
    Done {
        from: None,
        reply: Answer::ServerError(ErrorText::own(OwnText::OutOfMemory)),
    }
}

/// The first of the two that has the greater rank.
pub fn worse_of(first: Done, second: Done) -> Done
    ensures { given_when_done result ≡ worse (given_when_done first) (given_when_done second) }
{
    if first.reply.rank() < second.reply.rank() {
        second
    } else {
        first
    }
}
