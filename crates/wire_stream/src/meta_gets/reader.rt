//! The answer to an ask that went out in meta form.

ghost use Rattle.std.specs.Prelude.{IsSome, IfOk};
ghost use Rattle.mc_types.specs.Asks.{IsAsk};
ghost use Rattle.wire_answers.specs.Reading.{LiesWithin};
ghost use Rattle.wire_stream.specs.Reading.{IsHitOf, SaysSame, IsTold, ReadsInMeta};

use crate::meta_gets::form::is_retrieval;
use crate::meta_gets::kept::MetaForms;
use crate::{AnswerRead, Received, read_received};
use mc_types::{Answer, Ask, Code, Fields, SpareBodies};
use std::alloc::{AllocError, Global};
use wire_answers::laws::spelled_answers_fit;

fn hit_of(fields: Fields) -> Answer
    requires flags { IsSome fields.flags }
    requires body { IsSome fields.body }
    ensures { IsHitOf fields result }
{
    let Fields {
        body,
        cas,
        flags,
        ..
    } = fields;
    match (flags, body) {
        (Some(flags), Some(body)) => Answer::Hit { flags, body, cas },
        _ => unreachable!(),
    }
}

// The classic answer that says what was told in meta form.
fn classic_of(told: Answer) -> Answer
    requires { IsTold told }
    ensures { SaysSame told result }
{
    match told {
        Answer::Meta(Code::Va, fields) => hit_of(fields),
        Answer::Meta(_, _) => Answer::Miss,
        other => other,
    }
}

/// Reads the answer to an ask that [`crate::meta_gets::write_in_meta`] wrote, at the front of the bytes that a server sent, as the answer to the
/// ask itself: of a classic get `VA` is a hit, with the cas number where it was asked for, `EN` a miss, and an error line that line.
/// What [`read_received`] takes for cut or foreign of the meta form is cut or foreign.
///
/// The only error is running out of memory. Memory is taken for the form only where none of its kind is kept, so after the first answer
/// to a get and the first to a `gets` none is; for data as [`read_received`] says.
///
/// Source: memcached's protocol.txt, "Meta Get"; what is foreign is mcgate's own.
#[tactic(auto, using(crate::proofs::Answers::reads_as_it_is, crate::proofs::Answers::told_fits))]
pub fn read_in_meta(
    alloc: Global,
    forms: &mut MetaForms,
    spares: &mut SpareBodies,
    ask: &Ask,
    received: &Received,
) -> Result<AnswerRead, AllocError>
    requires { IsAsk ask.now }
    ensures reads { IfOk result (ReadsInMeta ask.now received.now) }
    ensures within { IfOk result (LiesWithin received.now) }
{
    spelled_answers_fit();
    if !is_retrieval(ask) {
        return read_received(alloc, spares, ask, received);
    }
    match forms.read(alloc, spares, ask, received)? {
        AnswerRead::More => Ok(AnswerRead::More),
        AnswerRead::Foreign => Ok(AnswerRead::Foreign),
        AnswerRead::Answer(told, used) => Ok(AnswerRead::Answer(classic_of(told), used)),
    }
}
