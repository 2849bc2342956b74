//! The meta forms that are kept from one get to the next.

ghost use Rattle.std.specs.Prelude.{◌≡◌, ◌++◌, true, Some, IfOk, OnOk, OnErr};
ghost use Rattle.mc_types.specs.Asks.{IsAsk};
ghost use Rattle.wire_stream.specs.Spelling.{spelling_of};
ghost use Rattle.wire_answers.specs.Reading.{ReadsAnswer, LiesWithin};
ghost use Rattle.wire_stream.specs.Form.{is_retrieval, meta_form};
ghost use Rattle.wire_stream.specs.Kept.{IsKeptFor};

use crate::meta_gets::form::meta_form;
use crate::{AnswerRead, Received, read_received, write_ask};
use bytes::BytesMut;
use mc_types::{Ask, SpareBodies};
use std::alloc::{AllocError, Global};
use std::marker::Model;

/// The meta forms of the last get without the cas number and of the last one with it. The next get's form is made in place of the
/// one that is like it, so that only the first of each kind takes memory.
///
/// Contracts see nothing of it.
#[derive(Drop)]
pub struct MetaForms {
    get: Option<Ask>,
    gets: Option<Ask>,
}

impl Model for MetaForms {
    ghost use Rattle.wire_stream.specs.Kept.{FormsAreKept};

    ghost Value = { Unit {0} };

    ghost view = { λ _. tt };

    ghost invariant = { λ f. FormsAreKept f.get f.gets };
}

// The form becomes that of this get. It takes no memory.
fn renew(form: &mut Ask, ask: &Ask)
    ensures { form.new ≡ record form.old { key = ask.now.key; op = ask.now.op; exptime = ask.now.exptime } }
{
    ask.key.bytes_are_a_key();
    form.key.set(ask.key.as_bytes());
    form.op = ask.op;
    form.exptime = ask.exptime;
}

fn keep(kept: &mut Option<Ask>, form: Ask)
    ensures { kept.new ≡ Some form }
{
    *kept = Some(form);
}

// The form of the get is kept, where none is. (apart, since its caller would set the room for a form to 0 at each get)
#[inline(never)]
fn keep_first(kept: &mut Option<Ask>, alloc: Global, ask: &Ask) -> Result<(), AllocError>
    ensures ok { OnOk result (kept.new ≡ Some (meta_form ask.now)) }
    ensures err { OnErr result (kept.new ≡ kept.old) }
{
    keep(kept, meta_form(alloc, ask)?);
    Ok(())
}

// The form of the get is made in the one that is kept, where one is.
fn set_form(kept: &mut Option<Ask>, alloc: Global, ask: &Ask) -> Result<(), AllocError>
    requires { IsKeptFor ask.now.with_cas kept.old }
    ensures ok { OnOk result (kept.new ≡ Some (meta_form ask.now)) }
    ensures err { OnErr result (kept.new ≡ kept.old) }
{
    if let Some(form) = kept {
        renew(form, ask);
        return Ok(());
    }
    keep_first(kept, alloc, ask)
}

// Reads the answer to the get's form, which is kept.
fn read_kept(
    kept: &mut Option<Ask>,
    alloc: Global,
    spares: &mut SpareBodies,
    ask: &Ask,
    received: &Received,
) -> Result<AnswerRead, AllocError>
    requires { IsKeptFor ask.now.with_cas kept.old }
    ensures reads { IfOk result (ReadsAnswer (meta_form ask.now) received.now) }
    ensures within { IfOk result (LiesWithin received.now) }
    ensures kept { IsKeptFor ask.now.with_cas kept.new }
{
    set_form(kept, alloc, ask)?;
    match kept {
        Some(form) => read_received(alloc, spares, form, received),
        None => unreachable!(),
    }
}

// Writes the get's form, which is kept.
#[tactic(auto, using(crate::proofs::Forms::form_is_ask))]
fn write_kept(
    kept: &mut Option<Ask>,
    alloc: Global,
    ask: &Ask,
    out: &mut BytesMut,
) -> Result<(), AllocError>
    requires ask { IsAsk ask.now }
    requires get { is_retrieval ask.now ≡ true }
    requires kept { IsKeptFor ask.now.with_cas kept.old }
    ensures ok { OnOk result (out.new.items ≡ out.old.items ++ spelling_of (meta_form ask.now)) }
    ensures err { OnErr result (out.new.items ≡ out.old.items) }
    ensures kept { IsKeptFor ask.now.with_cas kept.new }
{
    set_form(kept, alloc, ask)?;
    match kept {
        Some(form) => write_ask(form, out),
        None => unreachable!(),
    }
}

impl MetaForms {
    /// No form is kept. It takes no memory.
    pub fn new() -> MetaForms {
        MetaForms {
            get: None,
            gets: None,
        }
    }

    // Reads what the bytes say to the get's meta form. Memory is taken for the form only where none of its kind is kept.
    pub(crate) fn read(
        &mut self,
        alloc: Global,
        spares: &mut SpareBodies,
        ask: &Ask,
        received: &Received,
    ) -> Result<AnswerRead, AllocError>
        ensures reads { IfOk result (ReadsAnswer (meta_form ask.now) received.now) }
        ensures within { IfOk result (LiesWithin received.now) }
    {
        if ask.with_cas {
            read_kept(&mut self.gets, alloc, spares, ask, received)
        } else {
            read_kept(&mut self.get, alloc, spares, ask, received)
        }
    }

    // Appends the get's meta form. Memory is taken for the form only where none of its kind is kept.
    pub(crate) fn write(
        &mut self,
        alloc: Global,
        ask: &Ask,
        out: &mut BytesMut,
    ) -> Result<(), AllocError>
        requires ask { IsAsk ask.now }
        requires get { is_retrieval ask.now ≡ true }
        ensures ok { OnOk result (out.new.items ≡ out.old.items ++ spelling_of (meta_form ask.now)) }
        ensures err { OnErr result (out.new.items ≡ out.old.items) }
    {
        if ask.with_cas {
            write_kept(&mut self.gets, alloc, ask, out)
        } else {
            write_kept(&mut self.get, alloc, ask, out)
        }
    }
}
