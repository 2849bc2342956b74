//! An ask that several hold.

ghost use Rattle.std.specs.Prelude.{◌≡◌, [], IfOk};
ghost use Rattle.mc_types.specs.KeyText.{IsKey};
ghost use Rattle.mc_types.specs.Parts.{ask_of};

use crate::ask::Ask;
use crate::ask_parts::AskParts;
use crate::key::Key;
use crate::token::Tokens;
use std::alloc::{AllocError, Global};
use std::marker::Model;
use std::rc::Rc;

/// An ask that is shared: a copy of it takes no memory. An ask by value is some four hundred bytes, and goes through many hands.
#[derive(Drop)]
pub struct SharedAsk {
    ask: Rc<Ask>,
}

impl Model for SharedAsk {
    ghost use Rattle.mc_types.specs.declared.ask.Ask.{Ask as AskOf};

    ghost Value = { AskOf };

    ghost view = { λ s. s.ask.value };
}

// The ask of these parts, in memory of its own. (apart, since its caller would set the room for an ask to 0 each time)
#[inline(never)]
fn made_of(alloc: Global, parts: AskParts) -> Result<SharedAsk, AllocError>
    requires { IsKey parts.key.now }
    ensures { IfOk result (λ shared. shared ≡ ask_of parts.entry) }
{
    SharedAsk::new(alloc, Ask::of(alloc, parts)?)
}

impl SharedAsk {
    /// This ask. The only error is running out of memory.
    pub fn new(alloc: Global, ask: Ask) -> Result<SharedAsk, AllocError>
        ensures { IfOk result (λ shared. shared ≡ ask) }
    {
        let ask = Rc::new(alloc, ask)?;
        Ok(SharedAsk { ask })
    }

    /// This ask, in the memory of a spare one where there is one that nobody else holds. The only error is running out of memory.
    pub fn reusing(
        alloc: Global,
        spare: Option<SharedAsk>,
        ask: Ask,
    ) -> Result<SharedAsk, AllocError>
        ensures { IfOk result (λ shared. shared ≡ ask) }
    {
        let Some(mut spare) = spare else {
            return SharedAsk::new(alloc, ask);
        };
        match Rc::get_mut(&mut spare.ask) {
            Some(held) => {
                *held = ask;
                Ok(spare)
            }
            None => SharedAsk::new(alloc, ask),
        }
    }

    /// The ask of these parts, made in the memory of a spare one where there is one that nobody else holds: its key and its data aren't copied but
    /// to there. The only error is running out of memory.
    pub fn of(
        alloc: Global,
        spare: Option<SharedAsk>,
        parts: AskParts,
    ) -> Result<SharedAsk, AllocError>
        requires { IsKey parts.key.now }
        ensures { IfOk result (λ shared. shared ≡ ask_of parts.entry) }
    {
        let Some(mut spare) = spare else {
            return made_of(alloc, parts);
        };
        match Rc::get_mut(&mut spare.ask) {
            Some(held) => {
                held.set(alloc, parts)?;
                Ok(spare)
            }
            None => made_of(alloc, parts),
        }
    }

    /// No return flags, in the memory of a spare ask's, which has none then, where there is one that nobody else holds. It takes no memory.
    pub fn spare_tokens(alloc: Global, spare: &mut Option<SharedAsk>) -> Tokens
        ensures { result ≡ [] }
    {
        if let Some(spare) = spare {
            if let Some(held) = Rc::get_mut(&mut spare.ask) {
                return held.tokens.take();
            }
        }
        Tokens::new(alloc)
    }

    /// The ask.
    pub fn get(&self) -> &Ask
        ensures { result.now ≡ self.now }
    {
        self.ask.as_ref()
    }

    /// Its key.
    pub fn key(&self) -> &Key
        ensures { result.now ≡ self.now.key }
    {
        &self.get().key
    }

    /// This ask once more, shared: it takes no memory, and is refused only where the count of sharers is full.
    pub fn copy(&self) -> Result<SharedAsk, AllocError>
        ensures { IfOk result (λ ask. ask ≡ self.now) }
    {
        let ask = self.ask.clone()?;
        Ok(SharedAsk { ask })
    }
}
