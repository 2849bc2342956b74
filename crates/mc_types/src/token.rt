//! The flags of a meta command, and the text of an opaque one.

ghost use Rattle.std.specs.Prelude.{◌≡◌, [], ◌∷◌, ◌++◌, IsTrue, ◌↔◌, IfSome, IsSome, IfOk, OnOk, OnErr, length, vec_len};
ghost use Rattle.std.specs.List.{list_all};
ghost use Rattle.mc_types.specs.OpaqueText.{IsOpaque, is_opaque_byte};

use crate::limits::OPAQUE_LIMIT;
use std::alloc::{AllocError, Global};
use std::marker::Model;
use std::mem::replace;

/// The text of an opaque token: 1 to [`OPAQUE_LIMIT`] bytes, each 33..=126, kept inside.
///
/// Source: memcached's protocol.txt, "Meta Commands", the flag `O`.
#[derive(Clone, Copy)]
pub struct Opaque {
    len: u8,
    bytes: [u8; OPAQUE_LIMIT],
}

impl Model for Opaque {
    ghost use Rattle.std.specs.Prelude.{List, ℕ, length, take};
    ghost use Rattle.mc_types.specs.OpaqueText.{HoldsOpaque};
    ghost use Rattle.mc_types.specs.Padded.{padded};
    ghost use Rattle.mc_types.specs.declared.limits.TheConstants.{OPAQUE_LIMIT};

    ghost Value = { List ℕ };

    ghost view = { λ o. take o.len o.bytes };

    ghost invariant = { λ o. HoldsOpaque o.len o.bytes };

    ghost inverse = { λ text. record { len = length text; bytes = padded OPAQUE_LIMIT text } };

    ghost use Rattle.mc_types.specs.OpaqueInverse.{opaque_inverse_is};

    ghost inverse_ok = { opaque_inverse_is };
}

fn are_opaque_bytes(text: &[u8]) -> bool
    ensures { result ≡ list_all is_opaque_byte text.now }
{
    text.iter().all(|b| *b >= 33 && *b <= 126)
}

fn opaque_of(text: &[u8]) -> Opaque
    requires { IsOpaque text.now }
    ensures { result ≡ text.now }
{
    let mut bytes = [0; OPAQUE_LIMIT];
    bytes[..text.len()].copy_from_slice(text);
    Opaque {
        len: text.len() as u8,
        bytes,
    }
}

impl Opaque {
    /// The opaque text, where it is one: 1 to [`OPAQUE_LIMIT`] bytes, each 33..=126. It takes no memory.
    pub fn read(text: &[u8]) -> Option<Opaque>
        ensures valid { IsSome result ↔ IsOpaque text.now }
        ensures value { IfSome result (λ o. o ≡ text.now) }
    {
        if text.is_empty() || text.len() > OPAQUE_LIMIT || !are_opaque_bytes(text) {
            return None;
        }
        Some(opaque_of(text))
    }

    /// The bytes of the text.
    pub fn as_bytes(&self) -> &[u8]
        ensures value { result.now ≡ self.now }
        ensures opaque { IsOpaque self.now }
    {
        &self.bytes[..self.len as usize]
    }
}

/// What a meta ask wants back beside the code of its answer.
///
/// Source: memcached's protocol.txt, "Meta Commands", the flags `c f k s t v O`.
#[derive(Clone, Copy)]
pub enum Token {
    /// `c`: the cas number.
    Cas,
    /// `f`: the flags.
    Flags,
    /// `k`: the key.
    Key,
    /// `s`: the length of the data, in bytes.
    Size,
    /// `t`: the seconds left, -1 for never.
    Ttl,
    /// `v`: the data.
    Value,
    /// `O`: this text.
    Opaque(Opaque),
}

/// The return flags of an ask, in the client's order. None of them takes no memory.
#[derive(Drop)]
pub struct Tokens {
    list: Vec<Token>,
}

impl Model for Tokens {
    ghost use Rattle.std.specs.Prelude.{List};
    ghost use Rattle.mc_types.specs.declared.token.Token.{Token};

    ghost Value = { List Token };

    ghost view = { λ t. t.list.items };
}

impl Tokens {
    /// No flags. It takes no memory.
    pub fn new(alloc: Global) -> Tokens
        ensures { result ≡ [] }
    {
        Tokens {
            list: Vec::new(alloc),
        }
    }

    /// Adds a flag after the others. The only error is running out of memory, which leaves the list as it was.
    pub fn push(&mut self, token: Token) -> Result<(), AllocError>
        ensures ok { OnOk result (self.new ≡ self.old ++ token ∷ []) }
        ensures err { OnErr result (self.new ≡ self.old) }
    {
        self.list.push(token)?;
        Ok(())
    }

    // No flags, in the memory of these, which are none then. It takes no memory.
    pub(crate) fn take(&mut self) -> Tokens
        ensures { result ≡ [] }
    {
        let alloc = *self.list.allocator();
        let mut list = replace(&mut self.list, Vec::new(alloc));
        list.clear();
        Tokens { list }
    }

    /// The flags, in order.
    pub fn as_slice(&self) -> &[Token]
        ensures { result.now ≡ self.now }
    {
        self.list.as_slice()
    }

    /// These flags once more. The only error is running out of memory.
    pub fn copy(&self) -> Result<Tokens, AllocError>
        ensures { IfOk result (λ tokens. tokens ≡ self.now) }
    {
        let alloc = *self.list.allocator();
        Ok(Tokens {
            list: Vec::from_slice(alloc, self.list.as_slice())?,
        })
    }
}
