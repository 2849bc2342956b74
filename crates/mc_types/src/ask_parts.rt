//! An ask whose key is still where it was read.

ghost use Rattle.std.specs.Prelude.{◌≡◌, [], None, false, IfOk, OnOk};
ghost use Rattle.mc_types.specs.KeyText.{IsKey};
ghost use Rattle.mc_types.specs.Parts.{ask_of};

use crate::ask::{Ask, Dialect, Op};
use crate::key::Key;
use crate::lent_data::LentData;
use crate::token::Tokens;
use std::alloc::{AllocError, Global};

/// The parts of an ask. The text of its key and its data aren't copied yet: a key is 250 bytes inside, and each hand that an ask goes through
/// by value would copy them; data are copied to where an ask of before had its own.
#[derive(Drop)]
pub struct AskParts<'a> {
    /// The text of the key.
    pub key: &'a [u8],
    pub op: Op,
    pub dialect: Dialect,
    pub with_cas: bool,
    pub flags: u32,
    pub exptime: Option<i64>,
    pub body: LentData<'a>,
    pub cas: Option<u64>,
    pub delta: u64,
    pub tokens: Tokens,
}

impl<'a> AskParts<'a> {
    /// An operation on a key, with what it wants back, and nothing else. It takes no memory.
    pub fn bare(dialect: Dialect, op: Op, key: &'a [u8], tokens: Tokens) -> AskParts<'a>
        ensures ask { ask_of result ≡ record { key = key.now; op = op; dialect = dialect; with_cas = false; flags = 0; exptime = None; body = []; cas = None; delta = 0; tokens = tokens } }
    {
        AskParts {
            key,
            op,
            dialect,
            with_cas: false,
            flags: 0,
            exptime: None,
            body: LentData::empty(),
            cas: None,
            delta: 0,
            tokens,
        }
    }
}

impl Ask {
    /// The ask of these parts. The only error is running out of memory, for its data.
    pub fn of(alloc: Global, parts: AskParts) -> Result<Ask, AllocError>
        requires { IsKey parts.key.now }
        ensures { IfOk result (λ ask. ask ≡ ask_of parts.entry) }
    {
        let body = parts.body.into_body(alloc)?;
        Ok(Ask {
            key: Key::of_text(parts.key),
            op: parts.op,
            dialect: parts.dialect,
            with_cas: parts.with_cas,
            flags: parts.flags,
            exptime: parts.exptime,
            body,
            cas: parts.cas,
            delta: parts.delta,
            tokens: parts.tokens,
        })
    }

    // It becomes the ask of these parts, field by field. The only error is running out of memory, for its data.
    pub(crate) fn set(&mut self, alloc: Global, parts: AskParts) -> Result<(), AllocError>
        requires { IsKey parts.key.now }
        ensures { OnOk result (self.new ≡ ask_of parts.entry) }
    {
        self.key.set(parts.key);
        self.op = parts.op;
        self.dialect = parts.dialect;
        self.with_cas = parts.with_cas;
        self.flags = parts.flags;
        self.exptime = parts.exptime;
        self.cas = parts.cas;
        self.delta = parts.delta;
        self.tokens = parts.tokens;
        parts.body.put_into(alloc, &mut self.body)
    }
}
