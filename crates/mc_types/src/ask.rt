//! What is asked of a server, in both dialects.

ghost use Rattle.std.specs.Prelude.{◌≡◌, ◌≤◌, ◌<◌, ◌^◌, [], None, false, IfOk, IfSome, length};
ghost use Rattle.mc_types.specs.Asks.{all_ops, AreInRange, IsExptime, data_limit};

use crate::body::Body;
use crate::key::Key;
use crate::token::Tokens;
use std::alloc::AllocError;

/// What is asked of a server, whichever dialect it is written in.
///
/// Source: memcached's protocol.txt; `mg`, `ms`, `md` and `ma` are read as these operations too.
#[derive(Clone, Copy, PartialEq, Eq)]
pub enum Op {
    Get,
    Gat,
    Set,
    Add,
    Replace,
    Append,
    Prepend,
    Cas,
    Delete,
    Incr,
    Decr,
    Touch,
}

impl Op {
    /// All operations, in the order of their declaration.
    pub fn all() -> [Op; 12]
        ensures { result ≡ all_ops }
    {
        [
            Op::Get,
            Op::Gat,
            Op::Set,
            Op::Add,
            Op::Replace,
            Op::Append,
            Op::Prepend,
            Op::Cas,
            Op::Delete,
            Op::Incr,
            Op::Decr,
            Op::Touch,
        ]
    }
}

/// The two dialects of memcached's text protocol.
#[derive(Clone, Copy, PartialEq, Eq)]
pub enum Dialect {
    Classic,
    Meta,
}

/// One command on one key, as a client or the proxy asks it of a server.
///
/// Which fields an ask may have set is a table over its dialect and operation; the others are empty, 0 or `None`.
#[derive(Drop)]
pub struct Ask {
    pub key: Key,
    pub op: Op,
    pub dialect: Dialect,
    /// Whether a classic `gets` or `gats` wants the cas number.
    pub with_cas: bool,
    /// The flags that a store keeps beside the data.
    pub flags: u32,
    /// As the protocol writes it: 0 never expires, up to 2,592,000 are seconds from now, more is a Unix moment, a
    /// negative one has expired already.
    pub exptime: Option<i64>,
    pub body: Body,
    /// The cas number that has to be equal.
    pub cas: Option<u64>,
    /// By how much `incr` and `decr` count.
    pub delta: u64,
    /// What a meta ask wants back.
    pub tokens: Tokens,
}

fn exptime_in_range(exptime: Option<i64>)
    ensures { IfSome exptime IsExptime }
{
    if let Some(_exptime) = exptime {}
}

fn cas_in_range(cas: Option<u64>)
    ensures { IfSome cas (λ cas. cas < 2 ^ 64) }
{
    if let Some(_cas) = cas {}
}

impl Ask {
    /// An operation on a key, with what it wants back, and nothing else. It takes no memory.
    pub fn bare(dialect: Dialect, op: Op, key: Key, tokens: Tokens) -> Ask
        ensures { result ≡ record { key = key; op = op; dialect = dialect; with_cas = false; flags = 0; exptime = None; body = []; cas = None; delta = 0; tokens = tokens } }
    {
        Ask {
            key,
            op,
            dialect,
            with_cas: false,
            flags: 0,
            exptime: None,
            body: Body::empty(),
            cas: None,
            delta: 0,
            tokens,
        }
    }

    /// Its numbers are in the ranges of their types. It does nothing.
    pub fn numbers_in_range(&self)
        requires { length self.now.body ≤ data_limit }
        ensures { AreInRange self.now }
    {
        let _flags = self.flags;
        let _delta = self.delta;
        exptime_in_range(self.exptime);
        cas_in_range(self.cas);
    }

    /// This ask once more, with its data shared. The only error is running out of memory.
    pub fn copy(&self) -> Result<Ask, AllocError>
        ensures { IfOk result (λ ask. ask ≡ self.now) }
    {
        Ok(Ask {
            key: self.key,
            op: self.op,
            dialect: self.dialect,
            with_cas: self.with_cas,
            flags: self.flags,
            exptime: self.exptime,
            body: self.body.copy()?,
            cas: self.cas,
            delta: self.delta,
            tokens: self.tokens.copy()?,
        })
    }
}
