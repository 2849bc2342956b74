//! What a server answers, in both dialects.

ghost use Rattle.std.specs.Prelude.{◌≡◌, ◌↔◌, IfOk, IsTrue};
ghost use Rattle.mc_types.specs.Rank.{rank_of, code_rank};
ghost use Rattle.mc_types.specs.Shows.{shows, fields_show};
ghost use Rattle.mc_types.specs.Acknowledged.{says_gone, Acknowledges};

use crate::ask::{Ask, Op};
use crate::body::Body;
use crate::error_text::ErrorText;
use std::alloc::AllocError;

/// The code of a meta answer.
///
/// Source: memcached's protocol.txt, "Meta Commands".
#[derive(Clone, Copy, PartialEq, Eq)]
pub enum Code {
    /// Done, without data.
    Hd,
    /// Done, with data.
    Va,
    /// A miss.
    En,
    /// Not stored.
    Ns,
    /// Another cas number is held.
    Ex,
    /// Nothing is held.
    Nf,
}

/// What stands on a meta answer beside its code.
#[derive(Drop)]
pub struct Fields {
    pub body: Option<Body>,
    pub cas: Option<u64>,
    pub flags: Option<u32>,
    /// The length of the data, in bytes.
    pub size: Option<u32>,
    /// The seconds left, -1 for never.
    pub ttl: Option<i64>,
}

/// What is answered to an ask.
#[derive(Drop)]
pub enum Answer {
    Stored,
    NotStored,
    Exists,
    NotFound,
    Deleted,
    Touched,
    /// The number after `incr` or `decr`.
    Number(u64),
    Hit {
        flags: u32,
        body: Body,
        cas: Option<u64>,
    },
    Miss,
    Meta(Code, Fields),
    ClientError(ErrorText),
    Error,
    ServerError(ErrorText),
}

impl Code {
    fn rank(self) -> u8
        ensures { result ≡ code_rank self }
    {
        match self {
            Code::Hd | Code::Va => 0,
            Code::En | Code::Ns | Code::Nf => 1,
            Code::Ex => 2,
        }
    }
}

impl Fields {
    /// Nothing beside the code. It takes no memory.
    pub fn none() -> Fields
        ensures { result ≡ record { body = None; cas = None; flags = None; size = None; ttl = None } }
    {
        Fields {
            body: None,
            cas: None,
            flags: None,
            size: None,
            ttl: None,
        }
    }

    fn show(&self) -> bool
        ensures { result ≡ fields_show self.now }
    {
        self.body.is_some() || self.flags.is_some() || self.size.is_some()
    }

    fn copy(&self) -> Result<Fields, AllocError>
        ensures { IfOk result (λ fields. fields ≡ self.now) }
    {
        let body = match &self.body {
            None => None,
            Some(body) => Some(body.copy()?),
        };
        Ok(Fields {
            body,
            cas: self.cas,
            flags: self.flags,
            size: self.size,
            ttl: self.ttl,
        })
    }
}

impl Answer {
    /// How bad the answer is: 0 where it was done, 1 where nothing was there, 2 where another cas number is held,
    /// 3 where the ask was wrong, 4 where the server or the call failed. It takes no memory.
    ///
    /// Source: mcgate's own.
    pub fn rank(&self) -> u8
        ensures { result ≡ rank_of self.now }
    {
        match self {
            Answer::Stored | Answer::Deleted | Answer::Touched => 0,
            Answer::Number(_) | Answer::Hit { .. } => 0,
            Answer::NotFound | Answer::NotStored | Answer::Miss => 1,
            Answer::Exists => 2,
            Answer::ClientError(_) | Answer::Error => 3,
            Answer::ServerError(_) => 4,
            Answer::Meta(code, _) => code.rank(),
        }
    }

    /// Whether the answer shows a part of an item: its data, flags, size or number. It takes no memory.
    pub fn shows(&self) -> bool
        ensures { result ≡ shows self.now }
    {
        match self {
            Answer::Hit { .. } | Answer::Number(_) => true,
            Answer::Meta(_, fields) => fields.show(),
            _ => false,
        }
    }

    fn says_gone(&self) -> bool
        ensures { result ≡ says_gone self.now }
    {
        match self {
            Answer::Deleted | Answer::NotFound => true,
            Answer::Meta(Code::Hd, _) | Answer::Meta(Code::Nf, _) => true,
            _ => false,
        }
    }

    /// Whether the ask is a delete and the answer says that nothing is held any more: `DELETED`, `NOT_FOUND`, `HD` or
    /// `NF`. It takes no memory.
    pub fn acknowledges(&self, ask: &Ask) -> bool
        ensures { IsTrue result ↔ Acknowledges ask.now self.now }
    {
        ask.op == Op::Delete && self.says_gone()
    }

    /// This answer once more, with its data shared. The only error is running out of memory.
    pub fn copy(&self) -> Result<Answer, AllocError>
        ensures { IfOk result (λ answer. answer ≡ self.now) }
    {
        Ok(match self {
            Answer::Stored => Answer::Stored,
            Answer::NotStored => Answer::NotStored,
            Answer::Exists => Answer::Exists,
            Answer::NotFound => Answer::NotFound,
            Answer::Deleted => Answer::Deleted,
            Answer::Touched => Answer::Touched,
            Answer::Number(number) => Answer::Number(*number),
            Answer::Hit { flags, body, cas } => Answer::Hit {
                flags: *flags,
                body: body.copy()?,
                cas: *cas,
            },
            Answer::Miss => Answer::Miss,
            Answer::Meta(code, fields) => Answer::Meta(*code, fields.copy()?),
            Answer::ClientError(text) => Answer::ClientError(text.copy()?),
            Answer::Error => Answer::Error,
            Answer::ServerError(text) => Answer::ServerError(text.copy()?),
        })
    }
}
