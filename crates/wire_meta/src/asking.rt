//! What a request asks.
ghost use Rattle.std.specs.Prelude.{◌≡◌, ℕ, List, [], ◌<◌, ◌≤◌, IfOk, Some, length, slice_get};
ghost use Rattle.text_words.specs.Word.{words, text_at};
ghost use Rattle.mc_types.specs.Parts.{ask_of};
ghost use Rattle.wire_parts.specs.Places.{SpanIsIn};
ghost use Rattle.wire_meta.specs.Flags.{flag_letter, flag_text, flag_wants, tokens_in, wanted_by};
ghost use Rattle.wire_meta.specs.Places.{meta_order_in, flags_in};
ghost use Rattle.wire_meta.specs.Message.{IsMetaReadFrom, meta_message_in};
ghost use Rattle.wire_meta.specs.Asks.{meta_asks_of, meta_quiet_of, meta_own_of, get_op, store_op, meta_bare_ask, ask_by, IsMetaAsk};

use crate::command::{Flags, Kind, MetaCommand, MetaRequest, Values};
use mc_types::{AskParts, Dialect, LentData, Op, Opaque, Token, Tokens};
use std::alloc::{AllocError, Global};
use text_words::word::{Span, next_word};
use wire_parts::ProxyCommand;
use wire_parts::received::Received;

fn wanted_by(letter: u8, text: &[u8]) -> Option<Token>
    ensures { result ≡ wanted_by letter text.now }
{
    if letter == b'c' {
        Some(Token::Cas)
    } else if letter == b'f' {
        Some(Token::Flags)
    } else if letter == b'k' {
        Some(Token::Key)
    } else if letter == b's' {
        Some(Token::Size)
    } else if letter == b't' {
        Some(Token::Ttl)
    } else if letter == b'v' {
        Some(Token::Value)
    } else if letter == b'O' {
        Some(Token::Opaque(Opaque::read(text)?))
    } else {
        None
    }
}

// What a flag wants back.
fn wanted(word: &[u8]) -> Option<Token>
    requires { 0 < length word.now }
    ensures { result ≡ flag_wants word.now }
{
    wanted_by(word[0], &word[1..])
}

// The text that stands there.
fn key_in<'a>(received: &'a Received, key: Span) -> &'a [u8]
    requires { SpanIsIn (length received.now) key }
    ensures { result.now ≡ text_at received.now key }
{
    received.between(key.start, key.end)
}

// What the flags want back, in their order, in the room for them.
fn tokens(room: Tokens, received: &Received, flags: Span) -> Result<Tokens, AllocError>
    requires inside { SpanIsIn (length received.now) flags }
    requires none { room ≡ [] }
    ensures { IfOk result (λ tokens. tokens ≡ tokens_in (words (text_at received.now flags))) }
{
    let text = received.between(flags.start, flags.end);
    let mut tokens = room;
    let mut from = 0;
    while let Some(word) = next_word(text, from) {
        if let Some(token) = wanted(&text[word.start..word.end]) {
            tokens.push(token)?;
        }
        from = word.end;
    }
    Ok(tokens)
}

fn get_op(exptime: Option<i64>) -> Op
    ensures { result ≡ get_op exptime }
{
    match exptime {
        None => Op::Get,
        Some(_) => Op::Gat,
    }
}

fn store_op(cas: Option<u64>, mode: Option<Op>) -> Op
    ensures { result ≡ store_op cas mode }
{
    match cas {
        Some(_) => Op::Cas,
        None => mode.unwrap_or(Op::Set),
    }
}

fn bare(op: Op, key: &[u8], tokens: Tokens) -> AskParts<'_>
    ensures { ask_of result ≡ meta_bare_ask op key.now tokens }
{
    AskParts::bare(Dialect::Meta, op, key, tokens)
}

// The ask of a kind, by what its flags say.
fn ask_by<'a>(
    kind: Kind,
    key: &'a [u8],
    values: Values,
    tokens: Tokens,
    body: LentData<'a>,
) -> AskParts<'a>
    ensures { ask_of result ≡ ask_by kind key.now values tokens body.entry }
{
    match kind {
        Kind::Get => AskParts {
            exptime: values.exptime,
            ..bare(get_op(values.exptime), key, tokens)
        },
        Kind::Store => AskParts {
            flags: values.flags.unwrap_or(0),
            exptime: Some(values.exptime.unwrap_or(0)),
            body,
            cas: values.cas,
            ..bare(store_op(values.cas, values.mode), key, tokens)
        },
        Kind::Delete => AskParts {
            cas: values.cas,
            ..bare(Op::Delete, key, tokens)
        },
        Kind::Count => AskParts {
            exptime: values.exptime,
            cas: values.cas,
            delta: values.delta.unwrap_or(1),
            ..bare(values.mode.unwrap_or(Op::Incr), key, tokens)
        },
    }
}

impl MetaRequest {
    /// What the request asks of mcgate itself, if it does. It takes no memory.
    pub fn own(&self) -> Option<ProxyCommand>
        ensures { (bytes : List ℕ) → result ≡ meta_own_of (meta_message_in bytes self.now) }
    {
        match self.command {
            MetaCommand::Own(own) => Some(own),
            MetaCommand::Keyed { .. } => None,
        }
    }

    /// How many asks the request is: one, none for a request of mcgate itself. It takes no memory.
    pub fn asks(&self) -> usize
        ensures { (bytes : List ℕ) → IsMetaReadFrom bytes self.now → result ≡ length (meta_asks_of (meta_message_in bytes self.now)) }
    {
        match self.command {
            MetaCommand::Own(_) => 0,
            MetaCommand::Keyed { .. } => 1,
        }
    }

    /// Whether `q` stands on its line, which hides what the client expects: `EN` of `mg`, `HD` of `ms`, `HD` and `NF` of
    /// `md` and `ma`. It takes no memory.
    pub fn quiet(&self) -> bool
        ensures { (bytes : List ℕ) → IsMetaReadFrom bytes self.now → result ≡ meta_quiet_of (meta_message_in bytes self.now) }
    {
        match self.command {
            MetaCommand::Keyed { flags, .. } => flags.values.quiet,
            MetaCommand::Own(_) => false,
        }
    }

    /// The parts of the ask of this number, counted from 0: its key and its data are still where they were read, but for large data, which may
    /// share the buffer that they came in; its return flags stand in the room that is given for them. The only error is running out of memory.
    pub fn parts<'a>(
        &self,
        alloc: Global,
        room: Tokens,
        received: &'a Received,
        i: usize,
    ) -> Result<AskParts<'a>, AllocError>
        requires room { room ≡ [] }
        requires read { IsMetaReadFrom received.now self.now }
        requires there { i < length (meta_asks_of (meta_message_in received.now self.now)) }
        ensures value { IfOk result (λ parts. slice_get (meta_asks_of (meta_message_in received.now self.now)) i ≡ Some (ask_of parts)) }
        ensures ask { IfOk result (λ parts. IsMetaAsk (ask_of parts)) }
    {
        let _first = i;
        match self.command {
            MetaCommand::Keyed {
                key,
                flags,
                kind,
                ..
            } => {
                let body = received.lent(alloc, self.block.start, self.block.end)?;
                let tokens = tokens(room, received, flags.span)?;
                Ok(ask_by(kind, key_in(received, key), flags.values, tokens, body))
            }
            MetaCommand::Own(_) => unreachable!(),
        }
    }
}
