//! What a server holds, read plainly from what happened to it.

ghost use Rattle.std.specs.Prelude.{◌≡◌, ◌++◌, ◌↔◌, IfOk, IsTrue, option_map, IsSome, decimal, replicate};
ghost use Rattle.mc_types.specs.Items.{Item, after_call, after_done, is_done, number_text, number_made, recounted, with_content, is_up};
ghost use Rattle.mc_types.specs.Agree.{AnswerAgrees};
ghost use Rattle.fresh_runs.specs.Life.{held_in};
ghost use Rattle.examples_parts.specs.Marks.{life_of_marks};

use crate::marks::ServerMark;
use itoa::Buffer;
use mc_types::{Answer, Ask, Body, Code, Key, Op};
use std::alloc::{AllocError, Global};
use std::marker::Model;
use text_words::arithmetic::incr_or_decr;

/// An item that is held: its data, its flags, and the number of the command whose data began it.
#[derive(Drop)]
pub struct HeldItem {
    content: Body,
    flags: u32,
    stamp: u64,
}

impl Model for HeldItem {
    ghost use Rattle.mc_types.specs.Items.{Item};

    ghost Value = { Item };

    ghost view = { λ i. record { content = i.content; flags = i.flags; stamp = i.stamp } };
}

impl HeldItem {
    /// An item of these parts.
    pub fn new(content: Body, flags: u32, stamp: u64) -> HeldItem
        ensures { result ≡ record { content = content; flags = flags; stamp = stamp } }
    {
        HeldItem {
            content,
            flags,
            stamp,
        }
    }

    /// The data.
    pub fn content(&self) -> &[u8]
        ensures { result.now ≡ self.now.content }
    {
        self.content.as_slice()
    }

    /// The flags that were stored with the data.
    pub fn flags(&self) -> u32
        ensures { result ≡ self.now.flags }
    {
        self.flags
    }

    /// The number of the client command whose data began the item; 0 for what was there before the run.
    pub fn stamp(&self) -> u64
        ensures { result ≡ self.now.stamp }
    {
        self.stamp
    }

    fn copy(&self) -> Result<HeldItem, AllocError>
        ensures { IfOk result (λ item. item ≡ self.now) }
    {
        Ok(HeldItem {
            content: self.content.copy()?,
            flags: self.flags,
            stamp: self.stamp,
        })
    }

    fn with_content(self, content: Body) -> HeldItem
        ensures { result ≡ with_content self content }
    {
        HeldItem {
            content,
            flags: self.flags,
            stamp: self.stamp,
        }
    }
}

fn is_done(answer: &Answer) -> bool
    ensures { result ≡ is_done answer.now }
{
    match answer {
        Answer::Stored | Answer::Number(_) => true,
        Answer::Meta(Code::Hd, _) | Answer::Meta(Code::Va, _) => true,
        _ => false,
    }
}

fn joined(alloc: Global, front: &[u8], back: &[u8]) -> Result<Body, AllocError>
    ensures { IfOk result (λ body. body ≡ front.now ++ back.now) }
{
    let mut bytes = Vec::from_slice(alloc, front)?;
    bytes.extend_from_slice(back)?;
    Body::from_vec(bytes)
}

fn number_body(alloc: Global, spaces: u32, number: u64) -> Result<Body, AllocError>
    ensures { IfOk result (λ body. body ≡ number_text spaces number) }
{
    let mut buffer = Buffer::new();
    let padding = vec![in alloc; b' '; spaces as usize]?;
    joined(alloc, buffer.format(number).as_bytes(), padding.as_slice())
}

fn recounted(alloc: Global, ask: &Ask, spaces: u32, item: HeldItem) -> Result<HeldItem, AllocError>
    ensures { IfOk result (λ new. new ≡ recounted spaces item (number_made ask.now item.content)) }
{
    match incr_or_decr(item.content.as_slice(), ask.op != Op::Decr, ask.delta) {
        Some(number) => Ok(item.with_content(number_body(alloc, spaces, number)?)),
        None => Ok(item),
    }
}

fn stored(ask: &Ask, stamp: u64) -> Result<HeldItem, AllocError>
    ensures { IfOk result (λ item. item ≡ record { content = ask.now.body; flags = ask.now.flags; stamp = stamp }) }
{
    Ok(HeldItem::new(ask.body.copy()?, ask.flags, stamp))
}

fn after_done(
    alloc: Global,
    ask: &Ask,
    stamp: u64,
    spaces: u32,
    before: Option<HeldItem>,
) -> Result<Option<HeldItem>, AllocError>
    ensures { IfOk result (λ held. held ≡ after_done ask.now.op ask.now stamp spaces before) }
{
    match (ask.op, before) {
        (Op::Set | Op::Add | Op::Replace | Op::Cas, _) => Ok(Some(stored(ask, stamp)?)),
        (Op::Append, Some(item)) => {
            let content = joined(alloc, item.content(), ask.body.as_slice())?;
            Ok(Some(item.with_content(content)))
        }
        (Op::Prepend, Some(item)) => {
            let content = joined(alloc, ask.body.as_slice(), item.content())?;
            Ok(Some(item.with_content(content)))
        }
        (Op::Incr | Op::Decr, Some(item)) => Ok(Some(recounted(alloc, ask, spaces, item)?)),
        (_, before) => Ok(before),
    }
}

fn after_call(
    alloc: Global,
    ask: &Ask,
    stamp: u64,
    answer: &Answer,
    spaces: u32,
    before: Option<HeldItem>,
) -> Result<Option<HeldItem>, AllocError>
    ensures { IfOk result (λ held. held ≡ after_call ask.now stamp answer.now spaces before) }
{
    if answer.acknowledges(ask) {
        Ok(None)
    } else if is_done(answer) {
        after_done(alloc, ask, stamp, spaces, before)
    } else {
        Ok(before)
    }
}

/// What the marks, the latest first, leave of the key: where nothing happened, the opening item. The only error is
/// running out of memory.
pub fn held(
    alloc: Global,
    opening: &Option<HeldItem>,
    marks: &[ServerMark],
    key: &Key,
) -> Result<Option<HeldItem>, AllocError>
    ensures { IfOk result (λ held. held ≡ held_in opening.now (life_of_marks marks.now) key.now) }
{
    match marks {
        [] => match opening {
            Some(item) => Ok(Some(item.copy()?)),
            None => Ok(None),
        },
        [latest, earlier @ ..] => match latest {
            ServerMark::Restarted => Ok(None),
            ServerMark::Lost(lost) => {
                if lost == key {
                    return Ok(None);
                }
                held(alloc, opening, earlier, key)
            }
            ServerMark::Applied {
                ask,
                stamp,
                answer,
                spaces,
            } => {
                let before = held(alloc, opening, earlier, key)?;
                if ask.key == *key {
                    return after_call(alloc, ask, *stamp, answer, *spaces, before);
                }
                Ok(before)
            }
        },
    }
}
