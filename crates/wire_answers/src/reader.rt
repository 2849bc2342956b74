//! An answer, read at the front of some bytes.

ghost use Rattle.std.specs.Prelude.{◌≡◌, length, IfOk};
ghost use Rattle.wire_answers.specs.Reading.{ReadsAnswer, ReadsAfter, LiesWithin, is_data};
ghost use Rattle.wire_answers.specs.FirstLine.{kind_of_line};

use crate::block_end::{Ends, block_end, data_end};
use crate::first_line::read_first_line;
use crate::line_kinds::{FirstLine, HitLine};
use crate::meta::ValueLine;
use mc_types::{Answer, Ask, Code, SpareBodies};
use std::alloc::{AllocError, Global};
use text_words::number::number;
use text_words::{Line, line};
use wire_parts::received::Received;

/// What was read of an answer.
#[derive(Drop)]
pub enum AnswerRead {
    /// The answer isn't whole yet.
    More,
    /// The answer, and how many bytes spell it.
    Answer(Answer, usize),
    /// No answer begins so, whatever follows.
    Foreign,
}

fn hit_after(
    alloc: Global,
    spares: &mut SpareBodies,
    hit: HitLine,
    rest: &Received,
) -> Result<AnswerRead, AllocError>
    ensures { IfOk result (ReadsAfter (FirstLine.Hit hit) rest.now) }
{
    let bytes = rest.bytes();
    if bytes.len() < hit.len {
        return Ok(AnswerRead::More);
    }
    match block_end(&bytes[hit.len..]) {
        Ends::Open => Ok(AnswerRead::More),
        Ends::Bad => Ok(AnswerRead::Foreign),
        Ends::Whole(used) => {
            let answer = Answer::Hit {
                flags: hit.flags,
                body: rest.data(alloc, spares, hit.len)?,
                cas: hit.cas,
            };
            Ok(AnswerRead::Answer(answer, hit.len + used))
        }
    }
}

fn is_data(is_number: bool, body: &[u8]) -> bool
    ensures { result ≡ is_data is_number body.now }
{
    !is_number || number(body).is_some()
}

fn value_after(
    alloc: Global,
    spares: &mut SpareBodies,
    line: ValueLine,
    rest: &Received,
) -> Result<AnswerRead, AllocError>
    ensures { IfOk result (ReadsAfter (FirstLine.Value line) rest.now) }
{
    let bytes = rest.bytes();
    if bytes.len() < line.len {
        return Ok(AnswerRead::More);
    }
    match data_end(&bytes[line.len..]) {
        Ends::Bad => Ok(AnswerRead::Foreign),
        Ends::Open => Ok(AnswerRead::More),
        Ends::Whole(used) => {
            if !is_data(line.is_number, &bytes[..line.len]) {
                return Ok(AnswerRead::Foreign);
            }
            let fields = line.told.fields(Some(rest.data(alloc, spares, line.len)?));
            let answer = Answer::Meta(Code::Va, fields);
            Ok(AnswerRead::Answer(answer, line.len + used))
        }
    }
}

fn after_line(
    alloc: Global,
    spares: &mut SpareBodies,
    first: FirstLine,
    rest: &Received,
) -> Result<AnswerRead, AllocError>
    ensures { IfOk result (ReadsAfter first rest.now) }
{
    match first {
        FirstLine::Whole(answer) => Ok(AnswerRead::Answer(answer, 0)),
        FirstLine::Hit(hit) => hit_after(alloc, spares, hit, rest),
        FirstLine::Value(line) => value_after(alloc, spares, line, rest),
        FirstLine::NoAnswer => Ok(AnswerRead::Foreign),
    }
}

/// Reads the answer to an ask, in the ask's dialect, at the front of the bytes that a server sent.
///
/// A line ends at `\n`, and one `\r` before that is no part of it; words are parted by one or more spaces. Which answers
/// are taken for which ask is a table over the operation. The key of a `VALUE` line has to be the one that was asked, a
/// cas number stands on it where the ask wants one, and is dropped where not. The text of an error line is what stands
/// after its word and one space, at most 1,024 bytes, none of them a control character. What the line of a meta answer
/// may say is told at [`crate::meta::meta_line`]; the data of an `ma` are a number of 1 to 20 digits.
///
/// [`AnswerRead::Foreign`] comes where no answer begins so, whatever follows: another answer than the table has, a second
/// `VALUE`, more than 1,048,576 bytes of data, a line of more than 65,535 bytes. The only error is running out of memory; the
/// data of a hit are copied once, or shared with the buffer that they came in ([`Received`]), and only when the answer is whole. A copy of
/// small data is made in the memory of a body handed out before, where a spare one is free.
///
/// Source: memcached's protocol.txt, what is said of the answers of each command, and "Meta Commands"; the limits and what
/// is foreign are mcgate's own.
pub fn read_received(
    alloc: Global,
    spares: &mut SpareBodies,
    ask: &Ask,
    received: &Received,
) -> Result<AnswerRead, AllocError>
    ensures reads { IfOk result (ReadsAnswer ask.now received.now) }
    ensures within { IfOk result (LiesWithin received.now) }
{
    let bytes = received.bytes();
    match line(bytes) {
        Line::More => Ok(AnswerRead::More),
        Line::TooLong => Ok(AnswerRead::Foreign),
        Line::At { end, used } => {
            let first = read_first_line(alloc, ask, &bytes[..end])?;
            let rest = received.after(used);
            Ok(match after_line(alloc, spares, first, &rest)? {
                AnswerRead::Answer(answer, more) => AnswerRead::Answer(answer, used + more),
                AnswerRead::More => AnswerRead::More,
                AnswerRead::Foreign => AnswerRead::Foreign,
            })
        }
    }
}

/// The answer that the bytes begin with, if they do; its data are copied, to memory of their own.
pub fn read_answer(alloc: Global, ask: &Ask, bytes: &[u8]) -> Result<AnswerRead, AllocError>
    ensures reads { IfOk result (ReadsAnswer ask.now bytes.now) }
    ensures within { IfOk result (LiesWithin bytes.now) }
{
    read_received(
        alloc,
        &mut SpareBodies::new(alloc),
        ask,
        &Received::copied(bytes),
    )
}
