//! An answer of which only the first bytes come.

ghost use Rattle.std.specs.Prelude.{◌≡◌, length, nat_le, Some, None, if◌then◌else◌, IfOk};
ghost use Rattle.mc_types.specs.Tokens.{TokenIsText};
ghost use Rattle.mc_types.specs.Asks.{IsAsk};
ghost use Rattle.mc_types.specs.Fits.{Fits};
ghost use Rattle.wire_answers.specs.Fitting.{AreTexts};
ghost use Rattle.wire_answers.specs.Spelling.{answer_spelling};
ghost use Rattle.script_events.specs.Cutting.{answer_of};

use bytes::BytesMut;
use mc_types::{Answer, Ask, Token};
use std::alloc::{AllocError, Global};
use wire_stream::{AnswerRead, read_answer, write_answer};

// The text of an opaque token is one.
fn is_text(token: &Token)
    ensures { TokenIsText token.now }
{
    if let Token::Opaque(text) = token {
        let _bytes = text.as_bytes();
    }
}

// The text of each opaque token is one.
fn are_texts(tokens: &[Token])
    ensures { AreTexts tokens.now }
{
    for token in tokens {
        is_text(token);
    }
}

// The answer, where one was read.
fn answer_in(read: AnswerRead) -> Option<Answer>
    ensures { result ≡ answer_of read }
{
    match read {
        AnswerRead::Answer(answer, _used) => Some(answer),
        AnswerRead::More => None,
        AnswerRead::Foreign => None,
    }
}

/// What is read of the answer to this ask, of which at most so many bytes come: the answer where none is missing, or else nothing.
/// The only error is running out of memory.
pub fn read_cut(
    alloc: Global,
    ask: &Ask,
    answer: &Answer,
    count: u32,
) -> Result<Option<Answer>, AllocError>
    requires ask { IsAsk ask.now }
    requires fits { Fits ask.now answer.now }
    ensures { IfOk result (λ read. read ≡ (if nat_le (length (answer_spelling ask.now answer.now)) count then Some answer.now else None)) }
{
    are_texts(ask.tokens.as_slice());
    let mut text = BytesMut::new(alloc);
    write_answer(ask, answer, &mut text)?;
    text.truncate(count as usize);
    let read = read_answer(alloc, ask, text.as_slice())?;
    Ok(answer_in(read))
}
