//! What came of one who asks, and the answer.

ghost use Rattle.std.specs.Prelude.{◌≡◌, IfOk};
ghost use Rattle.watch_admin.specs.ControlAnswers.{control_answer};

use crate::control::answers::{Ruling, put_answer};
use crate::sending::Sending;
use std::alloc::{AllocError, Global};
use text_words::{Line, line};

/// Where one who asks stands.
#[derive(Drop)]
pub enum Exchange {
    /// It has sent these bytes, which are no whole line.
    Asking(Vec<u8>),
    /// It has sent a line, of this text, and waits for an answer.
    Asked(Vec<u8>),
    /// Its line is being worked on.
    Owed,
    /// It is sent an answer.
    Answering(Sending),
}

impl Exchange {
    ghost use Rattle.watch_admin.specs.ControlExchanges.{ExchangeStands};

    /// Where one stands who has sent these bytes so far. The only error is that memory was refused.
    pub fn of(alloc: Global, came: Vec<u8>) -> Result<Exchange, AllocError>
        ensures { IfOk result (λ exchange. ExchangeStands came.items exchange) }
    {
        match line(came.as_slice()) {
            Line::At { end, used: _ } => Ok(Exchange::Asked(came[..end].to_vec(alloc)?)),
            Line::More => Ok(Exchange::Asking(came)),
            Line::TooLong => Ok(Exchange::Asked(Vec::new(alloc))),
        }
    }
}

/// The answer of this verdict and text, to be sent. The only error is that memory was refused.
pub fn answering(alloc: Global, verdict: Ruling, text: &[u8]) -> Result<Sending, AllocError>
    ensures answer { IfOk result (λ sending. sending.answer.items ≡ control_answer verdict text.now) }
    ensures sent { IfOk result (λ sending. sending.sent ≡ 0) }
{
    let mut answer = Vec::new(alloc);
    put_answer(verdict, text, &mut answer)?;
    Ok(Sending::new(answer))
}
