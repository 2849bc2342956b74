//! A client's request and its answer.

ghost use Rattle.std.specs.Prelude.{◌≡◌, ◌≤◌, ◌+◌, [], ◌++◌, IfOk, length};
ghost use Rattle.watch_admin.specs.declared.http.request.AskedPage.TheVariants.{Unfinished, For, Refused};
ghost use Rattle.watch_admin.specs.HttpRequests.{AsksPage};
ghost use Rattle.watch_admin.specs.HttpReplies.{page_text, AnswersVisitor};
ghost use Rattle.watch_admin.specs.Sending.{GoesUpTo};

use crate::http::answers::{write_page, write_refusal};
use crate::http::request::{AskedPage, MOST_BYTES, Page, Refusal, what_is_asked};
use crate::sending::Sending;
use std::alloc::Global;
use std::io;
use std::io::Write;

/// A client that has sent no whole request.
#[derive(Drop)]
pub struct Asking {
    came: Vec<u8>,
    ghost asks: { ∥ AsksPage came.items Unfinished ∥₁ },
}

/// A client that waits for a page.
#[derive(Drop)]
pub struct Waiting {
    came: Vec<u8>,
    pub page: Page,
    ghost asks: { ∥ AsksPage came.items (For page) ∥₁ },
}

/// A client that is sent an answer.
#[derive(Drop)]
pub struct Answering {
    came: Vec<u8>,
    sending: Sending,
    ghost answers: { ∥ AnswersVisitor came.items sending.answer.items ∥₁ },
}

/// Where a client stands.
#[derive(Drop)]
pub enum Exchange {
    Asking(Asking),
    Waiting(Waiting),
    Answering(Answering),
    /// All was sent to it. What it sends is dropped, until it closes.
    Lingering,
}

impl Exchange {
    ghost use Rattle.watch_admin.specs.HttpExchanges.{Holds};

    // Bytes that ask for no page are answered at once.
    fn refused(alloc: Global, came: Vec<u8>, refusal: Refusal) -> io::Result<Exchange>
        requires { AsksPage came.items (Refused refusal) }
        ensures { IfOk result (λ exchange. Holds exchange came.items) }
    {
        let mut answer = Vec::new(alloc);
        write_refusal(refusal, &mut answer)?;
        let sending = Sending::new(answer);
        Ok(Exchange::Answering(Answering { came, sending }))
    }

    // Where a client stands whose bytes ask for this.
    fn of(alloc: Global, came: Vec<u8>, asked: AskedPage) -> io::Result<Exchange>
        requires { AsksPage came.items asked }
        ensures { IfOk result (λ exchange. Holds exchange came.items) }
    {
        match asked {
            AskedPage::Unfinished => Ok(Exchange::Asking(Asking { came })),
            AskedPage::For(page) => Ok(Exchange::Waiting(Waiting { came, page })),
            AskedPage::Refused(refusal) => Exchange::refused(alloc, came, refusal),
        }
    }
}

impl Asking {
    ghost use Rattle.watch_admin.specs.HttpExchanges.{Holds};

    /// A client that has sent nothing.
    pub fn new(alloc: Global) -> Asking
        ensures { result.came.items ≡ [] }
    {
        Asking {
            came: Vec::new(alloc),
        }
    }

    /// So many bytes of it may be taken.
    pub fn room(&self) -> usize
        ensures { length self.now.came.items + result ≡ MOST_BYTES }
    {
        MOST_BYTES - self.came.len()
    }

    /// These bytes came of it. The only error is that memory was refused.
    pub fn take(self, alloc: Global, bytes: &[u8]) -> io::Result<Exchange>
        requires { length self.came.items + length bytes.now ≤ MOST_BYTES }
        ensures { IfOk result (λ exchange. Holds exchange (self.came.items ++ bytes.now)) }
    {
        let mut came = self.came;
        came.extend_from_slice(bytes)?;
        let asked = what_is_asked(came.as_slice());
        Exchange::of(alloc, came, asked)
    }
}

impl Waiting {
    /// It is answered by this body of its page. The only error is that memory was refused.
    pub fn answer(self, alloc: Global, body: &[u8]) -> io::Result<Answering>
        ensures came { IfOk result (λ answering. answering.came ≡ self.came) }
        ensures answer { IfOk result (λ answering. answering.sending.answer.items ≡ page_text self.page body.now) }
        ensures sent { IfOk result (λ answering. answering.sending.sent ≡ 0) }
    {
        let mut answer = Vec::new(alloc);
        write_page(self.page, body, &mut answer)?;
        Ok(Answering {
            came: self.came,
            sending: Sending::new(answer),
        })
    }
}

impl Answering {
    /// A stream is sent what it takes of the answer, in order and each byte once. Whether something is left that it may take later.
    pub fn send<W: Write>(&mut self, stream: &mut W) -> io::Result<bool>
        ensures answer { self.new.sending.answer.items ≡ self.old.sending.answer.items }
        ensures goes { GoesUpTo self.old.sending.answer.items self.old.sending.sent self.new.sending.sent (W.contents stream.old) (W.contents stream.new) }
    {
        self.sending.send(stream)
    }
}
