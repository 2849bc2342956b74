//! The bytes of answers: a digit that says what became of the request, the end of a line, and the text.

ghost use Rattle.std.specs.Prelude.{◌≡◌, ◌≢◌, ◌+◌, ◌++◌, List, ℕ, MatchOption, OnOk};
ghost use Rattle.watch_admin.specs.ControlAnswers.{digit_of, control_answer};

use std::alloc::AllocError;

/// What became of a request.
#[derive(Clone, Copy, PartialEq, Eq, Debug)]
pub enum Ruling {
    /// It is done.
    Done,
    /// The gate refuses it, or it could not be ended in time.
    Refused,
    /// It is none.
    Unknown,
    /// Memory or a device failed.
    Failed,
}

impl Ruling {
    /// As an exit status.
    pub fn status(self) -> u8
        ensures { digit_of self ≡ 48 + result }
    {
        match self {
            Ruling::Done => 0,
            Ruling::Refused => 1,
            Ruling::Unknown => 2,
            Ruling::Failed => 3,
        }
    }

    fn digit(self) -> u8
        ensures { result ≡ digit_of self }
    {
        match self {
            Ruling::Done => b'0',
            Ruling::Refused => b'1',
            Ruling::Unknown => b'2',
            Ruling::Failed => b'3',
        }
    }
}

/// Adds the answer of this verdict and text.
pub fn put_answer(verdict: Ruling, text: &[u8], out: &mut Vec<u8>) -> Result<(), AllocError>
    ensures { OnOk result (out.new.items ≡ out.old.items ++ control_answer verdict text.now) }
{
    out.push(verdict.digit())?;
    out.push(b'\n')?;
    out.extend_from_slice(text)
}

/// The verdict and the text of an answer, if these bytes are one.
pub fn read_answer(bytes: &[u8]) -> Option<(Ruling, &[u8])>
    ensures { MatchOption result ((verdict : Ruling) (text : List ℕ) → bytes.now ≢ control_answer verdict text) (λ read. bytes.now ≡ control_answer read.0 read.1.now) }
{
    match bytes {
        [b'0', b'\n', text @ ..] => Some((Ruling::Done, text)),
        [b'1', b'\n', text @ ..] => Some((Ruling::Refused, text)),
        [b'2', b'\n', text @ ..] => Some((Ruling::Unknown, text)),
        [b'3', b'\n', text @ ..] => Some((Ruling::Failed, text)),
        _ => None,
    }
}
