//! The texts of error lines.

ghost use Rattle.std.specs.Prelude.{◌≡◌, IfOk, codes};
ghost use Rattle.mc_types.specs.ErrorTexts.{own_text};

use crate::body::Body;
use std::alloc::AllocError;
use std::marker::Model;

/// The texts of error lines that mcgate itself writes. They take no memory.
#[derive(Clone, Copy)]
pub enum OwnText {
    CallFailed,
    ErrorRoute,
    OutOfMemory,
    TooLarge,
    NotNumeric,
}

impl OwnText {
    /// The text, as it stands after `SERVER_ERROR ` or `CLIENT_ERROR `.
    pub fn as_bytes(self) -> &'static [u8]
        ensures { result.now ≡ own_text self }
    {
        match self {
            OwnText::CallFailed => b"call failed".as_slice(),
            OwnText::ErrorRoute => b"error route".as_slice(),
            OwnText::OutOfMemory => b"out of memory storing object".as_slice(),
            OwnText::TooLarge => b"object too large for cache".as_slice(),
            OwnText::NotNumeric => { b"cannot increment or decrement non-numeric value".as_slice() }
        }
    }
}

#[derive(Drop)]
enum TextForm {
    Own(OwnText),
    Passed(Body),
}

/// The text of an error line: one of mcgate's own, or one that a server sent and that is passed on.
#[derive(Drop)]
pub struct ErrorText {
    form: TextForm,
}

impl Model for ErrorText {
    ghost use Rattle.std.specs.Prelude.{List, ℕ};

    ghost Value = { List ℕ };

    ghost use Rattle.mc_types.specs.ErrorTexts.{text_of};

    ghost view = { λ t. text_of t.form };
}

impl ErrorText {
    /// One of mcgate's own texts. It takes no memory.
    pub fn own(text: OwnText) -> ErrorText
        ensures { result ≡ own_text text }
    {
        ErrorText {
            form: TextForm::Own(text),
        }
    }

    /// A text that is passed on.
    pub fn passed(text: Body) -> ErrorText
        ensures { result ≡ text }
    {
        ErrorText {
            form: TextForm::Passed(text),
        }
    }

    /// The bytes of the text.
    pub fn as_bytes(&self) -> &[u8]
        ensures { result.now ≡ self.now }
    {
        match &self.form {
            TextForm::Own(text) => text.as_bytes(),
            TextForm::Passed(text) => text.as_slice(),
        }
    }

    /// This text once more. It takes no memory.
    pub fn copy(&self) -> Result<ErrorText, AllocError>
        ensures { IfOk result (λ text. text ≡ self.now) }
    {
        match &self.form {
            TextForm::Own(text) => Ok(ErrorText::own(*text)),
            TextForm::Passed(text) => Ok(ErrorText::passed(text.copy()?)),
        }
    }
}
