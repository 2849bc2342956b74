//! The codes of meta answers: their words, and which of them answer which operation.

ghost use Rattle.std.specs.Prelude.{◌≡◌};
ghost use Rattle.wire_answers.specs.Line.{code_word, code_of, takes_code, is_count};

use mc_types::{Code, Op};

/// The word of a code.
pub fn code_word(code: Code) -> &'static [u8]
    ensures { result.now ≡ code_word code }
{
    match code {
        Code::Hd => b"HD".as_slice(),
        Code::Va => b"VA".as_slice(),
        Code::En => b"EN".as_slice(),
        Code::Ns => b"NS".as_slice(),
        Code::Ex => b"EX".as_slice(),
        Code::Nf => b"NF".as_slice(),
    }
}

/// The code of a word.
pub fn code_of(word: &[u8]) -> Option<Code>
    ensures { result ≡ code_of word.now }
{
    if word == b"HD".as_slice() {
        Some(Code::Hd)
    } else if word == b"VA".as_slice() {
        Some(Code::Va)
    } else if word == b"EN".as_slice() {
        Some(Code::En)
    } else if word == b"NS".as_slice() {
        Some(Code::Ns)
    } else if word == b"EX".as_slice() {
        Some(Code::Ex)
    } else if word == b"NF".as_slice() {
        Some(Code::Nf)
    } else {
        None
    }
}

/// Whether the code answers an ask of the operation that wants the data, or one that doesn't.
pub fn takes(op: Op, value: bool, code: Code) -> bool
    ensures { result ≡ takes_code op value code }
{
    match op {
        Op::Get | Op::Gat => match code {
            Code::Va => value,
            Code::Hd => !value,
            Code::En => true,
            Code::Ns | Code::Ex | Code::Nf => false,
        },
        Op::Set | Op::Add | Op::Replace | Op::Append | Op::Prepend | Op::Cas => match code {
            Code::Hd | Code::Ns | Code::Ex | Code::Nf => true,
            Code::Va | Code::En => false,
        },
        Op::Delete => match code {
            Code::Hd | Code::Nf | Code::Ex => true,
            Code::Va | Code::En | Code::Ns => false,
        },
        Op::Incr | Op::Decr => match code {
            Code::Va => value,
            Code::Hd => !value,
            Code::Nf | Code::Ns | Code::Ex => true,
            Code::En => false,
        },
        Op::Touch => false,
    }
}

/// Whether the data of an answer have to be a number.
pub fn is_count(op: Op) -> bool
    ensures { result ≡ is_count op }
{
    matches!(op, Op::Incr | Op::Decr)
}
