//! Tests: keys, opaque texts, bodies and copies.

use mc_types::{
    Answer, Ask, Body, Code, Dialect, ErrorText, Fields, Key, KeyFault, Op, Opaque, Outcome,
    OwnText, Token, Tokens,
};
use std::alloc::{AllocError, Global};
use std::test::Fail;

// The limits of protocol.txt: 250 characters, no control characters, no white space.
#[test]
fn key_lengths(rt: HostRuntime) {
    let long = [b'k'; 251];
    assert!(rt; Key::read(&long[..250]).is_ok());
    assert!(rt; matches!(Key::read(&long[..]), Err(KeyFault::TooLong)));
    assert!(rt; matches!(Key::read(b""), Err(KeyFault::Empty)));
    assert!(rt; matches!(Key::read(b"a b"), Err(KeyFault::BadByte(1))));
    assert!(rt; matches!(Key::read(b"ab\x7f"), Err(KeyFault::BadByte(2))));
    assert!(rt; Key::read(b"\x80\xff").is_ok());
}

fn is_body_copied(alloc: Global) -> Result<bool, AllocError> {
    let body = Body::from_slice(alloc, b"xyz")?;
    Ok(body.copy()?.as_slice() == b"xyz".as_slice() && body.len() == 3)
}

fn is_vec_taken(alloc: Global) -> Result<bool, AllocError> {
    Ok(Body::from_vec(b"xyz".to_vec(alloc)?)?.as_slice() == b"xyz".as_slice())
}

fn is_text_copied(text: &ErrorText, bytes: &[u8]) -> Result<bool, AllocError> {
    Ok(text.copy()?.as_bytes() == bytes)
}

fn is_passed_text_copied(alloc: Global) -> Result<bool, AllocError> {
    is_text_copied(
        &ErrorText::passed(Body::from_slice(alloc, b"busy")?),
        b"busy",
    )
}

fn two_tokens(alloc: Global) -> Result<Tokens, AllocError> {
    let mut tokens = Tokens::new(alloc);
    tokens.push(Token::Cas)?;
    tokens.push(Token::Value)?;
    Ok(tokens)
}

fn are_tokens_copied(alloc: Global) -> Result<bool, AllocError> {
    Ok(matches!(
        two_tokens(alloc)?.copy()?.as_slice(),
        [Token::Cas, Token::Value]
    ))
}

#[test]
fn copies_with_ample_memory(rt: HostRuntime) -> Result<(), Fail> {
    let alloc = rt.alloc();
    assert!(rt; is_body_copied(alloc)?);
    assert!(rt; is_vec_taken(alloc)?);
    assert!(rt; Body::empty().copy()?.len() == 0);
    assert!(rt; is_passed_text_copied(alloc)?);
    assert!(rt; is_text_copied(&ErrorText::own(OwnText::CallFailed), b"call failed")?);
    assert!(rt; are_tokens_copied(alloc)?);
    Ok(())
}

fn delete_of(alloc: Global, key: Key) -> Ask {
    let mut ask = Ask::bare(Dialect::Meta, Op::Delete, key, Tokens::new(alloc));
    ask.cas = Some(9);
    ask
}

fn copied_delete(alloc: Global) -> Result<Option<Ask>, AllocError> {
    match Key::read(b"a") {
        Ok(key) => Ok(Some(delete_of(alloc, key).copy()?)),
        Err(_) => Ok(None),
    }
}

fn is_acknowledged(ask: &Ask) -> bool {
    ask.cas == Some(9)
        && Answer::Meta(Code::Nf, Fields::none()).acknowledges(ask)
        && !Answer::Meta(Code::Ex, Fields::none()).acknowledges(ask)
}

fn is_ask_copied(alloc: Global) -> Result<bool, AllocError> {
    match copied_delete(alloc)? {
        Some(ask) => Ok(is_acknowledged(&ask)),
        None => Ok(false),
    }
}

fn hit(alloc: Global) -> Result<Answer, AllocError> {
    Ok(Answer::Hit {
        flags: 5,
        body: Body::from_slice(alloc, b"xyz")?,
        cas: None,
    })
}

fn is_outcome_copied(alloc: Global) -> Result<bool, AllocError> {
    let outcome = Outcome::Answered(hit(alloc)?.copy()?).copy()?;
    Ok(matches!(outcome, Outcome::Answered(Answer::Hit { flags: 5, .. })))
}

#[test]
fn asks_and_answers_are_copied(rt: HostRuntime) -> Result<(), Fail> {
    assert!(rt; is_ask_copied(rt.alloc())?);
    assert!(rt; is_outcome_copied(rt.alloc())?);
    Ok(())
}

// A code without data, flags or size shows nothing; `EX` is worse than `NF`.
#[test]
fn ranks_of_meta_codes(rt: HostRuntime) {
    let worse = Answer::Meta(Code::Ex, Fields::none());
    let better = Answer::Meta(Code::Nf, Fields::none());
    assert!(rt; worse.rank() == 2 && better.rank() == 1);
    assert!(rt; !worse.shows());
    let size = Fields {
        body: None,
        cas: None,
        flags: None,
        size: Some(3),
        ttl: None,
    };
    assert!(rt; Answer::Meta(Code::Hd, size).shows());
}

#[test]
fn opaque_lengths(rt: HostRuntime) {
    let long = [b'x'; 33];
    assert!(rt; Opaque::read(&long[..32]).is_some());
    assert!(rt; Opaque::read(&long[..]).is_none());
    assert!(rt; Opaque::read(b"").is_none());
    assert!(rt; Opaque::read(b"a b").is_none());
}
