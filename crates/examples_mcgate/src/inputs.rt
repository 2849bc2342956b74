//! Tests: inputs that are taken, and those that are none.

use mcgate_ends::input_text::{INPUT_LIMIT, InputFault, read_input};
use std::alloc::Global;
use std::test::Fail;

// How long the text of an input is.
fn length_of(alloc: Global, bytes: &[u8]) -> Result<usize, InputFault> {
    Ok(read_input(alloc, bytes)?.len())
}

#[test]
fn inputs_by_their_size(rt: HostRuntime) -> Result<(), Fail> {
    let mut bytes = vec![in rt.alloc(); b'a'; INPUT_LIMIT]?;
    let most = length_of(rt.alloc(), bytes.as_slice());
    assert!(rt; matches!(most, Ok(length) if length == INPUT_LIMIT));
    bytes.push(0xff)?;
    let more = length_of(rt.alloc(), bytes.as_slice());
    assert!(rt; matches!(more, Err(InputFault::TooLarge)));
    Ok(())
}

#[test]
fn inputs_that_are_no_text(rt: HostRuntime) {
    let cases = [
        b"\xff".as_slice(),
        b"pool 1\n\xc3".as_slice(),
        b"\xed\xa0\x80".as_slice(),
    ];
    for bytes in cases {
        let read = length_of(rt.alloc(), bytes);
        assert!(rt; matches!(read, Err(InputFault::NotUtf8)));
    }
}
