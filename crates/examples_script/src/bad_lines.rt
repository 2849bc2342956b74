//! What is wrong with a piece that is too much.

use fault_words::script::laws::each_line_is_either;
use fault_words::script::misfit::misfit_of;
use script_events::Event;
use std::alloc::{AllocError, Global};
use std::test::Fail;

fn added_byte(alloc: Global) -> Result<Event, AllocError> {
    Ok(Event::Add(0, Vec::from_slice(alloc, b"a".as_slice())?))
}

fn misfit_words(alloc: Global, before: usize, event: &Event) -> Result<String, AllocError> {
    let misfit = misfit_of(1, before, event);
    format!(in alloc; "{misfit}")
}

// What is wrong with one more byte that client 0 adds, after so many bytes in all pieces.
fn words_after(alloc: Global, before: usize) -> Result<String, AllocError> {
    let event = added_byte(alloc)?;
    misfit_words(alloc, before, &event)
}

#[test]
fn pieces_that_are_too_much(rt: HostRuntime) -> Result<(), Fail> {
    each_line_is_either();
    let words = words_after(rt.alloc(), 16_777_216)?;
    assert_eq!(rt; words.as_str(), "all pieces together exceed 16777216 bytes");
    let words = words_after(rt.alloc(), 16_777_215)?;
    assert_eq!(rt;
        words.as_str(),
        "a client added more than 524288 bytes since the last >"
    );
    Ok(())
}
