//! What far ends do, as text.

use crate::peer::{Act, Peer};
use examples_tables::tellers::written_out;
use std::alloc::{AllocError, Global};
use std::test::Fail;

// A hundred thousand bytes.
fn data(alloc: Global) -> Result<String, AllocError> {
    written_out(alloc, "«10000 xxxxxxxxxx»")
}

/// The bytes that a text stands for: with its repeated parts, data for each `<data>`, and the ends of its lines, of which each half may
/// stand alone.
pub fn bytes_of(alloc: Global, text: &str) -> Result<Vec<u8>, AllocError> {
    let text = written_out(alloc, text)?;
    let text = text
        .as_str()
        .replace(alloc, "<data>", data(alloc)?.as_str())?;
    let text = text.as_str().replace(alloc, r"\r", "\r")?;
    let text = text.as_str().replace(alloc, r"\n", "\n")?;
    text.as_bytes().to_vec(alloc)
}

/// What a far end does, or how much of it.
pub fn put_act(alloc: Global, peer: &mut Peer, verb: &str, text: &str) -> Result<(), Fail> {
    match verb {
        "sends" => {
            let bytes = bytes_of(alloc, text)?;
            peer.then(Act::Sends(bytes))?;
        }
        "awaits" if text == "end" => peer.then(Act::AwaitsEnd)?,
        "awaits" => peer.then(Act::Awaits(text.parse::<usize>()?))?,
        "until" => peer.then(Act::Until(text.parse::<u64>()?))?,
        "ends" => peer.then(Act::Ends)?,
        "fails" => peer.then(Act::Fails)?,
        "piece" => peer.piece = text.parse::<usize>()?,
        "window" => peer.window = text.parse::<usize>()?,
        "room" => peer.room = text.parse::<usize>()?,
        "breaks" => peer.fails_at = Some(text.parse::<usize>()?),
        _ => return Err("no such event")?,
    }
    Ok(())
}
