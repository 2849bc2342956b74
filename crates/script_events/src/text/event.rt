//! The events of a script, line by line.
ghost use Rattle.std.specs.Prelude.{◌≡◌, ◌^◌, Some};
ghost use Rattle.script_events.specs.Scripted.{manner_of, loss_of, scripted_of};
ghost use Rattle.script_events.specs.Reads.{ReadsPart};
ghost use Rattle.script_events.specs.Seen.{sent_seen};
ghost use Rattle.script_events.specs.Events.{client_said, server_said, turn_said, key_said, count_said, cut_said, manner_said, sent_said, piece_said, add_said, result_said, hold_said, fail_said, item_loss_said, restart_loss_said, loss_said, lose_said, restart_said, at_said, moment_said, said_after, event_said};

use crate::text::escapes::unescape;
use crate::text::fault::LineFault;
use crate::text::words::{cut, number_under};
use crate::{Event, Loss, Manner};
use mc_types::{Key, SCRIPT_CLIENTS, ServerId};
use std::alloc::Global;

fn read_client(word: &[u8]) -> Result<u8, LineFault>
    ensures { ReadsPart (λ c. c) (client_said word.now) result }
{
    match number_under(SCRIPT_CLIENTS as u64, word) {
        Some(client) => Ok(client as u8),
        None => Err(LineFault::Unreadable),
    }
}

fn read_server(word: &[u8]) -> Result<ServerId, LineFault>
    ensures { ReadsPart (λ s. s) (server_said word.now) result }
{
    match number_under(1 << 32, word) {
        Some(server) => Ok(ServerId::new(server as u32)),
        None => Err(LineFault::Unreadable),
    }
}

fn read_turn(word: &[u8]) -> Result<u32, LineFault>
    ensures { ReadsPart (λ t. t) (turn_said word.now) result }
{
    match number_under(1 << 32, word) {
        Some(0) | None => Err(LineFault::Unreadable),
        Some(turn) => Ok(turn as u32),
    }
}

fn read_key(alloc: Global, text: &[u8]) -> Result<Key, LineFault>
    ensures { ReadsPart (λ k. k) (key_said text.now) result }
{
    let bytes = unescape(alloc, text)?;
    match Key::read(bytes.as_slice()) {
        Ok(key) => Ok(key),
        Err(_) => Err(LineFault::Unreadable),
    }
}

fn read_count(word: &[u8]) -> Result<u32, LineFault>
    ensures { ReadsPart (λ n. n) (count_said word.now) result }
{
    match number_under(1 << 32, word) {
        Some(count) => Ok(count as u32),
        None => Err(LineFault::Unreadable),
    }
}

fn read_cut(text: &[u8]) -> Result<Manner, LineFault>
    ensures { ReadsPart manner_of (cut_said text.now) result }
{
    match cut(text) {
        Some(parts) if parts.word == b"cut".as_slice() => {
            let count = read_count(parts.rest)?;
            Ok(Manner::Cut(count))
        }
        _ => Err(LineFault::Unreadable),
    }
}

fn read_manner(text: &[u8]) -> Result<Manner, LineFault>
    ensures { ReadsPart manner_of (manner_said text.now) result }
{
    if text == b"before".as_slice() {
        Ok(Manner::Before)
    } else if text == b"after".as_slice() {
        Ok(Manner::After)
    } else if text == b"junk".as_slice() {
        Ok(Manner::Junk)
    } else {
        read_cut(text)
    }
}

// A client, and the bytes that it sends.
#[derive(Drop)]
struct Sent {
    client: u8,
    bytes: Vec<u8>,
}

fn read_sent(alloc: Global, text: &[u8]) -> Result<Sent, LineFault>
    ensures { ReadsPart sent_seen (sent_said text.now) result }
{
    let Some(parts) = cut(text) else {
        return Err(LineFault::Unreadable);
    };
    let client = read_client(parts.word)?;
    let bytes = unescape(alloc, parts.rest)?;
    Ok(Sent { client, bytes })
}

fn read_piece(alloc: Global, text: &[u8]) -> Result<Event, LineFault>
    ensures { ReadsPart scripted_of (piece_said text.now) result }
{
    let Sent { client, bytes } = read_sent(alloc, text)?;
    Ok(Event::Piece(client, bytes))
}

fn read_add(alloc: Global, text: &[u8]) -> Result<Event, LineFault>
    ensures { ReadsPart scripted_of (add_said text.now) result }
{
    let Sent { client, bytes } = read_sent(alloc, text)?;
    Ok(Event::Add(client, bytes))
}

fn read_result(text: &[u8]) -> Result<Event, LineFault>
    ensures { ReadsPart scripted_of (result_said text.now) result }
{
    let server = read_server(text)?;
    Ok(Event::Result(server))
}

fn read_hold(alloc: Global, text: &[u8]) -> Result<Event, LineFault>
    ensures { ReadsPart scripted_of (hold_said text.now) result }
{
    let Some(parts) = cut(text) else {
        return Err(LineFault::Unreadable);
    };
    let server = read_server(parts.word)?;
    let Some(held) = cut(parts.rest) else {
        return Err(LineFault::Unreadable);
    };
    let key = read_key(alloc, held.word)?;
    let content = unescape(alloc, held.rest)?;
    Ok(Event::Hold(server, key, content))
}

fn read_fail(text: &[u8]) -> Result<Event, LineFault>
    ensures { ReadsPart scripted_of (fail_said text.now) result }
{
    let Some(parts) = cut(text) else {
        return Err(LineFault::Unreadable);
    };
    let turn = read_turn(parts.word)?;
    let manner = read_manner(parts.rest)?;
    Ok(Event::Fail(turn, manner))
}

fn read_item_loss(alloc: Global, text: &[u8]) -> Result<Loss, LineFault>
    ensures { ReadsPart loss_of (item_loss_said text.now) result }
{
    let Some(parts) = cut(text) else {
        return Err(LineFault::Unreadable);
    };
    let server = read_server(parts.word)?;
    let key = read_key(alloc, parts.rest)?;
    Ok(Loss::Item(server, key))
}

fn read_restart_loss(text: &[u8]) -> Result<Loss, LineFault>
    ensures { ReadsPart loss_of (restart_loss_said text.now) result }
{
    let server = read_server(text)?;
    Ok(Loss::Restart(server))
}

fn read_loss(alloc: Global, word: &[u8], text: &[u8]) -> Result<Loss, LineFault>
    ensures { ReadsPart loss_of (loss_said word.now text.now) result }
{
    if word == b"lose".as_slice() {
        read_item_loss(alloc, text)
    } else if word == b"restart".as_slice() {
        read_restart_loss(text)
    } else {
        Err(LineFault::Unreadable)
    }
}

fn read_lose(alloc: Global, text: &[u8]) -> Result<Event, LineFault>
    ensures { ReadsPart scripted_of (lose_said text.now) result }
{
    let loss = read_item_loss(alloc, text)?;
    Ok(Event::Now(loss))
}

fn read_restart(text: &[u8]) -> Result<Event, LineFault>
    ensures { ReadsPart scripted_of (restart_said text.now) result }
{
    let loss = read_restart_loss(text)?;
    Ok(Event::Now(loss))
}

fn read_at(alloc: Global, text: &[u8]) -> Result<Event, LineFault>
    ensures { ReadsPart scripted_of (at_said text.now) result }
{
    let Some(parts) = cut(text) else {
        return Err(LineFault::Unreadable);
    };
    let turn = read_turn(parts.word)?;
    let Some(said) = cut(parts.rest) else {
        return Err(LineFault::Unreadable);
    };
    let loss = read_loss(alloc, said.word, said.rest)?;
    Ok(Event::At(turn, loss))
}

fn read_moment(text: &[u8]) -> Result<Event, LineFault>
    ensures { ReadsPart scripted_of (moment_said text.now) result }
{
    match number_under(1 << 63, text) {
        Some(moment) => Ok(Event::Moment(moment as i64)),
        None => Err(LineFault::Unreadable),
    }
}

fn read_lines_after(alloc: Global, word: &[u8], text: &[u8]) -> Result<Event, LineFault>
    ensures { ReadsPart scripted_of (said_after word.now text.now) result }
{
    if word == b">".as_slice() {
        read_piece(alloc, text)
    } else if word == b"+".as_slice() {
        read_add(alloc, text)
    } else if word == b"result".as_slice() {
        read_result(text)
    } else if word == b"hold".as_slice() {
        read_hold(alloc, text)
    } else if word == b"fail".as_slice() {
        read_fail(text)
    } else if word == b"lose".as_slice() {
        read_lose(alloc, text)
    } else if word == b"restart".as_slice() {
        read_restart(text)
    } else if word == b"at".as_slice() {
        read_at(alloc, text)
    } else if word == b"moment".as_slice() {
        read_moment(text)
    } else {
        Err(LineFault::Unreadable)
    }
}

/// The event that a line of a script says.
///
/// [`LineFault::Unreadable`] comes exactly where it says none, and otherwise running out of memory is the only error. That such an event
/// can be (that its server is there, say) is not asked here. The lines are mcgate's own.
pub fn read_event(alloc: Global, line: &[u8]) -> Result<Event, LineFault>
    ensures { ReadsPart scripted_of (event_said line.now) result }
{
    match cut(line) {
        Some(parts) => read_lines_after(alloc, parts.word, parts.rest),
        None => Err(LineFault::Unreadable),
    }
}
