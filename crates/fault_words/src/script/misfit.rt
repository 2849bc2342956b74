//! Why an event that a line says can't be.

ghost use Rattle.std.specs.Prelude.{◌≡◌, ◌≤◌, map, sum_by};
ghost use Rattle.script_events.specs.Caches.{loss_server};
ghost use Rattle.script_events.specs.Scripted.{scripted_of};
ghost use Rattle.script_events.specs.Bad.{len_of};
ghost use Rattle.fault_words.specs.Misfits.{misfit_of, bytes_before_bad};

use mc_types::{DATA_LIMIT, SCRIPT_CLIENTS};
use script_events::bad::PIECE_LIMIT;
use script_events::{Event, Loss, Script, first_bad_event};

/// Why an event can't be, of those for which a script's run refuses it.
#[derive(Clone, Copy)]
pub enum Misfit {
    /// There is no such client.
    NoClient(u8),
    /// There is no server of this number.
    NoServer(u32),
    /// A call is counted from 1.
    TurnZero,
    /// The time is before 0.
    BeforeZero,
    /// With this piece all pieces together exceed 16,777,216 bytes.
    TooMuch,
    /// With this piece the client added more than 524,288 bytes since the last `>`.
    AddsTooMuch,
    /// The data held are longer than 1,048,576 bytes.
    TooLong,
    /// Data are held before the first piece and the first loss alone.
    TooLate,
}

fn server_of(loss: &Loss) -> u32
    ensures { result ≡ loss_server loss.now }
{
    match loss {
        Loss::Item(server, _) => server.number(),
        Loss::Restart(server) => server.number(),
    }
}

/// Why an event can't be over so many servers, with so many bytes in the pieces before it, of one that can't.
pub fn misfit_of(servers: u32, before: usize, event: &Event) -> Misfit
    ensures { result ≡ misfit_of servers before (scripted_of event.now) }
{
    match event {
        Event::Piece(client, _) | Event::Add(client, _) if *client as usize >= SCRIPT_CLIENTS => {
            Misfit::NoClient(*client)
        }
        Event::Piece(_, _) => Misfit::TooMuch,
        Event::Add(_, bytes) if before.saturating_add(bytes.len()) > PIECE_LIMIT => Misfit::TooMuch,
        Event::Add(_, _) => Misfit::AddsTooMuch,
        Event::Result(server) => Misfit::NoServer(server.number()),
        Event::Hold(server, _, _) if server.number() >= servers => {
            Misfit::NoServer(server.number())
        }
        Event::Hold(_, _, content) if content.len() > DATA_LIMIT as usize => Misfit::TooLong,
        Event::Hold(_, _, _) => Misfit::TooLate,
        Event::Fail(_, _) => Misfit::TurnZero,
        Event::At(0, _) => Misfit::TurnZero,
        Event::At(_, loss) => Misfit::NoServer(server_of(loss)),
        Event::Now(loss) => Misfit::NoServer(server_of(loss)),
        Event::Moment(_) => Misfit::BeforeZero,
    }
}

// How many bytes of a piece the event brings.
fn piece_len(event: &Event) -> usize
    ensures { result ≡ len_of (scripted_of event.now) }
{
    match event {
        Event::Piece(_, bytes) | Event::Add(_, bytes) => bytes.len(),
        _ => 0,
    }
}

// How many bytes the pieces of these events have, which are few.
fn bytes_of(events: &[Event]) -> usize
    requires { sum_by len_of (map scripted_of events.now) ≤ PIECE_LIMIT }
    ensures { result ≡ sum_by len_of (map scripted_of events.now) }
{
    let mut bytes = 0;
    for event in events {
        bytes += piece_len(event);
    }
    bytes
}

/// How many bytes the pieces have before the first event that can't be over so many servers; 0 where each can be. It takes no memory.
pub fn bytes_before_bad(servers: u32, script: &Script) -> usize
    ensures { result ≡ bytes_before_bad servers (map scripted_of script.now.events.items) }
{
    match first_bad_event(servers, script) {
        Some(at) => bytes_of(&script.events[..at]),
        None => 0,
    }
}
