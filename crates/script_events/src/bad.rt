//! Which events of a script can't be.

ghost use Rattle.std.specs.Prelude.{◌≡◌, ◌<◌, List, length, map, replicate, IfSome};
ghost use Rattle.script_events.specs.Caches.{loss_server};
ghost use Rattle.script_events.specs.Scripted.{Scripted, scripted_of};
ghost use Rattle.script_events.specs.Bad.{bad_in, first_bad, IsBefore, HasRoom, IsOneMore};

use crate::script::{Event, Script};
use crate::servers::Loss;
use mc_types::{DATA_LIMIT, SCRIPT_CLIENTS};

/// The most bytes that all pieces of a script have together.
pub const PIECE_LIMIT: usize = 16_777_216;

/// The most bytes that a client adds (`Add`) between two pieces.
pub const ADD_LIMIT: usize = 524_288;

/// What came before an event: how many bytes the pieces had, those that each client added since the last `Piece`, and whether the
/// run has begun.
#[derive(Drop)]
struct Before {
    bytes: usize,
    added: [usize; SCRIPT_CLIENTS],
    begun: bool,
}

fn server_of(loss: &Loss) -> u32
    ensures { result ≡ loss_server loss.now }
{
    match loss {
        Loss::Item(server, _) => server.number(),
        Loss::Restart(server) => server.number(),
    }
}

// No client added anything.
fn none_added() -> [usize; SCRIPT_CLIENTS]
    ensures { result ≡ replicate SCRIPT_CLIENTS 0 }
{
    [0; SCRIPT_CLIENTS]
}

impl Before {
    // Whether the event can't be, after those that were counted.
    fn is_bad(&self, servers: u32, event: &Event) -> bool
        ensures { (events : List Scripted) → IsBefore events self.now → result ≡ bad_in servers events (scripted_of event.now) }
    {
        match event {
            Event::Piece(client, bytes) => {
                *client as usize >= SCRIPT_CLIENTS
                    || bytes.len() > PIECE_LIMIT.saturating_sub(self.bytes)
            }
            Event::Add(client, bytes) => {
                let client = *client as usize;
                client >= SCRIPT_CLIENTS
                    || bytes.len() > PIECE_LIMIT.saturating_sub(self.bytes)
                    || bytes.len() > ADD_LIMIT.saturating_sub(self.added[client])
            }
            Event::Result(server) => server.number() >= servers,
            Event::Hold(server, _, content) => {
                server.number() >= servers || content.len() > DATA_LIMIT as usize || self.begun
            }
            Event::Fail(turn, _) => *turn == 0,
            Event::At(turn, loss) => *turn == 0 || server_of(loss) >= servers,
            Event::Now(loss) => server_of(loss) >= servers,
            Event::Moment(moment) => *moment < 0,
        }
    }

    // Counts one more event, for which there is room.
    fn take(&mut self, event: &Event)
        requires { HasRoom self.old (scripted_of event.now) }
        ensures { IsOneMore self.old (scripted_of event.now) self.new }
    {
        match event {
            Event::Piece(_, bytes) => {
                self.bytes += bytes.len();
                self.added = none_added();
                self.begun = true;
            }
            Event::Add(client, bytes) => {
                self.bytes += bytes.len();
                self.added[*client as usize] += bytes.len();
                self.begun = true;
            }
            Event::Now(_) => self.begun = true,
            Event::Result(_)
            | Event::Hold(_, _, _)
            | Event::Fail(_, _)
            | Event::At(_, _)
            | Event::Moment(_) => {}
        }
    }
}

/// The place of the first event that can't be, counted from 0: a client above 63, a server that isn't there, a turn
/// counted 0, a moment below 0, the piece with which all pieces exceed 16,777,216 bytes, the piece with which the pieces that
/// a client added since the last `Piece` exceed 524,288 bytes, held data above 1,048,576 bytes, a `Hold` after a piece or a
/// loss, one named for a call (`At`) aside. It takes no memory.
///
/// Source: mcgate's own.
pub fn first_bad_event(servers: u32, script: &Script) -> Option<usize>
    ensures first { result ≡ first_bad servers (map scripted_of script.now.events.items) }
    ensures within { IfSome result (λ at. at < length script.now.events.items) }
{
    let mut before = Before {
        bytes: 0,
        added: none_added(),
        begun: false,
    };
    for (index, event) in script.events.iter().enumerate() {
        if before.is_bad(servers, event) {
            return Some(index);
        }
        before.take(event);
    }
    None
}
