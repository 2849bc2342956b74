//! What a script may put on servers that began so.

ghost use Rattle.std.specs.Prelude.{◌≡◌, ◌<◌, IfSome, length, map};
ghost use Rattle.route_tree.specs.At.{tree_at};
ghost use Rattle.gate_growth.specs.PutsComputed.{puts};
ghost use Rattle.script_events.specs.Scripted.{scripted_of};
ghost use Rattle.mcgate_replay.specs.Growing.{may_begin_with, may_hold, is_excluded, first_excluded, excluded_by};

use crate::judging::Judging;
use core_accepted::{Beginning, Beginnings};
use gate_coverage::Seen;
use gate_coverage::seen::At;
use gate_growth::puts::putting::is_put_on;
use mc_types::{Key, ServerId};
use route_json::Config;
use route_tree::{Tree, key_hash};
use script_events::Event;

// Whether the tree puts items of the key on the server.
fn is_put(tree: &Tree, server: ServerId, key: &Key) -> bool
    ensures { result ≡ puts (tree_at tree.now key.now) server }
{
    let at = At {
        text: key.as_bytes(),
        hash: key_hash(key),
    };
    is_put_on(Seen::Tree(tree, &at), server)
}

// Whether a server that began so may hold an item at first: one of the first configuration, if its tree puts it there.
fn may_begin_with(beginning: Beginning, founder: bool, put: bool) -> bool
    ensures { result ≡ may_begin_with beginning founder put }
{
    match beginning {
        Beginning::Any => true,
        Beginning::Own => founder && put,
    }
}

// Whether a server may hold an item of the key at first.
fn may_hold(begun: Beginnings, config: &Config, server: ServerId, key: &Key) -> bool
    ensures { result ≡ may_hold begun config.now server key.now }
{
    let put = is_put(config.tree(), server, key);
    if (server.number() as usize) < config.servers().len() {
        may_begin_with(begun.opened, true, put)
    } else {
        may_begin_with(begun.added, false, put)
    }
}

// Whether the event puts on a server what that can't have held at first.
fn is_excluded(begun: Beginnings, config: &Config, event: &Event) -> bool
    ensures { result ≡ is_excluded begun config.now (scripted_of event.now) }
{
    match event {
        Event::Hold(server, key, _) => !may_hold(begun, config, *server, key),
        _ => false,
    }
}

// The place of the first such event, counted from 0.
fn first_excluded(begun: Beginnings, config: &Config, events: &[Event]) -> Option<usize>
    ensures first { result ≡ first_excluded begun config.now 0 (map scripted_of events.now) }
    ensures within { IfSome result (λ at. at < length events.now) }
{
    for (index, event) in events.iter().enumerate() {
        if is_excluded(begun, config, event) {
            return Some(index);
        }
    }
    None
}

/// The place of the first event, counted from 0, that puts on a server what that can't have held at first, if anything is said of
/// that. It takes no memory.
pub fn excluded_event(judging: Judging, config: &Config, events: &[Event]) -> Option<usize>
    ensures first { result ≡ excluded_by judging config.now (map scripted_of events.now) }
    ensures within { IfSome result (λ at. at < length events.now) }
{
    match judging {
        Judging::Any => None,
        Judging::Asked(_) => None,
        Judging::Begun(begun, _) => first_excluded(begun, config, events),
    }
}
