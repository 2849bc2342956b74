//! What a script puts on servers before its run.

ghost use Rattle.std.specs.Prelude.{◌≡◌, List, map, false, None, OnOk};
ghost use Rattle.script_events.specs.Bad.{bad_in, first_bad};
ghost use Rattle.script_events.specs.Scripted.{Scripted, scripted_of};
ghost use Rattle.script_events.specs.Servers.{caches_of, count_of_servers};
ghost use Rattle.script_run.specs.Holding.{put_on, put_all_on};

use script_events::Event;
use script_events::servers::ScriptServers;
use std::alloc::AllocError;

// What one event puts on the servers is there.
fn hold(servers: &mut ScriptServers, event: &Event) -> Result<(), AllocError>
    requires good { (before : List Scripted) × (bad_in (count_of_servers servers.old) before (scripted_of event.now) ≡ false) }
    ensures ok { OnOk result (caches_of servers.new ≡ put_on (scripted_of event.now) (caches_of servers.old)) }
    ensures count { count_of_servers servers.new ≡ count_of_servers servers.old }
    ensures rest { servers.new ≡ record servers.old { caches = servers.new.caches } }
{
    match event {
        Event::Hold(server, key, content) => servers.hold(*server, key, content.as_slice()),
        _ => Ok(()),
    }
}

/// All that the script puts on servers is there, in the script's order. The only error is running out of memory.
pub fn hold_all(servers: &mut ScriptServers, events: &[Event]) -> Result<(), AllocError>
    requires good { first_bad (count_of_servers servers.old) (map scripted_of events.now) ≡ None }
    ensures ok { OnOk result (caches_of servers.new ≡ put_all_on events.now (caches_of servers.old)) }
    ensures count { count_of_servers servers.new ≡ count_of_servers servers.old }
    ensures rest { servers.new ≡ record servers.old { caches = servers.new.caches } }
{
    for event in events {
        hold(servers, event)?;
    }
    Ok(())
}
