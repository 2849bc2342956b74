//! Tests: turns of a cache server whose clients come over a wire in memory.

use crate::reading::{halves, same, text_of, wire};
use cache_tcp::{CacheEnd, Settings};
use examples_memory::{Act, Memory, Peer};
use std::alloc::Global;
use std::test::Fail;

// In each line a far end calls, some time after the one above it. It gives each part for a read of its own; `..` is a read that is interrupted, and `END`
// the end of what it sends. After the arrow stands what it gets. There may be two clients at a time.
fn texts() -> &'static str {
    r"Clients are answered, and a third is one too many.
set a 0 0 1|1|ge / t a|get b| => STORED|VALUE a 0 1|1|END|END|
get a| / .. / mn| => VALUE a 0 1|1|END|MN|
get a| => SERVER_ERROR too many clients|

Who comes once others have gone is served.
set a 0 0 1|1| / END => STORED|
incr a 2|quit|get a| => 3|
get a| / END => VALUE a 0 1|3|END|
get b| => END|"
}

fn act(alloc: Global, text: &str) -> Result<Act, Fail> {
    match text {
        ".." => Ok(Act::Interrupts),
        "END" => Ok(Act::Ends),
        _ => Ok(Act::Sends(wire(alloc, text)?.into_bytes())),
    }
}

// The far end of a line.
fn far_end(alloc: Global, name: u32, line: &str) -> Result<Peer, Fail> {
    let mut peer = Peer::new(alloc, name);
    let (gives, _) = halves(line, " => ");
    for part in gives.split(" / ") {
        peer.then(act(alloc, part)?)?;
    }
    Ok(peer)
}

fn far_ends(alloc: Global, lines: &str) -> Result<Memory, Fail> {
    let mut wire = Memory::new(alloc);
    let mut name = 0u32;
    for line in lines.lines() {
        let peer = far_end(alloc, name, line)?;
        wire.will_connect(u64::from(name), peer)?;
        name = name.saturating_add(1);
    }
    Ok(wire)
}

// A server of these clients, after all turns in which something happens.
fn turned(rt: &HostRuntime, lines: &str) -> Result<CacheEnd<Memory>, Fail> {
    let wire = far_ends(rt.alloc(), lines)?;
    let settings = Settings {
        capacity: 16,
        clients: 2,
        flushes: false,
    };
    let mut end = CacheEnd::over(rt, wire, settings, None)?;
    for _ in 0..1_000 {
        if end.turn(rt).is_err() {
            break;
        }
    }
    Ok(end)
}

fn example(rt: &HostRuntime, text: &str) -> Result<(), Fail> {
    let (name, lines) = halves(text, "\n");
    let end = turned(rt, lines)?;
    let mut at = 0u32;
    for line in lines.lines() {
        let (_, want) = halves(line, " => ");
        let got = text_of(rt.alloc(), end.wire().taken(at))?;
        same(name, line, got.as_str(), want)?;
        at = at.saturating_add(1);
    }
    Ok(())
}

#[test]
fn turns_of_a_cache(rt: HostRuntime) -> Result<(), Fail> {
    for text in texts().split("\n\n") {
        example(&rt, text)?;
    }
    Ok(())
}
