//! Scripts as events: which can't be, and what the others hand out.

use mc_types::{Key, ServerId};
use route_json::Config;
use script_events::servers::ScriptServers;
use script_events::text::printer::{write_outputs, write_report};
use script_events::{DriveFault, Event, Loss, Manner, Report, Script, Transcript, first_bad_event};
use script_run::drive_stepped;
use std::alloc::{AllocError, Global};
use std::io::Write;
use std::test::Fail;

fn key() -> Result<Key, Fail> {
    match Key::read(b"a") {
        Ok(key) => Ok(key),
        Err(_) => Err(Fail::from("a is a key")),
    }
}

// An event with so many bytes, or under the key `a`.
#[derive(Clone, Copy)]
enum Happening {
    Piece(u8, usize),
    Hold(u32, usize),
    Fail(u32, Manner),
    Moment(i64),
    Lose(u32),
    Restart(u32),
}

// What happens over two servers, after what, and whether that can be.
fn happenings() -> [(&'static str, Happening, Happening, bool); 16] {
    let first = Happening::Moment(0);
    let fail = Happening::Fail(1, Manner::After);
    let hold = Happening::Hold(1, 1);
    let most = Happening::Piece(0, 16_777_215);
    [
        ("client 64", first, Happening::Piece(64, 0), false),
        ("client 63", first, Happening::Piece(63, 0), true),
        ("call 0", first, Happening::Fail(0, Manner::Before), false),
        ("call 1", first, fail, true),
        ("moment -1", first, Happening::Moment(-1), false),
        ("restart of server 2", first, Happening::Restart(2), false),
        ("item of server 2", first, Happening::Lose(2), false),
        ("item of server 1", first, Happening::Lose(1), true),
        ("hold at server 2", first, Happening::Hold(2, 1), false),
        ("hold after a fail", fail, hold, true),
        ("hold after a piece", Happening::Piece(0, 0), hold, false),
        ("hold after a restart", Happening::Restart(1), hold, false),
        // What all pieces may have together.
        ("16 MiB", most, Happening::Piece(1, 1), true),
        ("a byte more", most, Happening::Piece(1, 2), false),
        // The data that a server may hold.
        ("1 MiB", first, Happening::Hold(0, 1_048_576), true),
        ("more", first, Happening::Hold(0, 1_048_577), false),
    ]
}

fn made(alloc: Global, happening: Happening) -> Result<Event, Fail> {
    match happening {
        Happening::Piece(client, length) => {
            Ok(Event::Piece(client, vec![in alloc; b'a'; length]?))
        }
        Happening::Hold(server, length) => {
            let data = vec![in alloc; b'1'; length]?;
            Ok(Event::Hold(ServerId::new(server), key()?, data))
        }
        Happening::Fail(turn, manner) => Ok(Event::Fail(turn, manner)),
        Happening::Moment(moment) => Ok(Event::Moment(moment)),
        Happening::Lose(server) => Ok(Event::Now(Loss::Item(ServerId::new(server), key()?))),
        Happening::Restart(server) => Ok(Event::Now(Loss::Restart(ServerId::new(server)))),
    }
}

fn script_of(alloc: Global, first: Happening, second: Happening) -> Result<Script, Fail> {
    let mut events = Vec::new(alloc);
    events.push(made(alloc, first)?)?;
    events.push(made(alloc, second)?)?;
    Ok(Script { events })
}

fn bad_event(alloc: Global, first: Happening, second: Happening) -> Result<Option<usize>, Fail> {
    let script = script_of(alloc, first, second)?;
    Ok(first_bad_event(2, &script))
}

#[test]
fn events_that_cannot_be(rt: HostRuntime) -> Result<(), Fail> {
    for (name, first, second, may_be) in happenings() {
        let bad = bad_event(rt.alloc(), first, second)?;
        assert!(rt; (bad != Some(1)) == may_be, "at {name}");
    }
    Ok(())
}

fn piece(alloc: Global, client: u8, bytes: &[u8]) -> Result<Event, AllocError> {
    Ok(Event::Piece(client, Vec::from_slice(alloc, bytes)?))
}

// The data `7` are held under `a`, which client 5 gets, deletes and gets.
fn held_and_deleted(alloc: Global) -> Result<Script, Fail> {
    let data = Vec::from_slice(alloc, b"7".as_slice())?;
    let mut events = Vec::new(alloc);
    events.push(Event::Hold(ServerId::new(0), key()?, data))?;
    events.push(piece(alloc, 5, b"get a\r\ndelete a\r\nget a\r\n".as_slice())?)?;
    Ok(Script { events })
}

// After a get comes a moment that can't be.
fn asked_and_bad(alloc: Global) -> Result<Script, Fail> {
    let mut events = Vec::new(alloc);
    events.push(piece(alloc, 0, b"get a\r\n".as_slice())?)?;
    events.push(Event::Moment(-1))?;
    Ok(Script { events })
}

// What a script handed out, how it ended, and after how many calls.
#[derive(Drop)]
struct Outcome {
    transcript: Transcript,
    ended: Result<Report, DriveFault>,
    calls: u64,
}

// A script is driven over one server.
fn driven(alloc: Global, script: &Script) -> Result<Outcome, Fail> {
    let config = Config::of_pool(alloc, 1)?;
    let mut servers = ScriptServers::new(alloc, 1)?;
    let mut transcript = Transcript {
        shown: Vec::new(alloc),
    };
    let none = Vec::new(alloc);
    let mut marks = Vec::new(alloc);
    let ended = drive_stepped(
        alloc,
        &config,
        &none,
        &[],
        &mut servers,
        script,
        &mut transcript,
        &mut marks,
    );
    Ok(Outcome {
        transcript,
        ended,
        calls: servers.calls(),
    })
}

fn push_end(out: &mut Vec<u8>, driven: &Outcome) -> Result<(), Fail> {
    match &driven.ended {
        Ok(report) => write_report(report, out)?,
        Err(DriveFault::BadEvent(at)) => {
            writeln!(out, "bad event {at} after {} calls", driven.calls)?;
        }
        Err(_) => return Err(Fail::from("another fault")),
    }
    Ok(())
}

// What came of a script over one server.
fn told_of(alloc: Global, script: &Script) -> Result<Vec<u8>, Fail> {
    let driven = driven(alloc, script)?;
    let mut out = Vec::new(alloc);
    write_outputs(driven.transcript.shown.as_slice(), &mut out)?;
    push_end(&mut out, &driven)?;
    Ok(out)
}

#[test]
fn what_was_held_is_shown_and_deleted(rt: HostRuntime) -> Result<(), Fail> {
    let script = held_and_deleted(rt.alloc())?;
    let out = told_of(rt.alloc(), &script)?;
    assert_eq!(rt;
        out.as_slice(),
        b"< 5 VALUE a 0 1\\r\\n7\\r\\nEND\\r\\nDELETED\\r\\nEND\\r\\n\ndone 3 commands 3 calls 0 stale\n".as_slice()
    );
    Ok(())
}

#[test]
fn nothing_happens_where_an_event_cannot_be(rt: HostRuntime) -> Result<(), Fail> {
    let script = asked_and_bad(rt.alloc())?;
    let out = told_of(rt.alloc(), &script)?;
    assert_eq!(rt; out.as_slice(), b"bad event 1 after 0 calls\n".as_slice());
    Ok(())
}
