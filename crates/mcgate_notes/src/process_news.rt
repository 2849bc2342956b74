//! What is told of the program itself, in words and by keys.

use crate::events::{Field, LogEvent, Subject};
use crate::lines::Lines;
use mcgate_ends::serve_job::ServeJob;
use std::io;
use std::net::SocketAddr;

// What stands after the first of these places.
fn after_first(places: &str) -> &str {
    match places.find(',') {
        Some(at) => places.get(at..).unwrap_or(""),
        None => "",
    }
}

/// Tells that the gate wasn't asked, where that is so.
pub fn tell_if_any<R: Eprint>(rt: &R, lines: &mut Lines, job: &ServeJob<'_>) {
    if job.any {
        lines.tell(
            rt,
            LogEvent::warn(Subject::Process, &[]),
            "mcgate: WARNING: --any: no gate was asked, nothing is promised: replies may show deleted data",
        );
    }
}

/// Tells that it listens, first at this address if that is known, and serves so many servers by the generation of this number.
pub fn tell_serving<R: Eprint>(
    rt: &R,
    lines: &mut Lines,
    job: &ServeJob<'_>,
    address: io::Result<SocketAddr>,
    servers: usize,
    generation: u32,
) {
    let (file, places) = (job.file, job.listen);
    let whose = if job.fleet { ", one of a fleet" } else { "" };
    let fields = [
        Field::event("serving"),
        Field::text("file", file),
        Field::text("at", places),
        Field::count("servers", servers as u64),
        Field::count("generation", u64::from(generation)),
    ];
    let event = LogEvent::info(Subject::Process, &fields);
    match address {
        Ok(address) => {
            let others = after_first(places);
            let line = format_args!(
                "mcgate: serving {file} on {address}{others}, {servers} servers, generation {generation}{whose}"
            );
            lines.tell(rt, event, line);
        }
        Err(_) => {
            let line = format_args!(
                "mcgate: serving {file} on {places}, {servers} servers, generation {generation}{whose}"
            );
            lines.tell(rt, event, line);
        }
    }
}

/// Tells that nothing is remembered of trees before, where no history is kept.
pub fn tell_if_new<R: Eprint>(rt: &R, lines: &mut Lines, job: &ServeJob<'_>) {
    if !job.any && job.history.is_none() {
        lines.tell(
            rt,
            LogEvent::info(Subject::History, &[]),
            "mcgate: without --history what is promised begins now: no tree that was served before is remembered",
        );
    }
}

/// Tells what the promise rests on where connections are given up while late answers are to come.
pub fn tell_if_giving_up<R: Eprint>(rt: &R, lines: &mut Lines, job: &ServeJob<'_>) {
    if job.settings.give_up_ms.is_some() {
        lines.tell(
            rt,
            LogEvent::info(Subject::Process, &[]),
            "mcgate: with --give-up-ms what is promised rests on servers that apply no call once its connection was given up",
        );
    }
}

/// Tells where it listens for who asks for numbers.
pub fn tell_metrics<R: Eprint>(rt: &R, lines: &mut Lines, address: SocketAddr) {
    let fields = [Field::event("metrics"), Field::address("at", address)];
    let line = format_args!("mcgate: metrics on {address}");
    lines.tell(rt, LogEvent::info(Subject::Process, &fields), line);
}

/// Tells where it listens for who tells it things.
pub fn tell_control<R: Eprint>(rt: &R, lines: &mut Lines, path: &str) {
    let fields = [Field::event("control"), Field::text("at", path)];
    let line = format_args!("mcgate: control at {path}");
    lines.tell(rt, LogEvent::info(Subject::Process, &fields), line);
}

/// Tells why the end of standard input can't be watched, which ends it.
pub fn tell_unwatched<R: Eprint>(rt: &R, lines: &mut Lines, error: &io::Error) {
    let line = format_args!("mcgate: standard input can't be watched: {error}");
    lines.tell(rt, LogEvent::error(Subject::Process, &[]), line);
}

/// Tells that it drains from now on, while so many clients are there.
pub fn tell_draining<R: Eprint>(rt: &R, lines: &mut Lines, clients: usize) {
    let fields = [
        Field::event("draining"),
        Field::count("clients", clients as u64),
    ];
    let line = format_args!("mcgate: draining, {clients} clients are there");
    lines.tell(rt, LogEvent::info(Subject::Process, &fields), line);
}

/// Tells that it has drained, and how many clients were left.
pub fn tell_drained<R: Eprint>(rt: &R, lines: &mut Lines, clients: usize) {
    let fields = [
        Field::event("drained"),
        Field::count("clients", clients as u64),
    ];
    let line = format_args!("mcgate: drained, {clients} clients were left");
    lines.tell(rt, LogEvent::info(Subject::Process, &fields), line);
}
