//! What is told of a server's link, in words and by keys.

use mcgate_notes::events::{Field, LogEvent, Subject};
use mcgate_notes::lines::Lines;
use serve_links::{Cause, LinkNews};
use std::fmt;
use std::fmt::Display;

/// What happened to a server's link, and whether its server is still to be emptied before its first call.
#[derive(Clone, Copy)]
pub struct ServerNews {
    pub news: LinkNews,
    pub flushes: bool,
}

impl Display for ServerNews {
    fn fmt<W: fmt::Write>(&self, f: &mut fmt::Formatter<W>) -> fmt::Result {
        match (self.news, self.flushes) {
            (LinkNews::Failed(Cause::ForeignAnswer, times), true) => {
                write!(
                    f,
                    "failed: it doesn't answer flush_all by OK, {times} in a row"
                )
            }
            (LinkNews::Failed(Cause::ConnectLate, times), true) => {
                write!(
                    f,
                    "failed: a connection, or the answer to flush_all, took too long, {times} in a row"
                )
            }
            (news, _) => news.fmt(f),
        }
    }
}

// Tells that it failed.
fn tell_failed<R: Eprint>(
    rt: &R,
    lines: &mut Lines,
    server: &str,
    cause: Cause,
    times: u32,
    told: ServerNews,
) {
    let fields = [
        Field::text("server", server),
        Field::event("failed"),
        Field::text("cause", cause.name()),
        Field::count("in_a_row", u64::from(times)),
    ];
    let line = format_args!("mcgate: server {server}: {told}");
    lines.tell(rt, LogEvent::warn(Subject::Server, &fields), line);
}

// Tells anything else.
fn tell_other<R: Eprint>(
    rt: &R,
    lines: &mut Lines,
    server: &str,
    event: &'static str,
    told: ServerNews,
) {
    let fields = [Field::text("server", server), Field::event(event)];
    let event = match told.news {
        LinkNews::Opened => LogEvent::debug(Subject::Server, &fields),
        LinkNews::Back => LogEvent::info(Subject::Server, &fields),
        LinkNews::Failed(_, _) | LinkNews::Late => LogEvent::warn(Subject::Server, &fields),
    };
    lines.tell(rt, event, format_args!("mcgate: server {server}: {told}"));
}

/// Tells it of this server.
pub fn tell_server<R: Eprint>(rt: &R, lines: &mut Lines, server: &str, told: ServerNews) {
    match told.news {
        LinkNews::Failed(cause, times) => tell_failed(rt, lines, server, cause, times, told),
        LinkNews::Late => tell_other(rt, lines, server, "late", told),
        LinkNews::Opened => tell_other(rt, lines, server, "connected", told),
        LinkNews::Back => tell_other(rt, lines, server, "back", told),
    }
}
