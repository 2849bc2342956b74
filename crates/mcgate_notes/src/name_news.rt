//! What is told of servers' names, in words and by keys.

use crate::events::{Field, LogEvent, Subject};
use crate::lines::Lines;

/// What is told of a server's name.
#[derive(Clone, Copy)]
pub enum NameNews {
    /// It leads to no machine, and never did.
    Unknown,
    /// It leads to a machine for the first time.
    Known,
    /// It can't be looked up now.
    NotFound,
    /// It leads to another machine, where connections go from now on.
    Moved,
    /// It leads to another machine, where no connections go.
    Kept,
    /// It leads to another machine, where no connections go, as it can't be written that this one is to be emptied.
    Unwritten,
}

impl NameNews {
    fn event(self) -> &'static str {
        match self {
            NameNews::Unknown => "unknown",
            NameNews::Known => "known",
            NameNews::NotFound => "name_not_found",
            NameNews::Moved => "name_moved",
            NameNews::Kept => "name_moved_kept",
            NameNews::Unwritten => "name_moved_unwritten",
        }
    }

    fn words(self) -> &'static str {
        match self {
            NameNews::Unknown => "no such host, its calls fail",
            NameNews::Known => "its name is known now",
            NameNews::NotFound => "its name can't be looked up, calls go on as before",
            NameNews::Moved => {
                "its name leads to another machine: the next connection goes there"
            }
            NameNews::Kept => {
                "its name leads to another machine, which may hold anything: calls go on to the one before (see --new-servers)"
            }
            NameNews::Unwritten => {
                "its name leads to another machine, and it can't be written that this is to be emptied: calls go on to the one before"
            }
        }
    }

    fn of<'a>(self, fields: &'a [Field<'a>]) -> LogEvent<'a> {
        match self {
            NameNews::Known | NameNews::Moved => LogEvent::info(Subject::Server, fields),
            NameNews::Unwritten => LogEvent::error(Subject::Server, fields),
            NameNews::Unknown | NameNews::NotFound | NameNews::Kept => {
                LogEvent::warn(Subject::Server, fields)
            }
        }
    }
}

/// Tells it of this server.
pub fn tell_name<R: Eprint>(rt: &R, lines: &mut Lines, server: &str, news: NameNews) {
    let fields = [Field::text("server", server), Field::event(news.event())];
    let words = news.words();
    lines.tell(
        rt,
        news.of(&fields),
        format_args!("mcgate: server {server}: {words}"),
    );
}
