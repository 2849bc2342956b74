//! Servers that are to be emptied before their first call. Beside a history a file names them until
//! they were, so that the next run empties those of which it isn't known.

ghost use Rattle.std.specs.Prelude.{◌≡◌, IfSome};
ghost use Rattle.route_json.specs.NumberedServers.{texts};
ghost use Rattle.serve_proxy.specs.Ends.{Stay};
ghost use Rattle.mcgate_serve.specs.Emptied.{is_among, IsNamedAt, IsDueAt, EmptiesOnly};

use mcgate_ends::ends::Stop;
use mcgate_ends::input::text_of;
use mcgate_ends::input_text::InputFault;
use mcgate_notes::lines::Lines;
use mcgate_notes::remembering::{OTHER_WROTE, put_over, tell_unwritten};
use route_json::addresses::Servers;
use route_json::read_config_after;
use serve_proxy::{Sockets, text_at};
use serve_wire::Wire;
use std::alloc::{AllocError, Global};
use std::fs::metadata;
use std::io;
use std::io::{ErrorKind, Write};
use std::rt::Files;

/// The names of servers that are to be emptied, and the file that has them, one on each line, where
/// a history is kept.
#[derive(Drop)]
pub struct Emptying {
    path: Option<String>,
    names: Vec<String>,
    // What the file had when it was read or written last.
    written: String,
    // Whether servers that a reload brings are to be emptied.
    flushes_new: bool,
}

// The file beside a history.
fn path_beside(alloc: Global, history: Option<&str>) -> Result<Option<String>, AllocError> {
    match history {
        None => Ok(None),
        Some(path) => Ok(Some(format!(in alloc; "{path}.flush")?)),
    }
}

// Whether there is such a file.
fn is_there<R: Files>(rt: &R, path: &str) -> bool {
    match metadata(rt, path) {
        Ok(_) => true,
        Err(error) => error.kind() != ErrorKind::NotFound,
    }
}

// The lines of a text.
fn lines_of(alloc: Global, text: &str) -> Result<Vec<String>, AllocError> {
    let mut names = Vec::new(alloc);
    for line in text.split('\n') {
        if !line.is_empty() {
            names.push(String::from_str(alloc, line)?)?;
        }
    }
    Ok(names)
}

// A text of lines.
fn text_with(alloc: Global, names: &[String]) -> Result<String, AllocError> {
    let mut text = String::new(alloc);
    for name in names {
        text.push_str(name.as_str())?;
        text.push_str("\n")?;
    }
    Ok(text)
}

// What a file has; nothing where there is none.
fn text_in<R: Files + Input + AllocGlobal>(rt: &R, path: &str) -> io::Result<String> {
    if !is_there(rt, path) {
        return Ok(String::new(rt.alloc()));
    }
    match text_of(rt, Some(path)) {
        Ok(text) => Ok(text),
        Err(InputFault::NoMemory) => Err(io::Error::from(ErrorKind::OutOfMemory)),
        Err(_) => Err(io::Error::from(ErrorKind::InvalidData)),
    }
}

/// What is said of the file beside this history where it can't be read.
pub fn unread_line(alloc: Global, history: &str, error: &io::Error) -> Result<String, AllocError> {
    format!(in alloc; "mcgate: cannot read {history}.flush: {error}")
}

fn has(names: &[String], name: &str) -> bool
    ensures { result ≡ is_among name.now (texts names.now) }
{
    for known in names {
        if known.as_str() == name {
            return true;
        }
    }
    false
}

// Whether the server of this name is still to be emptied, as far as is known: one that isn't in use
// is.
fn is_due<W: Wire>(sockets: &Sockets<W>, servers: &Servers, name: &str) -> bool {
    let Some(server) = servers.find(name) else {
        return true;
    };
    match sockets.link(server.number() as usize) {
        Some(link) => link.flushes,
        None => true,
    }
}

impl Emptying {
    /// The servers that are still to be emptied, as the run before left them: none where there was
    /// none, or no history is kept.
    pub fn read<R: Files + Input + AllocGlobal>(
        rt: &R,
        history: Option<&str>,
        flushes_new: bool,
    ) -> io::Result<Emptying> {
        let path = path_beside(rt.alloc(), history)?;
        let written = match &path {
            Some(path) => text_in(rt, path.as_str())?,
            None => String::new(rt.alloc()),
        };
        let names = lines_of(rt.alloc(), written.as_str())?;
        Ok(Emptying {
            path,
            names,
            written,
            flushes_new,
        })
    }

    /// The file that has them; empty where no history is kept.
    pub fn path(&self) -> &str {
        match &self.path {
            Some(path) => path.as_str(),
            None => "",
        }
    }

    // The file names them, and the disk has it. What another process has written there stays.
    fn write<R: Files + AllocGlobal>(&mut self, rt: &R) -> io::Result<()> {
        let Some(path) = &self.path else {
            return Ok(());
        };
        let text = text_with(rt.alloc(), &self.names)?;
        if text.as_str() == self.written.as_str() {
            return Ok(());
        }
        if !put_over(rt, path.as_str(), self.written.as_str(), text.as_str())? {
            return Err(io::Error::other(OTHER_WROTE));
        }
        self.written = text;
        Ok(())
    }

    // The server of this name is to be emptied, which isn't written yet.
    fn note(&mut self, alloc: Global, name: &str) -> Result<(), AllocError> {
        if !has(&self.names, name) {
            self.names.push(String::from_str(alloc, name)?)?;
        }
        Ok(())
    }

    /// The server of this name is to be emptied. The file has it before it is used.
    pub fn add_one<R: Files + AllocGlobal>(&mut self, rt: &R, name: &str) -> io::Result<()> {
        self.note(rt.alloc(), name)?;
        self.write(rt)
    }

    /// These servers from this number on are to be emptied. The file has them before they are used.
    pub fn add<R: Files + AllocGlobal>(
        &mut self,
        rt: &R,
        servers: &Servers,
        from: usize,
    ) -> io::Result<()> {
        for at in from..servers.len() {
            if let Some(name) = text_at(servers, at) {
                self.note(rt.alloc(), name)?;
            }
        }
        self.write(rt)
    }

    /// The servers that a text's configuration has behind these, if it says one, are to be emptied,
    /// where that is so of all that a reload brings. The file has them before they are used.
    pub fn add_of<R: Files + AllocGlobal>(
        &mut self,
        rt: &R,
        servers: &Servers,
        text: &str,
    ) -> io::Result<()> {
        if !self.flushes_new {
            return Ok(());
        }
        match read_config_after(rt.alloc(), servers.copy(rt.alloc())?, text) {
            Ok(config) => self.add(rt, config.servers(), servers.len()),
            Err(_) => Ok(()),
        }
    }

    /// The number of the first of these servers, from this number on, that is named as one to be
    /// emptied.
    pub fn next(&self, servers: &Servers, from: usize) -> Option<usize>
        ensures { IfSome result (IsNamedAt (texts self.now.names.items) servers.now) }
    {
        for at in from..servers.len() {
            if let Some(name) = text_at(servers, at) {
                if has(&self.names, name) {
                    return Some(at);
                }
            }
        }
        None
    }

    /// Servers that were emptied are named no longer.
    pub fn settle<R: Files + AllocGlobal, W: Wire>(
        &mut self,
        rt: &R,
        sockets: &Sockets<W>,
        servers: &Servers,
    ) -> io::Result<()> {
        if self.names.is_empty() {
            return Ok(());
        }
        let mut left = Vec::new(rt.alloc());
        for name in &self.names {
            if is_due(sockets, servers, name.as_str()) {
                left.push(String::from_str(rt.alloc(), name.as_str())?)?;
            }
        }
        if left.len() == self.names.len() {
            return Ok(());
        }
        self.names = left;
        self.write(rt)
    }
}

/// The new servers of a text are to be emptied, if it says a configuration, where that is so of all
/// that a reload brings: it is written before they are used. Whether it was, or needn't be; where
/// it can't be written that is told and printed.
pub fn notes_new<R: Files + AllocGlobal + Eprint, W: Write>(
    rt: &R,
    lines: &mut Lines,
    emptying: &mut Option<Emptying>,
    servers: &Servers,
    text: &str,
    out: &mut W,
) -> Result<bool, Stop> {
    let Some(emptying) = emptying else {
        return Ok(true);
    };
    match emptying.add_of(rt, servers, text) {
        Ok(()) => Ok(true),
        Err(error) if error.kind() == ErrorKind::OutOfMemory => Err(Stop::Memory),
        Err(error) => {
            tell_unwritten(rt, lines, emptying.path(), &error);
            writeln!(out, "reload refused: history not written")?;
            Ok(false)
        }
    }
}

/// The server of this number is to be emptied, since its name leads to another machine: it is
/// written.
pub fn note_moved<R: Files + AllocGlobal>(
    rt: &R,
    emptying: &mut Option<Emptying>,
    servers: &Servers,
    at: usize,
) -> io::Result<()> {
    let Some(emptying) = emptying else {
        return Err(io::Error::from(ErrorKind::NotFound));
    };
    match text_at(servers, at) {
        Some(name) => emptying.add_one(rt, name),
        None => Err(io::Error::from(ErrorKind::NotFound)),
    }
}

/// What was emptied is noted. Where that can't be written, it may be emptied once more by the next
/// run.
pub fn settle_emptying<R: Files + AllocGlobal + Eprint, W: Wire>(
    rt: &R,
    lines: &mut Lines,
    emptying: &mut Option<Emptying>,
    sockets: &Sockets<W>,
    servers: &Servers,
) {
    if let Some(emptying) = emptying {
        if let Err(error) = emptying.settle(rt, sockets, servers) {
            tell_unwritten(rt, lines, emptying.path(), &error);
        }
    }
}

// The first of these servers that is to be emptied, from this number on.
fn next_emptying(emptying: &Option<Emptying>, servers: &Servers, from: usize) -> Option<usize>
    ensures { IfSome result (IsDueAt emptying.now servers.now) }
{
    match emptying {
        Some(emptying) => emptying.next(servers, from),
        None => None,
    }
}

/// The servers that are to be emptied are, before their first call, and no others are by that.
pub fn mark_emptying<W: Wire>(
    sockets: &mut Sockets<W>,
    servers: &Servers,
    emptying: &Option<Emptying>,
)
    ensures emptied { EmptiesOnly (IsDueAt emptying.now servers.now) sockets.old.links.all.items sockets.new.links.all.items }
    ensures ends { Stay W.history sockets.old sockets.new }
{
    let mut from = 0usize;
    for _ in 0..servers.len() {
        let Some(at) = next_emptying(emptying, servers, from) else {
            return;
        };
        sockets.empty_first(at);
        from = at.saturating_add(1);
    }
}
