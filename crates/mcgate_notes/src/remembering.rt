//! What a proxy remembers from one run to the next: a history in a file, to which each configuration is added before its tree is used.

ghost use Rattle.std.specs.Prelude.{◌≡◌, ℕ, List, Some, IfOk};
ghost use Rattle.gate_history.specs.Standing.{StandsInHistory};
ghost use Rattle.mcgate_notes.specs.Remembers.{MayStand};

use crate::events::{Field, LogEvent, Subject};
use crate::folders::folder_of;
use crate::lines::Lines;
use crate::special::is_special;
use gate_growth::ledger::Beginning;
use gate_history::HistoryFile;
use mcgate_ends::ends::Stop;
use mcgate_ends::histories::print_kept_after;
use mcgate_ends::input_text::{INPUT_LIMIT, read_input_noting};
use std::alloc::{AllocError, Global};
use std::fs::{File, OpenFile, remove_file, rename};
use std::io;
use std::io::{ErrorKind, Read, Write};
use std::rt::Files;

/// A history, and the file in which it stands: it was read from there, or written there and synced.
#[derive(Drop)]
pub struct Kept {
    path: String,
    file: HistoryFile,
    /// How new servers began.
    added: Beginning,
}

/// What is said of a file that isn't written, since another process has written it.
pub const OTHER_WROTE: &str =
    "another process has written it: each mcgate has a history of its own";

/// What became of a text that is to be loaded.
#[derive(Drop)]
pub enum Remembering {
    /// It may not be, and why was printed.
    Refused,
    /// Where a history is kept, its last line says the text. This is the text of the file without that line, if it was written now.
    Stands(Option<String>),
}

// A new file of this name has the text, and the disk too.
fn write_synced<R: Files>(rt: &R, path: &str, text: &str) -> io::Result<()> {
    let mut file = File::create(rt, path)?;
    file.write_all(text.as_bytes())?;
    file.sync_all()
}

// The disk has the folder as it is.
fn sync_folder<R: Files>(rt: &R, folder: &str) -> io::Result<()> {
    let folder = File::open(rt, folder)?;
    folder.sync_all()
}

// The file has the text, and the disk too: at each moment before it has it as it was. One that couldn't be read again isn't written.
fn put<R: Files + AllocGlobal>(rt: &R, path: &str, text: &str) -> io::Result<()> {
    if text.len() > INPUT_LIMIT {
        return Err(io::Error::from(ErrorKind::FileTooLarge));
    }
    let beside = format!(in rt.alloc(); "{path}.new")?;
    if let Err(error) = write_synced(rt, beside.as_str(), text) {
        let _ = remove_file(rt, beside.as_str());
        return Err(error);
    }
    rename(rt, beside.as_str(), path)?;
    sync_folder(rt, folder_of(path))
}

// Whether a reader has another text than this.
fn has_other_text<R: Read + Drop>(alloc: Global, reader: R, text: &str) -> io::Result<bool> {
    let mut failure = None;
    let found = read_input_noting(alloc, reader, &mut failure);
    if let Some(error) = failure {
        return Err(error);
    }
    match found {
        Ok(found) => Ok(found.as_str() != text),
        Err(_) => Ok(true),
    }
}

// Whether a file has another text than this, which was written there last, or is none any more. One that has vanished hasn't.
fn is_of_another<R: Files + AllocGlobal>(rt: &R, path: &str, text: &str) -> io::Result<bool> {
    if is_special(rt, path) {
        return Ok(true);
    }
    match File::open(rt, path) {
        Ok(file) => has_other_text(rt.alloc(), file, text),
        Err(error) if error.kind() == ErrorKind::NotFound => Ok(false),
        Err(error) => Err(error),
    }
}

/// The file has this text, and the disk too, where it had the old one or is gone: whether that was so. What another process has written there
/// stays. An error comes where the system refuses, or the text is too long to be read again.
pub fn put_over<R: Files + AllocGlobal>(
    rt: &R,
    path: &str,
    old: &str,
    text: &str,
) -> io::Result<bool> {
    if is_of_another(rt, path, old)? {
        return Ok(false);
    }
    put(rt, path, text)?;
    Ok(true)
}

/// What is said of a file that can't be written.
pub fn unwritten_line(alloc: Global, path: &str, error: &io::Error) -> Result<String, AllocError> {
    format!(in alloc; "mcgate: cannot write {path}: {error}")
}

/// Says it.
pub fn tell_unwritten<R: AllocGlobal + Eprint>(
    rt: &R,
    lines: &mut Lines,
    path: &str,
    error: &io::Error,
) {
    if let Ok(line) = unwritten_line(rt.alloc(), path, error) {
        let fields = [Field::event("unwritten"), Field::text("file", path)];
        let event = LogEvent::error(Subject::History, &fields);
        lines.tell(rt, event.with_text(), line.as_str());
    }
}

// Says of a history that another process has written it.
fn tell_other<R: Eprint>(rt: &R, lines: &mut Lines, path: &str) {
    let fields = [Field::event("other_wrote"), Field::text("file", path)];
    let event = LogEvent::error(Subject::History, &fields);
    lines.tell(rt, event, format_args!("mcgate: {path}: {OTHER_WROTE}"));
}

impl Kept {
    /// The history of this file, to which a generation was added since it was read if it is new: then the file is written before.
    pub fn new<R: Files + AllocGlobal>(
        rt: &R,
        path: &str,
        file: HistoryFile,
        added: Beginning,
        is_new: bool,
    ) -> io::Result<Kept>
        ensures { IfOk result (λ kept. kept.file ≡ file) }
    {
        if is_new {
            put(rt, path, file.text())?;
        }
        let path = String::from_str(rt.alloc(), path)?;
        Ok(Kept { path, file, added })
    }

    /// How many generations it has.
    pub fn count(&self) -> usize {
        self.file.count()
    }

    // It is that of this text, which it had before.
    fn go_back(&mut self, alloc: Global, text: String) -> Result<(), Stop> {
        match HistoryFile::read(alloc, text) {
            Ok(file) => {
                self.file = file;
                Ok(())
            }
            Err(_) => Err(Stop::Memory),
        }
    }

    // Writes the file, which had this text. Whether it did; if not, why is told.
    fn writes<R: Files + AllocGlobal + Eprint>(
        &self,
        rt: &R,
        lines: &mut Lines,
        old: &str,
    ) -> bool {
        let path = self.path.as_str();
        match put_over(rt, path, old, self.file.text()) {
            Ok(true) => true,
            Ok(false) => {
                tell_other(rt, lines, path);
                false
            }
            Err(error) => {
                tell_unwritten(rt, lines, path, &error);
                false
            }
        }
    }

    // Writes the file, to which a line was added. Where it can't be written, or another process has written it since, the history is what
    // it was.
    fn write_line<R: Files + AllocGlobal + Eprint, W: Write>(
        &mut self,
        rt: &R,
        lines: &mut Lines,
        old: String,
        out: &mut W,
    ) -> Result<Remembering, Stop>
        ensures { (text : List ℕ) → StandsInHistory self.old.file.text text → IfOk result (λ r. MayStand r (Some self.new) text) }
    {
        if self.writes(rt, lines, old.as_str()) {
            return Ok(Remembering::Stands(Some(old)));
        }
        self.go_back(rt.alloc(), old)?;
        writeln!(out, "reload refused: history not written")?;
        Ok(Remembering::Refused)
    }

    // The text's configuration is the next generation, and stands in the file, if it may be; else why not is printed.
    fn take<R: Files + AllocGlobal + Eprint, W: Write>(
        &mut self,
        rt: &R,
        lines: &mut Lines,
        text: &str,
        out: &mut W,
    ) -> Result<Remembering, Stop>
        ensures { IfOk result (λ r. MayStand r (Some self.new) text.now) }
    {
        match self.file.take_text(rt.alloc(), text, self.added) {
            Ok(None) => Ok(Remembering::Stands(None)),
            Ok(Some(old)) => self.write_line(rt, lines, old, out),
            Err(fault) => {
                print_kept_after(&fault, out)?;
                Ok(Remembering::Refused)
            }
        }
    }

    // The file has this text again, which it had before.
    fn put_back<R: Files + AllocGlobal + Eprint>(
        &mut self,
        rt: &R,
        lines: &mut Lines,
        old: String,
    ) -> Result<(), Stop> {
        self.go_back(rt.alloc(), old)?;
        if let Err(error) = put(rt, self.path.as_str(), self.file.text()) {
            tell_unwritten(rt, lines, self.path.as_str(), &error);
        }
        Ok(())
    }
}

/// Before a text is loaded: where a history is kept, its file has the text then, if its configuration may follow; else why not is printed.
pub fn remember<R: Files + AllocGlobal + Eprint, W: Write>(
    rt: &R,
    lines: &mut Lines,
    memory: &mut Option<Kept>,
    text: &str,
    out: &mut W,
) -> Result<Remembering, Stop>
    ensures { IfOk result (λ r. MayStand r memory.new text.now) }
{
    match memory {
        None => Ok(Remembering::Stands(None)),
        Some(kept) => kept.take(rt, lines, text, out),
    }
}

/// After a text wasn't loaded: the file has this text again, if its line was written.
pub fn forget<R: Files + AllocGlobal + Eprint>(
    rt: &R,
    lines: &mut Lines,
    memory: &mut Option<Kept>,
    old: Option<String>,
) -> Result<(), Stop> {
    match (memory, old) {
        (Some(kept), Some(old)) => kept.put_back(rt, lines, old),
        _ => Ok(()),
    }
}
