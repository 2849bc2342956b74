//! How a text begins to be served: after the history that is remembered, and in a fleet.

ghost use Rattle.std.specs.Prelude.{IsTrue, IfOk, string_bytes};
ghost use Rattle.gate_history.specs.Standing.{StandsInHistory};
ghost use Rattle.mcgate_serve.specs.InFleet.{Keeps, LastStandBeside};

use crate::emptying::{Emptying, unread_line};
use crate::histories::file_at;
use crate::started::{Begun, Started};
use gate_growth::ledger::Beginning;
use gate_history::{Generation, HistoryFile};
use mcgate_ends::details::Details;
use mcgate_ends::ends::Stop;
use mcgate_ends::fleets::members::may_follow;
use mcgate_ends::histories::{began_in, print_no_next, tell_no_next};
use mcgate_ends::serve_job::ServeJob;
use mcgate_lines::status::{BAD_INPUT, REFUSED};
use mcgate_notes::folders::look_for_file;
use mcgate_notes::lines::Lines;
use mcgate_notes::remembering::{Kept, unwritten_line};
use serve_proxy::Beginnings;
use std::alloc::Global;
use std::io;
use std::io::Write;
use std::rt::Files;

// How servers began for a core after the history of this file: where there were trees before, those of its first one held anything.
fn begun_after(file: &HistoryFile, begun: Beginnings) -> Beginnings {
    if file.count() == 0 {
        begun
    } else {
        Beginnings {
            opened: Beginning::Any,
            added: begun.added,
        }
    }
}

// The servers that the last generation brought, after those before, are to be emptied, where it is new and that is so of new ones: it is
// written.
fn add_new<R: Files + AllocGlobal>(
    rt: &R,
    job: &ServeJob<'_>,
    file: &HistoryFile,
    is_new: bool,
    emptying: &mut Emptying,
) -> io::Result<()> {
    if !is_new || !job.settings.flushes_new {
        return Ok(());
    }
    let generations = file.history().generations();
    let count = generations.len();
    if count < 2 {
        return Ok(());
    }
    let from = generations[count - 2].config.servers().len();
    emptying.add(rt, generations[count - 1].config.servers(), from)
}

// The servers that the last generation brought are to be emptied beside those that the run before left so, where it is new and that is so of new ones:
// it is written. Where the file that has them can't be read or written a line of detail says why.
fn note_new<R: Files + Input + AllocGlobal>(
    rt: &R,
    job: &ServeJob<'_>,
    path: &str,
    file: &HistoryFile,
    is_new: bool,
    details: &mut Details,
) -> Result<(), Stop> {
    let mut emptying = match Emptying::read(rt, Some(path), job.settings.flushes_new) {
        Ok(emptying) => emptying,
        Err(error) => {
            details.add(unread_line(rt.alloc(), path, &error));
            return Err(Stop::from(error));
        }
    };
    if let Err(error) = add_new(rt, job, file, is_new, &mut emptying) {
        details.add(unwritten_line(rt.alloc(), emptying.path(), &error));
        return Err(Stop::from(error));
    }
    Ok(())
}

// The text is served after the history of this file, of which it is the last generation: the file is written, if that is new.
fn keep_in<R: Files + AllocGlobal>(
    rt: &R,
    path: &str,
    file: HistoryFile,
    text: String,
    begun: Beginnings,
    is_new: bool,
    details: &mut Details,
) -> Result<Begun, Stop>
    requires { StandsInHistory file.text (string_bytes text) }
    ensures { IfOk result (Keeps file) }
{
    match Kept::new(rt, path, file, begun.added, is_new) {
        Ok(kept) => Ok(Begun::Started(Started::new(text, Some(kept), begun))),
        Err(error) => {
            details.add(unwritten_line(rt.alloc(), path, &error));
            Err(Stop::from(error))
        }
    }
}

// Whether the last of the generations may follow the one before it, if there is one, while others run by that. If not, why is printed.
fn last_may_follow<W: Write>(
    alloc: Global,
    generations: &[Generation],
    out: &mut W,
) -> Result<bool, Stop>
    ensures { IfOk result (λ may. IsTrue may → LastStandBeside generations.now) }
{
    let count = generations.len();
    if count < 2 {
        return Ok(true);
    }
    let before = &generations[count - 2].config;
    let last = &generations[count - 1].config;
    Ok(may_follow(alloc, "history", before, last, out)?)
}

// Whether the last generation of this file, which had so many before, may follow the one before it, where the proxy is one of a fleet and the last one is
// new. If not, why is printed.
fn may_follow_last<W: Write>(
    alloc: Global,
    fleet: bool,
    count: usize,
    file: &HistoryFile,
    out: &mut W,
) -> Result<bool, Stop> {
    let generations = file.history().generations();
    if !fleet || generations.len() <= count {
        return Ok(true);
    }
    last_may_follow(alloc, generations, out)
}

// The text is served as the last generation of this file, which had so many before, if it may be; else why not is printed.
fn begin_last<R: Files + Input + AllocGlobal, W: Write>(
    rt: &R,
    job: &ServeJob<'_>,
    path: &str,
    count: usize,
    file: HistoryFile,
    text: String,
    begun: Beginnings,
    out: &mut W,
    details: &mut Details,
) -> Result<Begun, Stop>
    requires { StandsInHistory file.text (string_bytes text) }
{
    if !may_follow_last(rt.alloc(), job.fleet, count, &file, out)? {
        return Ok(Begun::Printed(REFUSED));
    }
    let is_new = count < file.count();
    note_new(rt, job, path, &file, is_new, details)?;
    keep_in(rt, path, file, text, begun, is_new, details)
}

// The text is the next generation of this file, if it may be; else why not is printed.
fn begin_in<R: Files + Input + AllocGlobal, W: Write>(
    rt: &R,
    job: &ServeJob<'_>,
    path: &str,
    file: HistoryFile,
    text: String,
    out: &mut W,
    details: &mut Details,
) -> Result<Begun, Stop> {
    let began = began_in(&file, job.begun);
    let begun = begun_after(&file, job.begun);
    let count = file.count();
    let mut file = file;
    match file.take_text(rt.alloc(), text.as_str(), began) {
        Ok(_) => begin_last(rt, job, path, count, file, text, begun, out, details),
        Err(fault) => {
            let status = print_no_next(rt.alloc(), path, &fault, out, details)?;
            tell_no_next(
                rt.alloc(),
                path,
                &file,
                text.as_str(),
                began,
                &fault,
                details,
            );
            Ok(Begun::Printed(status))
        }
    }
}

/// A text whose configuration the gate accepted is to be served. Where a history is kept it is judged after it, and written to its file,
/// if it may be served; else why not is printed.
pub fn begin<R: Files + Input + AllocGlobal + Eprint, W: Write>(
    rt: &R,
    job: &ServeJob<'_>,
    text: String,
    lines: &mut Lines,
    out: &mut W,
    details: &mut Details,
) -> Result<Begun, Stop> {
    match job.history {
        None => Ok(Begun::Started(Started::new(text, None, job.begun))),
        Some(path) => match file_at(rt, path, lines, out, details)? {
            Some(file) => begin_in(rt, job, path, file, text, out, details),
            None => Ok(Begun::Printed(BAD_INPUT)),
        },
    }
}

/// Judges a text after the history that is kept, if one is, as where it is to be served; but nothing is served, and nothing is written to the history's
/// file: the exit status of what was printed, if the text may not be served.
/// [`Stop::Device`] comes also where the history's folder isn't there, of which a line tells.
pub fn refused_after<R: Files + Input + AllocGlobal + Eprint, W: Write>(
    rt: &R,
    job: &ServeJob<'_>,
    text: &str,
    lines: &mut Lines,
    out: &mut W,
    details: &mut Details,
) -> Result<Option<u8>, Stop> {
    let Some(path) = job.history else {
        return Ok(None);
    };
    if let Err(error) = look_for_file(rt, path) {
        details.add(unwritten_line(rt.alloc(), path, &error));
        return Err(Stop::from(error));
    }
    let Some(file) = file_at(rt, path, lines, out, details)? else {
        return Ok(Some(BAD_INPUT));
    };
    let began = began_in(&file, job.begun);
    let count = file.count();
    let mut file = file;
    match file.take_text(rt.alloc(), text, began) {
        Ok(_) => {
            let may = may_follow_last(rt.alloc(), job.fleet, count, &file, out)?;
            Ok(if may { None } else { Some(REFUSED) })
        }
        Err(fault) => {
            let status = print_no_next(rt.alloc(), path, &fault, out, details)?;
            tell_no_next(rt.alloc(), path, &file, text, began, &fault, details);
            Ok(Some(status))
        }
    }
}
