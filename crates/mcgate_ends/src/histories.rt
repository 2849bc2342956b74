//! What is printed of the file of a history, and of a configuration that is to follow it.

use crate::concern_lines::lines_of_concerns;
use crate::details::Details;
use crate::ends::{Stop, decline};
use crate::input_text::InputFault;
use core_accepted::Beginnings;
use gate_check::ReloadFault;
use gate_growth::ledger::{Beginning, Unsound};
use gate_history::{
    HistoryFault, HistoryFile, NextFault, advice_on, write_fault, write_meaning, write_remembered,
};
use mcgate_lines::Form;
use mcgate_lines::reload_lines::write_kept;
use mcgate_lines::status::{BAD_INPUT, DONE, REFUSED};
use route_json::{ConfigFault, Servers};
use std::alloc::{AllocError, Global};
use std::io;
use std::io::Write;

// What to do about the fault of a file.
fn fault_line(alloc: Global, name: &str, advice: &str) -> Result<String, AllocError> {
    format!(in alloc; "mcgate: {name}: {advice}")
}

// Prints why a text of this name is no history, unless memory was refused.
fn print_history_fault<W: Write>(
    alloc: Global,
    name: &str,
    fault: &HistoryFault,
    out: &mut W,
    details: &mut Details,
) -> Result<(), Stop> {
    if matches!(fault, HistoryFault::NoMemory) {
        return Err(Stop::Memory);
    }
    write_fault(fault, out)?;
    if let Some(advice) = advice_on(fault) {
        details.add(fault_line(alloc, name, advice));
    }
    Ok(())
}

// The history of a text, or prints its fault.
fn file_of<W: Write>(
    alloc: Global,
    name: &str,
    text: String,
    out: &mut W,
    details: &mut Details,
) -> Result<Option<HistoryFile>, Stop> {
    match HistoryFile::read(alloc, text) {
        Ok(file) => Ok(Some(file)),
        Err(fault) => {
            print_history_fault(alloc, name, &fault, out, details)?;
            Ok(None)
        }
    }
}

/// The history of an input of this name. Where it is none, that was printed.
pub fn read_file<W: Write>(
    alloc: Global,
    name: &str,
    input: Result<String, InputFault>,
    out: &mut W,
    details: &mut Details,
) -> Result<Option<HistoryFile>, Stop> {
    match input {
        Ok(text) => file_of(alloc, name, text, out, details),
        Err(fault) => {
            details.add_input(alloc, name, fault);
            decline(fault, out)?;
            Ok(None)
        }
    }
}

// The fault of a reload.
fn reload_fault_of(unsound: &Unsound) -> ReloadFault {
    match unsound {
        Unsound::TooManyGenerations => ReloadFault::TooManyGenerations,
        Unsound::TooManyPlaces => ReloadFault::TooManyPlaces(0),
        Unsound::Left(generation, gap) => ReloadFault::Uncovered(*generation, *gap),
        Unsound::NoMemory => ReloadFault::NoMemory,
    }
}

// Prints the fault of a text that says no configuration.
fn print_config_fault<W: Write>(fault: &ConfigFault, out: &mut W) -> Result<(), Stop> {
    match fault {
        ConfigFault::NoMemory => Err(Stop::Memory),
        told => Ok(writeln!(out, "config: {told}")?),
    }
}

// Prints why a configuration of these servers may not be loaded.
fn print_unsound<W: Write>(servers: &Servers, unsound: &Unsound, out: &mut W) -> Result<(), Stop> {
    match reload_fault_of(unsound) {
        ReloadFault::NoMemory => Err(Stop::Memory),
        fault => Ok(write_kept(servers, &fault, out)?),
    }
}

/// Prints why a text isn't loaded after a history.
pub fn print_kept_after<W: Write>(fault: &NextFault, out: &mut W) -> Result<(), Stop> {
    match fault {
        NextFault::Config(fault) => print_config_fault(fault, out),
        NextFault::Refused(servers, unsound) => print_unsound(servers, unsound, out),
        NextFault::NoLine => Ok(writeln!(out, "reload refused: no line")?),
        NextFault::NoMemory => Err(Stop::Memory),
    }
}

// Writes the line of a reload as that of a start.
fn write_start<W: Write>(line: &[u8], out: &mut W) -> io::Result<()> {
    let line = str::from_utf8(line).unwrap_or("");
    let rest = line.strip_prefix("reload").unwrap_or(line);
    write!(out, "history{rest}")
}

// What to do where a configuration may not follow a history.
fn refused_lines(alloc: Global, name: &str, details: &mut Details) {
    details.add(format!(in alloc;
        "mcgate: {name}: items that an earlier tree left there would be shown; mcgate history {name} tells what servers hold"
    ));
    details.add(format!(in alloc;
        "mcgate: {name}: serve the configuration of its last line; or empty all servers that were ever used, take it away, and start anew"
    ));
}

// Prints why a configuration of these servers isn't served after a history.
fn print_refused<W: Write>(
    alloc: Global,
    name: &str,
    servers: &Servers,
    unsound: &Unsound,
    out: &mut W,
    details: &mut Details,
) -> Result<u8, Stop> {
    let mut line = Vec::new(alloc);
    print_unsound(servers, unsound, &mut line)?;
    write_start(line.as_slice(), out)?;
    refused_lines(alloc, name, details);
    Ok(REFUSED)
}

/// Prints why a text isn't served after the history of this name. The answer is the exit status.
pub fn print_no_next<W: Write>(
    alloc: Global,
    name: &str,
    fault: &NextFault,
    out: &mut W,
    details: &mut Details,
) -> Result<u8, Stop> {
    match fault {
        NextFault::Config(fault) => {
            print_config_fault(fault, out)?;
            Ok(BAD_INPUT)
        }
        NextFault::Refused(servers, unsound) => {
            print_refused(alloc, name, servers, unsound, out, details)
        }
        NextFault::NoLine => {
            writeln!(out, "history refused: no line")?;
            Ok(REFUSED)
        }
        NextFault::NoMemory => Err(Stop::Memory),
    }
}

/// How the new servers of the next generation of a file began.
pub fn began_in(file: &HistoryFile, begun: Beginnings) -> Beginning {
    if file.count() == 0 {
        begun.opened
    } else {
        begun.added
    }
}

/// Prints whether the text's configuration may follow the history of this name, if servers began so. The answer is the exit status.
pub fn check_after<W: Write>(
    alloc: Global,
    name: &str,
    file: HistoryFile,
    text: &str,
    begun: Beginnings,
    form: Form,
    out: &mut W,
    details: &mut Details,
) -> Result<u8, Stop> {
    let began = began_in(&file, begun);
    let mut file = file;
    match file.take_text(alloc, text, began) {
        Ok(old) => {
            write_next(&file, old.is_some(), out)?;
            Ok(DONE)
        }
        Err(fault) => refuse_next(alloc, name, &file, text, began, &fault, form, out, details),
    }
}

// Prints which generation of a file a text is, and whether it is a new one.
fn write_next<W: Write>(file: &HistoryFile, is_new: bool, out: &mut W) -> io::Result<()> {
    let word = if is_new { "accepted" } else { "unchanged" };
    writeln!(out, "history {word} generation={}", file.count())
}

// Prints why a text may not follow the history of this name, and tells more of it. The answer is the exit status.
fn refuse_next<W: Write>(
    alloc: Global,
    name: &str,
    file: &HistoryFile,
    text: &str,
    began: Beginning,
    fault: &NextFault,
    form: Form,
    out: &mut W,
    details: &mut Details,
) -> Result<u8, Stop> {
    let status = print_no_next(alloc, name, fault, out, details)?;
    explain_no_next(alloc, name, file, text, began, fault, form, out, details)?;
    Ok(status)
}

// Prints in words why a text isn't served after a history, or says it on standard error.
fn explain_no_next<W: Write>(
    alloc: Global,
    name: &str,
    file: &HistoryFile,
    text: &str,
    began: Beginning,
    fault: &NextFault,
    form: Form,
    out: &mut W,
    details: &mut Details,
) -> Result<(), Stop> {
    match form {
        Form::Explained => {
            for line in concerns_of(alloc, file, text, began, fault)? {
                writeln!(out, "# {line}")?;
            }
            Ok(())
        }
        Form::Lines | Form::Picture => {
            tell_no_next(alloc, name, file, text, began, fault, details);
            Ok(())
        }
    }
}

// What is said in words of a text whose configuration may not follow.
fn concerns_of(
    alloc: Global,
    file: &HistoryFile,
    text: &str,
    began: Beginning,
    fault: &NextFault,
) -> io::Result<Vec<String>> {
    match fault {
        NextFault::Refused(_, Unsound::Left(_, _)) => {
            lines_of_concerns(alloc, file.history(), text, began)
        }
        _ => Ok(Vec::new(alloc)),
    }
}

/// Says on standard error why a text isn't served after the history of this name, if its new servers began so.
pub fn tell_no_next(
    alloc: Global,
    name: &str,
    file: &HistoryFile,
    text: &str,
    began: Beginning,
    fault: &NextFault,
    details: &mut Details,
) {
    if let Ok(lines) = concerns_of(alloc, file, text, began, fault) {
        for line in &lines {
            details.add(fault_line(alloc, name, line.as_str()));
        }
    }
}

/// Prints what a history remembers. The answer is the exit status.
pub fn tell_history<W: Write>(alloc: Global, file: HistoryFile, out: &mut W) -> Result<u8, Stop> {
    writeln!(out, "generations={}", file.count())?;
    write_remembered(alloc, file.into_history(), out)?;
    write_meaning(out)?;
    Ok(DONE)
}
