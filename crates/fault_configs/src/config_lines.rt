//! The lines of detail that are said of a fault on standard error.

use crate::advice::About;
use crate::place::{Source, TextPlace};
use crate::scan::{Slip, Twice, place_of, scan_text};
use crate::slip::SlipIn;
use crate::trouble::{PathStep, Stop, Trouble};
use crate::walk::Walk;
use route_json::{ConfigFault, read_config};
use route_tree::ROUTE_LIMIT;
use serde_json::Value;
use std::alloc::{AllocError, Global};
use text_words::escapes::Escaped;

/// How many pools that no route names are told.
const MOST_UNUSED: usize = 20;

// The value of a text; `None` where it is no JSON.
fn value_of(alloc: Global, text: &str) -> Result<Option<Value>, AllocError> {
    match Value::from_str(alloc, text) {
        Ok(value) => Ok(Some(value)),
        Err(error) if error.is_memory() => Err(AllocError),
        Err(_) => Ok(None),
    }
}

// Of a text that is no JSON, where no slip is known.
fn unknown_slip(alloc: Global, source: Source<'_>) -> Result<String, AllocError> {
    let Err(error) = Value::from_str(alloc, source.text) else {
        return Ok(String::new(alloc));
    };
    let line = error
        .line()
        .saturating_sub(1)
        .saturating_add(source.begins.line);
    let column = if error.line() == 1 {
        error
            .column()
            .saturating_sub(1)
            .saturating_add(source.begins.column)
    } else {
        error.column()
    };
    let place = TextPlace { line, column };
    format!(in alloc;
        "mcgate: {}:{place}: a number that is too large, or a text that is no Unicode",
        source.file
    )
}

fn slip_line(alloc: Global, source: Source<'_>, slip: Option<Slip>) -> Result<String, AllocError> {
    match slip {
        Some(slip) => {
            let told = SlipIn { source, slip };
            format!(in alloc; "{told}")
        }
        None => unknown_slip(alloc, source),
    }
}

// Of a fault that has no place of its own.
fn plain_line(
    alloc: Global,
    source: Source<'_>,
    fault: &ConfigFault,
) -> Result<String, AllocError> {
    match fault {
        ConfigFault::TooManyNodes => format!(in alloc;
            "mcgate: {}: more than {ROUTE_LIMIT} routes: each counts three times in a cold, and so does each server of a text \"Pool|NAME\"",
            source.file
        ),
        _ => format!(in alloc; "mcgate: {}: {fault}", source.file),
    }
}

// Where in the file a trouble is.
fn place_in(
    alloc: Global,
    source: Source<'_>,
    way: &[PathStep<'_>],
    trouble: Trouble<'_>,
) -> Result<Option<TextPlace>, AllocError> {
    match place_of(alloc, source.text, way, trouble.is_of_name())? {
        Some(at) => Ok(Some(source.place(at))),
        None => Ok(None),
    }
}

// The name of a server whose epoch may be over, by a fault.
fn name_in(fault: &ConfigFault) -> Option<&str> {
    match fault {
        ConfigFault::BadAddress(name) => Some(name.as_str()),
        _ => None,
    }
}

// Of a text that is JSON: where the fault stands.
fn walked_line<'a>(
    alloc: Global,
    source: Source<'_>,
    value: &'a Value,
    fault: &'a ConfigFault,
) -> Result<String, AllocError> {
    let mut walk = Walk::new(alloc);
    walk.over = name_in(fault);
    match walk.whole(value) {
        Err(Stop::NoMemory) => Err(AllocError),
        Err(Stop::Trouble(trouble)) if trouble.is(fault) => {
            let way = walk.way.as_slice();
            let about = About {
                file: source.file,
                place: place_in(alloc, source, way, trouble)?,
                pools: walk.pools(),
            };
            about.line(alloc, way, trouble)
        }
        _ => plain_line(alloc, source, fault),
    }
}

// The line of a configuration's fault.
fn fault_line(
    alloc: Global,
    source: Source<'_>,
    fault: &ConfigFault,
) -> Result<String, AllocError> {
    match value_of(alloc, source.text)? {
        Some(value) => walked_line(alloc, source, &value, fault),
        None => {
            let scanned = scan_text(alloc, source.text)?;
            slip_line(alloc, source, scanned.slip)
        }
    }
}

/// Adds what is said of a text that is to be a configuration, as [`lines_of_configuration`] does.
pub fn push_fault_line(
    alloc: Global,
    source: Source<'_>,
    lines: &mut Vec<String>,
) -> Result<(), AllocError> {
    match read_config(alloc, source.text) {
        Ok(_) => Ok(()),
        Err(ConfigFault::NoMemory) => Err(AllocError),
        Err(fault) => {
            let line = fault_line(alloc, source, &fault)?;
            lines.push(line)?;
            Ok(())
        }
    }
}

/// What is said of the text of a file that is to be a configuration and is none: where its first fault stands, what is expected there,
/// and what was likely meant. No line where it is one. The only error is running out of memory.
///
/// Source: mcgate's own.
pub fn lines_of_configuration(
    alloc: Global,
    file: &str,
    text: &str,
) -> Result<Vec<String>, AllocError> {
    let mut lines = Vec::new(alloc);
    push_fault_line(alloc, Source::whole(file, text), &mut lines)?;
    Ok(lines)
}

/// What is said of the text of a file that names this server, whose epoch is over since a later server, which the text needn't name, has its
/// address: where that stands. The only error is running out of memory.
///
/// Source: mcgate's own.
pub fn lines_of_over(
    alloc: Global,
    file: &str,
    text: &str,
    name: &str,
) -> Result<Vec<String>, AllocError> {
    let fault = ConfigFault::BadAddress(String::from_str(alloc, name)?);
    let mut lines = Vec::new(alloc);
    lines.push(fault_line(alloc, Source::whole(file, text), &fault)?)?;
    Ok(lines)
}

fn unused_line(alloc: Global, source: Source<'_>, name: &str) -> Result<String, AllocError> {
    format!(in alloc;
        "mcgate: {}: warning: no route uses the pool {}",
        source.file,
        Escaped(name.as_bytes())
    )
}

// The pools that no route names, after a walk through the whole configuration.
fn push_unused_after(
    alloc: Global,
    source: Source<'_>,
    walk: &Walk<'_>,
    lines: &mut Vec<String>,
) -> Result<(), AllocError> {
    let Some(pools) = walk.pools() else {
        return Ok(());
    };
    for (name, _) in pools.iter() {
        if lines.len() < MOST_UNUSED && !walk.used.contains_key(name.as_str()) {
            lines.push(unused_line(alloc, source, name.as_str())?)?;
        }
    }
    Ok(())
}

fn push_unused_in(
    alloc: Global,
    source: Source<'_>,
    value: &Value,
    lines: &mut Vec<String>,
) -> Result<(), AllocError> {
    let mut walk = Walk::new(alloc);
    match walk.whole(value) {
        Ok(()) => push_unused_after(alloc, source, &walk, lines),
        Err(Stop::NoMemory) => Err(AllocError),
        Err(Stop::Trouble(_)) => Ok(()),
    }
}

// The pools that no route names.
fn push_unused(
    alloc: Global,
    source: Source<'_>,
    lines: &mut Vec<String>,
) -> Result<(), AllocError> {
    match value_of(alloc, source.text)? {
        Some(value) => push_unused_in(alloc, source, &value, lines),
        None => Ok(()),
    }
}

fn twice_line(alloc: Global, source: Source<'_>, twice: &Twice<'_>) -> Result<String, AllocError> {
    format!(in alloc;
        "mcgate: {}:{}: warning: \"{}\" stands twice in this object, and the later one counts",
        source.file,
        source.place(twice.at),
        Escaped(twice.name.as_bytes())
    )
}

// The names that stand twice in an object.
fn push_twice(
    alloc: Global,
    source: Source<'_>,
    lines: &mut Vec<String>,
) -> Result<(), AllocError> {
    let scanned = scan_text(alloc, source.text)?;
    for twice in scanned.twice.as_slice() {
        lines.push(twice_line(alloc, source, twice)?)?;
    }
    Ok(())
}

/// What is to be said of the text of a configuration though it is one: names that stand twice in an object, and pools that no route
/// names. The only error is running out of memory.
pub fn lines_of_warnings(alloc: Global, file: &str, text: &str) -> Result<Vec<String>, AllocError> {
    let source = Source::whole(file, text);
    let mut lines = Vec::new(alloc);
    push_twice(alloc, source, &mut lines)?;
    push_unused(alloc, source, &mut lines)?;
    Ok(lines)
}
