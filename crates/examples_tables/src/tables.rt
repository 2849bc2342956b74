//! Tables of examples: texts that are read line by line, or example by example.

use std::alloc::{AllocError, Global};
use std::test::Fail;

/// That the example of this name gave what is wanted.
pub fn same(name: &str, got: &str, wanted: &str) -> Result<(), Fail> {
    if got == wanted {
        return Ok(());
    }
    Err(Fail::new(format_args!("{name}: {got}")))
}

/// The same of bytes.
pub fn same_bytes(name: &str, got: &[u8], wanted: &[u8]) -> Result<(), Fail> {
    if got == wanted {
        return Ok(());
    }
    Err(Fail::new(format_args!("{name}: {}", got.escape_ascii())))
}

/// An example of several lines: `== NAME`, what is given, `-- STATUS`, and what is printed.
#[derive(Clone, Copy)]
pub struct Example<'a> {
    pub name: &'a str,
    /// Without the last line's end.
    pub given: &'a str,
    /// The status and what is printed, as `told` says it.
    pub wanted: &'a str,
}

/// The example of what stands between two `== `.
pub fn example_of(part: &str) -> Example<'_> {
    let (name, rest) = part.split_once('\n').unwrap_or((part, ""));
    let (given, wanted) = rest.split_once("\n-- ").unwrap_or((rest, ""));
    Example {
        name,
        given,
        wanted,
    }
}

/// What prints something of what an example gives it.
pub trait Printer {
    /// The exit status and what was printed, as `told` says it.
    fn printed(&self, alloc: Global, given: &str) -> Result<String, Fail>;
}

fn holds<P: Printer>(alloc: Global, printer: &P, part: &str) -> Result<(), Fail> {
    let Example {
        name,
        given,
        wanted,
    } = example_of(part);
    let got = printer.printed(alloc, given)?;
    same(name, got.as_str(), wanted)
}

/// That each of these examples of several lines holds.
pub fn all_hold<P: Printer>(alloc: Global, printer: &P, examples: &str) -> Result<(), Fail> {
    for part in examples.split("== ").skip(1) {
        holds(alloc, printer, part)?;
    }
    Ok(())
}

/// An exit status on a line of its own, and then what was printed.
pub fn told(alloc: Global, status: u8, out: &[u8]) -> Result<String, Fail> {
    let printed = str::from_utf8(out).unwrap_or("not UTF-8");
    Ok(format!(in alloc; "{status}\n{printed}")?)
}

/// An example of one line: what stands before and after the arrow.
pub fn sides(line: &str) -> (&str, &str) {
    line.split_once(" => ").unwrap_or((line, "no arrow"))
}

/// The text with a line end for each `⏎`.
pub fn unfolded(alloc: Global, text: &str) -> Result<String, AllocError> {
    let mut lines = String::new(alloc);
    for (at, line) in text.split('⏎').enumerate() {
        if at > 0 {
            lines.push('\n')?;
        }
        lines.push_str(line)?;
    }
    Ok(lines)
}

// Writes the configuration of a route over the pools A and B.
fn push_configuration(out: &mut String, route: &str) -> Result<(), AllocError> {
    out.push_str(
        r#"{"pools":{"A":{"servers":["127.0.0.1:5001"]},"B":{"servers":["127.0.0.1:5002"]}},"route":"#,
    )?;
    out.push_str(route)?;
    out.push('}')
}

/// The configuration of two servers, 127.0.0.1:5001 in pool A and 127.0.0.1:5002 in pool B, and of this route.
pub fn configuration(alloc: Global, route: &str) -> Result<String, AllocError> {
    let mut text = String::new(alloc);
    push_configuration(&mut text, route)?;
    Ok(text)
}

fn push_expanded(out: &mut String, line: &str) -> Result<(), AllocError> {
    match line.split_once("over A and B ") {
        Some((front, route)) => {
            out.push_str(front)?;
            push_configuration(out, route)
        }
        None => out.push_str(line),
    }
}

/// The text with the [`configuration`] of this route for each `over A and B ROUTE` at the end of a line.
pub fn expanded(alloc: Global, text: &str) -> Result<String, AllocError> {
    let mut lines = String::new(alloc);
    for (at, line) in text.split('\n').enumerate() {
        if at > 0 {
            lines.push('\n')?;
        }
        push_expanded(&mut lines, line)?;
    }
    Ok(lines)
}
