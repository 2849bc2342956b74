//! `mcgate tell`: a proxy that runs is told something, and what it answers is printed.

use mcgate_args::tell_arguments::TellJob;
use mcgate_ends::details::Details;
use mcgate_ends::ends::Stop;
use std::alloc::{AllocError, Global};
use std::io;
use std::io::{Read, Write};
use std::net::Net;
use std::os::unix::net::UnixStream;
use watch_admin::control::answers::read_answer;

// The line that says it, without its end.
fn line_of(alloc: Global, job: &TellJob<'_>) -> Result<String, AllocError> {
    match job.more {
        Some(more) => format!(in alloc; "{} {more}", job.word),
        None => String::from_str(alloc, job.word),
    }
}

// What is answered to this line at this path, once it is known.
fn answer_at<R: Net + AllocGlobal>(rt: &R, path: &str, line: &str) -> io::Result<Vec<u8>> {
    let stream = UnixStream::connect(rt, path)?;
    let asked = format!(in rt.alloc(); "{line}\n")?;
    (&stream).write_all(asked.as_bytes())?;
    let mut answer = Vec::new(rt.alloc());
    let _ = (&stream).read_to_end(&mut answer)?;
    Ok(answer)
}

// What is said where nothing answers there.
fn unanswered_line(alloc: Global, path: &str, error: &io::Error) -> Result<String, AllocError> {
    format!(in alloc; "mcgate: cannot tell {path}: {error}")
}

// What is said where there was no whole answer.
fn broken_line(alloc: Global, path: &str) -> Result<String, AllocError> {
    format!(in alloc; "mcgate: {path}: it ended before it answered")
}

/// Tells it, and prints what is answered. The answer is the exit status that it says.
///
/// [`Stop::Device`] comes where nobody answers there, of which a line of detail says why.
pub fn tell<R: Net + AllocGlobal, W: Write>(
    rt: &R,
    job: &TellJob<'_>,
    out: &mut W,
    details: &mut Details,
) -> Result<u8, Stop> {
    let Ok(line) = line_of(rt.alloc(), job) else {
        return Err(Stop::Memory);
    };
    let answer = match answer_at(rt, job.path, line.as_str()) {
        Ok(answer) => answer,
        Err(error) => {
            details.add(unanswered_line(rt.alloc(), job.path, &error));
            return Err(Stop::from(error));
        }
    };
    match read_answer(answer.as_slice()) {
        Some((verdict, text)) => {
            out.write_all(text)?;
            Ok(verdict.status())
        }
        None => {
            details.add(broken_line(rt.alloc(), job.path));
            Err(Stop::Device)
        }
    }
}
