//! What comes of a row's command: as of `mcgate`, or of `mcgate-verify CONFIG CERTIFICATE`.

use crate::row_inputs::RowInputs;
use crate::rows::{Row, command_of};
use gate_certificate::verifying::{Named, verify};
use mcgate_args::ends::end_of;
use mcgate_ends::details::Details;
use mcgate_ends::ends::Stop;
use mcgate_ends::input_text::InputFault;
use mcgate_run::{Inputs, job_of, run_job};
use std::alloc::{AllocError, Global};

/// What came of a command.
#[derive(Drop)]
pub struct Came {
    pub status: u8,
    /// What was printed.
    pub out: String,
    /// The lines of standard error.
    pub errors: String,
}

fn words_of(alloc: Global, command: &str) -> Result<Vec<String>, AllocError> {
    let mut words = Vec::new(alloc);
    for word in command.split(' ') {
        words.push(String::from_str(alloc, word)?)?;
    }
    Ok(words)
}

// Tests the texts of two files, a configuration and a certificate.
fn verify_texts(
    alloc: Global,
    config: Named<'_>,
    certificate: Named<'_>,
    out: &mut Vec<u8>,
) -> Result<u8, Stop> {
    match verify(alloc, &config, &certificate, out) {
        Ok(status) => Ok(status),
        Err(_) => Err(Stop::Memory),
    }
}

fn verify_files(
    inputs: &RowInputs<'_>,
    config: &str,
    certificate: &str,
    out: &mut Vec<u8>,
    details: &mut Details,
) -> Result<u8, Stop> {
    let texts: Result<(String, String), InputFault> = match inputs.text(Some(config), details) {
        Ok(text) => match inputs.text(Some(certificate), details) {
            Ok(other) => Ok((text, other)),
            Err(fault) => Err(fault),
        },
        Err(fault) => Err(fault),
    };
    let Ok((config_text, certificate_text)) = texts else {
        return Err(Stop::Device);
    };
    verify_texts(
        inputs.alloc,
        Named {
            name: config,
            text: config_text.as_str(),
        },
        Named {
            name: certificate,
            text: certificate_text.as_str(),
        },
        out,
    )
}

fn run_words(
    inputs: &RowInputs<'_>,
    words: &[String],
    out: &mut Vec<u8>,
    details: &mut Details,
) -> Result<u8, Stop> {
    match words {
        [program, config, certificate] if program.as_str() == "mcgate-verify" => {
            verify_files(inputs, config.as_str(), certificate.as_str(), out, details)
        }
        _ => {
            let job = job_of(inputs.alloc, words, details)?;
            run_job(inputs.alloc, inputs, job, out, details)
        }
    }
}

fn push_line(lines: &mut String, line: &str) -> Result<(), AllocError> {
    lines.push_str(line)?;
    lines.push('\n')
}

// The lines of standard error: how the program ends, and those of detail.
fn errors_of(
    alloc: Global,
    complaint: Option<&str>,
    details: &Details,
) -> Result<String, AllocError> {
    let mut errors = String::new(alloc);
    if let Some(line) = complaint {
        push_line(&mut errors, line)?;
    }
    for line in details.lines() {
        push_line(&mut errors, line.as_str())?;
    }
    Ok(errors)
}

/// What comes of the command of a row.
pub fn came_of(alloc: Global, row: &Row<'_>) -> Result<Came, AllocError> {
    let words = words_of(alloc, command_of(row))?;
    let inputs = RowInputs {
        alloc,
        given: row.given,
    };
    let mut out = Vec::new(alloc);
    let mut details = Details::new(alloc);
    let end = end_of(run_words(&inputs, words.as_slice(), &mut out, &mut details));
    let printed = str::from_utf8(out.as_slice()).unwrap_or("not UTF-8");
    Ok(Came {
        status: end.status,
        out: String::from_str(alloc, printed)?,
        errors: errors_of(alloc, end.complaint, &details)?,
    })
}
