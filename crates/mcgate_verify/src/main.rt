//! Tests a certificate: whether it shows that the tree of a configuration is fresh. The program stands on the checker of
//! certificates and on what reads the two files, and on nothing that proposes one.
//!
//! ```text
//! CONFIG      --read_config------> its tree  --+
//!                                              +--gate_check::check--> verified, or refused and where
//! CERTIFICATE --read_certificate-> its rows  --+
//! ```
#![tactic(auto)]

mod files;

use crate::files::{FileFault, text_of};
use gate_certificate::verifying::{Named, VerifyFault, verify};
use std::alloc::AllocError;
use std::io;
use std::io::{BufWriter, Write};
use std::process::ExitCode;
use std::rt::{Env, Files};

const USAGE: &str = "usage: mcgate-verify CONFIG CERTIFICATE
  tests whether CERTIFICATE, which `mcgate certify CONFIG` writes, shows that the tree of CONFIG is fresh
  status 0: `verified: ..`; 1: `refused: ..` and where; 2: a file isn't what it should be, or can't be read;
  3: memory was refused, or the output failed";

/// Why the program ends with a line on standard error.
#[derive(Drop)]
pub enum VerifyStop {
    Usage,
    /// A file can't be read, as this line says.
    Unread(String),
    /// Memory was refused, or the output failed.
    Failed,
}

impl From<AllocError> for VerifyStop {
    fn from(_error: AllocError) -> VerifyStop {
        VerifyStop::Failed
    }
}

impl From<io::Error> for VerifyStop {
    fn from(_error: io::Error) -> VerifyStop {
        VerifyStop::Failed
    }
}

impl From<VerifyFault> for VerifyStop {
    fn from(_fault: VerifyFault) -> VerifyStop {
        VerifyStop::Failed
    }
}

impl From<FileFault> for VerifyStop {
    fn from(fault: FileFault) -> VerifyStop {
        match fault {
            FileFault::Told(line) => VerifyStop::Unread(line),
            FileFault::NoMemory => VerifyStop::Failed,
        }
    }
}

// Tests the files of these names.
fn verify_files<R: AllocGlobal + Files + Print>(
    rt: &R,
    config: &str,
    certificate: &str,
) -> Result<u8, VerifyStop> {
    let config_text = text_of(rt, config)?;
    let certificate_text = text_of(rt, certificate)?;
    let mut out = BufWriter::new(rt.alloc(), io::writer(rt))?;
    let config = Named {
        name: config,
        text: config_text.as_str(),
    };
    let certificate = Named {
        name: certificate,
        text: certificate_text.as_str(),
    };
    let status = verify(rt.alloc(), &config, &certificate, &mut out)?;
    out.flush()?;
    Ok(status)
}

fn run<R: AllocGlobal + Env + Files + Print>(rt: &R) -> Result<u8, VerifyStop> {
    let Ok(arguments) = std::env::args(rt)?.collect::<Vec<String>>(rt.alloc()) else {
        return Err(VerifyStop::Failed);
    };
    match arguments.as_slice() {
        [_, word] if word.as_str() == "--help" => {
            rt.println(USAGE)?;
            Ok(0)
        }
        [_, config, certificate] => verify_files(rt, config.as_str(), certificate.as_str()),
        _ => Err(VerifyStop::Usage),
    }
}

fn main(rt: HostRuntime) -> ExitCode {
    let status = match run(&rt) {
        Ok(status) => status,
        Err(VerifyStop::Usage) => {
            let _ = rt.eprintln(USAGE);
            2
        }
        Err(VerifyStop::Unread(line)) => {
            let _ = rt.eprintln(line.as_str());
            2
        }
        Err(VerifyStop::Failed) => {
            let _ = rt.eprintln("mcgate-verify: memory was refused, or the output failed");
            3
        }
    };
    ExitCode::from(status)
}
