//! Why a text is no certificate, and what is printed of it.

use std::alloc::{AllocError, AllocFailed};
use std::error::Error;
use std::fmt;
use std::fmt::Display;

/// Why a text is no certificate: the first part of it that isn't as it must be. Classes and runs are counted from 0.
///
/// Source: mcgate's own.
#[derive(Clone, Copy, Debug, Drop)]
pub enum CertificateFault {
    /// The text is no JSON: at this line and column, counted from 1.
    NotJson(usize, usize),
    /// The whole isn't an object with `"certificate": 1` and a list `classes`.
    BadWhole,
    /// This class isn't an object with a number `modulus` and a list `runs`.
    BadClass(usize),
    /// In this class this run isn't an object with a number `first` and a list of numbers `servers`.
    BadRun(usize, usize),
    /// Memory was refused.
    NoMemory,
}

impl From<AllocError> for CertificateFault {
    ghost use Rattle.std.specs.Prelude.{◌≡◌};
    ghost use Rattle.gate_certificate.specs.declared.fault.CertificateFault.TheVariants.{NoMemory};

    ghost from_gives = { λ _ e. e ≡ NoMemory };

    fn from(_error: AllocError) -> CertificateFault {
        CertificateFault::NoMemory
    }
}

impl<T: Drop> From<AllocFailed<T>> for CertificateFault {
    ghost use Rattle.std.specs.Prelude.{◌≡◌};
    ghost use Rattle.gate_certificate.specs.declared.fault.CertificateFault.TheVariants.{NoMemory};

    ghost from_gives = { λ _ e. e ≡ NoMemory };

    fn from(_error: AllocFailed<T>) -> CertificateFault {
        CertificateFault::NoMemory
    }
}

impl Display for CertificateFault {
    fn fmt<W: fmt::Write>(&self, f: &mut fmt::Formatter<W>) -> fmt::Result {
        match self {
            CertificateFault::NotJson(line, column) => {
                write!(f, "not JSON at line {line}, column {column}")
            }
            CertificateFault::BadWhole => {
                f.write_str("not an object with \"certificate\": 1 and a list \"classes\"")
            }
            CertificateFault::BadClass(class) => write!(
                f,
                "classes[{class}] isn't an object with a number \"modulus\" and a list \"runs\""
            ),
            CertificateFault::BadRun(class, run) => write!(
                f,
                "classes[{class}].runs[{run}] isn't an object with a number \"first\" and a list of numbers \"servers\""
            ),
            CertificateFault::NoMemory => f.write_str("out of memory"),
        }
    }
}

impl Error for CertificateFault {}
