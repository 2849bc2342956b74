//! Certificates as JSON: a certificate by which the gate accepted a tree is written, read back, and tested again. Nothing
//! here proposes one.
//!
//! ```text
//! Certificate         --writing--> text
//! CERTIFICATE's text  --reading--> its rows --+
//!                                             +--testing (gate_check::check)--> verdict --told--> a line
//! CONFIG's text       --route_json-> its tree-+
//! ```
#![tactic(auto)]

pub mod fault;
mod fields;
pub mod reading;
pub mod testing;
pub mod told;
pub mod verdict;
pub mod verifying;
pub mod writing;

pub use fault::CertificateFault;
pub use reading::read_certificate;
pub use testing::{Declined, Unverified, accept_by};
pub use verdict::Verdict;
pub use verifying::{Named, verify};
pub use writing::certificate_text;
