//! What `mcgate check` and `certify` print: the gate's verdict on a configuration, as lines, in words or as a picture, or
//! its fault; a script that shows a gap; and a certificate.
//!
//! ```text
//! arguments --mcgate_args--> check, certify        --> here
//!                            where                 --> mcgate_lines
//!                            replay                --> mcgate_replay    --> script_run
//!                            loopback              --> mcgate_loopback  --> serve_proxy and cache_tcp, in one thread
//!                            serve                 --> mcgate_serve     --> serve_proxy
//!                            cache                 --> mcgate           --> cache_tcp
//! ```
#![tactic(auto)]

pub mod certifying;
pub mod checking;
pub mod drawing;
pub mod explaining;
pub mod leaks;
pub mod reporting;

pub use reporting::run_check;
