//! Where a script that steps its calls stands in the log of overlapping commands, and what each call of the core and of its servers
//! makes of that log.

pub mod laws;
