//! What a running proxy tells of itself, families of numbers in Prometheus' text format and in JSON, which it answers over
//! HTTP ([`http`]); and what it is told on its control socket ([`control`]).
//!
//! ```text
//! http:    a visitor's bytes --request---> Page    --mcgate_serve--> numbers, families, prometheus, json: its body --+
//! control: a caller's line   --requests--> Request --mcgate_serve--> does it: a Ruling and a text -------------------+
//!                                                                                                                    |
//! who asked <--sending: as much as is taken at once-- bytes <--answers-----------------------------------------------+
//! ```
//!
//! Those who ask stand in [`connections`], of visitors and of callers 16 each at most.
#![tactic(auto)]

pub mod connections;
pub mod control;
pub mod families;
pub mod http;
pub mod json;
pub mod numbers;
pub mod places;
pub mod prometheus;
pub mod quoted;
pub mod sending;
pub mod times;
