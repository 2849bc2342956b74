//! The outside of a program as a trait: what is accepted, begun, read, written, ended and closed, as one history. The proxy stands on it,
//! and cache servers, `loopback`'s far ends and `mcload`'s clients.
//!
//! ```text
//! a peer --accept, connect--> Wire: sockets, of mio; or examples_memory, of tests: each connection has a number
//!            wait, report --> who can go on
//!            read         --> Conn: held   --> whoever serves the peer: serve_clients, serve_links, cache_tcp, mcload
//!            write        <-- Conn: unsent <-- its requests or replies
//!            each call    --record--> the history, of which contracts speak
//! ```
//!
//! [`Wire`] is what an end is generic over. Its ghost member `history` lists all that has happened, newest first, and each call's contract
//! is one equation: what the call adds to it. What a connection delivered and took, whose it is and to which address it was begun are
//! functions of that list (`specs/Events`), so a call on one connection leaves those of all others as they were. A number is never used
//! again, and a connection with a role differs from each that has another one, so no clause says that numbers are apart.
//!
//! `specs/Agreement` says what an end keeps: what came from a client is the input that is known of it and what is held, and so on.
//! `proofs/Steps` has what each event does to that.
//!
//! A [`Record`] is how an implementation keeps its history. It has no bytes, and its functions do nothing when they run. That a method
//! makes the call which it notes is seen by reading it; a stream and its number stand in one struct, which notes its own number.
#![tactic(auto)]

pub mod conn;
pub mod listens;
pub mod outcomes;
pub mod record;
pub mod sockets;
pub mod wire;

pub use listens::Listens;
pub use outcomes::{Accepted, Connected, Lead, ReadOutcome, Ready, Report, WriteOutcome};
pub use record::Record;
pub use wire::Wire;
