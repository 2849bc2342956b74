//! The connections of a proxy: one client's bytes, one server's link with its calls that are out, and what each of them
//! does to the core.
#![tactic(auto)]

pub mod calls;
mod client_bytes;
mod greeting;
mod late;
pub mod laws;
mod link;
mod news;
mod outcomes;
mod refusal;
mod room;
mod settings;
mod tally;
mod waiting;

pub use calls::Left;
pub use client_bytes::{feed_held, read_once, send_once, show};
pub use link::{Lateness, Link, MOST_HELD, Opening, vain};
pub use news::{CAUSES, Cause, LinkNews};
pub use outcomes::{HeldAnswers, fail_all, fail_late, settle_held};
pub use refusal::{NotSent, Placed, Refusal};
pub use room::{IDLE_ROOM, KEPT_ROOM, OWN_ROOM, give_back, has_spare};
pub use settings::{Greeting, LinkLimits, ServerDialect, Settings};
pub use tally::{CallTally, LinkTally, SPANS, Tally};
pub use waiting::{LEAST_WAITING, WaitLine};
pub use wire_stream::VersionText;
