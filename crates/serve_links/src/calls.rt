//! The calls of one server that are out: written one after the other, and settled in that order by what the server answers.
//! No socket is known here; the bytes are values.

mod calls;
mod late_call;
mod sending;
mod times;

pub use calls::{Left, LinkCalls, Next, SentCall, fail_call};
pub use late_call::LateCall;
pub use sending::send_ask;
