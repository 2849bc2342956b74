//! Memcached's text protocol in both its dialects, in one place: one client's stream of requests, mixed as it likes, and what
//! it is shown for them ([`stream`], [`replies`]), and the requests and answers themselves, which are read and written on
//! both sides of the proxy. What a client asks as a classic get, a server may be asked in the meta dialect ([`meta_gets`]).
//!
//! | | from a client | to a server | from a server | to a client |
//! |---|---|---|---|---|
//! | requests | [`read_request`], in pieces [`TextStream`] | [`write_ask`] | | |
//! | answers | | | [`read_answer`], [`read_received`] | [`write_part`], [`send_part`], [`write_own`], [`write_refusal`], [`write_long_line`] |
#![tactic(auto)]

pub mod connection;
pub mod laws;
pub mod meta_gets;
pub mod replies;
pub mod requests;
pub mod sending;
pub mod stream;
pub mod version;

pub use replies::{ends_message, write_long_line, write_own, write_part, write_refusal};
pub use requests::{Asks, Read, Request, read_request, write_ask};
pub use sending::send_part;
pub use stream::TextStream;
pub use text_words::{Line, line};
pub use version::{DEFAULT_VERSION, VersionText, version_of};
pub use wire_answers::{
    AnswerRead, large_len, read_answer, read_received, write_answer, write_end, write_value,
};
pub use wire_parts::received::{CUT_FROM, Received, SHARED_FROM};
pub use wire_parts::{ProxyCommand, RefusalReason, Skip};
