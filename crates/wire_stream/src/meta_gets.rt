//! Classic gets, asked of a server in the meta dialect.
//!
//! memcached sends the answers to pipelined meta gets together, and each answer to a classic one by itself. So a server that speaks
//! both is asked `mg` for `get`, and its answer is read as the classic one that says the same ([`write_in_meta`],
//! [`read_in_meta`]). What is asked and answered most is done by itself ([`write_get`], [`read_hit`]).
//! Whether it does is learnt by an `mn` ([`write_noop`], [`read_dialect`]).

pub mod dialect;
pub mod form;
pub mod kept;
pub mod laws;
pub mod reader;
pub mod usual;

pub use dialect::{DialectRead, read_dialect, write_noop};
pub use form::{is_plain_get, write_get, write_in_meta};
pub use kept::MetaForms;
pub use reader::read_in_meta;
pub use usual::{UsualHit, read_hit, usual_hit};
