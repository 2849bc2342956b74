//! What memcached's clients and servers say to each other: keys, asks and answers.
//!
//! ```text
//! client --bytes--> Ask --tree--> calls: Ask to a ServerId --bytes--> server
//!                    |                                                   |
//!                    its Key, its data: a Body                           |
//!                                                                        |
//! client <--bytes-- Answer <----- Outcome: answered, or failed <--bytes--+
//! ```
//!
//! A [`SharedAsk`] is an ask behind a counted pointer. [`Wanted`] are the return flags of a meta ask.
#![tactic(auto)]

pub mod answer;
pub mod ask;
pub mod ask_parts;
pub mod body;
pub mod call;
pub mod error_text;
pub mod key;
pub mod lent_data;
pub mod limits;
pub mod shared;
pub mod spare_bodies;
pub mod token;
mod wanted;

pub use answer::{Answer, Code, Fields};
pub use ask::{Ask, Dialect, Op};
pub use ask_parts::AskParts;
pub use body::Body;
pub use call::{Origin, Outcome, ServerId};
pub use error_text::{ErrorText, OwnText};
pub use key::{Key, KeyFault};
pub use lent_data::LentData;
pub use limits::{DATA_LIMIT, ERROR_TEXT_LIMIT, KEY_LIMIT, OPAQUE_LIMIT, SCRIPT_CLIENTS};
pub use shared::SharedAsk;
pub use spare_bodies::SpareBodies;
pub use token::{Opaque, Token, Tokens};
pub use wanted::Wanted;
