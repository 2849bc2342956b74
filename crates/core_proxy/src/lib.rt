//! The proxy's core: commands of many clients under way at once, each client's replies in its own order.
#![tactic(auto)]

pub mod fault;
pub mod feeding;
pub mod finishing;
pub mod freeing;
pub mod laws;
pub mod limits;
pub mod looking;
pub mod note;
pub mod polling;
pub mod proxy;
pub mod results;

pub use core_commands::{Claim, Command, OutCall, Sharing, Ticket};
pub use fault::{CoreFault, TreeFault};
pub use limits::CoreLimits;
pub use note::{Note, Poll};
pub use proxy::Core;
