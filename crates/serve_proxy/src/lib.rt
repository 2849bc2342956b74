//! The proxy over a wire, in one thread: clients on one side and servers on the other, and between them a core, on configurations
//! that the gate accepted or on unchecked ones. An end has two parts: the core, which has the commands and knows of no socket, and
//! the sockets, which know nothing of the core. What does something to both is a function of both; what whoever runs an end tells the
//! sockets alone, and asks of them, is a method of `Sockets` (`operating.rt`). The wire is any `serve_wire::Wire`: real sockets, or one in
//! memory.
//!
//! The way of the data in a turn, whose stages stand in `proxy.rt`:
//!
//! - The wire tells which sockets are ready. That is noted, and the time is taken (`sockets.rt`).
//! - A client that connects gets an id from the core, and its end under this id (`accepting.rt`).
//! - A client's bytes are read and fed to the core, which is polled for what came of them (`serving.rt`, `clients.rt`).
//! - A call of the core is written to its server's link, or waits there until the server takes more (`calls.rt`, `links.rt`).
//! - What the links and the clients have to send is written to their sockets (`sending.rt`).
//! - A server's answers are read, and settle the calls that are out, oldest first (`answers.rt`).
//! - A link that broke, is late or brought what is no answer fails its calls (`failing.rt`). How long each may take is said by a
//!   configuration (`limiting.rt`).
//! - Settled commands go on when their clients are polled next (`serving.rt`), and the core's replies go to the client's end
//!   (`showing.rt`), from which they are sent. How long commands took is counted (`times.rt`).
//! - Where it is to end, clients go once nothing of them is under way (`draining.rt`).
//! - A client that takes nothing of much that is to be sent to it is closed after a while, and one for which most is held where too much is
//!   held for all; each one's share is a part of what may be held where that is scarce (`stalls.rt`).
//! - Room that large data took is lent to the next client that wants such, and goes back after a while (`rooms.rt`).
//!
//! Each list of what is to be done is taken and worked off (`worklist.rt`); what is marked meanwhile is for the next stage or turn.
#![tactic(auto)]

mod accepting;
mod answers;
mod beginning;
mod calls;
mod clients;
mod clock;
mod draining;
mod failing;
pub mod laws;
mod limiting;
mod links;
mod operating;
mod proxy;
mod rooms;
mod sending;
mod serving;
mod showing;
mod sockets;
mod stalls;
mod texts;
mod times;
mod worklist;

pub use core_accepted::{Beginning, Beginnings};
pub use proxy::ProxyEnd;
pub use serve_clients::{DEPARTURES, Departure};
pub use serve_links::{
    CallTally, Cause, LinkLimits, LinkNews, ServerDialect, Settings, Tally, VersionText,
};
pub use sockets::Sockets;
pub use texts::text_at;
