//! What `mcgate serve` is asked to do.

use crate::logs::Log;
use core_accepted::Beginnings;
use serve_links::Settings;

/// What `mcgate serve` is to do.
#[derive(Clone, Copy)]
pub struct ServeJob<'a> {
    /// The file of the configuration.
    pub file: &'a str,
    /// Where to listen: a host and a port, `unix:` and a path, or `fd:0`, standard input; or several of these with a comma between two.
    pub listen: &'a str,
    /// The mode of the file at that path.
    pub unix_mode: u32,
    /// So many connections may wait to be accepted where it listens at a host and a port.
    pub tcp_backlog: u32,
    /// Others of a fleet may listen at the same host and port.
    pub reuse_port: bool,
    /// Where to listen for who asks for numbers over HTTP.
    pub metrics: Option<&'a str>,
    /// The path of the socket at which it is told things.
    pub control: Option<&'a str>,
    /// How lines on standard error are written, if not as they are.
    pub log: Option<Log>,
    /// When it drains, it ends after so many milliseconds at most.
    pub drain_ms: u64,
    /// It drains once standard input has ended.
    pub drain_on_eof: bool,
    pub settings: Settings,
    /// After so many seconds in which a server's host acknowledged nothing its connection has ended.
    pub keepalive_s: u32,
    /// After so many seconds a server's name is looked up again.
    pub resolve_s: u32,
    /// How servers began.
    pub begun: Beginnings,
    /// A tree that the gate refuses is served too.
    pub any: bool,
    /// It is one of several before the same servers: by its trees no get copies, and each is judged both ways beside the one before it.
    pub fleet: bool,
    /// The file of a certificate, by which the tree is accepted at the start.
    pub certificate: Option<&'a str>,
    /// The file of what is remembered from one run to the next, if there is one.
    pub history: Option<&'a str>,
    /// Nothing is served: it ends once all that is tested at the start was tested.
    pub check: bool,
    /// A client is closed that takes nothing for so many milliseconds.
    pub stall_ms: u64,
    /// So many bytes are to be sent to all clients at most.
    pub memory: usize,
    /// After so many turns the file is read again.
    pub reload_every: Option<u32>,
    /// After so many milliseconds the file is read again.
    pub reload_ms: Option<u32>,
    /// After so many turns it ends; without a number it doesn't.
    pub turns: Option<u32>,
}
