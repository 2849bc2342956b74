//! How a proxy is set: how many clients, commands and calls, how long is waited, and how servers are asked.

ghost use Rattle.std.specs.Prelude.{◌≡◌, ◌≤◌, ◌+◌, ◌⊎◌};
ghost use Rattle.serve_links.specs.Lateness.{usual_limits};

use core_proxy::Sharing;
use wire_stream::VersionText;

/// In which dialect a server is asked for classic gets. All else is asked as the client wrote it.
#[derive(Clone, Copy, PartialEq, Eq)]
pub enum ServerDialect {
    /// Each connection begins with an `mn`, whose answer tells.
    Auto,
    Classic,
    /// As meta gets, whose answers memcached sends together.
    Meta,
}

/// What a server is asked first over a connection, before all calls.
#[derive(Clone, Copy, PartialEq, Eq)]
pub struct Greeting {
    /// Whether it is to empty itself, by `flush_all`: no call is asked before its `OK`.
    pub flushes: bool,
    /// How it is asked for its dialects, after that.
    pub dialect: ServerDialect,
}

/// How long one server is waited for, and after how many failures it is left alone for how long.
#[derive(Clone, Copy, PartialEq, Eq)]
pub struct LinkLimits {
    /// How many milliseconds a call may take.
    pub call_ms: u64,
    /// How many milliseconds a connection may take to stand.
    pub connect_ms: u64,
    /// After how many failures in a row its calls fail at once.
    pub fail_limit: u32,
    /// For how many milliseconds they do, before one call tries it.
    pub retry_ms: u64,
    /// Whether a store that is out, which may put an item or change the data of one, is awaited however
    /// long it takes, and those behind it with it.
    pub stores_wait: bool,
}

/// How many clients there may be, how many calls may be out, how long is waited, how servers are asked, and what clients are told.
#[derive(Clone, Copy)]
pub struct Settings {
    /// How many clients may be connected.
    pub clients: usize,
    /// How many commands of one client may have no shown reply.
    pub client_window: usize,
    /// How many calls the core may have out at one server.
    pub link_window: usize,
    /// How many of them may have gone out to it: others wait for it.
    pub places: usize,
    /// Which commands may be under way together on one key.
    pub sharing: Sharing,
    /// How many milliseconds a call may take, where its server has no limits of its own.
    pub call_ms: u64,
    /// How many milliseconds a connection to such a server may take to stand.
    pub connect_ms: u64,
    /// After how many failures of such a server in a row its calls fail at once.
    pub fail_limit: u32,
    /// For how many milliseconds they do, before one call tries it.
    pub retry_ms: u64,
    /// Whether a store that is out, which may put an item or change the data of one, is awaited however
    /// long it takes, and those behind it with it.
    pub stores_wait: bool,
    /// After how many milliseconds in which late answers were awaited a server's connection is given up; without a number it never is.
    pub give_up_ms: Option<u64>,
    /// After so many reads of a server in a row that brought no whole answer its calls have failed; without a number they may be any.
    pub polls: Option<u32>,
    pub server_dialect: ServerDialect,
    /// Whether a server that comes with a later configuration is emptied before its first call.
    pub flushes_new: bool,
    /// The text that `version` is answered behind `VERSION `, in place of mcgate's own.
    pub version: Option<VersionText>,
}

impl Settings {
    /// 1,024 clients, 32 commands of each, 256 calls that have gone out to each server, keys shared, one second each time, for stores too, three failures,
    /// no connection given up for late answers, any number of reads, dialects as servers tell, and mcgate's own version.
    pub fn usual() -> Settings {
        Settings {
            clients: 1_024,
            client_window: 32,
            link_window: usize::MAX,
            places: 256,
            sharing: Sharing::Shared,
            call_ms: 1_000,
            connect_ms: 1_000,
            fail_limit: 3,
            retry_ms: 1_000,
            stores_wait: false,
            give_up_ms: None,
            polls: None,
            server_dialect: ServerDialect::Auto,
            flushes_new: false,
            version: None,
        }
    }

    /// The limits of a server that has none of its own.
    pub fn link_limits(&self) -> LinkLimits
        ensures { result ≡ usual_limits self.now }
    {
        LinkLimits {
            call_ms: self.call_ms,
            connect_ms: self.connect_ms,
            fail_limit: self.fail_limit,
            retry_ms: self.retry_ms,
            stores_wait: self.stores_wait,
        }
    }

    /// These settings where so many descriptors may be open, of which so many are for servers and so many for the rest: no more clients than
    /// these leave and than were wanted, or one where that is less. All else stays.
    pub fn within_descriptors(self, most: usize, servers: usize, rest: usize) -> Settings
        ensures within { (result.clients + (servers + rest) ≤ most) ⊎ (result.clients ≡ 1) }
        ensures wanted { (result.clients ≤ self.clients) ⊎ (result.clients ≡ 1) }
        ensures others { result ≡ record self { clients = result.clients } }
    {
        let left = most.saturating_sub(servers).saturating_sub(rest);
        Settings {
            clients: self.clients.min(left).max(1),
            ..self
        }
    }
}
