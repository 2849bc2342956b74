//! How much a core takes at once.

ghost use Rattle.std.specs.Prelude.{◌≡◌};
ghost use Rattle.core_proxy.specs.Faults.{script_limits};

use core_commands::Sharing;
use mc_types::limits::SCRIPT_CLIENTS;
use wire_stream::VersionText;

/// How many bytes of a client a core of scripts holds: 2 MiB. mcgate's own.
pub const SCRIPT_HELD: usize = 2_097_152;

/// The last number that a command can have.
pub const LAST_COMMAND: u64 = 18_446_744_073_709_551_615;

/// The last generation that a tree can be.
pub const LAST_GENERATION: u32 = 4_294_967_295;

/// How much a core takes at once, what may be under way together, and by what text it tells of its version.
#[derive(Clone, Copy)]
pub struct CoreLimits {
    /// How many clients may be open.
    pub clients: usize,
    /// How many bytes may be held of a client.
    pub held: usize,
    /// How many commands of a client may have no shown reply.
    pub depth: usize,
    /// How many calls may be out at a server.
    pub window: usize,
    /// Which commands may be under way together on one key.
    pub sharing: Sharing,
    /// The text that `version` is answered behind `VERSION `, in place of mcgate's own.
    pub version: Option<VersionText>,
}

impl CoreLimits {
    /// The limits of scripts: [`SCRIPT_CLIENTS`] clients, [`SCRIPT_HELD`] bytes held of each and one command, one call at each server,
    /// each key for one command alone, and mcgate's own version.
    pub fn of_scripts() -> CoreLimits
        ensures { result ≡ script_limits }
    {
        CoreLimits {
            clients: SCRIPT_CLIENTS,
            held: SCRIPT_HELD,
            depth: 1,
            window: 1,
            sharing: Sharing::Alone,
            version: None,
        }
    }
}
