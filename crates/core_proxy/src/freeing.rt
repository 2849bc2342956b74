//! Commands of a client for whom nothing is done any more are broken off.

ghost use Rattle.core_proxy.specs.Settles.{FreesIdle};

use crate::proxy::Core;
use core_commands::owned::{idle_in, remove};

impl Core {
    /// The commands of a client for whom nothing is done any more are broken off where no call of them is out. It takes no memory.
    pub(crate) fn free_idle(&mut self, client: usize)
        ensures { FreesIdle self.old client self.new }
    {
        while let Some(number) = idle_in(client, &self.commands) {
            remove(number, &mut self.commands);
        }
    }
}
