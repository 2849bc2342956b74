//! Messages at a client's front that ask no server: they are answered at once.

ghost use Rattle.std.specs.Prelude.{◌≡◌, [], false, OnErr, IfOk};
ghost use Rattle.wire_stream.specs.Held.{IsReadAt};
ghost use Rattle.wire_stream.specs.Fronts.{AsksNone};
ghost use Rattle.core_client.specs.Fronts.{ClientStays, PassesFront};

use crate::client::Client;
use std::alloc::AllocError;
use wire_stream::Read;
use wire_stream::connection::{Passed, pass};

impl Client {
    /// The message that was read at the front, which asks no server, is answered and done; `version` is answered by this text. The only
    /// error is running out of memory, which leaves the client as it was.
    pub fn pass(&mut self, read: Read, version: &[u8]) -> Result<Passed, AllocError>
        requires read { IsReadAt self.old.stream read }
        requires asks { AsksNone self.old.stream read }
        requires served { self.old.dropped ≡ false }
        requires none { self.old.queue.items ≡ [] }
        ensures ok { IfOk result (λ passed. PassesFront version.now self.old passed self.new) }
        ensures err { OnErr result (ClientStays self.old self.new) }
    {
        let passed = pass(read, version, &mut self.stream, &mut self.output.text)?;
        self.index = 0;
        self.waits = false;
        Ok(passed)
    }
}
