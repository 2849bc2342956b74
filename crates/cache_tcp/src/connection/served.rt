//! One connection of a cache server: pieces in, replies out.

ghost use Rattle.std.specs.Prelude.{◌≡◌, ◌↔◌, pos, ◌≤ℤ◌, true, [], IsTrue, OnOk, OnErr};
ghost use Rattle.wire_parts.specs.declared.skip.Skip.TheVariants.{Nothing};
ghost use Rattle.wire_parts.specs.Sending.{bytes_of};
ghost use Rattle.wire_parts.specs.Stream.{Stands, Closed, extended};
ghost use Rattle.wire_stream.specs.Held.{bytes_at};
ghost use Rattle.cache_tcp.specs.Steps.{RunsOn, StopsForMemory, IsAnsweredSoFar, IsWithin, at_front, spot_at};
ghost use Rattle.cache_tcp.specs.Flushing.{IsBetween};

use crate::clock::UnixTime;
use crate::connection::serve::serve;
use crate::connection::uses::Uses;
use cache_server::Cache;
use std::alloc::{AllocError, Global};
use std::marker::Model;
use wire_parts::to_send::SendBuffer;
use wire_stream::connection::ClientStream;

/// One connection of a cache server, for both dialects, mixed as the client likes: where its client's stream stands, and how many asks of the message at
/// the front were answered.
#[derive(Drop)]
pub struct Served {
    stream: ClientStream,
    answered: usize,
    alloc: Global,
}

impl Model for Served {
    ghost use Rattle.cache_tcp.specs.Steps.{Spot, spot_at, IsOnWay};

    ghost Value = { Spot };

    ghost view = { λ s. spot_at s.stream s.answered };

    // No ask was answered of any message but the one at the front, and another of it is next.
    ghost invariant = { λ s. IsOnWay (spot_at s.stream s.answered) };
}

impl Served {
    /// A connection whose client said nothing yet. It takes no memory.
    pub fn new(alloc: Global) -> Served
        ensures { result ≡ at_front (Stands Nothing []) }
    {
        Served {
            stream: ClientStream::copying(alloc),
            answered: 0,
            alloc,
        }
    }

    /// Whether the connection has ended: after `quit`, a line that is too long, or an error of `serve`. It takes no
    /// memory.
    pub fn is_closed(&self) -> bool
        ensures { IsTrue result ↔ self.now.place ≡ Closed }
    {
        self.stream.is_closed()
    }

    /// Whether no message is begun: nothing came that isn't answered yet. It takes no memory.
    pub fn is_between(&self) -> bool
        ensures { result ≡ true → IsBetween self.now }
    {
        self.answered == 0 && self.stream.held_len() == 0 && !self.stream.is_closed()
    }

    /// A piece of the client's bytes comes. After the end they are dropped. The only error is running out of memory, which changes nothing.
    pub fn feed(&mut self, bytes: &[u8]) -> Result<(), AllocError>
        ensures ok { OnOk result (self.new ≡ spot_at (extended self.old.place bytes.now) self.old.count) }
        ensures err { OnErr result (self.new ≡ self.old) }
    {
        self.stream.feed(bytes)
    }

    /// All messages that are complete are answered by the cache, one ask after another, at this moment, in seconds, 0 or later, until so
    /// many bytes or more are to be sent; the reply texts go after what is to be sent, in order. A message is broken off between two of its
    /// asks, and the next call goes on there. The keys that were asked for are noted.
    ///
    /// Stores have stamp 0. A client that wrote `noreply` is shown no reply, and one that wrote `q` none of those that `q` hides. `quit` ends
    /// the connection, and so does a line without an end in its first 65,536 bytes, which is answered. After the end nothing is given.
    ///
    /// Where the cache runs out of memory to store an item, the reply is `SERVER_ERROR out of memory storing object`. Running out
    /// of it anywhere else is the only error; then the connection has ended.
    ///
    /// Source: memcached's protocol.txt.
    pub fn serve(
        &mut self,
        cache: &mut Cache,
        moment: i64,
        uses: &mut Uses,
        out: &mut SendBuffer,
        most: usize,
    ) -> Result<(), AllocError>
        requires { pos 0 ≤ℤ moment }
        ensures ok { OnOk result (RunsOn moment self.old cache.old (bytes_of out.old) self.new cache.new (bytes_of out.new)) }
        ensures all { OnOk result (IsAnsweredSoFar most self.new.place (bytes_of out.new)) }
        ensures err { OnErr result (self.new ≡ at_front Closed) }
        ensures stops { OnErr result (StopsForMemory moment self.old cache.old cache.new) }
        ensures within { IsWithin most (bytes_of out.old) → IsWithin most (bytes_of out.new) }
    {
        let now = UnixTime { seconds: moment };
        match serve(
            self.alloc,
            &mut self.stream,
            self.answered,
            cache,
            now,
            uses,
            out,
            most,
        ) {
            Ok(answered) => {
                self.answered = answered;
                Ok(())
            }
            Err(error) => {
                self.stream.close();
                self.answered = 0;
                Err(error)
            }
        }
    }
}
