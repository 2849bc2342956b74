//! Clients whose calls are answered at once, by servers that hold `x` under the key `a` and nothing else.

use crate::stage::play;
use std::test::Fail;

fn texts() -> &'static str {
    r"A command at a time, with its call.
server: depth 1, alone
open => 0
feed 0 get a\r\nset b 0 0 1\r\ny\r\ndelete c\r\n => ok
serve 0 => did 1
calls => 1
output 0 => VALUE a 0 1\r\nx\r\nEND\r\n
serve 0 => did 2
output 0 => STORED\r\n
serve 0 => did 3
output 0 => NOT_FOUND\r\n
calls => 3
serve 0 => idle
calls => 3
output 0 => nothing

A get of two keys is two commands, one at a time, and is answered once.
server: depth 1, alone
open => 0
feed 0 gets a b\r\n => ok
serve 0 => did 1
serve 0 => did 2
calls => 2
output 0 => VALUE a 0 1 7\r\nx\r\nEND\r\n
serve 0 => idle

What asks no server is answered without a call, and what can't be read is refused.
server: depth 1, alone
open => 0
feed 0 version\r\nfly\r\nge => ok
serve 0 => own
output 0 => VERSION mcgate-1\r\n
serve 0 => refused
output 0 => ERROR\r\n
serve 0 => idle
feed 0 t a\r\n => ok
serve 0 => did 1
calls => 1

Many commands may be under way: one at a time ends all the same.
server: depth 2, shared
open => 0
feed 0 get b\r\nget a\r\n => ok
serve 0 => did 1
output 0 => END\r\n
serve 0 => did 2
output 0 => VALUE a 0 1\r\nx\r\nEND\r\n
serve 0 => idle

A command with more than one call: after the miss of the one server the other is asked.
warm-up: depth 1, alone
open => 0
feed 0 get b\r\n => ok
serve 0 => did 1
calls => 2
output 0 => END\r\n

A server that fails.
server: depth 1, alone
open => 0
feed 0 get a\r\nversion\r\n => ok
servers down => ok
serve 0 => did 1
calls => 1
output 0 => SERVER_ERROR call failed\r\n
serve 0 => own
serve 0 => idle

A call that somebody else has to settle is waited for.
server: depth 1, alone
open => 0
open => 1
feed 0 get a\r\n => ok
feed 1 get a\r\n => ok
poll 0 => call 1
serve 0 => waits
serve 1 => waits
serve 1 => waits
calls => 0
fail 1 => ok
serve 0 => did 1
serve 1 => did 2
calls => 1

A client that is gone isn't served, and another one is.
server: depth 1, alone
open => 0
open => 1
feed 0 get a\r\n => ok
feed 1 get a\r\n => ok
close 0 => ok
serve 0 => no client
serve 1 => did 1
calls => 1"
}

#[test]
fn served_at_once(rt: HostRuntime) -> Result<(), Fail> {
    play(rt.alloc(), texts())
}
