//! Clients of a core: how many, what is held of them, when they can be closed.

use crate::stage::play;
use std::test::Fail;

fn texts() -> &'static str {
    r"64 clients at most are open, and the number of one that was closed is given out again.
null: of scripts
open 64 => ok
open => too many clients
close 7 => ok
open => 7

A fresh client takes a piece of 2,097,152 bytes, and then no byte more.
null: of scripts
open => 0
fill 0 => ok
feed 0 a => input full
feed 0 => ok

A client that was closed takes nothing and gives nothing, and another one is as it was.
null: of scripts
open => 0
open => 1
feed 0 get a\r\n => ok
feed 1 get b\r\n => ok
closed 0 => no
closed 1 => no
close 0 => ok
closed 0 => yes
closed 1 => no
feed 0 get a\r\n => no client
close 0 => no client
output 0 => no client
output 1 => nothing"
}

#[test]
fn clients_and_limits(rt: HostRuntime) -> Result<(), Fail> {
    play(rt.alloc(), texts())
}
