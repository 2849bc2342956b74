//! Several proxies over the same cache servers: what is deleted through one is shown through none, also where servers stall and end.

use crate::ends::play_all;
use std::test::Fail;

// A client connects to the proxy that began last, so stream 0 is a client of the first one.
fn texts() -> &'static str {
    r"What is stored through one proxy is shown through each, and what is deleted through one is shown through none.
cache
cache
proxy <two servers>
connect => 0
proxy <two servers>
connect => 1
proxy <two servers>
connect => 2
ask 0 set a 0 0 1\r\n1\r\nset b 0 0 1\r\n2\r\n => STORED\r\nSTORED\r\n
ask 1 get a b\r\n => VALUE a 0 1\r\n1\r\nVALUE b 0 1\r\n2\r\nEND\r\n
ask 2 set a 0 0 1\r\n3\r\n => STORED\r\n
ask 0 get a\r\n => VALUE a 0 1\r\n3\r\nEND\r\n
ask 1 delete a\r\ndelete b\r\n => DELETED\r\nDELETED\r\n
ask 0 get a b\r\n => END\r\n
ask 2 get a b\r\n => END\r\n

Two trees run side by side while a change is rolled out: what is deleted by the old one isn't shown by the new one, where that fails over.
cache
cache
proxy <A, both cleared>
connect => 0
proxy <failover>
connect => 1
ask 1 set a 0 0 1\r\n1\r\n => STORED\r\n
ask 0 get a\r\n => VALUE a 0 1\r\n1\r\nEND\r\n
kill 0
ask 1 set a 0 0 1\r\n2\r\n => STORED\r\n
ask 1 get a\r\n => VALUE a 0 1\r\n2\r\nEND\r\n
ask 0 delete a\r\n => SERVER_ERROR call failed\r\n
ask 1 get a\r\n => END\r\n
again 0
ask 0 delete a\r\n => NOT_FOUND\r\n
ask 1 get a\r\n => END\r\n"
}

// What was sent to a server that stalls is late after a second, and applied once it reads.
fn stalls() -> &'static str {
    r"A server stalls, and applies late what was sent over each proxy's connection. Then it serves all again.
cache
proxy <one server>
connect => 0
proxy <one server>
connect => 1
ask 0 set a 0 0 1\r\n1\r\n => STORED\r\n
ask 1 get a\r\n => VALUE a 0 1\r\n1\r\nEND\r\n
stall 0
ask 0 set a 0 0 1\r\n2\r\n => SERVER_ERROR call failed\r\n
ask 1 delete a\r\n => SERVER_ERROR call failed\r\n
ask 0 get a\r\n => SERVER_ERROR call failed\r\n
ask 1 get a\r\n => SERVER_ERROR call failed\r\n
go-on
turn 20
ask 0 set a 0 0 1\r\n3\r\n => STORED\r\n
ask 1 get a\r\n => VALUE a 0 1\r\n3\r\nEND\r\n
ask 1 delete a\r\n => DELETED\r\n
ask 0 get a\r\n => END\r\n

A set that failed is applied before a delete that comes after it over the same connection: no proxy shows it once that is acknowledged.
cache
proxy <one server>
connect => 0
proxy <one server>
connect => 1
connect => 2
ask 0 get a\r\n => END\r\n
ask 1 get a\r\n => END\r\n
stall 0
ask 1 set a 0 0 1\r\n2\r\n => SERVER_ERROR call failed\r\n
go-on
turn 20
ask 2 delete a\r\n => DELETED\r\n
ask 0 get a\r\n => END\r\n
ask 1 get a\r\n => END\r\n

One of two servers stalls. A delete isn't acknowledged through any proxy until both have cleared their item; then no proxy shows one, whichever fails.
cache
cache
proxy <failover>
connect => 0
proxy <failover>
connect => 1
proxy <failover>
connect => 2
stall 0
ask 0 set a 0 0 1\r\n1\r\n => STORED\r\n
ask 1 delete a\r\n => SERVER_ERROR call failed\r\n
ask 2 set a 0 0 1\r\n2\r\n => STORED\r\n
ask 1 get a\r\n => VALUE a 0 1\r\n2\r\nEND\r\n
go-on
turn 20
ask 0 set a 0 0 1\r\n3\r\n => STORED\r\n
ask 2 delete a\r\n => DELETED\r\n
ask 0 get a\r\n => END\r\n
kill 0
ask 0 get a\r\n => END\r\n
ask 1 get a\r\n => END\r\n"
}

// Servers that end, and that are reset: of what was sent there nothing is applied any more.
fn ends() -> &'static str {
    r"A server ends, and is back without items: all proxies' calls fail meanwhile, and all are served again.
cache
proxy <one server>
connect => 0
proxy <one server>
connect => 1
ask 0 set a 0 0 1\r\n1\r\n => STORED\r\n
ask 1 get a\r\n => VALUE a 0 1\r\n1\r\nEND\r\n
kill 0
ask 0 delete a\r\n => SERVER_ERROR call failed\r\n
ask 1 get a\r\n => SERVER_ERROR call failed\r\n
again 0
ask 1 set a 0 0 1\r\n2\r\n => STORED\r\n
ask 0 delete a\r\n => DELETED\r\n
ask 1 get a\r\n => END\r\n

A server that stalls is reset: what it hasn't read is gone, and no proxy waits for it any more.
cache
proxy <one server>
connect => 0
proxy <one server>
connect => 1
ask 0 get a\r\n => END\r\n
ask 1 get a\r\n => END\r\n
stall 0
ask 0 set a 0 0 1\r\n1\r\n => SERVER_ERROR call failed\r\n
ask 1 delete a\r\n => SERVER_ERROR call failed\r\n
kill 0
go-on
again 0
turn 20
ask 1 get a\r\n => END\r\n
ask 0 set a 0 0 1\r\n2\r\n => STORED\r\n
ask 1 delete a\r\n => DELETED\r\n
ask 0 get a\r\n => END\r\n"
}

#[test]
fn proxies_of_a_fleet(rt: HostRuntime) -> Result<(), Fail> {
    play_all(&rt, texts())
}

#[test]
fn servers_of_a_fleet_that_stall(rt: HostRuntime) -> Result<(), Fail> {
    play_all(&rt, stalls())
}

#[test]
fn servers_of_a_fleet_that_end(rt: HostRuntime) -> Result<(), Fail> {
    play_all(&rt, ends())
}
