//! The loop of `mcgate serve` over real sockets: cache servers, a client, and texts of its file.

use crate::ends::{SOCKETS, play_all};
use crate::served::remove;
use std::test::Fail;

// What each server holds is told by clients of its own.
fn texts() -> &'static str {
    r#"What is set is shown until it is deleted. A text lists a new server before the old one: each gets the calls of its own keys from then on.
cache
cache
file <one server>
loop
connect => 0
ask 0 set a 5 0 3\r\nxyz\r\nset b 0 0 1\r\n2\r\n => STORED\r\nSTORED\r\n
ask 0 get a b\r\n => VALUE a 5 3\r\nxyz\r\nVALUE b 0 1\r\n2\r\nEND\r\n
ask 0 delete a\r\nget a\r\n => DELETED\r\nEND\r\n
to-cache 0 => 1
to-cache 1 => 2
ask 1 get a b\r\n => VALUE b 0 1\r\n2\r\nEND\r\n
file {"pools":{"B":{"servers":["127.0.0.1:5002"]},"A":{"servers":["127.0.0.1:5001"]}},"route":{"type":"PrefixSelectorRoute","policies":{"b":"PoolRoute|B"},"wildcard":"PoolRoute|A"}}
turn 2
ask 0 get b\r\n => END\r\n
ask 0 set a 0 0 1\r\n3\r\nset b 0 0 1\r\n4\r\n => STORED\r\nSTORED\r\n
ask 0 get a b\r\n => VALUE a 0 1\r\n3\r\nVALUE b 0 1\r\n4\r\nEND\r\n
ask 1 get a b\r\n => VALUE a 0 1\r\n3\r\nVALUE b 0 1\r\n2\r\nEND\r\n
ask 2 get a b\r\n => VALUE b 0 1\r\n4\r\nEND\r\n
ask 0 delete b\r\n => DELETED\r\n
ask 1 get a b\r\n => VALUE a 0 1\r\n3\r\nVALUE b 0 1\r\n2\r\nEND\r\n
ask 2 get b\r\n => END\r\n
ask 0 delete a\r\nget a b\r\n => DELETED\r\nEND\r\n
ask 1 get a b\r\n => VALUE b 0 1\r\n2\r\nEND\r\n"#
}

#[test]
fn loops_over_sockets(rt: HostRuntime) -> Result<(), Fail> {
    play_all(&rt, texts())?;
    remove(&rt, SOCKETS.served)
}
