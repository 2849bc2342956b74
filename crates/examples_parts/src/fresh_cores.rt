//! Cores on configurations that the gate accepted.

use crate::stage::play;
use std::test::Fail;

fn texts() -> &'static str {
    r#"A delete whose call failed is told so, and then the client can be closed.
configuration: {"pools":{"A":{"servers":["127.0.0.1:5001"]}},"route":"PoolRoute|A"}
open => 0
feed 0 delete a\r\n => ok
poll 0 => call 1
out => yes
fail 1 => ok
poll 0 => did 1
output 0 => SERVER_ERROR call failed\r\n
closed 0 => no
close 0 => ok

The same configuration once more is generation 2.
configuration: {"pools":{"A":{"servers":["127.0.0.1:5001"]}},"route":"PoolRoute|A"}
reload {"pools":{"A":{"servers":["127.0.0.1:5001"]}},"route":"PoolRoute|A"} => 2

And so on: there is no limit of sixteen.
configuration: {"pools":{"A":{"servers":["127.0.0.1:5001"]}},"route":"PoolRoute|A"}
reload {"pools":{"A":{"servers":["127.0.0.1:5001"]}},"route":"PoolRoute|A"} => 2
reload {"pools":{"A":{"servers":["127.0.0.1:5001"]}},"route":"PoolRoute|A"} => 3
reload {"pools":{"A":{"servers":["127.0.0.1:5001"]}},"route":"PoolRoute|A"} => 4
reload {"pools":{"A":{"servers":["127.0.0.1:5001"]}},"route":"PoolRoute|A"} => 5
reload {"pools":{"A":{"servers":["127.0.0.1:5001"]}},"route":"PoolRoute|A"} => 6
reload {"pools":{"A":{"servers":["127.0.0.1:5001"]}},"route":"PoolRoute|A"} => 7
reload {"pools":{"A":{"servers":["127.0.0.1:5001"]}},"route":"PoolRoute|A"} => 8
reload {"pools":{"A":{"servers":["127.0.0.1:5001"]}},"route":"PoolRoute|A"} => 9
reload {"pools":{"A":{"servers":["127.0.0.1:5001"]}},"route":"PoolRoute|A"} => 10
reload {"pools":{"A":{"servers":["127.0.0.1:5001"]}},"route":"PoolRoute|A"} => 11
reload {"pools":{"A":{"servers":["127.0.0.1:5001"]}},"route":"PoolRoute|A"} => 12
reload {"pools":{"A":{"servers":["127.0.0.1:5001"]}},"route":"PoolRoute|A"} => 13
reload {"pools":{"A":{"servers":["127.0.0.1:5001"]}},"route":"PoolRoute|A"} => 14
reload {"pools":{"A":{"servers":["127.0.0.1:5001"]}},"route":"PoolRoute|A"} => 15
reload {"pools":{"A":{"servers":["127.0.0.1:5001"]}},"route":"PoolRoute|A"} => 16
reload {"pools":{"A":{"servers":["127.0.0.1:5001"]}},"route":"PoolRoute|A"} => 17
reload {"pools":{"A":{"servers":["127.0.0.1:5001"]}},"route":"PoolRoute|A"} => 18

A pool may double and double again where new servers are empty.
own: {"pools":{"A":{"servers":["127.0.0.1:5001"]}},"route":"PoolRoute|A"}
reload {"pools":{"A":{"servers":["127.0.0.1:5001","127.0.0.1:5002"]}},"route":"PoolRoute|A"} => 2
reload {"pools":{"A":{"servers":["127.0.0.1:5001","127.0.0.1:5002","127.0.0.1:5003","127.0.0.1:5004"]}},"route":"PoolRoute|A"} => 3"#
}

#[test]
fn fresh_cores(rt: HostRuntime) -> Result<(), Fail> {
    play(rt.alloc(), texts())
}
