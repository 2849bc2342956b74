//! Clients of a cache server on 127.0.0.1, which are served in turns.

use crate::ends::play_all;
use std::test::Fail;

fn texts() -> &'static str {
    r"Two clients see one cache.
cache
connect => 0
connect => 1
ask 0 set k 5 0 2\r\nhi\r\n => STORED\r\n
ask 1 get k\r\nmn\r\n => VALUE k 5 2\r\nhi\r\nEND\r\nMN\r\n
ask 0 ms k 1 c\r\n7\r\n => HD c2\r\n
ask 1 incr k 3\r\n => 10\r\n
ask 0 md k\r\n => HD\r\n
ask 1 get k\r\n => END\r\n
clients => 2

A client that ends gets its answers.
cache
connect => 0
send 0 version\r\nget k\r\nget
shut 0
gets 0 => VERSION mcgate-1\r\nEND\r\n
closed 0 => yes
clients => 0

quit closes behind the answers.
cache
connect => 0
ask 0 get k\r\nquit\r\n => END\r\n
closed 0 => yes
clients => 0

HTTP closes behind the answers.
cache
connect => 0
ask 0 mn\r\nPOST / HTTP/1.1\r\nHost: a\r\n\r\nset a 0 0 1\r\n1\r\n => MN\r\nERROR\r\n
closed 0 => yes
connect => 1
ask 1 get a\r\n => END\r\n

What comes behind the end is dropped: the system would take the reply away from the client if bytes were left unread.
cache
connect => 0
repeat 0 100000 x
gets 0 => CLIENT_ERROR line too long\r\n
closed 0 => yes

One client too many.
small-cache
connect => 0
ask 0 mn\r\n => MN\r\n
connect => 1
gets 1 => SERVER_ERROR too many clients\r\n
closed 1 => yes
leave 0
turn 1
connect => 2
ask 2 mn\r\n => MN\r\n

A client reads late: 20 MB of answers are more than the system takes for it. They wait for it, and no one waits for them.
cache
connect => 0
connect => 1
send 0 set k 0 0 100000\r\n
repeat 0 100000 x
send 0 \r\n
repeat 0 200 get k\r\n
turn 40
ask 1 mn\r\n => MN\r\n
-- 8 + 200 * (18 + 100,000 + 2 + 5)
count 0 20005008 => 20005008 bytes, at the end xxx\r\nEND\r\n
ask 0 mn\r\n => MN\r\n"
}

#[test]
fn clients_of_a_cache(rt: HostRuntime) -> Result<(), Fail> {
    play_all(&rt, texts())
}
