//! Why a server's link failed, as it is told, and that its calls fail by it.

use crate::ends::play_all;
use std::test::Fail;

fn texts() -> &'static str {
    r"A connection that doesn't stand in time.
full-server
hasty-proxy <one server>
connect => 0
ask 0 get a\r\n => SERVER_ERROR call failed\r\n
news => server 0: failed: a connection took too long to stand, 1 in a row

A server that doesn't say in time that it has emptied itself.
server
hasty-proxy <one server>
empty 0
connect => 0
send 0 get a\r\n
accept => 1
gets 1 => flush_all\r\nmn\r\n
gets 0 => SERVER_ERROR call failed\r\n
closed 1 => yes
news => server 0: failed: a connection took too long to stand, 1 in a row

A server with a limit of its own, by which a call to it is late long before others would be.
server
strict-proxy <one server>
limit 0
connect => 0
send 0 get a\r\n
accept => 1
gets 1 => mn\r\nget a\r\n
gets 0 => SERVER_ERROR call failed\r\n
news => server 0: late: a call took too long

What can't be an answer.
server
strict-proxy <one server>
connect => 0
send 0 get a\r\n
accept => 1
gets 1 => mn\r\nget a\r\n
send 1 MN\r\nSTORED\r\n
gets 0 => SERVER_ERROR call failed\r\n
closed 1 => yes
news => server 0: failed: it sent what is no answer to the oldest call, 1 in a row

A server that goes, and has not read what it was sent.
server
strict-proxy <one server>
connect => 0
send 0 get a\r\n
turn 4
accept => 1
leave 1
gets 0 => SERVER_ERROR call failed\r\n
news => server 0: failed: reading or writing failed, 1 in a row"
}

#[test]
fn news_of_links(rt: HostRuntime) -> Result<(), Fail> {
    play_all(&rt, texts())
}
