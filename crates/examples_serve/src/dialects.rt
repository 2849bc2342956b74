//! A proxy and a server whose part the example plays: what it is asked before and after it told its dialects, and answers of it with
//! large data.

use crate::ends::play_all;
use std::test::Fail;

// Stream 0 is the client's, stream 1 the server's.
fn texts() -> &'static str {
    r"A server of both dialects is asked for classic gets in the meta one.
server
proxy <one server>
connect => 0
send 0 get a\r\n
accept => 1
gets 1 => mn\r\nget a\r\n
send 1 MN\r\nEND\r\n
gets 0 => END\r\n
send 0 get a\r\n
gets 1 => mg a k f v\r\n
send 1 VA 1 ka f5\r\nx\r\n
gets 0 => VALUE a 5 1\r\nx\r\nEND\r\n

A server of the classic dialect is asked for them as they are.
server
proxy <one server>
connect => 0
send 0 get a\r\n
accept => 1
gets 1 => mn\r\nget a\r\n
send 1 ERROR\r\nEND\r\n
gets 0 => END\r\n
send 0 get a\r\n
gets 1 => get a\r\n
send 1 VALUE a 5 1\r\nx\r\nEND\r\n
gets 0 => VALUE a 5 1\r\nx\r\nEND\r\n"
}

// The second answer ends otherwise than usual: with spaces before `END`.
fn large_answers() -> &'static str {
    r"Answers with large data come whole, in whatever pieces and whatever spelling.
server
patient-proxy <one server>
connect => 0
send 0 get a\r\nget b\r\nget c\r\nget d\r\n
accept => 1
gets 1 => mn\r\nget a\r\nget b\r\nget c\r\nget d\r\n
send 1 MN\r\nVALUE a 0 100000\r\n
turn 4
repeat 1 40000 x
turn 4
repeat 1 60000 x
send 1 \r\nEND\r\nVALUE b 0 20000\r\n
repeat 1 20000 y
turn 4
send 1 \r\n  END\r\nVALUE c 0 16384\r\n
repeat 1 16384 z
send 1 \r\nEND\r\nEND\r\n
-- 100,025 + 20,024 + 16,408 + 5
count 0 136462 => 136462 bytes, at the end END\r\nEND\r\n
send 0 get a\r\n
gets 1 => mg a k f v\r\n
send 1 VA 100000 ka f5\r\n
turn 4
repeat 1 100000 x
send 1 \r\n
count 0 100025 => 100025 bytes, at the end xxx\r\nEND\r\n"
}

#[test]
fn large_answers_of_a_server(rt: HostRuntime) -> Result<(), Fail> {
    play_all(&rt, large_answers())
}

#[test]
fn dialects_of_a_server(rt: HostRuntime) -> Result<(), Fail> {
    play_all(&rt, texts())
}
