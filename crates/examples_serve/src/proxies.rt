//! A proxy over cache servers: what a client is answered, also where a server is gone and where a tree is loaded.

use crate::ends::play_all;
use std::test::Fail;

fn texts() -> &'static str {
    r"The first path.
cache
cache
proxy <two servers>
connect => 0
ask 0 set a 5 0 3\r\nxyz\r\n => STORED\r\n
ask 0 get a\r\n => VALUE a 5 3\r\nxyz\r\nEND\r\n
ask 0 delete a\r\n => DELETED\r\n
ask 0 get a\r\n => END\r\n
ask 0 mg a v\r\nmn\r\n => EN\r\nMN\r\n

Replies come in the order of the commands, whichever server answers first.
cache
cache
proxy <two servers>
connect => 0
send 0 set a 0 0 1\r\n1\r\nset b 0 0 1\r\n2\r\nset c 0 0 1\r\n3\r\nget a b c\r\nfoo\r\n
gets 0 => STORED\r\nSTORED\r\nSTORED\r\nVALUE a 0 1\r\n1\r\nVALUE b 0 1\r\n2\r\nVALUE c 0 1\r\n3\r\nEND\r\nERROR\r\n

A delete that must reach both servers isn't acknowledged while one is gone, and a get is answered by the other.
cache
cache
proxy <failover>
connect => 0
ask 0 set a 0 0 1\r\n7\r\n => STORED\r\n
kill 1
ask 0 delete a\r\n => SERVER_ERROR call failed\r\n
ask 0 get a\r\n => END\r\n

A tree is loaded whose own deletes reach both servers; one that reads the second server isn't: the first tree's didn't reach it.
cache
cache
proxy <one server>
connect => 0
ask 0 set a 0 0 1\r\n1\r\n => STORED\r\n
load <failover> => refused
load <A, both cleared> => 2
ask 0 get a\r\n => VALUE a 0 1\r\n1\r\nEND\r\n
ask 0 delete b\r\n => NOT_FOUND\r\n

A version is told by the text that was given, and by mcgate's own where none was. No server is asked.
server
versioned-proxy <one server>
connect => 0
ask 0 version\r\nmn\r\nversion\r\n => VERSION 1.6.0 mcgate\r\nMN\r\nVERSION 1.6.0 mcgate\r\n
proxy <one server>
connect => 1
ask 1 version\r\n => VERSION mcgate-1\r\n

One client too many is told so and closed, and the other one is served. When that one has left there is room again.
cache
small-proxy <one server>
connect => 0
ask 0 set a 0 0 1\r\n7\r\n => STORED\r\n
connect => 1
gets 1 => SERVER_ERROR too many clients\r\n
closed 1 => yes
ask 0 get a\r\n => VALUE a 0 1\r\n7\r\nEND\r\n
leave 0
turn 10
connect => 2
ask 2 get a\r\n => VALUE a 0 1\r\n7\r\nEND\r\n

Gets of a server that is gone fail, time after time, and so is told: the last of what happened within a second, when that is over.
cache
slow-retry-proxy <one server>
connect => 0
ask 0 get a\r\n => END\r\n
news => server 0: connected
kill 0
ask 0 get a\r\n => SERVER_ERROR call failed\r\n
ask 0 get a\r\n => SERVER_ERROR call failed\r\n
ask 0 get a\r\n => SERVER_ERROR call failed\r\n
ask 0 get a\r\n => SERVER_ERROR call failed\r\n
ask 0 get a\r\n => SERVER_ERROR call failed\r\n
news => server 0: failed: no connection could be made, 2 in a row, a second later"
}

// Many commands, many clients, and a client that reads late.
fn crowds() -> &'static str {
    r"Ten thousand commands at once, cut wherever a read ends, and as many in pieces that end anywhere, each key with a reply of its own.
cache
cache
proxy <two servers>
connect => 0
send 0 set a 0 0 1\r\n1\r\nset b 0 0 2\r\n22\r\nset c 0 0 3\r\n333\r\nset d 0 0 1\r\n4\r\nset e 0 0 2\r\n55\r\nset f 0 0 3\r\n666\r\nset g 0 0 1\r\n7\r\nset h 0 0 2\r\n88\r\nset i 0 0 3\r\n999\r\nset j 0 0 2\r\n10\r\nset k 0 0 4\r\n1111\r\nset l 0 0 6\r\n121212\r\nset m 0 0 2\r\n13\r\nset n 0 0 4\r\n1414\r\nset o 0 0 6\r\n151515\r\nset p 0 0 2\r\n16\r\nset q 0 0 4\r\n1717\r\nset r 0 0 6\r\n181818\r\nset s 0 0 2\r\n19\r\nset t 0 0 4\r\n2020\r\n
often 0 20 STORED\r\n => yes
repeat 0 500 get a\r\nget b\r\nget c\r\nget d\r\nget e\r\nget f\r\nget g\r\nget h\r\nget i\r\nget j\r\nget k\r\nget l\r\nget m\r\nget n\r\nget o\r\nget p\r\nget q\r\nget r\r\nget s\r\nget t\r\n
often 0 500 VALUE a 0 1\r\n1\r\nEND\r\nVALUE b 0 2\r\n22\r\nEND\r\nVALUE c 0 3\r\n333\r\nEND\r\nVALUE d 0 1\r\n4\r\nEND\r\nVALUE e 0 2\r\n55\r\nEND\r\nVALUE f 0 3\r\n666\r\nEND\r\nVALUE g 0 1\r\n7\r\nEND\r\nVALUE h 0 2\r\n88\r\nEND\r\nVALUE i 0 3\r\n999\r\nEND\r\nVALUE j 0 2\r\n10\r\nEND\r\nVALUE k 0 4\r\n1111\r\nEND\r\nVALUE l 0 6\r\n121212\r\nEND\r\nVALUE m 0 2\r\n13\r\nEND\r\nVALUE n 0 4\r\n1414\r\nEND\r\nVALUE o 0 6\r\n151515\r\nEND\r\nVALUE p 0 2\r\n16\r\nEND\r\nVALUE q 0 4\r\n1717\r\nEND\r\nVALUE r 0 6\r\n181818\r\nEND\r\nVALUE s 0 2\r\n19\r\nEND\r\nVALUE t 0 4\r\n2020\r\nEND\r\n => yes
pieces 0 500 get a\r\nget b\r\nget c\r\nget d\r\nget e\r\nget f\r\nget g\r\nget h\r\nget i\r\nget j\r\nget k\r\nget l\r\nget m\r\nget n\r\nget o\r\nget p\r\nget q\r\nget r\r\nget s\r\nget t\r\n
often 0 500 VALUE a 0 1\r\n1\r\nEND\r\nVALUE b 0 2\r\n22\r\nEND\r\nVALUE c 0 3\r\n333\r\nEND\r\nVALUE d 0 1\r\n4\r\nEND\r\nVALUE e 0 2\r\n55\r\nEND\r\nVALUE f 0 3\r\n666\r\nEND\r\nVALUE g 0 1\r\n7\r\nEND\r\nVALUE h 0 2\r\n88\r\nEND\r\nVALUE i 0 3\r\n999\r\nEND\r\nVALUE j 0 2\r\n10\r\nEND\r\nVALUE k 0 4\r\n1111\r\nEND\r\nVALUE l 0 6\r\n121212\r\nEND\r\nVALUE m 0 2\r\n13\r\nEND\r\nVALUE n 0 4\r\n1414\r\nEND\r\nVALUE o 0 6\r\n151515\r\nEND\r\nVALUE p 0 2\r\n16\r\nEND\r\nVALUE q 0 4\r\n1717\r\nEND\r\nVALUE r 0 6\r\n181818\r\nEND\r\nVALUE s 0 2\r\n19\r\nEND\r\nVALUE t 0 4\r\n2020\r\nEND\r\n => yes
ask 0 mn\r\n => MN\r\n

Three hundred clients.
cache
cache
proxy <two servers>
connect => 0
ask 0 set a 0 0 1\r\n7\r\n => STORED\r\n
crowd 300 get a\r\nget b\r\nmn\r\n => VALUE a 0 1\r\n7\r\nEND\r\nEND\r\nMN\r\n

Long data among short ones, more than one read takes.
cache
proxy <one server>
connect => 0
connect => 1
send 0 set k 0 0 5000\r\n
repeat 0 5000 x
send 0 \r\nset s 0 0 2\r\nhi\r\nget n\r\n
gets 0 => STORED\r\nSTORED\r\nEND\r\n
repeat 0 200 get s\r\nget k\r\n
repeat 1 100 get s k k\r\n
-- 200 * (13 + 2 + 7 + 16 + 5,000 + 7)
count 0 1009000 => 1009000 bytes, at the end xxx\r\nEND\r\n
-- 100 * (13 + 2 + 2 + 2 * (16 + 5,000 + 2) + 5)
count 1 1005800 => 1005800 bytes, at the end xxx\r\nEND\r\n
ask 0 get s\r\n => VALUE s 0 2\r\nhi\r\nEND\r\n

A client reads late: 20 MB of answers are more than the system takes for it. They wait for it, and no one waits for them.
cache
proxy <one server>
connect => 0
connect => 1
send 0 set k 0 0 100000\r\n
repeat 0 100000 x
send 0 \r\n
repeat 0 200 get k\r\n
turn 400
ask 1 get a\r\n => END\r\n
-- 8 + 200 * (18 + 100,000 + 2 + 5)
count 0 20005008 => 20005008 bytes, at the end xxx\r\nEND\r\n
ask 0 mn\r\n => MN\r\n"
}

// Servers that fail: one that comes back, and one that answers too late.
fn failures() -> &'static str {
    r"A server that is killed fails its own keys alone, and is empty when it is back.
cache
cache
proxy <two servers>
connect => 0
ask 0 set a 0 0 1\r\n1\r\nset b 0 0 1\r\n2\r\n => STORED\r\nSTORED\r\n
kill 0
ask 0 get a\r\nget b\r\n => SERVER_ERROR call failed\r\nVALUE b 0 1\r\n2\r\nEND\r\n
again 0
ask 0 get a\r\nget b\r\n => END\r\nVALUE b 0 1\r\n2\r\nEND\r\n
ask 0 set a 0 0 1\r\n3\r\nget a\r\n => STORED\r\nVALUE a 0 1\r\n3\r\nEND\r\n
news => server 0: back

A reply doesn't wait for a server that says nothing to a later command of its client.
cache
server
proxy <two servers>
connect => 0
ask 0 set a 0 0 1\r\n1\r\n => STORED\r\n
send 0 get a\r\nget b\r\nget a\r\n
gets 0 => VALUE a 0 1\r\n1\r\nEND\r\n

What is held back for a server that says nothing goes out where the proxy's turns end.
cache
server
proxy <two servers>
connect => 0
ask 0 set a 0 0 1\r\n1\r\n => STORED\r\n
send 0 get a\r\nget b\r\n
end 2
gets 0 => VALUE a 0 1\r\n1\r\nEND\r\n

An answer that comes after the time limit is nobody's. Until it has come later commands fail at once; then they go over the same connection.
server
proxy <one server>
connect => 0
send 0 get a\r\n
accept => 1
gets 1 => mn\r\nget a\r\n
send 1 MN\r\nEND\r\n
gets 0 => END\r\n
send 0 get a\r\n
gets 1 => mg a k f v\r\n
gets 0 => SERVER_ERROR call failed\r\n
news => server 0: late: a call took too long
ask 0 get b\r\n => SERVER_ERROR call failed\r\n
send 1 VA 1 ka f5\r\nx\r\n
news => server 0: back, a second later
send 0 get a\r\n
gets 1 => mg a k f v\r\n
send 1 VA 1 ka f0\r\ny\r\n
gets 0 => VALUE a 0 1\r\ny\r\nEND\r\n"
}

// Servers that fail time after time, and servers whose answers come in many reads. Stream 0 is a client's; the server that the example plays
// closes its connections.
fn failures_in_a_row() -> &'static str {
    r"A server that failed twice in a row isn't asked before it is tried again, also where it is back: its calls fail at once.
cache
slow-retry-proxy <one server>
connect => 0
ask 0 set a 0 0 1\r\n1\r\n => STORED\r\n
kill 0
ask 0 get a\r\n => SERVER_ERROR call failed\r\n
ask 0 get a\r\n => SERVER_ERROR call failed\r\n
ask 0 get a\r\n => SERVER_ERROR call failed\r\n
again 0
ask 0 get a\r\n => SERVER_ERROR call failed\r\n
ask 0 set a 0 0 1\r\n2\r\n => SERVER_ERROR call failed\r\n
turn 10
clients => 0

When its time has come one call tries, and others fail at once until that is answered.
server
quick-retry-proxy <one server>
connect => 0
connect => 1
send 0 get a\r\n
accept => 2
leave 2
gets 0 => SERVER_ERROR call failed\r\n
send 0 get a\r\n
accept => 3
gets 3 => mn\r\nget a\r\n
leave 3
gets 0 => SERVER_ERROR call failed\r\n
news => server 0: failed: it closed the connection, 2 in a row
turn 10
send 0 get a\r\n
accept => 4
ask 1 get b\r\n => SERVER_ERROR call failed\r\n
gets 4 => mn\r\nget a\r\n
send 4 MN\r\nEND\r\n
gets 0 => END\r\n
send 1 get b\r\n
gets 4 => mg b k f v\r\n
send 0 get a\r\n
gets 4 => mg a k f v\r\n
send 4 EN\r\nEN\r\n
gets 1 => END\r\n
gets 0 => END\r\n

An answer may come in as many reads as are allowed. One that isn't whole after them fails, with its connection.
server
strict-proxy <one server>
connect => 0
send 0 get a\r\n
accept => 1
gets 1 => mn\r\nget a\r\n
send 1 MN\r\nEND\r\n
gets 0 => END\r\n
send 0 get a\r\n
gets 1 => mg a k f v\r\n
send 1 VA 3 k
turn 10
send 1 a f5\r\nx
turn 10
send 1 yz\r\n
gets 0 => VALUE a 5 3\r\nxyz\r\nEND\r\n
send 0 get a\r\n
gets 1 => mg a k f v\r\n
send 1 VA 3 k
turn 10
send 1 a f5\r\nx
turn 10
send 1 y
gets 0 => SERVER_ERROR call failed\r\n
news => server 0: failed: too many reads brought no whole answer, 1 in a row
closed 1 => yes"
}

// The proxy isn't turned for a second and a half, where a call is late after a second.
fn pauses() -> &'static str {
    r"A call whose answer has come by then isn't late, also where it takes more than one read.
server
proxy <one server>
connect => 0
send 0 get a\r\n
accept => 1
gets 1 => mn\r\nget a\r\n
send 1 MN\r\nEND\r\n
pause 1500
gets 0 => END\r\n
send 0 get b\r\nget c\r\nget d\r\n
gets 1 => mg b k f v\r\nmg c k f v\r\nmg d k f v\r\n
send 1 EN\r\nVA 200000 kc f5\r\n
repeat 1 200000 x
send 1 \r\nEN\r\n
pause 1500
-- 5 + 18 + 200,000 + 2 + 5 + 5
count 0 200035 => 200035 bytes, at the end END\r\nEND\r\n
news => server 0: connected

One whose answer hasn't come is, and so is one whose answer isn't whole.
server
proxy <one server>
connect => 0
send 0 get a\r\n
accept => 1
gets 1 => mn\r\nget a\r\n
pause 1500
gets 0 => SERVER_ERROR call failed\r\n
news => server 0: late: a call took too long
send 1 MN\r\nEND\r\n
news => server 0: back, a second later
send 0 get a\r\nget b\r\n
gets 1 => mg a k f v\r\nmg b k f v\r\n
send 1 EN\r\nVA 1 kb
pause 1500
gets 0 => END\r\nSERVER_ERROR call failed\r\n
news => server 0: late: a call took too long, a second later
send 1  f0\r\nx\r\n
news => server 0: back, a second later
send 0 get a\r\n
gets 1 => mg a k f v\r\n

A connection that stands by then isn't late.
server
hasty-proxy <one server>
connect => 0
send 0 get a\r\n
turn 2
pause 400
accept => 1
gets 1 => mn\r\nget a\r\n
send 1 MN\r\nEND\r\n
gets 0 => END\r\n
news => server 0: connected"
}

// Keys with the hash tag b are the second server's.
fn late_reads() -> &'static str {
    r"A server reads late: 20 MB are more than the system takes for it. Calls wait until it reads, and the commands behind them; those of other clients to another server don't.
cache
server
slow-retry-proxy <two servers>
connect => 0
send 0 get b\r\n
accept => 1
gets 1 => mn\r\nget b\r\n
send 1 MN\r\nEND\r\n
gets 0 => END\r\n
store 20 {b}
turn 400
connect => 22
send 22 set b 0 0 1\r\n1\r\nset a 0 0 1\r\n2\r\nget a\r\n
turn 10
ask 0 get a\r\n => END\r\n
-- 8 * (22 + 1,000,002) + 12 * (23 + 1,000,002) + 13 + 3
count 1 20000508 => 20000508 bytes, at the end 0 0 1\r\n1\r\n
repeat 1 21 STORED\r\n
gets 2 => STORED\r\n
gets 21 => STORED\r\n
gets 22 => STORED\r\nSTORED\r\nVALUE a 0 1\r\n2\r\nEND\r\n"
}

#[test]
fn clients_of_a_proxy(rt: HostRuntime) -> Result<(), Fail> {
    play_all(&rt, texts())
}

#[test]
fn crowds_of_a_proxy(rt: HostRuntime) -> Result<(), Fail> {
    play_all(&rt, crowds())
}

#[test]
fn failures_of_servers(rt: HostRuntime) -> Result<(), Fail> {
    play_all(&rt, failures())
}

#[test]
fn pauses_of_a_proxy(rt: HostRuntime) -> Result<(), Fail> {
    play_all(&rt, pauses())
}

#[test]
fn servers_that_read_late(rt: HostRuntime) -> Result<(), Fail> {
    play_all(&rt, late_reads())
}

#[test]
fn failures_in_a_row_of_servers(rt: HostRuntime) -> Result<(), Fail> {
    play_all(&rt, failures_in_a_row())
}
