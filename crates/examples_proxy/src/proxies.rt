//! A proxy over a wire in memory: what its clients and its servers are sent, where bytes come cut, connections end and break, and answers
//! are late.

use crate::starts::{begin, looked_up, servers_of, settings};
use examples_memory::acts::bytes_of;
use examples_memory::{Memory, Peers};
use examples_tables::configs::with_configs;
use examples_tables::playing::{Stage, cut, first_line, play_lines, shown, yes_or_no};
use route_json::addresses::Servers;
use route_json::{Config, read_config_after};
use serde_json::Value;
use serve_proxy::{Beginnings, DEPARTURES, LinkNews, ProxyEnd, ServerDialect, Settings, text_at};
use std::alloc::{AllocError, Global};
use std::mem;
use std::test::Fail;
use std::time::Duration;

// Far ends have names that are numbers. `peer` begins the script of one, which then calls at a time or answers the next connection to a
// host. `proxy` looks up the servers of its configuration and begins. `news` are those since they were asked for last. `times` are how many
// commands ended in how many microseconds, and how many of these took how long. `gone` are how many clients have gone for what, `unsent` how many
// calls of a server have failed that never went out, and `errors` how many it answered by an error.
fn texts() -> &'static str {
    r"Bytes come cut anywhere, and go out by the piece.
host 127.0.0.1:5001
peer 9
awaits 7
sends VALUE a 0 3\r\nx
sends yz\r
sends \nEND\r\n
awaits 23
sends STO
sends RED\r\n
answers 127.0.0.1:5001
peer 1
sends ge
sends t a\r\nset b 0 0 1\r
sends \n7\r\n
piece 4
window 6
calls 0
proxy <one server>
turn 40
taken 9 => get a\r\nset b 0 0 1\r\n7\r\n
taken 1 => VALUE a 0 3\r\nxyz\r\nEND\r\nSTORED\r\n

Each client gets the replies to its own commands, in their order, whichever server answers first.
host 127.0.0.1:5001
host 127.0.0.1:5002
peer 8
awaits 14
until 30
sends VALUE a 0 1\r\n1\r\nEND\r\nEND\r\n
answers 127.0.0.1:5001
peer 9
awaits 14
sends END\r\nVALUE d 0 1\r\n2\r\nEND\r\n
answers 127.0.0.1:5002
peer 1
sends get a\r\nget b\r\n
calls 0
peer 2
sends get k\r\nget d\r\n
calls 5
proxy <two servers>
turn 40
taken 8 => get a\r\nget k\r\n
taken 9 => get b\r\nget d\r\n
taken 1 => VALUE a 0 1\r\n1\r\nEND\r\nEND\r\n
taken 2 => END\r\nVALUE d 0 1\r\n2\r\nEND\r\n
-- From 0 to 30 a, to 5 b, and from 5 to 30 k, to 5 d.
times => 4 in 60000: 1 0 0 0 0 1 0 2 0 0 0

A write that fails half-way: the call has failed, its connection is closed, and the next call goes to a new one as a whole.
host 127.0.0.1:5001
peer 8
breaks 3
answers 127.0.0.1:5001
peer 9
awaits 7
sends END\r\n
answers 127.0.0.1:5001
peer 1
sends get a\r\n
awaits 26
sends get b\r\n
calls 0
proxy <one server>
turn 40
taken 8 => get
open 8 => no
taken 9 => get b\r\n
taken 1 => SERVER_ERROR call failed\r\nEND\r\n
news => server 0: failed: reading or writing failed, 1 in a row; server 0: back

A server that takes connections and answers nothing isn't back before it answers, also by an error.
host 127.0.0.1:5001
peer 7
awaits 7
ends
answers 127.0.0.1:5001
peer 8
awaits 7
ends
answers 127.0.0.1:5001
peer 9
awaits 16
until 7000
sends SERVER_ERROR out of memory storing object\r\n
awaits 23
sends END\r\n
awaits 39
sends STORED\r\n
awaits 55
sends ERROR\r\n
awaits 71
sends CLIENT_ERROR bad\r\n
answers 127.0.0.1:5001
peer 1
sends get a\r\n
until 3000
sends get b\r\n
until 6500
sends set c 0 0 1\r\n7\r\n
awaits 95
sends get a\r\nset d 0 0 1\r\n7\r\nset d 0 0 1\r\n7\r\nset d 0 0 1\r\n7\r\n
calls 0
proxy <one server>
turn 40
errors 0 => 0
turn 80
taken 1 => SERVER_ERROR call failed\r\nSERVER_ERROR call failed\r\nSERVER_ERROR out of memory storing object\r\nEND\r\nSTORED\r\nERROR\r\nCLIENT_ERROR bad\r\n
open 9 => yes
news => server 0: connected; server 0: failed: it closed the connection, 1 in a row; server 0: failed: it closed the connection, 2 in a row; server 0: back
errors 0 => 3

A server that failed three times in a row is left alone for a second. Then a call tries it, and all others fail while it is out.
host 127.0.0.1:5001
peer 6
awaits 7
ends
answers 127.0.0.1:5001
peer 7
awaits 7
ends
answers 127.0.0.1:5001
peer 8
awaits 7
ends
answers 127.0.0.1:5001
peer 9
awaits 7
until 2600
sends END\r\n
answers 127.0.0.1:5001
peer 1
sends get a\r\n
until 200
sends get b\r\n
until 400
sends get c\r\n
until 600
sends get d\r\n
until 2500
sends get e\r\n
calls 0
peer 2
until 2550
sends get f\r\n
calls 0
proxy <one server>
turn 100
taken 1 => SERVER_ERROR call failed\r\nSERVER_ERROR call failed\r\nSERVER_ERROR call failed\r\nSERVER_ERROR call failed\r\nEND\r\n
taken 2 => SERVER_ERROR call failed\r\n
taken 9 => get e\r\n
unsent 0 => 2

A client quits behind replies that it takes slowly: it gets them all, and then the connection is closed.
host 127.0.0.1:5001
peer 9
awaits 7
sends VALUE a 0 9\r\n123456789\r\nEND\r\n
answers 127.0.0.1:5001
peer 1
sends get a\r\nquit\r\nget b\r\n
window 5
calls 0
proxy <one server>
turn 3
open 1 => yes
turn 40
taken 1 => VALUE a 0 9\r\n123456789\r\nEND\r\n
open 1 => no
gone => 1 quit
taken 9 => get a\r\n

A request of HTTP is answered one line, and then the connection is closed: nothing that stands in it is done. The same of the binary protocol.
host 127.0.0.1:5001
peer 9
answers 127.0.0.1:5001
peer 1
sends POST / HTTP/1.1\r\nHost: a\r\n\r\nset a 0 0 1\r\n1\r\n
calls 0
proxy <one server>
turn 40
taken 1 => ERROR\r\n
open 1 => no
gone => 1 foreign
taken 9 => nothing

An answer that is late is nobody's. Until it has come calls fail at once; then they go over the same connection.
host 127.0.0.1:5001
peer 9
awaits 7
sends END\r\n
awaits 14
until 4500
sends VALUE b 0 1\r\n1\r\nEND\r\n
awaits 21
sends VALUE d 0 1\r\n2\r\nEND\r\n
answers 127.0.0.1:5001
peer 1
sends get a\r\n
until 3000
sends get b\r\n
until 4200
sends get c\r\n
until 5000
sends get d\r\n
calls 0
proxy <one server>
turn 100
taken 1 => END\r\nSERVER_ERROR call failed\r\nSERVER_ERROR call failed\r\nVALUE d 0 1\r\n2\r\nEND\r\n
open 9 => yes
taken 9 => get a\r\nget b\r\nget d\r\n
news => server 0: connected; server 0: late: a call took too long; server 0: back
unsent 0 => 1

All calls that are out fail when one is late, and all of their answers have to come, however they are cut.
host 127.0.0.1:5001
peer 9
awaits 14
until 1500
sends VALUE a 0 1\r\n1\r\nEN
until 1600
sends D\r\nVALUE b 0
until 2000
sends  1\r\n2\r\nEND\r\n
awaits 21
sends END\r\n
answers 127.0.0.1:5001
peer 1
sends get a\r\nget b\r\n
until 1800
sends get c\r\n
until 2500
sends get d\r\n
calls 0
proxy <one server>
turn 60
taken 1 => SERVER_ERROR call failed\r\nSERVER_ERROR call failed\r\nSERVER_ERROR call failed\r\nEND\r\n
taken 9 => get a\r\nget b\r\nget d\r\n
unsent 0 => 1

A late answer may come with the next one behind it, and what is no answer to the late call isn't one to the next.
host 127.0.0.1:5001
peer 8
awaits 7
until 1500
sends END\r\n
awaits 14
until 3500
sends STORED\r\nEND\r\n
awaits end
ends
answers 127.0.0.1:5001
peer 9
awaits 7
sends END\r\n
answers 127.0.0.1:5001
peer 1
sends get a\r\n
until 2000
sends get b\r\n
until 4000
sends get c\r\n
calls 0
proxy <one server>
turn 80
taken 1 => SERVER_ERROR call failed\r\nSERVER_ERROR call failed\r\nEND\r\n
open 8 => no
taken 8 => get a\r\nget b\r\n
taken 9 => get c\r\n

A connection that ends while late answers are to come: the next call goes to a new one.
host 127.0.0.1:5001
peer 8
awaits 7
until 1500
ends
answers 127.0.0.1:5001
peer 9
awaits 7
sends END\r\n
answers 127.0.0.1:5001
peer 1
sends get a\r\n
until 2000
sends get b\r\n
calls 0
proxy <one server>
turn 60
taken 1 => SERVER_ERROR call failed\r\nEND\r\n
open 8 => no
taken 9 => get b\r\n

Bytes that came while nothing was out are no answer to the next call, which goes to a new connection.
host 127.0.0.1:5001
peer 8
awaits 7
sends END\r\n
until 50
sends VALUE b 0 1\r\n9\r\nEND\r\n
awaits end
ends
answers 127.0.0.1:5001
peer 9
awaits 7
sends END\r\n
answers 127.0.0.1:5001
peer 1
sends get a\r\n
until 50
sends get b\r\n
calls 0
proxy <one server>
turn 40
taken 1 => END\r\nEND\r\n
open 8 => no
taken 8 => get a\r\n
taken 9 => get b\r\n

A connection over which a wrong answer came is closed only when its server has ended it: until then calls fail at once, and no other is begun. What comes over it is nobody's.
host 127.0.0.1:5001
peer 8
awaits 14
sends HELLO\r\n
awaits end
until 2000
sends END\r\nEND\r\n
until 4000
ends
answers 127.0.0.1:5001
peer 9
awaits 7
sends END\r\n
answers 127.0.0.1:5001
peer 1
sends get a\r\nget b\r\n
until 1000
sends get c\r\n
until 3500
sends get d\r\n
until 5000
sends get e\r\n
calls 0
proxy <one server>
turn 40
open 8 => yes
turn 60
taken 1 => SERVER_ERROR call failed\r\nSERVER_ERROR call failed\r\nSERVER_ERROR call failed\r\nSERVER_ERROR call failed\r\nEND\r\n
open 8 => no
taken 8 => get a\r\nget b\r\n
taken 9 => get e\r\n
news => server 0: connected; server 0: failed: it sent what is no answer to the oldest call, 1 in a row; server 0: back
unsent 0 => 2

The end of a connection that doesn't come, and late answers that don't: with a bound both are given up, and calls go to a new connection.
host 127.0.0.1:5001
peer 7
awaits 7
sends HELLO\r\n
answers 127.0.0.1:5001
peer 8
awaits 7
answers 127.0.0.1:5001
peer 9
awaits 7
sends END\r\n
answers 127.0.0.1:5001
peer 1
sends get a\r\n
until 1000
sends get b\r\n
until 3000
sends get c\r\n
until 5000
sends get d\r\n
until 7000
sends get e\r\n
calls 0
giving-up-proxy <one server>
turn 15
open 7 => yes
turn 120
taken 1 => SERVER_ERROR call failed\r\nSERVER_ERROR call failed\r\nSERVER_ERROR call failed\r\nSERVER_ERROR call failed\r\nEND\r\n
open 7 => no
open 8 => no
taken 7 => get a\r\n
taken 8 => get c\r\n
taken 9 => get e\r\n

A get and a set that are out when the get is late: both have failed.
host 127.0.0.1:5001
peer 9
awaits 23
until 2500
sends END\r\nSTORED\r\n
answers 127.0.0.1:5001
peer 1
sends get b\r\nset a 0 0 1\r\n7\r\n
calls 0
proxy <one server>
turn 60
taken 1 => SERVER_ERROR call failed\r\nSERVER_ERROR call failed\r\n
taken 9 => get b\r\nset a 0 0 1\r\n7\r\n

Where stores wait, the get fails then, and the set is answered once the server goes on.
host 127.0.0.1:5001
peer 9
awaits 23
until 2500
sends END\r\nSTO
until 2600
sends RED\r\n
awaits 30
sends END\r\n
answers 127.0.0.1:5001
peer 1
sends get b\r\nset a 0 0 1\r\n7\r\n
until 4000
sends get c\r\n
calls 0
waiting-proxy <one server>
turn 20
taken 1 => SERVER_ERROR call failed\r\n
turn 60
taken 1 => SERVER_ERROR call failed\r\nSTORED\r\nEND\r\n
open 9 => yes
taken 9 => get b\r\nset a 0 0 1\r\n7\r\nget c\r\n

Where nothing is out before a set, what is behind it is awaited with it. Once it took too long further calls fail at once, until the server goes on.
host 127.0.0.1:5001
peer 9
awaits 23
until 4500
sends STORED\r\nEND\r\n
awaits 30
sends END\r\n
answers 127.0.0.1:5001
peer 1
sends set a 0 0 1\r\n7\r\nget b\r\n
calls 0
peer 2
until 3000
sends get c\r\n
until 5500
sends get d\r\n
calls 0
waiting-proxy <one server>
turn 40
taken 1 => nothing
taken 2 => SERVER_ERROR call failed\r\n
turn 60
taken 1 => STORED\r\nEND\r\n
taken 2 => SERVER_ERROR call failed\r\nEND\r\n
open 9 => yes
taken 9 => set a 0 0 1\r\n7\r\nget b\r\nget d\r\n
news => server 0: connected; server 0: late: a call took too long; server 0: back

A set that waits fails where its connection ends.
host 127.0.0.1:5001
peer 8
awaits 16
until 2500
ends
answers 127.0.0.1:5001
peer 9
awaits 7
sends END\r\n
answers 127.0.0.1:5001
peer 1
sends set a 0 0 1\r\n7\r\n
until 4000
sends get b\r\n
calls 0
waiting-proxy <one server>
turn 20
taken 1 => nothing
turn 60
taken 1 => SERVER_ERROR call failed\r\nEND\r\n
open 8 => no
taken 9 => get b\r\n

Or is given up, which it is two seconds after it took too long, where there is such a bound.
host 127.0.0.1:5001
peer 8
awaits 16
answers 127.0.0.1:5001
peer 9
awaits 7
sends END\r\n
answers 127.0.0.1:5001
peer 1
sends set a 0 0 1\r\n7\r\n
until 5000
sends get b\r\n
calls 0
waiting-and-giving-up-proxy <one server>
turn 25
taken 1 => nothing
open 8 => yes
turn 60
taken 1 => SERVER_ERROR call failed\r\nEND\r\n
open 8 => no
taken 9 => get b\r\n
news => server 0: connected; server 0: late: a call took too long; server 0: failed: late answers didn't come, 1 in a row; server 0: back

A connection that ends or fails while nothing is out costs no command.
host 127.0.0.1:5001
peer 7
awaits 7
sends END\r\n
until 50
ends
answers 127.0.0.1:5001
peer 8
awaits 7
sends END\r\n
until 100
fails
answers 127.0.0.1:5001
peer 9
awaits 7
sends END\r\n
answers 127.0.0.1:5001
peer 1
sends get a\r\n
until 50
sends get b\r\n
until 100
sends get c\r\n
calls 0
proxy <one server>
turn 40
taken 1 => END\r\nEND\r\nEND\r\n
open 7 => no
taken 8 => get b\r\n
open 8 => no
taken 9 => get c\r\n

A connection ends or fails within an answer: the call has failed, and what came of it is dropped.
host 127.0.0.1:5001
peer 7
awaits 7
sends VALUE a 0 3\r\nx
ends
answers 127.0.0.1:5001
peer 8
awaits 7
sends VALUE b 0 3\r\nx
fails
answers 127.0.0.1:5001
peer 9
awaits 7
sends END\r\n
answers 127.0.0.1:5001
peer 1
sends get a\r\n
awaits 26
sends get b\r\n
awaits 52
sends get c\r\n
calls 0
proxy <one server>
turn 40
taken 1 => SERVER_ERROR call failed\r\nSERVER_ERROR call failed\r\nEND\r\n
open 7 => no
open 8 => no
taken 9 => get c\r\n

Bytes that are no answer, and ones that tell no dialect: the calls have failed at once, and the next one goes to a new connection.
host 127.0.0.1:5001
peer 7
awaits 11
sends MN\r\nHELLO\r\nEND\r\n
awaits end
ends
answers 127.0.0.1:5001
peer 8
awaits 11
sends HELLO\r\nEND\r\n
awaits end
ends
answers 127.0.0.1:5001
peer 9
awaits 11
sends MN\r\nEND\r\n
answers 127.0.0.1:5001
peer 1
sends get a\r\n
awaits 26
sends get b\r\n
awaits 52
sends get c\r\n
calls 0
auto-proxy <one server>
-- Nothing is late in a second, which is ten turns in which nothing happens.
turn 15
taken 1 => SERVER_ERROR call failed\r\nSERVER_ERROR call failed\r\nEND\r\n
open 7 => no
open 8 => no
taken 9 => mn\r\nget c\r\n

A client sends no more, and takes its replies slowly: it gets them all, and then the connection is closed.
host 127.0.0.1:5001
peer 9
awaits 14
sends END\r\nEND\r\n
answers 127.0.0.1:5001
peer 1
window 4
sends get a\r\nget b\r\nget
ends
calls 0
proxy <one server>
turn 10
taken 1 => END\r\nEND\r\n
open 1 => no
gone => 1 ended
taken 9 => get a\r\nget b\r\n

A client leaves 2 MB of replies untaken: of its commands 32 begin at once, and then not one more for each of 20 replies.
host 127.0.0.1:5001
peer 9
awaits 7
sends END\r\n
-- 9 * 8 + 23 * 9 more
awaits 286
sends «20 VALUE k# 0 100000\r\n<data>\r\nEND\r\n»
answers 127.0.0.1:5001
peer 1
window 1000
sends get a\r\n
awaits 5
sends «64 get k#\r\n»
calls 0
proxy <one server>
turn 60
took 9 get a\r\n«52 get k#\r\n» => no

Small gets pass the large ones of another client that wait for their turn.
host 127.0.0.1:5001
peer 9
awaits 7
sends END\r\n
awaits 14
sends VALUE a 0 100000\r\n<data>\r\nEND\r\n
-- 9 * 8 + 5 * 9, of which 1.3 MB are expected, and 7
awaits 138
sends «14 VALUE k# 0 100000\r\n<data>\r\nEND\r\n»END\r\n
awaits 192
sends «6 END\r\n»
answers 127.0.0.1:5001
peer 2
sends get t\r\n
until 100
sends get s\r\n
calls 0
peer 1
sends get a\r\n
awaits 100025
sends «20 get k#\r\n»
calls 20
proxy <one server>
turn 60
taken 2 => END\r\nEND\r\n
took 9 get t\r\nget a\r\n«14 get k#\r\n»get s\r\nget k15\r\nget k16\r\nget k17\r\nget k18\r\nget k19\r\nget k20\r\n => yes

Of a client of which nothing is known four gets go out before an answer comes.
host 127.0.0.1:5001
peer 9
awaits 32
sends «4 END\r\n»
awaits 56
sends «3 END\r\n»
answers 127.0.0.1:5001
peer 1
sends «7 get k#\r\n»
calls 0
proxy <one server>
turn 20
taken 1 => END\r\nEND\r\nEND\r\nEND\r\nEND\r\nEND\r\nEND\r\n

A call that has waited a second for its place fails alone, and nobody's before it: its connection stands.
host 127.0.0.1:5001
peer 9
awaits 7
until 700
sends END\r\n
awaits 14
until 1150
sends END\r\n
awaits 21
sends END\r\n
answers 127.0.0.1:5001
peer 1
sends get a\r\n
calls 0
peer 2
sends get b\r\n
calls 0
peer 3
sends get c\r\n
awaits 26
until 1500
sends get d\r\n
calls 0
narrow-proxy <one server>
turn 60
taken 1 => END\r\n
taken 2 => END\r\n
taken 3 => SERVER_ERROR call failed\r\nEND\r\n
taken 9 => get a\r\nget b\r\nget d\r\n
open 9 => yes
news => server 0: connected

A client breaks off while its call is out: the answer is no other client's.
host 127.0.0.1:5001
peer 9
awaits 7
until 20
sends VALUE a 0 1\r\n1\r\nEND\r\n
awaits 14
sends END\r\n
answers 127.0.0.1:5001
peer 1
sends get a\r\n
until 10
fails
calls 0
peer 2
sends get b\r\n
calls 15
proxy <one server>
turn 40
taken 1 => nothing
open 1 => no
gone => 1 broken
taken 2 => END\r\n

A delete waits for a get that may copy its key, and goes out when that has ended.
host 127.0.0.1:5001
host 127.0.0.1:5002
peer 8
awaits 7
sends END\r\n
-- 7 + 16, and 10 more
awaits 23
sends STORED\r\n
awaits 33
sends DELETED\r\n
answers 127.0.0.1:5001
peer 9
awaits 7
until 50
sends VALUE k 0 1\r\n7\r\nEND\r\n
awaits 17
sends DELETED\r\n
answers 127.0.0.1:5002
peer 1
sends get k\r\n
calls 0
peer 2
sends delete k\r\n
calls 20
proxy <warm-up>
turn 40
taken 8 => get k\r\nadd k 0 0 1\r\n7\r\ndelete k\r\n
taken 9 => get k\r\ndelete k\r\n
taken 1 => VALUE k 0 1\r\n7\r\nEND\r\n
taken 2 => DELETED\r\n
-- The get from 0 to 50, and the delete from 20 on, when it came to wait, to 50.
times => 2 in 80000: 0 0 0 0 0 0 0 2 0 0 0

A client that leaves its replies untaken stands in no line: nobody waits for a key behind it.
host 127.0.0.1:5001
host 127.0.0.1:5002
peer 8
awaits 7
sends END\r\n
awaits 14
sends VALUE c 0 1\r\n1\r\nEND\r\n
-- 9 * 8 + 3 * 9 more, 7, and 16
awaits 113
sends «12 VALUE b# 0 100000\r\n<data>\r\nEND\r\n»
awaits 120
sends VALUE k 0 1\r\n8\r\nEND\r\n
awaits 136
sends NOT_STORED\r\n
answers 127.0.0.1:5001
peer 9
awaits 7
until 50
sends VALUE k 0 1\r\n7\r\nEND\r\n
answers 127.0.0.1:5002
peer 1
sends get k\r\n
calls 0
peer 2
room 1000
sends get c\r\n
awaits 21
sends «12 get b#\r\n»delete k\r\n
calls 20
peer 3
sends get k\r\n
calls 40
proxy <warm-up>
turn 80
taken 1 => VALUE k 0 1\r\n7\r\nEND\r\n
taken 9 => get k\r\n
taken 3 => VALUE k 0 1\r\n8\r\nEND\r\n

Nobody answers at one address, and no host is known of the other.
host 127.0.0.1:5001
peer 1
sends get a\r\nget b\r\n
calls 0
proxy <two servers>
turn 20
taken 1 => SERVER_ERROR call failed\r\nSERVER_ERROR call failed\r\n

A configuration that is loaded brings a server, to which deletes go too.
host 127.0.0.1:5001
host 127.0.0.1:5002
peer 8
awaits 7
sends END\r\n
awaits 17
sends NOT_FOUND\r\n
answers 127.0.0.1:5001
peer 9
awaits 10
sends NOT_FOUND\r\n
answers 127.0.0.1:5002
peer 1
sends get a\r\n
until 5000
sends delete b\r\n
calls 0
proxy <one server>
turn 20
taken 1 => END\r\n
load <A, both cleared> => 2
turn 60
taken 8 => get a\r\ndelete b\r\n
taken 9 => delete b\r\n
taken 1 => END\r\nNOT_FOUND\r\n

Of two servers one tells that it has the meta dialect, and is asked for classic gets in it from then on, and one tells that it hasn't.
host 127.0.0.1:5001
host 127.0.0.1:5002
peer 8
awaits 11
sends M
sends N\r\nEN
sends D\r\n
awaits 23
sends VA 1 ka f5\r\nx\r\n
answers 127.0.0.1:5001
peer 9
awaits 11
sends ERROR\r
sends \nEND\r\n
awaits 18
sends VALUE b 7 2\r\nyz\r\nEND\r\n
answers 127.0.0.1:5002
peer 1
sends get a\r\nget b\r\n
awaits 10
sends get a\r\nget b\r\n
calls 0
auto-proxy <two servers>
turn 40
taken 8 => mn\r\nget a\r\nmg a k f v\r\n
taken 9 => mn\r\nget b\r\nget b\r\n
taken 1 => END\r\nEND\r\nVALUE a 5 1\r\nx\r\nEND\r\nVALUE b 7 2\r\nyz\r\nEND\r\n

A write to a client fails half-way: it is closed, and who comes next gets the replies to its own commands alone.
host 127.0.0.1:5001
peer 9
awaits 7
sends VALUE a 0 3\r\nxyz\r\nEND\r\n
awaits 14
sends END\r\n
answers 127.0.0.1:5001
peer 1
breaks 5
sends get a\r\n
calls 0
peer 2
sends get b\r\n
calls 500
proxy <one server>
turn 40
taken 1 => VALUE
open 1 => no
gone => 1 broken
taken 9 => get a\r\nget b\r\n
taken 2 => END\r\n

Two clients take nothing after 300,000 bytes. One for whom much more is held is closed ten seconds later; one for whom little is stays.
host 127.0.0.1:5001
peer 9
awaits 7
sends END\r\n
-- 9 * 8 + 21 * 9 more
awaits 268
sends «30 VALUE k# 0 100000\r\n<data>\r\nEND\r\n»
awaits 275
sends END\r\n
-- 9 * 8 more
awaits 347
sends «9 VALUE k# 0 100000\r\n<data>\r\nEND\r\n»
awaits 354
sends END\r\n
answers 127.0.0.1:5001
peer 1
room 300000
sends get a\r\n
awaits 5
sends «30 get k#\r\n»
calls 0
peer 2
room 300000
sends get a\r\n
awaits 5
sends «9 get k#\r\n»
calls 3000
peer 3
sends get b\r\n
calls 9000
proxy <one server>
-- (those in which nothing comes wait for 100 ms)
turn 90
open 1 => yes
taken 3 => nothing
turn 100
taken 3 => END\r\n
open 1 => no
turn 200
open 2 => yes
open 3 => yes
news => server 0: connected; 1 stalled
gone => 1 stalled

Where more than three million bytes are held for all, the client is closed for which most are.
host 127.0.0.1:5001
peer 9
awaits 7
sends END\r\n
awaits 268
sends «30 VALUE k# 0 100000\r\n<data>\r\nEND\r\n»
awaits 275
sends END\r\n
awaits 347
sends «9 VALUE k# 0 100000\r\n<data>\r\nEND\r\n»
answers 127.0.0.1:5001
peer 1
room 300000
sends get a\r\n
awaits 5
sends «30 get k#\r\n»
calls 0
peer 2
room 300000
sends get a\r\n
awaits 5
sends «9 get k#\r\n»
calls 3000
proxy <one server>
bounds 10000 3000000
turn 45
open 1 => yes
turn 45
open 1 => no
open 2 => yes
news => server 0: connected; 1 stalled
gone => 1 most_held

So is the one that sent most of what isn't done.
host 127.0.0.1:5001
peer 9
awaits 7
sends END\r\n
answers 127.0.0.1:5001
peer 1
sends set a 0 0 1000000\r\n«2 <data>»
calls 0
peer 2
sends set b 0 0 1000000\r\n«1 <data>»
calls 100
peer 3
sends get c\r\n
calls 200
proxy <one server>
bounds 10000 250000
turn 20
open 1 => no
open 2 => yes
taken 3 => END\r\n
taken 9 => get c\r\n
news => 1 stalled; server 0: connected
gone => 1 most_held

Of those that hold too much together as many are closed in one turn as it takes.
host 127.0.0.1:5001
peer 1
sends set a 0 0 1000000\r\n«2 <data>»
calls 0
peer 2
sends set b 0 0 1000000\r\n«2 <data>»
calls 100
peer 3
sends set c 0 0 1000000\r\n«2 <data>»
calls 200
proxy <one server>
bounds 10000 1000000
turn 40
open 1 => yes
bounds 10000 250000
turn 1
news => 2 stalled
turn 1
open 1 => no
open 2 => no
open 3 => yes
gone => 2 most_held

While more than three quarters of 450,000 bytes are held, no command begins of a client that takes little. It does when another one is gone.
host 127.0.0.1:5001
peer 9
awaits 7
sends END\r\n
awaits 39
sends «4 VALUE k# 0 100000\r\n<data>\r\nEND\r\n»
awaits 46
sends END\r\n
awaits 54
sends «1 VALUE k# 0 100000\r\n<data>\r\nEND\r\n»
awaits 61
sends END\r\n
awaits 68
sends END\r\n
answers 127.0.0.1:5001
peer 1
room 10000
sends get a\r\n
awaits 5
sends «4 get k#\r\n»
until 9000
fails
calls 0
peer 2
room 60000
sends get a\r\n
awaits 5
sends get k1\r\n
until 600
sends get b\r\n
calls 300
peer 3
sends get c\r\n
calls 700
proxy <one server>
bounds 100000 450000
turn 40
taken 3 => END\r\n
took 9 get a\r\n«4 get k#\r\n»get a\r\nget k1\r\nget c\r\n => yes
turn 120
open 1 => no
open 2 => yes
took 9 get a\r\n«4 get k#\r\n»get a\r\nget k1\r\nget c\r\nget b\r\n => yes

Megabytes of commands at once come to the server as they are, and as many of answers to the client, whatever is read and taken at once.
host 127.0.0.1:5001
peer 9
piece 99991
awaits 7
sends END\r\n
-- 9 * (19 + 100,000 + 2) + 21 * (20 + 100,000 + 2) more
awaits 3000658
sends «30 STORED\r\n»
-- 9 * 8 + 21 * 9 more
awaits 3000919
sends «30 VALUE k# 0 100000\r\n<data>\r\nEND\r\n»
answers 127.0.0.1:5001
peer 1
piece 70001
window 300000
sends get a\r\n
awaits 5
sends «30 set k# 0 0 100000\r\n<data>\r\n»«30 get k#\r\n»
calls 0
proxy <one server>
turn 400
took 9 get a\r\n«30 set k# 0 0 100000\r\n<data>\r\n»«30 get k#\r\n» => yes
took 1 END\r\n«30 STORED\r\n»«30 VALUE k# 0 100000\r\n<data>\r\nEND\r\n» => yes"
}

// A server has one place.
fn narrow() -> Settings {
    Settings {
        places: 1,
        ..settings(ServerDialect::Classic)
    }
}

// Late answers, or the end of a connection, are awaited for two seconds.
fn giving_up() -> Settings {
    Settings {
        give_up_ms: Some(2_000),
        ..settings(ServerDialect::Classic)
    }
}

// Stores that are out are awaited however long they take.
fn with_stores_that_wait(settings: Settings) -> Settings {
    Settings {
        stores_wait: true,
        ..settings
    }
}

// So many news of links are told after a turn at most.
const NEWS: usize = 16;

// A wire that is being scripted, and the proxy that stands on it then.
#[derive(Drop)]
struct Scripted<'a> {
    rt: &'a HostRuntime,
    peers: Peers,
    proxy: Option<ProxyEnd<Memory>>,
    // The text of the configuration by which the proxy began.
    config: String,
    // The news of links since they were asked for.
    told: String,
}

fn make_scripted(rt: &HostRuntime) -> Scripted<'_> {
    Scripted {
        rt,
        peers: Peers::new(rt.alloc()),
        proxy: None,
        config: String::new(rt.alloc()),
        told: String::new(rt.alloc()),
    }
}

// These news, after those before.
fn push_news(
    alloc: Global,
    told: &mut String,
    server: usize,
    news: LinkNews,
) -> Result<(), AllocError> {
    if !told.is_empty() {
        told.push_str("; ")?;
    }
    told.push_str(format!(in alloc; "server {server}: {news}")?.as_str())
}

// So many clients were closed so, after what was told before.
fn push_count(alloc: Global, told: &mut String, count: u64, what: &str) -> Result<(), AllocError> {
    if !told.is_empty() {
        told.push_str("; ")?;
    }
    told.push_str(format!(in alloc; "{count} {what}")?.as_str())
}

// A configuration after another one, and the servers of both.
fn config_after(alloc: Global, first: &str, text: &str) -> Result<(Config, Servers), Fail> {
    let config = read_config_after(alloc, servers_of(alloc, first)?, text)?;
    let servers = config.servers().copy(alloc)?;
    Ok((config, servers))
}

// The proxy looks up those of these servers that hosts are known of.
fn resolve_more(rt: &HostRuntime, proxy: &mut ProxyEnd<Memory>, servers: &Servers) {
    for at in 0..servers.len() {
        if let Some(text) = text_at(servers, at) {
            let _ = proxy.sockets.resolve(rt, text);
        }
    }
}

// The number of the generation that a configuration is.
fn load(
    alloc: Global,
    proxy: &mut ProxyEnd<Memory>,
    config: Config,
    servers: &Servers,
) -> Result<String, Fail> {
    let usual = proxy.sockets.usual_limits();
    match proxy.load(config, servers, usual, &Value::Null) {
        Ok(number) => Ok(number.to_string(alloc)?),
        Err(_) => Ok("refused".to_string(alloc)?),
    }
}

impl Scripted<'_> {
    fn begin(&mut self, text: &str, settings: Settings) -> Result<(), Fail> {
        let wire = looked_up(self.rt, self.peers.take()?, text)?;
        let proxy = begin(self.rt, wire, text, Beginnings::any(), settings)?;
        self.proxy = Some(proxy);
        self.config = text.to_string(self.rt.alloc())?;
        Ok(())
    }

    fn proxy(&mut self) -> Result<&mut ProxyEnd<Memory>, Fail> {
        match &mut self.proxy {
            Some(proxy) => Ok(proxy),
            None => Err("there is no proxy")?,
        }
    }

    fn load(&mut self, text: &str) -> Result<String, Fail> {
        let rt = self.rt;
        let (config, servers) = config_after(rt.alloc(), self.config.as_str(), text)?;
        match &mut self.proxy {
            Some(proxy) => {
                resolve_more(rt, proxy, &servers);
                load(rt.alloc(), proxy, config, &servers)
            }
            None => Err("there is no proxy")?,
        }
    }

    // Events that give nothing.
    fn set(&mut self, verb: &str, text: &str) -> Result<(), Fail> {
        match verb {
            "proxy" => self.begin(text, settings(ServerDialect::Classic)),
            "auto-proxy" => self.begin(text, settings(ServerDialect::Auto)),
            "narrow-proxy" => self.begin(text, narrow()),
            "giving-up-proxy" => self.begin(text, giving_up()),
            "waiting-proxy" => {
                self.begin(
                    text,
                    with_stores_that_wait(settings(ServerDialect::Classic)),
                )
            }
            "waiting-and-giving-up-proxy" => {
                self.begin(text, with_stores_that_wait(giving_up()))
            }
            "turn" => self.turn_often(text.parse::<usize>()?),
            "bounds" => self.bound(text),
            _ => self.peers.script(verb, text),
        }
    }

    // For how many milliseconds a client may take nothing, and how much may be to be sent to all.
    fn bound(&mut self, text: &str) -> Result<(), Fail> {
        let (ms, most) = cut(text);
        let (ms, most) = (ms.parse::<u64>()?, most.parse::<usize>()?);
        self.proxy()?.bound_clients(ms, most);
        Ok(())
    }

    fn next_news(&mut self) -> Result<Option<(usize, LinkNews)>, Fail> {
        Ok(self.proxy()?.sockets.next_news())
    }

    // What there is to tell after a turn.
    fn note_news(&mut self) -> Result<(), Fail> {
        for _ in 0..NEWS {
            let Some((server, news)) = self.next_news()? else {
                return Ok(());
            };
            push_news(self.rt.alloc(), &mut self.told, server, news)?;
        }
        Ok(())
    }

    fn next_stalled(&mut self) -> Result<Option<u64>, Fail> {
        Ok(self.proxy()?.sockets.next_stalled())
    }

    // How many were closed after a turn, as they took too little.
    fn note_stalled(&mut self) -> Result<(), Fail> {
        match self.next_stalled()? {
            Some(count) => Ok(push_count(self.rt.alloc(), &mut self.told, count, "stalled")?),
            None => Ok(()),
        }
    }

    // The news since they were asked for.
    fn news(&mut self) -> String {
        let none = String::new(self.rt.alloc());
        mem::replace(&mut self.told, none)
    }

    // How many clients have gone for what.
    fn gone(&mut self) -> Result<String, Fail> {
        let alloc = self.rt.alloc();
        let gone = self.proxy()?.sockets.tally.gone;
        let mut text = String::new(alloc);
        for why in DEPARTURES {
            let count = gone.of(why);
            if count > 0 {
                push_count(alloc, &mut text, count, why.name())?;
            }
        }
        Ok(text)
    }

    // How many calls of the server of this number have failed that never went out.
    fn unsent(&mut self, text: &str) -> Result<String, Fail> {
        let count = match self.proxy()?.sockets.link(text.parse::<usize>()?) {
            Some(link) => link.tally.unsent,
            None => 0,
        };
        Ok(format!(in self.rt.alloc(); "{count}")?)
    }

    // How many calls of the server of this number were answered by an error.
    fn errors(&mut self, text: &str) -> Result<String, Fail> {
        let count = match self.proxy()?.sockets.link(text.parse::<usize>()?) {
            Some(link) => link.calls.errors(),
            None => 0,
        };
        Ok(format!(in self.rt.alloc(); "{count}")?)
    }

    fn times(&mut self) -> Result<String, Fail> {
        let times = self.proxy()?.sockets.command_times();
        let mut text = format!(in self.rt.alloc(); "{} in {}:", times.answered, times.micros)?;
        for count in times.spans() {
            write!(text, " {count}")?;
        }
        Ok(text)
    }

    fn turn(&mut self) -> Result<(), Fail> {
        let rt = self.rt;
        Ok(self.proxy()?.turn_within(rt, Duration::from_millis(100))?)
    }

    fn turn_often(&mut self, count: usize) -> Result<(), Fail> {
        for _ in 0..count {
            self.turn()?;
            self.note_news()?;
            self.note_stalled()?;
        }
        Ok(())
    }

    // Whether this was sent to the far end of this name, and nothing else.
    fn took(&mut self, text: &str) -> Result<bool, Fail> {
        let (name, text) = cut(text);
        let all = bytes_of(self.rt.alloc(), text)?;
        Ok(self.proxy()?.sockets.wire.taken(name.parse::<u32>()?) == all.as_slice())
    }
}

impl Stage for Scripted<'_> {
    fn answer(&mut self, event: &str, _want: &str) -> Result<String, Fail> {
        let alloc = self.rt.alloc();
        let (verb, text) = cut(event);
        match verb {
            "taken" => shown(
                alloc,
                self.proxy()?.sockets.wire.taken(text.parse::<u32>()?),
            ),
            "open" => {
                let is_open = self.proxy()?.sockets.wire.is_open(text.parse::<u32>()?);
                Ok(yes_or_no(is_open).to_string(alloc)?)
            }
            "load" => self.load(text),
            "took" => Ok(yes_or_no(self.took(text)?).to_string(alloc)?),
            "news" => Ok(self.news()),
            "times" => self.times(),
            "gone" => self.gone(),
            "unsent" => self.unsent(text),
            "errors" => self.errors(text),
            _ => {
                self.set(verb, text)?;
                Ok(String::new(alloc))
            }
        }
    }
}

fn play(rt: &HostRuntime, example: &str) -> Result<(), Fail> {
    let (name, lines) = first_line(example);
    let lines = with_configs(rt.alloc(), lines)?;
    play_lines(&mut make_scripted(rt), name, lines.as_str())
}

#[test]
fn proxies_in_memory(rt: HostRuntime) -> Result<(), Fail> {
    for example in texts().split("\n\n") {
        play(&rt, example)?;
    }
    Ok(())
}

// A server is asked one thing, and silent for two and a half seconds, where stores are awaited.
fn silence() -> &'static str {
    r"A server that was asked this is silent, where stores wait: <ask>
host 127.0.0.1:5001
peer 9
awaits 7
until 2500
sends <answer>
answers 127.0.0.1:5001
peer 1
sends <ask>
calls 0
waiting-proxy <one server>
turn 20
taken 1 => <first>
turn 60
taken 1 => <last>
open 9 => yes"
}

// What may put an item or change its data, as a client asks it, and an answer to it.
fn stores() -> [(&'static str, &'static str); 14] {
    [
        (r"set a 0 0 1\r\n7\r\n", r"STORED\r\n"),
        (r"add a 0 0 1\r\n7\r\n", r"NOT_STORED\r\n"),
        (r"replace a 0 0 1\r\n7\r\n", r"STORED\r\n"),
        (r"append a 0 0 1\r\n7\r\n", r"STORED\r\n"),
        (r"prepend a 0 0 1\r\n7\r\n", r"NOT_STORED\r\n"),
        (r"cas a 0 0 1 5\r\n7\r\n", r"EXISTS\r\n"),
        (r"incr a 1\r\n", r"8\r\n"),
        (r"decr a 1\r\n", r"NOT_FOUND\r\n"),
        (r"ms a 1\r\n7\r\n", r"HD\r\n"),
        (r"ms a 1 MA\r\n7\r\n", r"HD\r\n"),
        (r"ms a 1 MP\r\n7\r\n", r"NS\r\n"),
        (r"ms a 1 C5\r\n7\r\n", r"EX\r\n"),
        (r"ma a\r\n", r"HD\r\n"),
        (r"ma a MD\r\n", r"NF\r\n"),
    ]
}

// What brings no data to an item.
fn no_stores() -> [(&'static str, &'static str); 8] {
    [
        (r"get a\r\n", r"END\r\n"),
        (r"gat 60 a\r\n", r"END\r\n"),
        (r"touch a 60\r\n", r"TOUCHED\r\n"),
        (r"delete a\r\n", r"DELETED\r\n"),
        (r"mg a\r\n", r"HD\r\n"),
        (r"mg a T60\r\n", r"EN\r\n"),
        (r"md a\r\n", r"HD\r\n"),
        (r"md a C5\r\n", r"EX\r\n"),
    ]
}

// Each ask's client has taken this once the ask was late, and that once the server has answered it.
fn play_silence(
    rt: &HostRuntime,
    (ask, answer): (&str, &str),
    first: &str,
    last: &str,
) -> Result<(), Fail> {
    let alloc = rt.alloc();
    let example = silence().replace(alloc, "<ask>", ask)?;
    let example = example.replace(alloc, "<answer>", answer)?;
    let example = example.replace(alloc, "<first>", first)?;
    let example = example.replace(alloc, "<last>", last)?;
    play(rt, example.as_str())
}

#[test]
fn stores_that_wait(rt: HostRuntime) -> Result<(), Fail> {
    for (ask, answer) in stores() {
        play_silence(&rt, (ask, answer), "nothing", answer)?;
    }
    let failed = r"SERVER_ERROR call failed\r\n";
    for (ask, answer) in no_stores() {
        play_silence(&rt, (ask, answer), failed, failed)?;
    }
    Ok(())
}
