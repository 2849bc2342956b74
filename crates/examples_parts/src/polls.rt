//! What `poll` answers, one call after another.

use crate::stage::play;
use std::test::Fail;

// Messages that ask no server, and replies in their order.
fn replies() -> &'static str {
    r"A get of two keys is two commands, and is answered once.
null: depth 1, alone
open => 0
feed 0 get a b\r\n => ok
poll 0 => did 1
poll 0 => did 2
poll 0 => idle
output 0 => END\r\n

Between the keys of a get more comes, and then the next get is read.
null: depth 1, alone
open => 0
feed 0 get a b c\r\nge => ok
poll 0 => did 1
feed 0 t d e\r\n => ok
poll 0 => did 2
poll 0 => did 3
output 0 => END\r\n
poll 0 => did 4
poll 0 => did 5
poll 0 => idle
output 0 => END\r\n

Messages that ask no server are answered at once.
server: depth 1, alone
open => 0
feed 0 version\r\nfly\r\nge => ok
poll 0 => own
poll 0 => refused
poll 0 => idle
output 0 => VERSION mcgate-1\r\nERROR\r\n

The second reply comes first, and is shown second.
server: depth 2, alone
open => 0
feed 0 delete a\r\nset b 0 0 1\r\nx\r\n => ok
poll 0 => call 1
poll 0 => call 2
fail 2 => ok
poll 0 => did 2
output 0 => nothing
poll 0 => waiting
fail 1 => ok
poll 0 => did 1
output 0 => SERVER_ERROR call failed\r\nSERVER_ERROR call failed\r\n
poll 0 => idle"
}

// Sixteen commands of one client are out at three servers.
fn sixteen() -> &'static str {
    r"Their answers come in any order, and each reply is shown in its turn.
three servers: depth 16, shared
open => 0
feed 0 get a\r\nset b 0 0 1\r\ny\r\ndelete c\r\nget d\r\nincr e 1\r\nadd f 0 0 1\r\ny\r\ntouch g 0\r\nget h\r\nset i 0 0 1\r\ny\r\ndelete j\r\nget k\r\nget l\r\nreplace m 0 0 1\r\ny\r\ndecr n 1\r\nappend o 0 0 1\r\ny\r\nget p\r\n => ok
poll 0 => call 1
poll 0 => call 2
poll 0 => call 3
poll 0 => call 4
poll 0 => call 5
poll 0 => call 6
poll 0 => call 7
poll 0 => call 8
poll 0 => call 9
poll 0 => call 10
poll 0 => call 11
poll 0 => call 12
poll 0 => call 13
poll 0 => call 14
poll 0 => call 15
poll 0 => call 16
poll 0 => waiting
answer 16 => ok
poll 0 => did 16
output 0 => nothing
answer 2 => ok
poll 0 => did 2
output 0 => nothing
answer 7 => ok
poll 0 => did 7
output 0 => nothing
answer 11 => ok
poll 0 => did 11
output 0 => nothing
answer 1 => ok
poll 0 => did 1
output 0 => VALUE a 0 1\r\nx\r\nEND\r\nSTORED\r\n
answer 4 => ok
poll 0 => did 4
output 0 => nothing
answer 3 => ok
poll 0 => did 3
output 0 => NOT_FOUND\r\nEND\r\n
answer 15 => ok
poll 0 => did 15
output 0 => nothing
answer 5 => ok
poll 0 => did 5
output 0 => NOT_FOUND\r\n
answer 9 => ok
poll 0 => did 9
output 0 => nothing
answer 6 => ok
poll 0 => did 6
output 0 => STORED\r\nNOT_FOUND\r\n
answer 8 => ok
poll 0 => did 8
output 0 => END\r\nSTORED\r\n
answer 14 => ok
poll 0 => did 14
output 0 => nothing
answer 10 => ok
poll 0 => did 10
output 0 => NOT_FOUND\r\nEND\r\n
answer 12 => ok
poll 0 => did 12
output 0 => END\r\n
answer 13 => ok
poll 0 => did 13
output 0 => STORED\r\nNOT_FOUND\r\nSTORED\r\nEND\r\n
poll 0 => idle"
}

// Commands on one key.
fn keys() -> &'static str {
    r"Two clients ask one key: the second begins after the first's command has ended.
server: depth 1, alone
open => 0
open => 1
feed 0 get a\r\n => ok
feed 1 get a\r\n => ok
poll 0 => call 1
poll 0 => waiting
poll 1 => queued
fail 1 => ok
poll 1 => busy
poll 0 => did 1
poll 1 => call 2
poll 0 => idle

Two clients ask one key that is shared: both calls are out at once.
server: depth 2, shared
open => 0
open => 1
feed 0 get a\r\n => ok
feed 1 get a\r\n => ok
poll 0 => call 1
poll 1 => call 2

A client's own commands on one key come one after another.
server: depth 2, shared
open => 0
feed 0 set a 0 0 1\r\nx\r\nget a\r\n => ok
poll 0 => call 1
poll 0 => busy
fail 1 => ok
poll 0 => did 1
poll 0 => call 2

A get that may copy is out: another get and a set go out beside it, and a delete waits for it.
warm-up: depth 2, shared
open => 0
open => 1
open => 2
feed 0 get a\r\n => ok
feed 1 set a 0 0 1\r\nx\r\n => ok
feed 2 delete a\r\n => ok
poll 0 => call 1
poll 1 => call 2
poll 2 => queued
fail 1 => ok
poll 2 => busy
poll 0 => call 1

A delete is out: another delete goes out beside it, and a get that may copy waits for both.
warm-up: depth 2, shared
open => 0
open => 1
open => 2
feed 0 delete a\r\n => ok
feed 1 delete a\r\n => ok
feed 2 get a\r\n => ok
poll 0 => call 1
poll 1 => call 2
poll 2 => queued
fail 1 => ok
poll 0 => did 1
poll 2 => busy
fail 2 => ok
poll 1 => did 2
poll 2 => call 3"
}

// Lines of keys: who waits for one, and who is next.
fn lines() -> &'static str {
    r"A freed key is its who came first, also where others are polled before; who comes later stands behind.
server: of scripts
open => 0
open => 1
open => 2
feed 1 set a 0 0 1\r\nx\r\n => ok
poll 1 => call 1
feed 2 get a\r\n => ok
poll 2 => queued
feed 0 get a\r\n => ok
poll 0 => queued
fail 1 => ok
poll 0 => busy
poll 1 => did 1
poll 0 => busy
feed 1 get a\r\n => ok
poll 1 => queued
poll 2 => call 2
poll 0 => busy
fail 2 => ok
poll 2 => did 2
poll 1 => busy
poll 0 => call 3
fail 3 => ok
poll 0 => did 3
poll 1 => call 4

Other keys don't wait in the line of this one.
server: depth 1, alone
open => 0
open => 1
open => 2
open => 3
feed 0 get a\r\n => ok
poll 0 => call 1
feed 1 get a\r\n => ok
poll 1 => queued
feed 2 get b\r\n => ok
poll 2 => call 2
fail 1 => ok
poll 0 => did 1
feed 3 get b\r\n => ok
poll 3 => queued
fail 2 => ok
poll 2 => did 2
poll 3 => call 3
poll 1 => call 4

A client that is closed while it stands in a line lets the next one go.
server: of scripts
open => 0
open => 1
open => 2
feed 1 set a 0 0 1\r\nx\r\n => ok
poll 1 => call 1
feed 2 get a\r\n => ok
poll 2 => queued
feed 0 get a\r\n => ok
poll 0 => queued
fail 1 => ok
poll 1 => did 1
poll 0 => busy
close 2 => ok
poll 0 => call 2

A client that leaves its line comes to the end of it as it is polled again.
server: of scripts
open => 0
open => 1
open => 2
feed 0 get a\r\n => ok
poll 0 => call 1
feed 1 get a\r\n => ok
poll 1 => queued
feed 2 get a\r\n => ok
poll 2 => queued
leave 1 => yes
leave 1 => no
fail 1 => ok
poll 0 => did 1
poll 1 => queued
poll 2 => call 2
fail 2 => ok
poll 2 => did 2
poll 1 => call 3

A new client has no place of one that was closed.
server: of scripts
open => 0
open => 1
open => 2
feed 0 get a\r\n => ok
poll 0 => call 1
feed 1 get a\r\n => ok
poll 1 => queued
feed 2 get a\r\n => ok
poll 2 => queued
close 1 => ok
open => 1
feed 1 get a\r\n => ok
poll 1 => queued
fail 1 => ok
poll 0 => did 1
poll 1 => busy
poll 2 => call 2

A delete stands behind two gets that may copy: a third one that comes later waits behind it, and a set passes.
warm-up: depth 2, shared
open => 0
open => 1
open => 2
open => 3
open => 4
feed 0 get a\r\n => ok
feed 1 get a\r\n => ok
poll 0 => call 1
poll 1 => call 2
feed 2 delete a\r\n => ok
poll 2 => queued
feed 3 get a\r\n => ok
poll 3 => queued
feed 4 set a 0 0 1\r\nx\r\n => ok
poll 4 => call 3
fail 1 => ok
poll 0 => call 1
fail 1 => ok
poll 0 => did 1
poll 3 => busy
poll 2 => busy
fail 2 => ok
poll 1 => call 2
fail 2 => ok
poll 1 => did 2
poll 3 => busy
poll 2 => call 4
poll 3 => busy
fail 4 => ok
poll 2 => did 4
poll 3 => call 5

A delete stands behind a get that may copy, and gets that can't copy pass both.
warm-up: depth 2, shared
open => 0
open => 1
open => 2
open => 3
feed 0 get a\r\n => ok
poll 0 => call 1
feed 1 delete a\r\n => ok
poll 1 => queued
feed 2 get a\r\n => ok
poll 2 => queued
reload server => 2
feed 3 get a\r\n => ok
poll 3 => call 2
poll 2 => call 3
poll 1 => busy"
}

#[test]
fn replies_in_their_order(rt: HostRuntime) -> Result<(), Fail> {
    play(rt.alloc(), replies())
}

#[test]
fn results_in_any_order(rt: HostRuntime) -> Result<(), Fail> {
    play(rt.alloc(), sixteen())
}

#[test]
fn commands_on_one_key(rt: HostRuntime) -> Result<(), Fail> {
    play(rt.alloc(), keys())
}

#[test]
fn lines_of_keys(rt: HostRuntime) -> Result<(), Fail> {
    play(rt.alloc(), lines())
}
