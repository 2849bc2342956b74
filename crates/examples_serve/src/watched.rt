//! The loop of `mcgate serve` over real sockets, which is asked for numbers over HTTP and told words: cache servers, a client, and who asks.

use crate::ends::{LoopFiles, play_loops};
use crate::served::remove;
use std::test::Fail;

const NUMBERS: LoopFiles = LoopFiles {
    served: "numbers.json",
    control: "numbers.control",
    told: "numbers.told",
};

const REQUESTS: LoopFiles = LoopFiles {
    served: "requests.json",
    control: "requests.control",
    told: "requests.told",
};

const WORDS: LoopFiles = LoopFiles {
    served: "words.json",
    control: "words.control",
    told: "words.told",
};

// `metrics` sends a request, in pieces between which a stroke stands, and gives the first line of the answer; `line` gives what follows these
// words on a line of the last answer, and `json` a count of one in JSON. `fallen` is the first counter that is lower there than in the answer before.
fn numbers() -> &'static str {
    r#"What a client does is counted: commands by their keys, and calls by the servers that commands ask.
cache
cache
file {"pools":{"A":{"servers":["127.0.0.1:5001"],"call_ms":60000},"B":{"servers":["127.0.0.1:5002"],"call_ms":60000}},"route":{"type":"OperationSelectorRoute","default_policy":"PoolRoute|A","operation_policies":{"delete":{"type":"AllSyncRoute","children":["PoolRoute|A","PoolRoute|B"]}}}}
watched-loop
metrics GET /metrics HTTP/1.1\r\nHost: a\r\n\r\n => HTTP/1.1 200 OK
line mcgate_commands_begun_total => 0
line mcgate_calls_made_total => 0
line mcgate_clients => 0
line mcgate_generation => 1
line mcgate_scrapes_total => 0
line mcgate_server_up{server="127.0.0.1:5001"} => 0
line mcgate_server_call_limit_seconds{server="127.0.0.1:5001"} => 60.000
line mcgate_server_fail_limit{server="127.0.0.1:5001"} => 3
connect => 0
to-cache 1 => 1
ask 1 set a 0 0 1\r\n4\r\n => STORED\r\n
ask 0 set a 5 0 3\r\nxyz\r\nset b 0 0 1\r\n2\r\n => STORED\r\nSTORED\r\n
ask 0 get a b c\r\n => VALUE a 5 3\r\nxyz\r\nVALUE b 0 1\r\n2\r\nEND\r\n
ask 0 incr a 1\r\n => CLIENT_ERROR cannot increment or decrement non-numeric value\r\n
ask 0 delete a\r\nnonsense\r\n => DELETED\r\nERROR\r\n
metrics GET /metrics HTTP/1.1\r\nHost: a\r\n\r\n => HTTP/1.1 200 OK
fallen => none
-- Two stores, a get of three keys, an incr and a delete; and a message that is no command.
line mcgate_commands_begun_total => 7
line mcgate_commands_total{op="set",reply="other"} => 2
line mcgate_commands_total{op="get",reply="item"} => 2
line mcgate_commands_total{op="get",reply="other"} => 1
line mcgate_commands_total{op="incr",reply="error"} => 1
line mcgate_commands_total{op="delete",reply="acknowledged"} => 1
line mcgate_commands_total{op="delete",reply="error"} => 0
line mcgate_command_seconds_bucket{le="+Inf"} => 7
line mcgate_command_seconds_count => 7
line mcgate_bad_messages_total => 1
-- The delete asks both servers, all else the first one.
line mcgate_calls_made_total => 8
line mcgate_calls_total{outcome="answered"} => 8
line mcgate_calls_total{outcome="failed"} => 0
line mcgate_calls_unplaced_total => 0
line mcgate_server_calls_made_total{server="127.0.0.1:5001"} => 7
line mcgate_server_calls_made_total{server="127.0.0.1:5002"} => 1
line mcgate_server_calls_total{server="127.0.0.1:5001",outcome="answered"} => 7
line mcgate_server_calls_total{server="127.0.0.1:5002",outcome="answered"} => 1
line mcgate_server_calls_total{server="127.0.0.1:5002",outcome="unsent"} => 0
line mcgate_server_call_seconds_count{server="127.0.0.1:5001"} => 7
line mcgate_server_error_answers_total{server="127.0.0.1:5001"} => 1
line mcgate_server_error_answers_total{server="127.0.0.1:5002"} => 0
line mcgate_server_calls_out{server="127.0.0.1:5001"} => 0
line mcgate_server_connections_total{server="127.0.0.1:5001"} => 1
line mcgate_server_up{server="127.0.0.1:5001"} => 1
line mcgate_server_up{server="127.0.0.1:5002"} => 1
line mcgate_clients => 1
line mcgate_client_connections_total{verdict="accepted"} => 1
line mcgate_client_connections_total{verdict="refused"} => 0
-- 13 + 5, 13 + 3, 11, 10, 10 and 10
line mcgate_client_bytes_total{direction="in"} => 75
-- 16, 13 + 5 + 13 + 3 + 5, 62, 9 and 7
line mcgate_client_bytes_total{direction="out"} => 133
line mcgate_scrapes_total => 1
metrics GET /stats.json HTTP/1.1\r\nHost: a\r\n\r\n => HTTP/1.1 200 OK
json mcgate_commands_begun_total => 7
json mcgate_calls_made_total => 8
json mcgate_bad_messages_total => 1
json mcgate_clients => 1
json mcgate_scrapes_total => 2

A command that is under way has begun and has made its call. Both have ended once the server has answered.
cache
file {"pools":{"A":{"servers":["127.0.0.1:5001"],"call_ms":60000}},"route":"PoolRoute|A"}
watched-loop
connect => 0
ask 0 get a\r\n => END\r\n
stall 0
send 0 get a\r\n
turn 4
metrics GET /metrics HTTP/1.0\r\n\r\n => HTTP/1.1 200 OK
line mcgate_commands_begun_total => 2
line mcgate_commands_total{op="get",reply="other"} => 1
line mcgate_calls_made_total => 2
line mcgate_calls_total{outcome="answered"} => 1
line mcgate_server_calls_out{server="127.0.0.1:5001"} => 1
go-on
gets 0 => END\r\n
metrics GET /metrics HTTP/1.0\r\n\r\n => HTTP/1.1 200 OK
fallen => none
line mcgate_commands_begun_total => 2
line mcgate_commands_total{op="get",reply="other"} => 2
line mcgate_calls_made_total => 2
line mcgate_calls_total{outcome="answered"} => 2
line mcgate_server_calls_out{server="127.0.0.1:5001"} => 0

From one page to the next no counter falls, whatever happens between them: nothing, a reload, a refusal, a failure, or that a client goes.
cache
cache
file {"pools":{"A":{"servers":["127.0.0.1:5001"],"call_ms":60000}},"route":"PoolRoute|A"}
watched-loop
connect => 0
ask 0 set a 0 0 1\r\n1\r\nget a\r\n => STORED\r\nVALUE a 0 1\r\n1\r\nEND\r\n
metrics GET /metrics HTTP/1.0\r\n\r\n => HTTP/1.1 200 OK
line mcgate_commands_begun_total => 2
metrics GET /metrics HTTP/1.0\r\n\r\n => HTTP/1.1 200 OK
fallen => none
line mcgate_commands_begun_total => 2
line mcgate_scrapes_total => 1
file {"pools":{"B":{"servers":["127.0.0.1:5002"],"call_ms":60000},"A":{"servers":["127.0.0.1:5001"],"call_ms":60000}},"route":{"type":"PrefixSelectorRoute","policies":{"b":"PoolRoute|B"},"wildcard":"PoolRoute|A"}}
turn 2
ask 0 get b\r\n => END\r\n
metrics GET /metrics HTTP/1.0\r\n\r\n => HTTP/1.1 200 OK
fallen => none
line mcgate_generation => 2
line mcgate_reloads_total{verdict="accepted"} => 1
line mcgate_server_calls_made_total{server="127.0.0.1:5001"} => 2
line mcgate_server_calls_made_total{server="127.0.0.1:5002"} => 1
file {"pools":
turn 2
metrics GET /metrics HTTP/1.0\r\n\r\n => HTTP/1.1 200 OK
fallen => none
line mcgate_generation => 2
line mcgate_reloads_total{verdict="accepted"} => 1
line mcgate_reloads_total{verdict="refused"} => 1
kill 0
ask 0 get a\r\n => SERVER_ERROR call failed\r\n
metrics GET /metrics HTTP/1.0\r\n\r\n => HTTP/1.1 200 OK
fallen => none
line mcgate_commands_begun_total => 4
line mcgate_commands_total{op="get",reply="error"} => 1
line mcgate_calls_made_total => 4
line mcgate_calls_total{outcome="answered"} => 3
line mcgate_calls_total{outcome="failed"} => 1
line mcgate_server_up{server="127.0.0.1:5001"} => 0
line mcgate_server_up{server="127.0.0.1:5002"} => 1
leave 0
turn 2
metrics GET /metrics HTTP/1.0\r\n\r\n => HTTP/1.1 200 OK
fallen => none
line mcgate_clients => 0
line mcgate_client_connections_total{verdict="accepted"} => 1
line mcgate_clients_closed_total{cause="ended"} => 1"#
}

// The statuses are those of RFC 9110, and 431 is of RFC 6585.
fn requests() -> &'static str {
    r"Each request gets its status, in however many pieces it comes.
cache
file <one server>
watched-loop
metrics GET /metrics HTTP/1.1\r\nHost: a\r\n\r\n => HTTP/1.1 200 OK
metrics GET /metrics HTTP/1.0\r\n\r\n => HTTP/1.1 200 OK
metrics GET /stats.json HTTP/1.1\r\nHost: a\r\n\r\n => HTTP/1.1 200 OK
metrics GET /config.json HTTP/1.1\r\nHost: a\r\n\r\n => HTTP/1.1 200 OK
metrics GET / HTTP/1.1\r\nHost: a\r\n\r\n => HTTP/1.1 200 OK
metrics GET /metr|ics HTTP/1.1\r\nHost: a\r\n\r\n => HTTP/1.1 200 OK
metrics GET /stats.json HTTP/1.1\r|\nHost: a|\r\n\r|\n => HTTP/1.1 200 OK
metrics GET /none HTTP/1.1\r\nHost: a\r\n\r\n => HTTP/1.1 404 Not Found
metrics GET /no|ne HTTP/1.1\r\nHost: a\r\n\r\n => HTTP/1.1 404 Not Found
metrics POST /metrics HTTP/1.1\r\nHost: a\r\nContent-Length: 0\r\n\r\n => HTTP/1.1 405 Method Not Allowed
-- Such an answer names the methods that there are.
line Allow: => GET
metrics nonsense\r\n\r\n => HTTP/1.1 400 Bad Request
metrics GET /metrics HTTP/1.1\r\nno field\r\n\r\n => HTTP/1.1 400 Bad Request
-- 23 + 3 + 8162 + 4 bytes are 8 KiB.
metrics GET /metrics HTTP/1.0\r\na: «8162 v»\r\n\r\n => HTTP/1.1 200 OK
metrics GET /metrics HTTP/1.0\r\na: «8163 v»\r\n\r\n => HTTP/1.1 431 Request Header Fields Too Large
metrics GET /metrics HTTP/1.0\r\na: «4000 v»|«9000 v»\r\n\r\n => HTTP/1.1 431 Request Header Fields Too Large
metrics GET /metrics HTTP/1.0\r\n«64 h#: v\r\n»\r\n => HTTP/1.1 200 OK
metrics GET /metrics HTTP/1.0\r\n«65 h#: v\r\n»\r\n => HTTP/1.1 431 Request Header Fields Too Large
-- What was refused is no command, and others are still answered.
metrics GET /metrics HTTP/1.1\r\nHost: a\r\n\r\n => HTTP/1.1 200 OK
line mcgate_commands_begun_total => 0
line mcgate_clients => 0"
}

// `tell` gives the status that is answered, as `mcgate tell` ends with it, and `drain` also the one with which the loop ends.
fn words() -> &'static str {
    r#"It is told words: it says how servers are, where a key lives and what it counts, and in the end it drains.
cache
cache
file {"pools":{"A":{"servers":["127.0.0.1:5001"],"call_ms":60000},"B":{"servers":["127.0.0.1:5002"]}},"route":{"type":"OperationSelectorRoute","default_policy":"PoolRoute|A","operation_policies":{"delete":{"type":"AllSyncRoute","children":["PoolRoute|A","PoolRoute|B"]}}}}
watched-loop
tell servers => 0
line server 127.0.0.1:5001 => unused calls_out=0 connections=0 failures=0 call_ms=60000 connect_ms=1000 fail_limit=3 retry_ms=1000
line server 127.0.0.1:5002 => unused calls_out=0 connections=0 failures=0 call_ms=1000 connect_ms=1000 fail_limit=3 retry_ms=1000
connect => 0
ask 0 set a 0 0 1\r\n1\r\n => STORED\r\n
tell servers => 0
line server 127.0.0.1:5001 => up calls_out=0 connections=1 failures=0 call_ms=60000 connect_ms=1000 fail_limit=3 retry_ms=1000
line server 127.0.0.1:5002 => unused calls_out=0 connections=0 failures=0 call_ms=1000 connect_ms=1000 fail_limit=3 retry_ms=1000
tell where a => 0
-- e40c292c is FNV-1a of a.
line key=a => hash_part=a hash=3826002220 prefix= residue=0/1
line get => 127.0.0.1:5001 (pool A, place 1 of 1)
line set => 127.0.0.1:5001 (pool A, place 1 of 1)
line delete => 127.0.0.1:5001 (pool A, place 1 of 1) 127.0.0.1:5002 (pool B, place 1 of 1)
line limits => 127.0.0.1:5001 (pool A, place 1 of 1) call_ms=60000
tell status => 0
json mcgate_commands_begun_total => 1
json mcgate_calls_made_total => 1
json mcgate_clients => 1
tell log error => 0
tell log loud => 2
tell where => 2
tell where «251 k» => 2
tell Drain => 2
tell nonsense => 2
tell reload => 0
line reload => unchanged generation=1
file {"pools":
tell reload => 1
line config: => not JSON
file {"pools":{"A":{"servers":["127.0.0.1:5001"],"call_ms":60000},"B":{"servers":["127.0.0.1:5002"]}},"route":{"type":"OperationSelectorRoute","default_policy":"PoolRoute|A","operation_policies":{"delete":{"type":"AllSyncRoute","children":["PoolRoute|A","PoolRoute|B"]}}}}
tell reload => 0
line reload => unchanged generation=1
ask 0 get a\r\n => VALUE a 0 1\r\n1\r\nEND\r\n
tell status => 0
json mcgate_commands_begun_total => 2
drain => ended with 0, answered 0
closed 0 => yes
refused => yes

It drains though nobody is there, and tells those who ask until then.
cache
file <one server>
watched-loop
metrics GET /metrics HTTP/1.0\r\n\r\n => HTTP/1.1 200 OK
tell servers => 0
drain => ended with 0, answered 0
refused => yes"#
}

fn remove_all(rt: &HostRuntime, files: LoopFiles) -> Result<(), Fail> {
    remove(rt, files.served)?;
    remove(rt, files.told)
}

#[test]
fn numbers_over_sockets(rt: HostRuntime) -> Result<(), Fail> {
    play_loops(&rt, NUMBERS, numbers())?;
    remove_all(&rt, NUMBERS)
}

#[test]
fn requests_over_sockets(rt: HostRuntime) -> Result<(), Fail> {
    play_loops(&rt, REQUESTS, requests())?;
    remove_all(&rt, REQUESTS)
}

#[test]
fn words_over_sockets(rt: HostRuntime) -> Result<(), Fail> {
    play_loops(&rt, WORDS, words())?;
    remove_all(&rt, WORDS)
}
