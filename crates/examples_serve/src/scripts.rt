//! Scripts that are run with proxy, clients and servers as ends of TCP connections.

use examples_tables::configs::with_configs;
use examples_tables::playing::first_line;
use mcgate_loopback::run_loopback;
use std::test::Fail;

// The name of an example, its script, and after an arrow the status and what is printed.
fn texts() -> &'static str {
    r"The first path.
pool 1
> 0 set a 5 0 3\r\nxyz\r\n
> 0 get a\r\n
> 0 delete a\r\n
> 0 get a\r\n
=> 0
< 0 STORED\r\n
< 0 VALUE a 5 3\r\nxyz\r\nEND\r\n
< 0 DELETED\r\n
< 0 END\r\n
done 4 commands 4 calls
----
Hash tags and a restart.
pool 2
> 0 set a 0 0 1\r\n1\r\nset b 0 0 1\r\n2\r\nset x{a}y 0 0 1\r\n3\r\n
restart 0
> 0 get a b x{a}y\r\n
=> 0
< 0 STORED\r\nSTORED\r\nSTORED\r\n
< 0 VALUE b 0 1\r\n2\r\nEND\r\n
done 6 commands 6 calls
----
A delete that is to reach both servers isn't acknowledged where the second call fails.
<failover>
hold 1 a 7
fail 2 before
> 0 delete a\r\n
fail 1 before
> 0 get a\r\n
=> 0
< 0 SERVER_ERROR call failed\r\n
< 0 VALUE a 0 1\r\n7\r\nEND\r\n
done 2 commands 4 calls
----
A get fills the cold server, and fails to once.
<warm-up>
hold 1 a 7
fail 3 before
> 0 mg a v\r\n
> 0 mg a v\r\n
=> 0
< 0 EN\r\n
< 0 VA 1\r\n7\r\n
done 2 commands 8 calls
----
A call failed, but was applied.
pool 1
fail 1 after
> 0 set a 0 0 1\r\n1\r\n
> 0 get a\r\n
=> 0
< 0 SERVER_ERROR call failed\r\n
< 0 VALUE a 0 1\r\n1\r\nEND\r\n
done 2 commands 2 calls
----
A call failed, and was not applied.
pool 1
fail 1 before
> 0 get a b\r\n
=> 0
< 0 SERVER_ERROR call failed\r\n
done 1 commands 1 calls
----
The link of a call that failed isn't kept: the answer that came late would show what the server no longer holds.
pool 1
hold 0 a 7
fail 1 after
> 0 get a\r\n
lose 0 a
> 0 get a\r\n
=> 0
< 0 SERVER_ERROR call failed\r\n
< 0 END\r\n
done 2 commands 2 calls
----
Items expire by the moment.
pool 1
> 0 set a 0 10 1\r\n1\r\n
moment 9
> 0 get a\r\n
moment 10
> 0 get a\r\n
=> 0
< 0 STORED\r\n
< 0 VALUE a 0 1\r\n1\r\nEND\r\n
< 0 END\r\n
done 3 commands 3 calls
----
What is lost just before a call; a client that is shown nothing, and one that ends; a message in two pieces.
pool 1
hold 0 a 7
at 2 lose 0 a
> 0 get a\r\nget a\r\n
> 1 set a 0 0 1 noreply\r\n1\r\nget a\r\nquit\r\nget a\r\n
> 1 get a\r\n
> 0 set b 0 0 2\r\nx
> 0 y\r\n
=> 0
< 0 VALUE a 0 1\r\n7\r\nEND\r\nEND\r\n
< 1 VALUE a 0 1\r\n1\r\nEND\r\n
< 0 STORED\r\n
done 5 commands 5 calls
----
Results in any order: the third client waits for the key of the first.
pool 2
+ 0 set a 0 0 1\r\n1\r\n
+ 1 set b 0 0 1\r\n2\r\n
+ 2 get a\r\n
result 1
result 0
result 0
=> 0
< 1 STORED\r\n
< 0 STORED\r\n
< 2 VALUE a 0 1\r\n1\r\nEND\r\n
done 3 commands 3 calls
----
Each part of a get comes as its key's command ends; where none is out nothing happens.
pool 2
> 0 set a 0 0 1\r\n1\r\nset b 0 0 1\r\n2\r\n
+ 0 get a b\r\n
result 1
result 0
result 1
=> 0
< 0 STORED\r\nSTORED\r\n
< 0 VALUE a 0 1\r\n1\r\n
< 0 VALUE b 0 1\r\n2\r\nEND\r\n
done 4 commands 4 calls
----
Calls count as they have results: the one that went out second has the first.
pool 2
+ 0 set a 0 0 1\r\n1\r\n
+ 1 set b 0 0 1\r\n2\r\n
fail 1 before
result 1
result 0
=> 0
< 1 SERVER_ERROR call failed\r\n
< 0 STORED\r\n
done 2 commands 2 calls
----
Results come with a piece, that of the least server first, and at the end; a client that ended takes no piece.
pool 2
+ 1 set b 0 0 1\r\n2\r\n
fail 2 after
> 0 set a 0 0 1\r\n1\r\n
+ 0 quit\r\n
+ 0 get a\r\n
+ 1 get a\r\n
=> 0
< 0 STORED\r\n
< 1 SERVER_ERROR call failed\r\n
< 1 VALUE a 0 1\r\n1\r\nEND\r\n
done 3 commands 3 calls
----
Clients that wait for one server: that of the least number goes first, and each is polled once before the next one's turn.
pool 1
+ 2 set a 0 0 1\r\n1\r\nget a\r\n
+ 1 get b\r\n
+ 0 get c\r\n
result 0
result 0
result 0
result 0
=> 0
< 2 STORED\r\n
< 0 END\r\n
< 1 END\r\n
< 2 VALUE a 0 1\r\n1\r\nEND\r\n
done 4 commands 4 calls
----
Seven of eight bytes of an answer come.
pool 1
fail 1 cut 7
> 0 set a 0 0 1\r\n1\r\n
> 0 get a\r\n
=> 0
< 0 SERVER_ERROR call failed\r\n
< 0 VALUE a 0 1\r\n1\r\nEND\r\n
done 2 commands 2 calls
----
All eight come.
pool 1
fail 1 cut 8
> 0 set a 0 0 1\r\n1\r\n
> 0 get a\r\n
=> 0
< 0 STORED\r\n
< 0 VALUE a 0 1\r\n1\r\nEND\r\n
done 2 commands 2 calls
----
Bytes come that are no answer.
pool 1
fail 1 junk
> 0 set a 0 0 1\r\n1\r\n
> 0 get a\r\n
=> 0
< 0 SERVER_ERROR call failed\r\n
< 0 VALUE a 0 1\r\n1\r\nEND\r\n
done 2 commands 2 calls
----
The second reload is refused, and a moved key is hidden: a delete by the first tree left what B holds.
<A>
hold 1 a 7
> 0 delete a\r\n
reload <A, both cleared>
reload <B>
> 0 get a\r\n
=> 0
< 0 NOT_FOUND\r\n
reload accepted generation=2
reload refused generation=1 server=127.0.0.1:5002 read=get delete=delete prefix= residue=0/1
< 0 END\r\n
done 2 commands 2 calls
----
A reload that brings a server of which nothing is known is refused.
<one server>
hold 1 b 7
reload <two servers>
> 0 get b\r\n
=> 0
reload refused generation=1 server=127.0.0.1:5002 read=get delete=delete prefix= residue=1/2
< 0 END\r\n
done 1 commands 1 calls
----
It is accepted where that server is emptied before its first call, and what the first one holds is kept.
--flush-all
<one server>
hold 0 a 5
hold 1 b 7
reload <two servers>
> 0 get a b\r\n
=> 0
reload accepted generation=2
< 0 VALUE a 0 1\r\n5\r\nEND\r\n
done 2 commands 2 calls
----
Sixteen configurations are all that a run has, as in a replay.
<A>
reload <A>
reload <A>
reload <A>
reload <A>
reload <A>
reload <A>
reload <A>
reload <A>
reload <A>
reload <A>
reload <A>
reload <A>
reload <A>
reload <A>
reload <A>
reload <A>
=> 0
reload accepted generation=2
reload accepted generation=3
reload accepted generation=4
reload accepted generation=5
reload accepted generation=6
reload accepted generation=7
reload accepted generation=8
reload accepted generation=9
reload accepted generation=10
reload accepted generation=11
reload accepted generation=12
reload accepted generation=13
reload accepted generation=14
reload accepted generation=15
reload accepted generation=16
reload refused: too many generations
done 0 commands 0 calls
----
Or as many as are said.
--generations 2
<A>
reload <A>
reload <A>
reload <A>
> 0 get a\r\n
=> 0
reload accepted generation=2
reload refused: too many generations
reload refused: too many generations
< 0 END\r\n
done 1 commands 1 calls
----
A tree that the gate refuses.
<leak>
hold 1 a 7
fail 2 before
> 0 delete a\r\n
fail 1 before
> 0 get a\r\n
=> 1
refused: server=127.0.0.1:5001 read=get delete=delete prefix= residue=0/1
----
A line that is bad.
pool 1

restart 1
=> 2
script: bad line 3
----
A configuration that is bad.
{}
=> 2
config: bad field pools
"
}

// What a script prints, which may begin with a flag.
fn printed(rt: &HostRuntime, script: &str) -> (u8, Vec<u8>) {
    let mut out = Vec::new(rt.alloc());
    if let Some(script) = script.strip_prefix("--flush-all\n") {
        return (run_loopback(rt, script, true, 16, &mut out), out);
    }
    let status = match script.strip_prefix("--generations 2\n") {
        Some(script) => run_loopback(rt, script, false, 2, &mut out),
        None => run_loopback(rt, script, false, 16, &mut out),
    };
    (status, out)
}

// Whether a script ends with this status and prints this: both stand after its arrow.
fn run(rt: &HostRuntime, name: &str, script: &str, want: &str) -> Result<(), Fail> {
    let (status, out) = printed(rt, script);
    let (want_status, want_text) = first_line(want);
    if status != want_status.parse::<u8>()? || out.as_slice() != want_text.as_bytes() {
        return Err(different(name, status, out.as_slice()));
    }
    Ok(())
}

fn different(name: &str, status: u8, out: &[u8]) -> Fail {
    match std::str::from_utf8(out) {
        Ok(text) => Fail::new(format_args!("{name}\n=> {status}\n{text}")),
        Err(_) => Fail::new(format_args!("{name}\n=> {status} and no text")),
    }
}

fn play(rt: &HostRuntime, example: &str) -> Result<(), Fail> {
    let (name, rest) = first_line(example);
    let text = with_configs(rt.alloc(), rest)?;
    let (script, want) = text.as_str().split_once("=> ").ok_or("no arrow")?;
    run(rt, name, script, want)
}

#[test]
fn scripts_over_tcp(rt: HostRuntime) -> Result<(), Fail> {
    for example in texts().split("----\n") {
        play(&rt, example)?;
    }
    Ok(())
}
