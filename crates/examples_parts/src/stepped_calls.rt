//! Tests: the servers of a script whose calls come apart from their results.

ghost use Rattle.std.specs.Prelude.{◌<◌, IfOk};
ghost use Rattle.mc_types.specs.Asks.{IsAsk};
ghost use Rattle.script_events.specs.Servers.{count_of_servers};

use crate::reading::{
    ask, drop_ask, drop_outcome, halves, key, number, outcome_text, same, short, with_stamp,
};
use mc_types::{Ask, ServerId};
use script_events::servers::{Loss, Manner, ScriptServers};
use std::alloc::Global;
use std::test::Fail;

// A name, how many servers there are, and what happens. A call has its server, the stamp of what it stores, its command and the answer,
// and after this the stamp of the item that it found. `STORED|` has 8 bytes.
fn scenarios() -> &'static str {
    r#"calls of two servers
2
1 #5 set a 0 0 1|1| => STORED|
1 #99 get a| => VALUE a 0 1|1|END| #5
0 #99 get a| => END|
calls => 3

a failure in each manner
1
fail 1 before
fail 2 after
fail 3 junk
fail 4 cut 7
fail 5 cut 8
0 #1 set a 0 0 1|1| => failed
0 #2 set b 0 0 1|2| => failed
0 #3 set c 0 0 1|3| => failed
0 #4 set d 0 0 1|4| => failed
0 #5 set e 0 0 1|5| => STORED|
0 #99 get a| => END|
0 #99 get b| => VALUE b 0 1|2|END| #2
0 #99 get c| => VALUE c 0 1|3|END| #3
0 #99 get d| => VALUE d 0 1|4|END| #4
calls => 9

the last that is said of a call counts
1
fail 1 before
fail 1 cut 5
0 #99 get a| => END|

lost now
2
hold 0 a 1
hold 1 a 2
lose 0 a
0 #99 get a| => END|
1 #99 get a| => VALUE a 0 1|2|END| #0
restart 1
1 #99 get a| => END|

lost just before a call to come, whether it fails or not
2
hold 0 a 1
hold 1 a 2
at 2 lose 0 a
at 3 restart 1
fail 3 before
0 #99 get a| => VALUE a 0 1|1|END| #0
0 #99 get a| => END|
1 #99 get a| => failed
1 #99 get a| => END|

expiry by the moment
1
0 #3 set a 0 10 1|1| => STORED|
moment 9
0 #99 get a| => VALUE a 0 1|1|END| #3
moment 10
0 #99 get a| => END|

failed but applied
1
fail 1 before
fail 2 after
0 #1 set a 0 0 1|1| => failed
0 #2 set b 0 0 1|2| => failed
0 #99 get a| => END|
0 #99 get b| => VALUE b 0 1|2|END| #2

failed meta calls
1
hold 0 a 1
fail 1 before
fail 3 after
0 #98 md a| => failed
0 #99 mg a v| => VA 1|1| #0
0 #98 md a| => failed
0 #98 md a| => NF|

a copy has the stamp of its item: that of its command is another
2
1 #5 set a 0 0 1|1| => STORED|
1 #6 mg a v| => VA 1|1| #5
0 #5 add a 0 0 1|1| => STORED|
0 #99 mg a v| => VA 1|1| #5"#
}

fn server(servers: &ScriptServers, text: &str) -> Result<ServerId, Fail>
    ensures { IfOk result (λ server. server < count_of_servers servers.now) }
{
    let number = number(text)?;
    if number as usize >= servers.servers() {
        return Err(Fail::new("no such server"));
    }
    Ok(ServerId::new(number))
}

fn hold(servers: &mut ScriptServers, text: &str) -> Result<(), Fail> {
    let (at, rest) = halves(text, " ");
    let (name, data) = halves(rest, " ");
    let key = key(name)?;
    let data = short(data)?;
    let at = server(servers, at)?;
    Ok(servers.hold(at, &key, data)?)
}

// `lose S KEY` or `restart S`.
fn loss(servers: &ScriptServers, text: &str) -> Result<Loss, Fail> {
    let (word, rest) = halves(text, " ");
    let (at, name) = halves(rest, " ");
    let at = server(servers, at)?;
    if word == "restart" {
        return Ok(Loss::Restart(at));
    }
    Ok(Loss::Item(at, key(name)?))
}

fn lose(servers: &mut ScriptServers, text: &str) -> Result<(), Fail> {
    let lost = loss(servers, text)?;
    servers.lose(&lost);
    Ok(())
}

fn lose_at(servers: &mut ScriptServers, text: &str) -> Result<(), Fail> {
    let (turn, what) = halves(text, " ");
    let turn = number(turn)?;
    let lost = loss(servers, what)?;
    if turn == 0 || servers.lose_at(turn, lost).is_err() {
        return Err(Fail::new("a loss"));
    }
    Ok(())
}

fn manner(text: &str) -> Result<Manner, Fail> {
    let (word, count) = halves(text, " ");
    match word {
        "before" => Ok(Manner::Before),
        "after" => Ok(Manner::After),
        "junk" => Ok(Manner::Junk),
        _ => Ok(Manner::Cut(number(count)?)),
    }
}

fn fail(servers: &mut ScriptServers, text: &str) -> Result<(), Fail> {
    let (turn, how) = halves(text, " ");
    let turn = number(turn)?;
    let manner = manner(how)?;
    if turn == 0 || servers.fail(turn, manner).is_err() {
        return Err(Fail::new("a failure"));
    }
    Ok(())
}

fn set_moment(servers: &mut ScriptServers, text: &str) -> Result<(), Fail> {
    servers.set_moment(i64::from(number(text)?));
    Ok(())
}

fn answered(
    alloc: Global,
    servers: &mut ScriptServers,
    at: ServerId,
    stamp: u32,
    ask: &Ask,
) -> Result<String, Fail>
    requires there { at < count_of_servers servers.old }
    requires ask { IsAsk ask.now }
{
    let Ok(made) = servers.answer(u64::from(stamp), at, ask) else {
        return Err(Fail::new("a call"));
    };
    let text = outcome_text(alloc, ask, &made.outcome);
    let stamp = made.stamp;
    drop_outcome(made.outcome);
    Ok(with_stamp(alloc, text?, stamp)?)
}

fn called(
    alloc: Global,
    servers: &mut ScriptServers,
    at: &str,
    how: &str,
    ask: &Ask,
) -> Result<String, Fail>
    requires { IsAsk ask.now }
{
    let at = server(servers, at)?;
    let stamp = number(halves(how, "#").1)?;
    answered(alloc, servers, at, stamp, ask)
}

// A server, a stamp and a request.
fn call(alloc: Global, servers: &mut ScriptServers, text: &str) -> Result<String, Fail> {
    let (at, rest) = halves(text, " ");
    let (how, request) = halves(rest, " ");
    let ask = ask(alloc, request)?;
    let text = called(alloc, servers, at, how, &ask);
    drop_ask(ask);
    text
}

fn result(alloc: Global, servers: &mut ScriptServers, text: &str) -> Result<String, Fail> {
    if text == "calls" {
        return Ok(servers.calls().to_string(alloc)?);
    }
    call(alloc, servers, text)
}

fn step(alloc: Global, servers: &mut ScriptServers, name: &str, line: &str) -> Result<(), Fail> {
    let (first, rest) = halves(line, " ");
    match first {
        "hold" => hold(servers, rest),
        "lose" | "restart" => lose(servers, line),
        "at" => lose_at(servers, rest),
        "fail" => fail(servers, rest),
        "moment" => set_moment(servers, rest),
        _ => {
            let (text, want) = halves(line, " => ");
            let got = result(alloc, servers, text)?;
            same(name, line, got.as_str(), want)
        }
    }
}

fn scenario(alloc: Global, text: &str) -> Result<(), Fail> {
    let (name, rest) = halves(text, "\n");
    let (count, lines) = halves(rest, "\n");
    let mut servers = ScriptServers::new(alloc, number(count)?)?;
    for line in lines.lines() {
        step(alloc, &mut servers, name, line)?;
    }
    Ok(())
}

#[test]
fn failures_and_losses_of_calls_to_come(rt: HostRuntime) -> Result<(), Fail> {
    for text in scenarios().split("\n\n") {
        scenario(rt.alloc(), text)?;
    }
    Ok(())
}
