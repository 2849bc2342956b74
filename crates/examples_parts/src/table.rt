//! Tests: the server's table, row by row, and what one server does from call to call.

ghost use Rattle.std.specs.Prelude.{◌≤◌, length};
ghost use Rattle.mc_types.specs.Asks.{IsAsk};

use crate::reading::{
    answer_text, ask, drop_answer, drop_ask, halves, key, number, same, short, with_stamp,
};
use cache_server::Cache;
use mc_types::Ask;
use std::alloc::{AllocError, Global};
use std::test::Fail;

// A command, what is answered where `k` holds the data 5 under the cas number 1, and what is answered where nothing is held.
fn rows() -> &'static str {
    r#"get k| => VALUE k 0 1|5|END| / END|
mg k| => HD| / EN|
gat 9 k| => VALUE k 0 1|5|END| / END|
mg k T9| => HD| / EN|
set k 0 0 0|| => STORED| / STORED|
ms k 0|| => HD| / HD|
add k 0 0 0|| => NOT_STORED| / STORED|
ms k 0 ME|| => NS| / HD|
replace k 0 0 0|| => STORED| / NOT_STORED|
ms k 0 MR|| => HD| / NS|
append k 0 0 0|| => STORED| / NOT_STORED|
ms k 0 MA|| => HD| / NS|
prepend k 0 0 0|| => STORED| / NOT_STORED|
ms k 0 MP|| => HD| / NS|
cas k 0 0 0 1|| => STORED| / NOT_FOUND|
ms k 0 C1|| => HD| / NF|
ms k 0 C9|| => EX| / NF|
delete k| => DELETED| / NOT_FOUND|
md k| => HD| / NF|
md k C9| => EX| / NF|
incr k 1| => 6| / NOT_FOUND|
ma k| => HD| / NF|
decr k 1| => 4| / NOT_FOUND|
ma k MD| => HD| / NF|
touch k 9| => TOUCHED| / NOT_FOUND|"#
}

// A name, how many items there is room for, and what happens. A call has its moment, its stamp, its command and the answer,
// and after this the stamp of the item that it found.
fn scenarios() -> &'static str {
    r#"expiry by the moment
2
0 #3 set a 7 10 1|1| => STORED|
9 #1 gets a| => VALUE a 7 1 1|1|END| #3
10 #1 gets a| => END|
5 #1 gets a| => END|

arithmetic and stamps
2
0 #3 set n 7 0 20|18446744073709551615| => STORED|
0 #1 incr n 1| => 0| #3
0 #9 append n 0 0 1|5| => STORED| #3
0 #1 gets n| => VALUE n 7 2 3|05|END| #3
restart
0 #1 incr n 1| => NOT_FOUND|

the least recently used goes; an add of a held key stores nothing, and uses the key
2
hold a 1
hold b 2
0 #1 add a 0 0 1|3| => NOT_STORED| #0
0 #1 add c 0 0 1|4| => STORED|
0 #1 gets b| => END|
0 #1 gets a| => VALUE a 0 1 1|1|END| #0
lose a
0 #1 gets a| => END|

cas numbers go on after a restart
4294967295
hold a 1
restart
hold a 2
0 #1 gets a| => VALUE a 0 1 2|2|END| #0

meta arithmetic
4
hold k 5
1 #1 ma k D3 v c| => VA 1 c2|8| #0
1 #1 ma k MD D9 v c| => VA 1 c3|0| #0

another cas number is told before the data are looked at
4
hold k x
1 #1 ma k C9| => EX| #0

the data are looked at
4
hold k x
1 #1 ma k C1| => CLIENT_ERROR cannot increment or decrement non-numeric value| #0

the same cas number, and a number
4
hold k 5
1 #1 ma k C1| => HD| #0

the seconds left are those after the new expiry was set; -1 where there is none
4
hold k 5
1 #1 mg k t| => HD t-1| #0
1 #1 mg k T100 t| => HD t100| #0
31 #1 mg k t| => HD t70| #0
33 #1 ma k T0 t| => HD t-1| #0
34 #1 mg k T-1 t| => HD t0| #0"#
}

fn new_cache(alloc: Global, room: u32) -> Result<Cache, Fail> {
    if room == 0 {
        return Err(Fail::new("no room"));
    }
    Ok(Cache::new(alloc, room as usize)?)
}

fn hold(cache: &mut Cache, text: &str) -> Result<(), Fail> {
    let (name, data) = halves(text, " ");
    let key = key(name)?;
    let data = short(data)?;
    Ok(cache.hold(&key, data)?)
}

fn lose(cache: &mut Cache, name: &str) -> Result<(), Fail> {
    cache.lose(&key(name)?);
    Ok(())
}

// What the ask is answered, and after it the stamp of the item that it found.
fn applied(
    alloc: Global,
    cache: &mut Cache,
    moment: u32,
    stamp: u32,
    ask: &Ask,
) -> Result<String, AllocError>
    requires { IsAsk ask.now }
{
    let (answer, found) = cache.apply(i64::from(moment), u64::from(stamp), ask)?;
    let text = answer_text(alloc, ask, &answer);
    drop_answer(answer);
    with_stamp(alloc, text?, found)
}

fn called(
    alloc: Global,
    cache: &mut Cache,
    moment: u32,
    stamp: u32,
    request: &str,
) -> Result<String, Fail> {
    let ask = ask(alloc, request)?;
    let text = applied(alloc, cache, moment, stamp, &ask);
    drop_ask(ask);
    Ok(text?)
}

// A moment, a stamp and a request.
fn call(alloc: Global, cache: &mut Cache, text: &str) -> Result<String, Fail> {
    let (moment, rest) = halves(text, " ");
    let (stamp, request) = halves(rest, " ");
    let moment = number(moment)?;
    let stamp = number(halves(stamp, "#").1)?;
    called(alloc, cache, moment, stamp, request)
}

fn step(alloc: Global, cache: &mut Cache, name: &str, line: &str) -> Result<(), Fail> {
    let (first, rest) = halves(line, " ");
    match first {
        "hold" => hold(cache, rest),
        "lose" => lose(cache, rest),
        "restart" => {
            cache.restart();
            Ok(())
        }
        _ => {
            let (text, want) = halves(line, " => ");
            let got = call(alloc, cache, text)?;
            same(name, line, got.as_str(), want)
        }
    }
}

fn scenario(alloc: Global, text: &str) -> Result<(), Fail> {
    let (name, rest) = halves(text, "\n");
    let (room, lines) = halves(rest, "\n");
    let mut cache = new_cache(alloc, number(room)?)?;
    for line in lines.lines() {
        step(alloc, &mut cache, name, line)?;
    }
    Ok(())
}

fn row(alloc: Global, line: &str) -> Result<(), Fail> {
    let (request, want) = halves(line, " => ");
    let (held, absent) = halves(want, " / ");
    let mut cache = new_cache(alloc, 4)?;
    let got = called(alloc, &mut cache, 1, 1, request)?;
    same("where nothing is held", line, got.as_str(), absent)?;
    row_where_held(alloc, line, request, held)
}

fn row_where_held(alloc: Global, line: &str, request: &str, held: &str) -> Result<(), Fail> {
    let mut cache = new_cache(alloc, 4)?;
    hold(&mut cache, "k 5")?;
    let got = called(alloc, &mut cache, 1, 1, request)?;
    let (got, _stamp) = halves(got.as_str(), " #");
    same("where 5 is held", line, got, held)
}

#[test]
fn each_row_of_the_table(rt: HostRuntime) -> Result<(), Fail> {
    for line in rows().lines() {
        row(rt.alloc(), line)?;
    }
    Ok(())
}

#[test]
fn from_call_to_call(rt: HostRuntime) -> Result<(), Fail> {
    for text in scenarios().split("\n\n") {
        scenario(rt.alloc(), text)?;
    }
    Ok(())
}
