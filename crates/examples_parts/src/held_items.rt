//! Worked cases of what a server holds, by hand from memcached's protocol.txt, "Increment/Decrement" and "Storage
//! commands", and from the rule that a stamp is the number of the command whose data began the item.

use crate::agree::agrees;
use crate::holding::{HeldItem, held};
use crate::marks::ServerMark;
use crate::reading::{ask, drop_answer, drop_ask, halves, key, number, same, wire};
use mc_types::{Answer, Ask, Body, Key};
use std::alloc::{AllocError, Global};
use std::test::Fail;
use wire_stream::{AnswerRead, read_answer};

// A name, the opening item's data, whose flags are 7 and whose stamp is 0, and what happens. A call that is applied has its
// stamp and an answer that agrees with what is held, and after it how many spaces the server put after the number that it
// stored. `agrees` and `differs` say of another answer whether it agrees with what is held now, and `now` says what that is:
// the data, the flags and the stamp.
fn lives() -> &'static str {
    r#"after the greatest number comes 0
(18446744073709551615)
differs incr a 1| => 1|
#1 incr a 1| => 0|
now a => (0) 7 #0

no number is below 0
(5)
differs decr a 9| => 1|
#1 decr a 9| => 0|
now a => (0) 7 #0

spaces after a number are no part of it
(5  )
differs incr a 1| => 7|
#1 incr a 1| => 6|
now a => (6) 7 #0

zeros before a number are no part of it
(007)
differs incr a 0| => 8|
#1 incr a 0| => 7|
now a => (7) 7 #0

a digit appended to a number
(0)
#1 append a 7 0 1|5| => STORED|
now a => (05) 7 #0

spaces after a number
(10)
#1 decr a 1| => 9| and 1 space
now a => (9 ) 7 #0

nothing after a restart
nothing
#1 set a 7 0 1|1| => STORED|
restarted
now a => nothing
agrees incr a 1| => NOT_FOUND|
differs incr a 1| => 2|

append keeps the stamp
nothing
#3 set a 7 0 1|x| => STORED|
#9 append a 7 0 1|y| => STORED|
agrees get a| => VALUE a 7 2|xy|END|
differs get a| => END|
now a => (xy) 7 #3

a delete of one key
(x)
agrees md a| => HD|
#1 delete a| => DELETED|
now a => nothing
now b => (x) 7 #0

a loss of one key
(x)
lost a
now a => nothing
now b => (x) 7 #0"#
}

// What was held at the opening, and what happened, the latest first.
#[derive(Drop)]
struct Life {
    opening: Option<HeldItem>,
    marks: Vec<ServerMark>,
}

fn opening_of(alloc: Global, text: &str) -> Result<Option<HeldItem>, AllocError> {
    if text == "nothing" {
        return Ok(None);
    }
    let (_, rest) = halves(text, "(");
    let (data, _) = halves(rest, ")");
    let body = Body::from_slice(alloc, data.as_bytes())?;
    Ok(Some(HeldItem::new(body, 7, 0)))
}

fn item_text(alloc: Global, item: &HeldItem) -> Result<String, AllocError> {
    let data = str::from_utf8(item.content()).unwrap_or("no text");
    let flags = item.flags();
    let stamp = item.stamp();
    format!(in alloc; "({data}) {flags} #{stamp}")
}

fn held_text(alloc: Global, item: Option<HeldItem>) -> Result<String, AllocError> {
    match item {
        Some(item) => item_text(alloc, &item),
        None => "nothing".to_string(alloc),
    }
}

fn now(alloc: Global, life: &Life, name: &str) -> Result<String, Fail> {
    let key = key(name)?;
    let item = held(alloc, &life.opening, life.marks.as_slice(), &key)?;
    Ok(held_text(alloc, item)?)
}

fn answer(alloc: Global, ask: &Ask, text: &str) -> Result<Answer, Fail> {
    let bytes = wire(alloc, text)?;
    match read_answer(alloc, ask, bytes.as_str().as_bytes())? {
        AnswerRead::Answer(answer, _) => Ok(answer),
        _ => Err(Fail::new("no answer")),
    }
}

fn agrees_now(
    alloc: Global,
    life: &Life,
    ask: &Ask,
    answer: &Answer,
) -> Result<&'static str, AllocError> {
    let item = held(alloc, &life.opening, life.marks.as_slice(), &ask.key)?;
    Ok(if agrees(ask, answer, &item) {
        "agrees"
    } else {
        "differs"
    })
}

fn told(alloc: Global, life: &Life, ask: &Ask, text: &str) -> Result<&'static str, Fail> {
    let answer = answer(alloc, ask, text)?;
    let says = agrees_now(alloc, life, ask, &answer);
    drop_answer(answer);
    Ok(says?)
}

// Whether the answer agrees with what is held.
fn agreement(alloc: Global, life: &Life, request: &str, text: &str) -> Result<&'static str, Fail> {
    let ask = ask(alloc, request)?;
    let says = told(alloc, life, &ask, text);
    drop_ask(ask);
    says
}

fn add(life: &mut Life, mark: ServerMark) -> Result<(), AllocError> {
    match life.marks.insert(0, mark) {
        Ok(()) => Ok(()),
        Err(_) => Err(AllocError),
    }
}

// The answer, and how many spaces the server put after the number that it stored.
fn with_spaces(text: &str) -> Result<(&str, u32), Fail> {
    let (answer, spaces) = halves(text, " and ");
    if spaces.is_empty() {
        return Ok((answer, 0));
    }
    let (count, _) = halves(spaces, " ");
    Ok((answer, number(count)?))
}

fn applied(
    alloc: Global,
    stamp: u32,
    request: &str,
    text: &str,
    spaces: u32,
) -> Result<ServerMark, Fail> {
    let ask = ask(alloc, request)?;
    match answer(alloc, &ask, text) {
        Ok(answer) => Ok(ServerMark::Applied {
            ask,
            stamp: u64::from(stamp),
            answer,
            spaces,
        }),
        Err(fail) => {
            drop_ask(ask);
            Err(fail)
        }
    }
}

fn call(alloc: Global, life: &mut Life, name: &str, stamp: &str, line: &str) -> Result<(), Fail> {
    let stamp = number(stamp)?;
    let (request, told) = halves(line, " => ");
    let (text, spaces) = with_spaces(told)?;
    same(name, line, agreement(alloc, life, request, text)?, "agrees")?;
    let mark = applied(alloc, stamp, request, text, spaces)?;
    Ok(add(life, mark)?)
}

fn lost(life: &mut Life, name: &str) -> Result<(), Fail> {
    let key = key(name)?;
    Ok(add(life, ServerMark::Lost(key))?)
}

fn step(alloc: Global, life: &mut Life, name: &str, line: &str) -> Result<(), Fail> {
    let (first, rest) = halves(line, " ");
    let (left, right) = halves(rest, " => ");
    match first {
        "restarted" => Ok(add(life, ServerMark::Restarted)?),
        "lost" => lost(life, rest),
        "now" => same(name, line, now(alloc, life, left)?.as_str(), right),
        "agrees" | "differs" => same(name, line, agreement(alloc, life, left, right)?, first),
        _ => call(alloc, life, name, halves(first, "#").1, rest),
    }
}

fn lived(alloc: Global, text: &str) -> Result<(), Fail> {
    let (name, rest) = halves(text, "\n");
    let (opening, lines) = halves(rest, "\n");
    let mut life = Life {
        opening: opening_of(alloc, opening)?,
        marks: Vec::new(alloc),
    };
    for line in lines.lines() {
        step(alloc, &mut life, name, line)?;
    }
    Ok(())
}

#[test]
fn what_each_life_leaves(rt: HostRuntime) -> Result<(), Fail> {
    for text in lives().split("\n\n") {
        lived(rt.alloc(), text)?;
    }
    Ok(())
}
