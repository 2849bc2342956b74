//! Tests: what one connection is answered, in any pieces.

use crate::reading::{halves, number, same, text_of, wire};
use cache_tcp::connection::uses::Uses;
use cache_tcp::connection::{Cache, Served};
use std::alloc::{AllocError, Global};
use std::test::Fail;
use wire_parts::to_send::SendBuffer;

// A name, and pieces of one connection with what is answered to each. `at 9` says the moment, which is 0 otherwise; `closed`
// stands after the answer where the connection has ended, and `nothing` for no answer; `(9 x)` are 9 letters x.
fn connections() -> &'static str {
    r#"noreply hides the answer
set a 0 0 1 noreply|1|get a| => VALUE a 0 1|1|END|

quit closes
get a| => END|
quit|version| => closed
version| => closed

a long line closes
(65535 x) => nothing
x => CLIENT_ERROR line too long|closed

HTTP closes, and so does the binary protocol
GET / HTTP/1.1 => nothing
|set a 0 0 1|1| => ERROR|closed

nothing that was in its body is held
no HTTP/1.1|set a 0 0 1|1|get a| => ERROR|closed

hits and misses of one get
set a 5 0 2|xy|set c 0 0 0|| => STORED|STORED|
get a b c d| => VALUE a 5 2|xy|VALUE c 0 0||END|

refused lines are answered
nothing|version| => ERROR|VERSION mcgate-1|

expiry by the moment
at 0 set a 0 10 1|1| => STORED|
at 9 get a| => VALUE a 0 1|1|END|
at 10 get a| => END|

version is answered
version| => VERSION mcgate-1|

a piece of five thousand bytes
set a 0 0 5000|(5000 x)| => STORED|"#
}

// The cas numbers are 1 for the first store, 2 for the replace, and so on: each change takes the next.
fn each_operation() -> &'static str {
    r#"classic
set a 1 0 1|5| => STORED|
add a 0 0 1|1| => NOT_STORED|
replace a 2 0 1|7| => STORED|
append a 0 0 1|1| => STORED|
prepend a 0 0 1|1| => STORED|
gets a| => VALUE a 2 3 4|171|END|
cas a 3 0 2 4|10| => STORED|
cas a 3 0 2 4|11| => EXISTS|
cas b 0 0 1 1|1| => NOT_FOUND|
incr a 5| => 15|
decr a 20| => 0|
touch a 100| => TOUCHED|
touch b 0| => NOT_FOUND|
gat 0 a| => VALUE a 3 1|0|END|
gats 0 a| => VALUE a 3 1 7|0|END|
delete a| => DELETED|
delete a| => NOT_FOUND|
get a| => END|

meta
ms a 1 F1 c|5| => HD c1|
ms a 1 ME|1| => NS|
ms a 1 MR F2 k|7| => HD ka|
ms a 1 MA|1| => HD|
ms a 1 Mp|1| => HD|
mg a v f c s t k O7| => VA 3 f2 c4 s3 t-1 ka O7|171|
ms a 2 C4|10| => HD|
ms a 2 C4 k|11| => EX ka|
ms b 1 C1|1| => NF|
ma a D5 v| => VA 2|15|
ma a M- D20 v c| => VA 1 c7|0|
ma b O8| => NF O8|
ma a C1| => EX|
mg a T100 t| => HD t100|
mg a t T0 v| => VA 1 t-1|0|
mg b v k| => EN kb|
md a C1| => EX|
md a k O9| => HD ka O9|
md a| => NF|
mg a| => EN|
mn| => MN|"#
}

// `q` hides a miss of `mg`, `HD` of `ms`, `HD` and `NF` of `md` and `ma`, and nothing else.
fn quiet() -> &'static str {
    r#"quiet
md b q|mg b q v|ma b q| => nothing
ms b 1 q|1|ma b q| => nothing
mg b q| => HD|
mg b q v| => VA 1|2|
ma b q v| => VA 1|3|
ms b 1 q ME|1| => NS|
ms b 1 q C9|1| => EX|
ms c 1 q C9|1| => NF|
md b q C9| => EX|
md b q|mn| => MN|
ms b 1 q|x| => nothing
ma b q| => CLIENT_ERROR cannot increment or decrement non-numeric value|
mg b q z| => CLIENT_ERROR flag not served|"#
}

// What is answered alike in any cut. Both dialects on one connection see the same items.
fn in_any_cut() -> &'static str {
    r#"set a 0 0 1 noreply|1|get a| => VALUE a 0 1|1|END|
set a 5 0 2|hi|mg a v f|ms b 1 c|1|gets b|md a|get a| => STORED|VA 2 f5|hi|HD c2|VALUE b 0 1 2|1|END|HD|END|"#
}

fn xs(alloc: Global, count: u32) -> Result<String, AllocError> {
    let mut text = String::new(alloc);
    for _ in 0..count {
        text.push('x')?;
    }
    Ok(text)
}

// The text with its letters x written out.
fn written_out(alloc: Global, text: &str) -> Result<String, Fail> {
    let (front, rest) = text.split_once("(").unwrap_or((text, "0 x)"));
    let (count, back) = rest.split_once(" x)").unwrap_or(("", ""));
    let many = xs(alloc, number(count)?)?;
    Ok(format!(in alloc; "{front}{many}{back}")?)
}

// What a piece is answered, all at once.
fn given(
    alloc: Global,
    served: &mut Served,
    cache: &mut Cache,
    moment: u32,
    piece: &[u8],
) -> Result<Vec<u8>, AllocError> {
    let mut out = SendBuffer::new(alloc);
    let mut uses = Uses::new(alloc);
    served.feed(piece)?;
    served.serve(cache, i64::from(moment), &mut uses, &mut out, usize::MAX)?;
    out.to_vec(alloc)
}

fn feed(
    alloc: Global,
    served: &mut Served,
    cache: &mut Cache,
    moment: u32,
    piece: &str,
) -> Result<String, AllocError> {
    let bytes = wire(alloc, piece)?;
    let given = given(alloc, served, cache, moment, bytes.as_str().as_bytes())?;
    text_of(alloc, given.as_slice())
}

// What the piece is answered, and whether the connection has ended then.
fn answered(
    alloc: Global,
    served: &mut Served,
    cache: &mut Cache,
    moment: u32,
    piece: &str,
) -> Result<String, Fail> {
    let piece = written_out(alloc, piece)?;
    let mut text = feed(alloc, served, cache, moment, piece.as_str())?;
    if served.is_closed() {
        text.push_str("closed")?;
    }
    if text.is_empty() {
        text.push_str("nothing")?;
    }
    Ok(text)
}

// The moment of a piece, and the piece.
fn at(text: &str) -> Result<(u32, &str), Fail> {
    let (first, rest) = halves(text, " ");
    if first != "at" {
        return Ok((0, text));
    }
    let (moment, piece) = halves(rest, " ");
    Ok((number(moment)?, piece))
}

fn step(
    alloc: Global,
    served: &mut Served,
    cache: &mut Cache,
    name: &str,
    line: &str,
) -> Result<(), Fail> {
    let (left, want) = halves(line, " => ");
    let (moment, piece) = at(left)?;
    let got = answered(alloc, served, cache, moment, piece)?;
    same(name, line, got.as_str(), want)
}

fn connection(alloc: Global, text: &str) -> Result<(), Fail> {
    let (name, lines) = halves(text, "\n");
    let mut cache = Cache::new(alloc, 16)?;
    let mut served = Served::new(alloc);
    for line in lines.lines() {
        step(alloc, &mut served, &mut cache, name, line)?;
    }
    Ok(())
}

fn each(alloc: Global, texts: &str) -> Result<(), Fail> {
    for text in texts.split("\n\n") {
        connection(alloc, text)?;
    }
    Ok(())
}

// What two pieces are answered, joined.
fn joined(alloc: Global, front: &[u8], back: &[u8]) -> Result<Vec<u8>, AllocError> {
    let mut cache = Cache::new(alloc, 16)?;
    let mut served = Served::new(alloc);
    let mut all = given(alloc, &mut served, &mut cache, 0, front)?;
    all.extend_from_slice(given(alloc, &mut served, &mut cache, 0, back)?.as_slice())?;
    Ok(all)
}

fn cut(alloc: Global, line: &str, bytes: &[u8], want: &str) -> Result<(), Fail> {
    for at in 0..bytes.len() {
        let given = joined(alloc, &bytes[..at], &bytes[at..])?;
        same(
            "in any cut",
            line,
            text_of(alloc, given.as_slice())?.as_str(),
            want,
        )?;
    }
    Ok(())
}

fn each_cut(alloc: Global, line: &str) -> Result<(), Fail> {
    let (piece, want) = halves(line, " => ");
    let bytes = wire(alloc, piece)?;
    cut(alloc, line, bytes.as_str().as_bytes(), want)
}

#[test]
fn answers_of_one_connection(rt: HostRuntime) -> Result<(), Fail> {
    each(rt.alloc(), connections())
}

#[test]
fn each_operation_on_one_connection(rt: HostRuntime) -> Result<(), Fail> {
    each(rt.alloc(), each_operation())
}

#[test]
fn quiet_meta_replies(rt: HostRuntime) -> Result<(), Fail> {
    each(rt.alloc(), quiet())
}

#[test]
fn alike_in_any_cut(rt: HostRuntime) -> Result<(), Fail> {
    for line in in_any_cut().lines() {
        each_cut(rt.alloc(), line)?;
    }
    Ok(())
}
