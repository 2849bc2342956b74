//! Scripts that are written as lines, and read back.

use examples_tables::tables::{same, sides};
use route_json::Config;
use script_events::text::configured::{ConfiguredScript, ScriptFault};
use script_events::text::lines::laws::scripts_are_read_back;
use script_events::text::lines::write_script;
use script_events::text::reader::read_events;
use std::alloc::Global;
use std::test::Fail;

// A line of an event, and the line that is written of it.
fn lines() -> &'static str {
    r"> 07 \x61\x0D\x80 => > 7 a\r\x80
+ 07 \x61\x0D\x80 => + 7 a\r\x80
+ 0  => + 0 
result 002 => result 2
hold 0 \x61 \x20 => hold 0 a  
fail 01 before => fail 1 before
fail 2 after => fail 2 after
fail 3 junk => fail 3 junk
fail 4 cut 00 => fail 4 cut 0
fail 4294967295 cut 4294967295 => fail 4294967295 cut 4294967295
lose 1 \x61 => lose 1 a
restart 02 => restart 2
at 09 lose 1 \x61 => at 9 lose 1 a
at 9 restart 2 => at 9 restart 2
moment 007 => moment 7"
}

// A script over three servers.
fn read(alloc: Global, text: &str) -> Result<ConfiguredScript, ScriptFault> {
    let config = Config::of_pool(alloc, 3)?;
    read_events(alloc, config, text)
}

fn write_read(alloc: Global, read: &ConfiguredScript) -> Result<Vec<u8>, Fail> {
    let mut out = Vec::new(alloc);
    write_script(&read.script, &mut out)?;
    Ok(out)
}

// What is written of the event of a line; nothing where it is a bad one.
fn written(alloc: Global, line: &str) -> Result<Vec<u8>, Fail> {
    match read(alloc, line) {
        Ok(read) => write_read(alloc, &read),
        Err(_) => Ok(Vec::new(alloc)),
    }
}

fn holds(alloc: Global, example: &str) -> Result<(), Fail> {
    let (line, want) = sides(example);
    let out = written(alloc, line)?;
    let text = str::from_utf8(out.as_slice()).unwrap_or("not UTF-8");
    same(line, text.strip_suffix('\n').unwrap_or(text), want)
}

#[test]
fn lines_that_are_written(rt: HostRuntime) -> Result<(), Fail> {
    scripts_are_read_back();
    for example in lines().lines() {
        holds(rt.alloc(), example)?;
    }
    Ok(())
}
