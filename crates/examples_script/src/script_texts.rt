//! The lines of scripts. In tables `⏎` is a line end.

use examples_tables::tables::{expanded, unfolded};
use examples_tables::tellers::{Teller, halves, wrong};
use mc_types::{Key, ServerId};
use mcgate_lines::faults::write_config_fault;
use route_json::{Config, ConfigFault};
use script_events::text::configured::{ConfiguredScript, ScriptFault};
use script_events::text::escapes::unescape;
use script_events::text::event::read_event;
use script_events::text::fault::LineFault;
use script_events::text::front::front_of;
use script_events::text::laws::escapes_are_read_back;
use script_events::text::printer::{write_bad_line, write_outputs, write_report};
use script_events::text::reader::{read_events, read_script};
use script_events::text::words::{cut, number_under};
use script_events::{Event, Loss, Manner, Output, Reload, Report};
use std::alloc::{AllocError, Global};
use std::test::Fail;
use text_words::escapes::Escaped;

// Texts, and the bytes that their escapes mean, as they are printed.
fn escapes() -> &'static str {
    r"escapes:  => 
escapes: a b => a b
escapes: \r\n\\ => \r\n\\
escapes: \x00\x7f\xfF\xAb => \x00\x7f\xff\xab
escapes: \\x41 => \\x41
escapes: \ => unreadable
escapes: a\ => unreadable
escapes: \a => unreadable
escapes: \R => unreadable
escapes: \X41 => unreadable
escapes: \x => unreadable
escapes: \x4 => unreadable
escapes: \x4g => unreadable
escapes: \xg4 => unreadable"
}

// Lines, and the event that each means.
fn events() -> &'static str {
    r"event: > 63 get a\r\n => client 63 sends get a\r\n
event: hold 1 \x61  => server 1 holds a: 
event: fail 4294967295 after => call 4294967295 fails after
event: + 63 get a\r\n => client 63 adds get a\r\n
event: + 0  => client 0 adds 
event: result 4294967295 => result at server 4294967295
event: fail 1 junk => call 1 fails junk
event: fail 1 before => call 1 fails before
event: fail 7 cut 0 => call 7 fails cut 0
event: fail 7 cut 04294967295 => call 7 fails cut 4294967295
event: lose 0 a => now: server 0 loses a
event: restart 2 => now: server 2 restarts
event: at 4294967295 lose 0 a => at call 4294967295: server 0 loses a
event: at 1 restart 2 => at call 1: server 2 restarts
event: moment 9223372036854775807 => moment 9223372036854775807"
}

// Scripts, and how many servers each has and its configuration alone, the line of each event, and what is loaded where.
fn scripts() -> &'static str {
    r#"script: pool 1024⏎⏎# a comment⏎restart 1023⏎⏎moment 5 => 1024 servers, 1024 first; 2 events: 4 6
script: pool 1 => 1 servers, 1 first; 0 events:
script: pool 1⏎moment 5⏎reload {"pools":{"A":{"servers":["h:1","s0:1"]}},"route":"PoolRoute|A"}⏎restart 1 => 2 servers, 1 first; 2 events: 2 4; before event 1: s0:1 h:1"#
}

// Events over two servers, and their lines.
fn scripts_of_events() -> &'static str {
    r"events:  => lines
events: restart 1 => lines 1
events: # two⏎⏎restart 1⏎> 0 ⏎ => lines 3 4
events: restart 2 => lines 1"
}

fn told_of_escapes(alloc: Global, text: &[u8]) -> Result<String, AllocError> {
    match unescape(alloc, text) {
        Ok(bytes) => format!(in alloc; "{}", Escaped(bytes.as_slice())),
        Err(fault) => fault_told(alloc, fault, "unreadable"),
    }
}

fn fault_told(alloc: Global, fault: LineFault, unreadable: &str) -> Result<String, AllocError> {
    match fault {
        LineFault::Unreadable => unreadable.to_string(alloc),
        LineFault::NoMemory => "no memory".to_string(alloc),
    }
}

fn loss_words(alloc: Global, loss: &Loss) -> Result<String, AllocError> {
    match loss {
        Loss::Item(server, key) => {
            let key = Escaped(key.as_bytes());
            format!(in alloc; "server {} loses {key}", server.number())
        }
        Loss::Restart(server) => format!(in alloc; "server {} restarts", server.number()),
    }
}

fn manner_words(alloc: Global, manner: Manner) -> Result<String, AllocError> {
    match manner {
        Manner::Before => "before".to_string(alloc),
        Manner::After => "after".to_string(alloc),
        Manner::Junk => "junk".to_string(alloc),
        Manner::Cut(count) => format!(in alloc; "cut {count}"),
    }
}

fn hold_words(
    alloc: Global,
    server: ServerId,
    key: &Key,
    content: &[u8],
) -> Result<String, AllocError> {
    let mut words = format!(in alloc; "server {} holds ", server.number())?;
    write!(&mut words, "{}: ", Escaped(key.as_bytes()))?;
    write!(&mut words, "{}", Escaped(content))?;
    Ok(words)
}

fn fail_words(alloc: Global, turn: u32, manner: Manner) -> Result<String, AllocError> {
    let manner = manner_words(alloc, manner)?;
    format!(in alloc; "call {turn} fails {manner}")
}

fn at_words(alloc: Global, turn: u32, loss: &Loss) -> Result<String, AllocError> {
    let loss = loss_words(alloc, loss)?;
    format!(in alloc; "at call {turn}: {loss}")
}

fn now_words(alloc: Global, loss: &Loss) -> Result<String, AllocError> {
    let loss = loss_words(alloc, loss)?;
    format!(in alloc; "now: {loss}")
}

fn sent_words(alloc: Global, client: u8, does: &str, bytes: &[u8]) -> Result<String, AllocError> {
    let bytes = Escaped(bytes);
    format!(in alloc; "client {client} {does} {bytes}")
}

fn event_words(alloc: Global, event: &Event) -> Result<String, AllocError> {
    match event {
        Event::Piece(client, bytes) => sent_words(alloc, *client, "sends", bytes.as_slice()),
        Event::Add(client, bytes) => sent_words(alloc, *client, "adds", bytes.as_slice()),
        Event::Result(server) => format!(in alloc; "result at server {}", server.number()),
        Event::Hold(server, key, content) => hold_words(alloc, *server, key, content.as_slice()),
        Event::Fail(turn, manner) => fail_words(alloc, *turn, *manner),
        Event::At(turn, loss) => at_words(alloc, *turn, loss),
        Event::Now(loss) => now_words(alloc, loss),
        Event::Moment(moment) => format!(in alloc; "moment {moment}"),
    }
}

fn told_of_line(alloc: Global, line: &[u8]) -> Result<String, AllocError> {
    match read_event(alloc, line) {
        Ok(event) => event_words(alloc, &event),
        Err(fault) => fault_told(alloc, fault, "no event"),
    }
}

fn push_reload(out: &mut String, reload: &Reload) -> Result<(), AllocError> {
    write!(out, "; before event {}:", reload.at)?;
    for number in 0..2 {
        let address = reload.config.servers().get(ServerId::new(number));
        write!(out, " {}", address.unwrap_or("none"))?;
    }
    Ok(())
}

fn push_lines(out: &mut String, read: &ConfiguredScript) -> Result<(), AllocError> {
    for event in 0..read.lines.len() {
        write!(out, " {}", read.line_of(event).unwrap_or(0))?;
    }
    Ok(())
}

fn push_script(out: &mut String, read: &ConfiguredScript) -> Result<(), AllocError> {
    write!(out, "{} servers, ", read.server_count())?;
    write!(out, "{} first; ", read.config.servers().len())?;
    write!(out, "{} events:", read.script.events.len())?;
    push_lines(out, read)?;
    for reload in read.reloads.as_slice() {
        push_reload(out, reload)?;
    }
    Ok(())
}

fn script_words(alloc: Global, read: &ConfiguredScript) -> Result<String, AllocError> {
    let mut words = String::new(alloc);
    push_script(&mut words, read)?;
    Ok(words)
}

fn fault_words(alloc: Global, fault: &ScriptFault) -> Result<String, AllocError> {
    match fault {
        ScriptFault::Config(fault) => format!(in alloc; "{fault}"),
        ScriptFault::BadLine(line) => format!(in alloc; "bad line {line}"),
        ScriptFault::NoMemory => "no memory".to_string(alloc),
    }
}

fn told_of_script(alloc: Global, text: &str) -> Result<String, AllocError> {
    match read_script(alloc, text) {
        Ok(read) => script_words(alloc, &read),
        Err(fault) => fault_words(alloc, &fault),
    }
}

fn line_words(alloc: Global, read: &ConfiguredScript) -> Result<String, AllocError> {
    let mut words = "lines".to_string(alloc)?;
    push_lines(&mut words, read)?;
    Ok(words)
}

fn read_over_two(alloc: Global, text: &str) -> Result<ConfiguredScript, ScriptFault> {
    let config = Config::of_pool(alloc, 2)?;
    read_events(alloc, config, text)
}

fn told_of_events(alloc: Global, text: &str) -> Result<String, AllocError> {
    match read_over_two(alloc, text) {
        Ok(read) => line_words(alloc, &read),
        Err(fault) => fault_words(alloc, &fault),
    }
}

fn told_of(alloc: Global, question: &str, text: &str) -> Result<String, AllocError> {
    match question {
        "escapes" => told_of_escapes(alloc, text.as_bytes()),
        "event" => told_of_line(alloc, text.as_bytes()),
        "script" => told_of_script(alloc, text),
        _ => told_of_events(alloc, text),
    }
}

struct OfScriptTexts;

impl Teller for OfScriptTexts {
    fn told(alloc: Global, example: &str) -> Result<String, AllocError> {
        let (question, folded) = halves(example, ": ");
        let text = unfolded(alloc, folded)?;
        told_of(alloc, question, text.as_str())
    }
}

#[test]
fn texts_of_scripts(rt: HostRuntime) -> Result<(), Fail> {
    escapes_are_read_back();
    for table in [escapes(), events(), scripts(), scripts_of_events()] {
        assert_eq!(rt; wrong::<OfScriptTexts>(rt.alloc(), table)?.as_str(), "");
    }
    Ok(())
}

// What the end of a line doesn't end.
#[test]
fn returns_and_tabs(rt: HostRuntime) -> Result<(), Fail> {
    let told = told_of_escapes(rt.alloc(), b"\xc3\xa9\r\t")?;
    assert_eq!(rt; told.as_str(), r"\xc3\xa9\r\x09");
    Ok(())
}

#[test]
fn words_of_a_line(rt: HostRuntime) -> Result<(), Fail> {
    let parts = cut(b">  a b".as_slice()).ok_or("no space")?;
    assert_eq!(rt; parts.word, b">".as_slice());
    assert_eq!(rt; parts.rest, b" a b".as_slice());
    assert!(rt; cut(b"pool".as_slice()).is_none());
    Ok(())
}

#[test]
fn numbers_of_a_line(rt: HostRuntime) {
    assert_eq!(rt; number_under(64, b"0063".as_slice()), Some(63));
    assert_eq!(rt; number_under(64, b"64".as_slice()), None);
}

#[test]
fn first_line_of_a_text(rt: HostRuntime) -> Result<(), Fail> {
    let front = front_of("a\r\n\nb");
    assert_eq!(rt; front.line, "a\r");
    let rest = front.rest.ok_or("no line end")?;
    assert_eq!(rt; rest, "\nb");
    assert!(rt; front_of(rest).line.is_empty());
    assert!(rt; front_of("b").rest.is_none());
    Ok(())
}

// Whether this server of the script has this address, and no line is that of event 2.
fn has_server(alloc: Global, text: &str, number: u32, address: &str) -> bool {
    match read_script(alloc, text) {
        Ok(read) => {
            read.config.servers().get(ServerId::new(number)) == Some(address)
                && read.line_of(2).is_none()
        }
        Err(_) => false,
    }
}

// A configuration of two servers.
fn configuration(alloc: Global) -> Result<String, AllocError> {
    let line =
        r#"over A and B {"type":"PrefixSelectorRoute","policies":{"a":"PoolRoute|A","ab":"PoolRoute|B"},"wildcard":"PoolRoute|A"}"#;
    expanded(alloc, line)
}

#[test]
fn servers_of_scripts(rt: HostRuntime) -> Result<(), Fail> {
    let pool = "pool 1024\n\n# a comment\nrestart 1023\n\nmoment 5";
    assert!(rt; has_server(rt.alloc(), pool, 9, "s9:1"));
    let text = configuration(rt.alloc())?;
    assert!(rt; has_server(rt.alloc(), text.as_str(), 1, "127.0.0.1:5002"));
    Ok(())
}

#[test]
fn a_configuration_before_a_space(rt: HostRuntime) -> Result<(), Fail> {
    let mut text = configuration(rt.alloc())?;
    text.push_str(" \r\nrestart 1\n")?;
    let words = told_of_script(rt.alloc(), text.as_str())?;
    assert_eq!(rt; words.as_str(), "2 servers, 2 first; 1 events: 2");
    Ok(())
}

fn output(alloc: Global, client: u8, bytes: &[u8]) -> Result<Output, AllocError> {
    Ok(Output {
        client,
        bytes: Vec::from_slice(alloc, bytes)?,
    })
}

fn two_outputs(alloc: Global) -> Result<Vec<Output>, AllocError> {
    let mut shown = Vec::new(alloc);
    shown.push(output(alloc, 0, b"END\r\n".as_slice())?)?;
    shown.push(output(alloc, 63, b"\xff".as_slice())?)?;
    Ok(shown)
}

#[test]
fn outputs_that_are_printed(rt: HostRuntime) -> Result<(), Fail> {
    let mut out = Vec::new(rt.alloc());
    let shown = two_outputs(rt.alloc())?;
    write_outputs(shown.as_slice(), &mut out)?;
    assert_eq!(rt; out.as_slice(), b"< 0 END\\r\\n\n< 63 \\xff\n".as_slice());
    Ok(())
}

#[test]
fn last_lines_that_are_printed(rt: HostRuntime) -> Result<(), Fail> {
    let mut out = Vec::new(rt.alloc());
    let report = Report {
        commands: 2,
        calls: 3,
        stale: 1,
    };
    write_report(&report, &mut out)?;
    write_bad_line(7, &mut out)?;
    write_config_fault(&ConfigFault::TooDeep, &mut out)?;
    let want = b"done 2 commands 3 calls 1 stale\nscript: bad line 7\nconfig: too deep\n";
    assert_eq!(rt; out.as_slice(), want.as_slice());
    Ok(())
}
