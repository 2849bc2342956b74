//! When servers' names are looked up again.

use examples_proxy::starts::servers_of;
use examples_tables::playing::{Stage, cut, first_line, numbered, play_lines, yes_or_no};
use mcgate_serve::names::Names;
use route_json::addresses::Servers;
use std::alloc::Global;
use std::test::Fail;

// `at` is the time of a turn, in milliseconds: the server whose name is looked up then, where each is each minute. `took` is for how long, before
// that time.
fn texts() -> &'static str {
    r#"Each is a minute after it was looked up last, one in a turn. Numbers and paths aren't.
servers one:1,127.0.0.1:2,[::1]:3,unix:/a,two:1
at 59999 => none
at 60000 => 0
at 60001 => 4
at 60002 => none
at 119999 => none
at 120000 => 0
at 130000 => 4
at 180000 => 0
at 189999 => none
at 190000 => 4

After a failure a name is looked up once a second at most.
servers one:1,127.0.0.1:2,two:1
failed 2
failed 1
at 999 => none
at 1000 => 2
failed 2
at 1999 => none
at 2000 => 2
at 59999 => none
at 60000 => 0
at 62000 => 2

A look-up that takes long: there is none for four times as long, though all are due.
servers one:1,two:1
at 60000 => 0
took 60000 5000
failed 0
at 65000 => none
at 84999 => none
at 85000 => 1
at 85001 => 0

A server that comes later was looked up then.
servers one:1
at 50000 => none
more one:1,two:1
at 50000 => none
at 60000 => 0
at 109999 => none
at 110000 => 1

Of a name is told once a minute.
servers one:1,two:1
tells 0 500 => yes
tells 0 60499 => no
tells 1 60499 => yes
tells 0 60500 => yes"#
}

// Names, and the servers that have them.
#[derive(Drop)]
struct Named {
    alloc: Global,
    servers: Servers,
    names: Names,
}

fn make_named(alloc: Global) -> Named {
    let servers = Servers::new(alloc);
    let names = Names::of(alloc, &servers);
    Named {
        alloc,
        servers,
        names,
    }
}

// Servers of these names, with commas between them.
fn servers_with(alloc: Global, names: &str) -> Result<Servers, Fail> {
    let names = names.replace(alloc, ",", "\",\"")?;
    let pools = format!(in alloc; "{{\"A\":{{\"servers\":[\"{names}\"]}}}}")?;
    let text = format!(in alloc; "{{\"pools\":{pools},\"route\":\"PoolRoute|A\"}}")?;
    servers_of(alloc, text.as_str())
}

impl Named {
    fn begin(&mut self, text: &str) -> Result<(), Fail> {
        self.servers = servers_with(self.alloc, text)?;
        self.names = Names::of(self.alloc, &self.servers);
        Ok(())
    }

    fn turn(&mut self, now: u64) -> Result<String, Fail> {
        match self.names.next_due(&self.servers, now, 60) {
            Some(at) => {
                self.names.note_looked(at, now);
                Ok(at.to_string(self.alloc)?)
            }
            None => Ok("none".to_string(self.alloc)?),
        }
    }

    fn tells(&mut self, text: &str) -> Result<String, Fail> {
        let (at, now) = numbered(text)?;
        let tells = self.names.may_tell(at, now.parse::<u64>()?);
        Ok(yes_or_no(tells).to_string(self.alloc)?)
    }

    fn take(&mut self, text: &str) -> Result<(), Fail> {
        let (now, took) = cut(text);
        self.names
            .note_took(now.parse::<u64>()?, took.parse::<u64>()?);
        Ok(())
    }

    // Events that give nothing.
    fn set(&mut self, verb: &str, text: &str) -> Result<(), Fail> {
        match verb {
            "servers" => self.begin(text),
            "more" => {
                self.servers = servers_with(self.alloc, text)?;
                Ok(())
            }
            "failed" => {
                self.names.note_failed(text.parse::<usize>()?);
                Ok(())
            }
            "took" => self.take(text),
            _ => Err("no such event")?,
        }
    }
}

impl Stage for Named {
    fn answer(&mut self, event: &str, _want: &str) -> Result<String, Fail> {
        let (verb, text) = cut(event);
        match verb {
            "at" => self.turn(text.parse::<u64>()?),
            "tells" => self.tells(text),
            _ => {
                self.set(verb, text)?;
                Ok(String::new(self.alloc))
            }
        }
    }
}

#[test]
fn names_that_are_due(rt: HostRuntime) -> Result<(), Fail> {
    for example in texts().split("\n\n") {
        let (name, lines) = first_line(example);
        play_lines(&mut make_named(rt.alloc()), name, lines)?;
    }
    Ok(())
}
