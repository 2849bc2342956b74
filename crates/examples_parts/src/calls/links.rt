//! Two gets of one client, whose calls are out at one server.

use core_accepted::ServedCore;
use core_proxy::{CoreLimits, Poll, Sharing, Ticket};
use examples_tables::configs::with_configs;
use examples_tables::playing::{Stage, cut, first_line, plain, play_lines, shown};
use gate_check::judge;
use mc_types::Dialect;
use route_json::read_config;
use serve_links::WaitLine;
use serve_links::calls::{Left, LinkCalls, Next, SentCall};
use std::alloc::Global;
use std::test::Fail;
use wire_parts::to_send::SendBuffer;
use wire_stream::Received;

fn texts() -> &'static str {
    r"An answer is taken for the oldest call, and what is none is foreign.
feed get a\r\nget b\r\n
call classic => sent
call classic => sent
asked => get a\r\nget b\r\n
oldest => 7
answer EN => more
came 7250
answer END\r\nHELLO\r\n => client 0 by 5
answer HELLO\r\n => foreign
fail => client 0
fail => none
counts => 1 in 250: 0 1 0 0 0 0 0 0 0 0 0, 1 failed
answer END\r\n => foreign
poll => did
poll => did
output => END\r\nSERVER_ERROR call failed\r\n

A server told its dialects between two calls: each answer is read as its call was asked.
feed get a\r\nget b\r\n
call classic => sent
call meta => sent
asked => get a\r\nmg b k f v\r\n
came 7100
answer END\r\nVA 1 kb f5\r\n => client 0 by 5
answer VA 1 kb f5\r\n => more
came 1007001
answer VA 1 kb f5\r\nx\r\n => client 0 by 15
counts => 2 in 1000101: 1 0 0 0 0 0 0 0 0 0 1, 0 failed
poll => did
poll => did
output => END\r\nVALUE b 5 1\r\nx\r\nEND\r\n

A call that waits first goes out before one that waited longer.
feed get a\r\nget b\r\n
go => none
wait => 1 waits
first => 2 wait
go => sent
go => sent
go => none
asked => get b\r\nget a\r\n"
}

const LIMITS: CoreLimits = CoreLimits {
    clients: 1,
    held: 64,
    depth: 2,
    window: 2,
    sharing: Sharing::Alone,
    version: None,
};

fn core_by(alloc: Global, text: &str) -> Result<ServedCore, Fail> {
    match judge(alloc, read_config(alloc, text)?) {
        Ok(accepted) => Ok(ServedCore::new(alloc, accepted, LIMITS)?),
        Err(_) => Err("a pool of one server is refused")?,
    }
}

fn core(alloc: Global) -> Result<ServedCore, Fail> {
    let text = with_configs(alloc, "<one server>")?;
    core_by(alloc, text.as_str())
}

// A core with client 0, the calls of its server that are out, those that wait, and what the server was asked.
#[derive(Drop)]
struct Link {
    alloc: Global,
    core: ServedCore,
    calls: LinkCalls,
    waiting: WaitLine,
    asked: SendBuffer,
}

fn make_link(alloc: Global) -> Result<Link, Fail> {
    let mut link = Link {
        alloc,
        core: core(alloc)?,
        calls: LinkCalls::new(alloc),
        waiting: WaitLine::new(alloc)?,
        asked: SendBuffer::new(alloc),
    };
    link.open()?;
    Ok(link)
}

fn poll_word(poll: Poll) -> &'static str {
    match poll {
        Poll::Did(_note) => "did",
        _ => "else",
    }
}

fn dialect_of(word: &str) -> Dialect {
    match word {
        "meta" => Dialect::Meta,
        _ => Dialect::Classic,
    }
}

// The call of client 0 that this ticket is of.
fn call_of(ticket: Ticket, dialect: Dialect) -> SentCall {
    SentCall {
        ticket,
        client: 0,
        since: 7,
        paced: 7,
        bulk: 0,
        dialect,
    }
}

fn next_text(alloc: Global, next: Next) -> Result<String, Fail> {
    match next {
        Next::Settled { client, used } => Ok(format!(in alloc; "client {client} by {used}")?),
        Next::Left(Left::Begun) => Ok("more".to_string(alloc)?),
        Next::Left(Left::NoAnswer) => Ok("foreign".to_string(alloc)?),
        Next::Left(Left::NoMemory) => Ok("no memory".to_string(alloc)?),
    }
}

fn number_text(alloc: Global, words: &str, number: Option<u64>) -> Result<String, Fail> {
    match number {
        Some(number) => Ok(format!(in alloc; "{words}{number}")?),
        None => Ok("none".to_string(alloc)?),
    }
}

impl Link {
    fn open(&mut self) -> Result<(), Fail> {
        match self.core.open_client() {
            Ok(0) => Ok(()),
            _ => Err("client 0 can't be opened")?,
        }
    }

    fn feed(&mut self, text: &str) -> Result<&'static str, Fail> {
        let piece = plain(self.alloc, text)?;
        match self.core.feed(0, piece.as_bytes()) {
            Ok(()) => Ok(""),
            Err(_) => Ok("refused"),
        }
    }

    fn send(&mut self, call: SentCall) -> &'static str {
        match self.calls.begin(call, 7_000, &mut self.asked) {
            Ok(()) => "sent",
            Err(_call) => "not sent",
        }
    }

    // The client's next call goes out.
    fn call(&mut self, dialect: Dialect) -> &'static str {
        match self.core.poll(0) {
            Ok(Poll::Call(ticket)) => self.send(call_of(ticket, dialect)),
            _ => "no call",
        }
    }

    // The first call that waits goes out.
    fn go(&mut self) -> &'static str {
        match self.waiting.pop_front() {
            Some(call) => self.send(call),
            None => "none",
        }
    }

    // The call waits, before all others or behind them: how many do then.
    fn let_wait(&mut self, is_first: bool, call: SentCall) -> &'static str {
        let waits = if is_first {
            self.waiting.push_front(call)
        } else {
            self.waiting.push_back(call)
        };
        match (waits, self.waiting.len()) {
            (Ok(()), 1) => "1 waits",
            (Ok(()), 2) => "2 wait",
            _ => "given back",
        }
    }

    // The client's next call waits.
    fn wait(&mut self, is_first: bool) -> &'static str {
        match self.core.poll(0) {
            Ok(Poll::Call(ticket)) => self.let_wait(is_first, call_of(ticket, Dialect::Classic)),
            _ => "no call",
        }
    }

    fn poll(&mut self) -> &'static str {
        match self.core.poll(0) {
            Ok(poll) => poll_word(poll),
            Err(_) => "fault",
        }
    }

    fn settle(&mut self, text: &str) -> Result<String, Fail> {
        let bytes = plain(self.alloc, text)?;
        next_text(
            self.alloc,
            self.calls
                .settle_next(&mut self.core, &Received::copied(bytes.as_bytes())),
        )
    }

    fn fail(&mut self) -> Result<String, Fail> {
        match self.calls.fail_next(&mut self.core) {
            Some(client) => number_text(self.alloc, "client ", Some(client as u64)),
            None => number_text(self.alloc, "", None),
        }
    }

    // Bytes come at this time, in microseconds.
    fn come(&mut self, text: &str) -> &'static str {
        self.calls.note_came(text.parse::<u64>().unwrap_or(0));
        ""
    }

    // How many calls were answered in how many microseconds, how many of these took how long, and how many have failed.
    fn counts(&self) -> Result<String, Fail> {
        let tally = self.calls.tally();
        let mut text = format!(in self.alloc; "{} in {}:", tally.answered, tally.micros)?;
        for count in tally.spans() {
            write!(text, " {count}")?;
        }
        write!(text, ", {} failed", tally.failed)?;
        Ok(text)
    }

    fn output(&mut self) -> Result<String, Fail> {
        match self.core.take_output(0) {
            Ok(bytes) => shown(self.alloc, bytes.as_slice()),
            Err(_) => Err("no output")?,
        }
    }

    fn word(&mut self, verb: &str, text: &str) -> Result<&'static str, Fail> {
        match verb {
            "feed" => self.feed(text),
            "call" => Ok(self.call(dialect_of(text))),
            "wait" => Ok(self.wait(false)),
            "first" => Ok(self.wait(true)),
            "go" => Ok(self.go()),
            "poll" => Ok(self.poll()),
            "came" => Ok(self.come(text)),
            _ => Err("no such event")?,
        }
    }
}

impl Stage for Link {
    fn answer(&mut self, event: &str, _want: &str) -> Result<String, Fail> {
        let (verb, text) = cut(event);
        match verb {
            "asked" => shown(self.alloc, self.asked.to_vec(self.alloc)?.as_slice()),
            "oldest" => number_text(self.alloc, "", self.calls.oldest()),
            "answer" => self.settle(text),
            "fail" => self.fail(),
            "counts" => self.counts(),
            "output" => self.output(),
            _ => Ok(self.word(verb, text)?.to_string(self.alloc)?),
        }
    }
}

fn play(alloc: Global, example: &str) -> Result<(), Fail> {
    let (name, lines) = first_line(example);
    let mut link = make_link(alloc)?;
    play_lines(&mut link, name, lines)
}

#[test]
fn calls_of_a_link(rt: HostRuntime) -> Result<(), Fail> {
    for example in texts().split("\n\n") {
        play(rt.alloc(), example)?;
    }
    Ok(())
}
