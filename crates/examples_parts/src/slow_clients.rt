//! Tests: clients that take their replies slowly, or not at all, over a wire in memory.

use crate::far_ends::{connect, may_take, then};
use crate::reading::{halves, key, number, same, text_of, wire};
use cache_tcp::client::{AfterTurn, CacheClient};
use cache_tcp::clock::UnixTime;
use cache_tcp::connection::Cache;
use examples_memory::{Act, Memory};
use mc_types::DATA_LIMIT;
use serve_wire::conn::{Conn, Limits};
use std::alloc::{AllocError, Global};
use std::test::Fail;

// A name, how many bytes are a backlog, and what happens. `hold K N` holds N bytes of data under a key of one letter, which differ from those of
// other keys. Of a client, 0 or 1, `gives` says what is to be read of it, with `(9 x)` for 9 times x; `takes` how many bytes more it takes; and
// `turn` what becomes of it after a turn, or `runs` after all turns in which something was left to do. Then come what is to be sent to it
// (`unsent`), how many bytes that is (`length`), and what it took and wasn't looked at yet (`taken`).
fn texts() -> &'static str {
    r"A get goes on where it stopped, and each item is shown as it is when its turn comes.
20
0 gives set a 0 0 1|1|set b 0 0 1|2|get a b a|
0 turn => waits
0 unsent => STORED|STORED|VALUE a 0 1|1|
1 takes 100
1 gives set a 0 0 1|5|
1 runs => waits
1 taken => STORED|
0 turn => waits
0 takes 20
0 turn => more
0 turn => waits
0 unsent => E a 0 1|1|VALUE b 0 1|2|
0 takes 100
0 runs => waits
0 taken => STORED|STORED|VALUE a 0 1|1|VALUE b 0 1|2|VALUE a 0 1|5|END|

Nothing is read while a backlog is left.
8
0 gives get a|get b|
0 turn => waits
0 gives get c|
0 turn => waits
0 unsent => END|END|
0 takes 6
0 runs => waits
0 unsent => ND|END|
0 takes 100
0 runs => waits
0 taken => END|END|END|

What came before the end is answered, and nothing after it.
8
0 gives get a|get b|quit|get c|
0 turn => waits
0 takes 100
0 runs => done
0 taken => END|END|"
}

// Examples as in `texts`, with items of 1 MiB. `values K N` and `replies K N` let the client take as many bytes as the value of a key is
// shown by, without END or with it, N times, and say how often these were its bytes.
fn large() -> &'static str {
    r"Gets of 1 MiB by a client that takes nothing, while another is answered; then it takes some.
1048576
hold b 1048576
0 gives (32 get b|)
0 turn => waits
0 length => 1048602
1 takes 100
1 gives get a|
1 runs => waits
1 taken => END|
0 turn => waits
0 length => 1048602
0 replies b 4 => 4
0 length => 1048602

One get of many keys of 1 MiB, of which all is taken in the end.
1048576
hold b 1048576
hold c 1048576
0 gives get a c(3  b)|
0 turn => waits
0 length => 1048597
1 takes 100
1 gives get a|
1 runs => waits
1 taken => END|
0 values c 1 => 1
0 values b 3 => 3
0 takes 100
0 runs => waits
0 taken => END|"
}

// What serves clients: one cache, over one wire.
#[derive(Drop)]
struct Server {
    alloc: Global,
    cache: Cache,
    wire: Memory,
}

// A client, what its far end is called, and how much of what that took was looked at.
#[derive(Drop)]
struct SlowClient {
    end: CacheClient,
    name: u32,
    seen: usize,
}

// Two clients of one cache.
#[derive(Drop)]
struct Clients {
    server: Server,
    first: SlowClient,
    second: SlowClient,
}

// The text with what stands between ( and ) written so often.
fn repeated(alloc: Global, text: &str) -> Result<String, Fail> {
    let (front, rest) = text.split_once("(").unwrap_or((text, "0 )"));
    let (inside, back) = rest.split_once(")").unwrap_or((rest, ""));
    let (count, part) = halves(inside, " ");
    let mut all = front.to_string(alloc)?;
    for _ in 0..number(count)? {
        all.push_str(part)?;
    }
    all.push_str(back)?;
    Ok(all)
}

fn word(after: AfterTurn) -> &'static str {
    match after {
        AfterTurn::More => "more",
        AfterTurn::Waits => "waits",
        AfterTurn::Done => "done",
    }
}

// The data that are held under a key.
fn data_of(alloc: Global, name: &str, count: u32) -> Result<Vec<u8>, AllocError> {
    let first = name.as_bytes().first().copied().unwrap_or(0);
    let mut data = Vec::new(alloc);
    for at in 0..count {
        data.push(first.wrapping_add((at % 251) as u8))?;
    }
    Ok(data)
}

// What a value of 1 MiB is shown as.
fn value_of(alloc: Global, name: &str, end: &str) -> Result<Vec<u8>, AllocError> {
    let mut text = format!(in alloc; "VALUE {name} 0 {DATA_LIMIT}\r\n")?.into_bytes();
    text.extend_from_slice(data_of(alloc, name, DATA_LIMIT)?.as_slice())?;
    text.extend_from_slice(end.as_bytes())?;
    Ok(text)
}

fn shown(alloc: Global, bytes: &[u8]) -> Result<String, AllocError> {
    if bytes.is_empty() {
        return "nothing".to_string(alloc);
    }
    text_of(alloc, bytes)
}

impl Server {
    fn client(&mut self, name: u32, backlog: usize) -> Result<SlowClient, Fail> {
        let number = connect(self.alloc, &mut self.wire, name)?;
        let limits = Limits {
            held: 65_536,
            unsent: backlog,
        };
        Ok(SlowClient {
            end: CacheClient::new(self.alloc, Conn::new(self.alloc, number, limits)),
            name,
            seen: 0,
        })
    }

    fn give(&mut self, client: &mut SlowClient, text: &str) -> Result<(), Fail> {
        let text = repeated(self.alloc, text)?;
        let bytes = wire(self.alloc, text.as_str())?.into_bytes();
        client.end.conn.readable = true;
        then(&mut self.wire, client.name, Act::Sends(bytes))
    }

    fn let_take(&mut self, client: &mut SlowClient, count: usize) -> Result<(), Fail> {
        client.end.conn.writable = true;
        may_take(&mut self.wire, client.name, count)
    }

    fn turn(&mut self, client: &mut SlowClient) -> AfterTurn {
        client
            .end
            .turn(&mut self.wire, &mut self.cache, UnixTime { seconds: 0 })
    }

    fn run(&mut self, client: &mut SlowClient) -> AfterTurn {
        for _ in 0..1_000 {
            let after = self.turn(client);
            if after != AfterTurn::More {
                return after;
            }
        }
        AfterTurn::More
    }

    // What the client took and wasn't looked at yet.
    fn taken(&self, client: &mut SlowClient) -> &[u8] {
        let taken = self.wire.taken(client.name);
        let new = taken.get(client.seen..).unwrap_or(b"".as_slice());
        client.seen = taken.len();
        new
    }

    // The client takes as many bytes as these, so often: how often it took these.
    fn taken_often(
        &mut self,
        client: &mut SlowClient,
        part: &[u8],
        times: u32,
    ) -> Result<u32, Fail> {
        let mut count: u32 = 0;
        for _ in 0..times {
            self.let_take(client, part.len())?;
            self.run(client);
            if self.taken(client) == part {
                count = count.saturating_add(1);
            }
        }
        Ok(count)
    }

    // A key and how often it is shown.
    fn often(&mut self, client: &mut SlowClient, text: &str, end: &str) -> Result<String, Fail> {
        let (name, times) = halves(text, " ");
        let part = value_of(self.alloc, name, end)?;
        let count = self.taken_often(client, part.as_slice(), number(times)?)?;
        Ok(count.to_string(self.alloc)?)
    }

    // What was sent to a client, or is to be.
    fn told(&self, client: &mut SlowClient, verb: &str) -> Result<String, AllocError> {
        match verb {
            "unsent" => shown(
                self.alloc,
                client.end.conn.unsent.to_vec(self.alloc)?.as_slice(),
            ),
            "length" => client.end.conn.unsent.len().to_string(self.alloc),
            _ => shown(self.alloc, self.taken(client)),
        }
    }

    fn event(&mut self, client: &mut SlowClient, text: &str) -> Result<String, Fail> {
        let (verb, text) = halves(text, " ");
        match verb {
            "gives" => self.give(client, text)?,
            "takes" => self.let_take(client, number(text)? as usize)?,
            "turn" => return Ok(word(self.turn(client)).to_string(self.alloc)?),
            "runs" => return Ok(word(self.run(client)).to_string(self.alloc)?),
            "values" => return self.often(client, text, "\r\n"),
            "replies" => return self.often(client, text, "\r\nEND\r\n"),
            _ => return Ok(self.told(client, verb)?),
        }
        Ok(String::new(self.alloc))
    }
}

fn hold(alloc: Global, cache: &mut Cache, text: &str) -> Result<(), Fail> {
    let (name, count) = halves(text, " ");
    let data = data_of(alloc, name, number(count)?)?;
    if data.len() > DATA_LIMIT as usize {
        return Err(Fail::new("too long"));
    }
    Ok(cache.hold(&key(name)?, data.as_slice())?)
}

impl Clients {
    fn new(alloc: Global, backlog: usize) -> Result<Clients, Fail> {
        let mut server = Server {
            alloc,
            cache: Cache::new(alloc, 16)?,
            wire: Memory::new(alloc),
        };
        let first = server.client(0, backlog)?;
        let second = server.client(1, backlog)?;
        Ok(Clients {
            server,
            first,
            second,
        })
    }

    fn answer(&mut self, text: &str) -> Result<String, Fail> {
        let (who, rest) = halves(text, " ");
        match who {
            "0" => self.server.event(&mut self.first, rest),
            "1" => self.server.event(&mut self.second, rest),
            _ => {
                let alloc = self.server.alloc;
                hold(alloc, &mut self.server.cache, rest)?;
                Ok(String::new(alloc))
            }
        }
    }

    fn step(&mut self, name: &str, line: &str) -> Result<(), Fail> {
        let (event, want) = halves(line, " => ");
        let got = self.answer(event)?;
        same(name, line, got.as_str(), want)
    }
}

fn example(alloc: Global, text: &str) -> Result<(), Fail> {
    let (name, rest) = halves(text, "\n");
    let (backlog, lines) = halves(rest, "\n");
    let mut clients = Clients::new(alloc, number(backlog)? as usize)?;
    for line in lines.lines() {
        clients.step(name, line)?;
    }
    Ok(())
}

#[test]
fn what_slow_clients_are_sent(rt: HostRuntime) -> Result<(), Fail> {
    for text in texts().split("\n\n") {
        example(rt.alloc(), text)?;
    }
    Ok(())
}

#[test]
fn what_slow_clients_are_sent_of_large_items(rt: HostRuntime) -> Result<(), Fail> {
    for text in large().split("\n\n") {
        example(rt.alloc(), text)?;
    }
    Ok(())
}
