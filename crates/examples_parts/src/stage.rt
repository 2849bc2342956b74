//! A core that is played by lines of text: an event, and after an arrow what it gives.

ghost use Rattle.std.specs.Prelude.{◌≡◌, IfOk, IfSome};
ghost use Rattle.core_proxy.specs.Settles.{FitsCall};
ghost use Rattle.route_tree.specs.Route as route;

use crate::answering::FixedServers;
use crate::reading::ask;
use core_accepted::{Beginnings, LoadFault, ServedCore};
use core_proxy::{Core, CoreFault, CoreLimits, Poll, Sharing, Ticket};
use gate_check::judge;
use gate_growth::ledger::Beginning;
use mc_types::{Origin, Outcome, ServerId, SharedAsk};
use route_json::{Config, read_config};
use route_tree::{Tree, TreeForm};
use std::alloc::{AllocError, Global};
use std::test::Fail;

// After how many calls of a client no more of them are answered at once: more than any example makes.
const MOST_CALLS: u64 = 100;

// A core by itself, or one that is served by a gate's word.
#[derive(Drop)]
enum Played {
    Bare(Core),
    Gated(ServedCore),
}

/// A core, the tickets that it gave out and that weren't handed back, and servers that answer its calls at once.
#[derive(Drop)]
pub struct CoreStage {
    alloc: Global,
    core: Played,
    tickets: Vec<Ticket>,
    servers: FixedServers,
}

// What is told of an event: a word or two, and a number after them if there is one.
#[derive(Clone, Copy)]
struct ToldReply {
    words: &'static str,
    number: Option<u64>,
}

fn word(words: &'static str) -> ToldReply {
    ToldReply {
        words,
        number: None,
    }
}

fn yes_or_no(is_so: bool) -> ToldReply {
    word(if is_so { "yes" } else { "no" })
}

fn number(words: &'static str, number: u64) -> ToldReply {
    ToldReply {
        words,
        number: Some(number),
    }
}

fn words_of(fault: CoreFault) -> &'static str {
    match fault {
        CoreFault::TooManyClients => "too many clients",
        CoreFault::NoClient => "no client",
        CoreFault::InputFull => "input full",
        CoreFault::UnderWay => "under way",
        CoreFault::NoMemory => "no memory",
        CoreFault::NoTicket => "no ticket",
        CoreFault::Spent => "spent",
    }
}

fn done(given: Result<(), CoreFault>) -> ToldReply {
    match given {
        Ok(()) => word("ok"),
        Err(fault) => word(words_of(fault)),
    }
}

fn polled(poll: &Poll) -> ToldReply {
    match poll {
        Poll::Idle => word("idle"),
        Poll::Own => word("own"),
        Poll::Refused => word("refused"),
        Poll::Call(ticket) => number("call ", ticket.number),
        Poll::Waiting => word("waiting"),
        Poll::Queued => word("queued"),
        Poll::Busy => word("busy"),
        Poll::Did(note) => number("did ", note.number),
    }
}

// The same where no call is handed out: what is waited for isn't told apart.
fn served(poll: &Poll) -> ToldReply {
    match poll {
        Poll::Waiting | Poll::Queued | Poll::Busy => word("waits"),
        _ => polled(poll),
    }
}

// What these servers answer to a core's call that is out.
#[tactic(auto, using(crate::proofs::Fitting::fits_called))]
fn outcome_of(core: &Core, number: u64, servers: &mut FixedServers) -> Option<Outcome>
    ensures { IfSome result (λ outcome. FitsCall core.now number outcome) }
{
    match core.called(number) {
        None => None,
        Some(call) => Some(servers.answer(call)),
    }
}

// The call of this ticket is settled by what these servers answer to it.
fn answer_bare(
    core: &mut Core,
    ticket: Ticket,
    servers: &mut FixedServers,
) -> Result<(), CoreFault> {
    match outcome_of(core, ticket.number, servers) {
        None => Err(CoreFault::NoTicket),
        Some(outcome) => core.settle(ticket, outcome),
    }
}

// A client is polled, and what a poll hands out is answered by these servers, until a poll tells something else.
fn serve_bare(core: &mut Core, client: usize, servers: &mut FixedServers) -> ToldReply {
    for _call in 0..MOST_CALLS {
        match core.poll(client) {
            Ok(Poll::Call(ticket)) => {
                if let Err(fault) = answer_bare(core, ticket, servers) {
                    return word(words_of(fault));
                }
            }
            Ok(poll) => return served(&poll),
            Err(fault) => return word(words_of(fault)),
        }
    }
    word("more calls")
}

impl Played {
    fn open(&mut self) -> Result<usize, CoreFault> {
        match self {
            Played::Bare(core) => core.open_client(),
            Played::Gated(core) => core.open_client(),
        }
    }

    fn feed(&mut self, client: usize, piece: &[u8]) -> Result<(), CoreFault> {
        match self {
            Played::Bare(core) => core.feed(client, piece),
            Played::Gated(core) => core.feed(client, piece),
        }
    }

    fn poll(&mut self, client: usize) -> Result<Poll, CoreFault> {
        match self {
            Played::Bare(core) => core.poll(client),
            Played::Gated(core) => core.poll(client),
        }
    }

    fn serve(&mut self, client: usize, servers: &mut FixedServers) -> Result<ToldReply, Fail> {
        match self {
            Played::Bare(core) => Ok(serve_bare(core, client, servers)),
            Played::Gated(_) => Err("a core with a gate is served in steps")?,
        }
    }

    fn answer(&mut self, ticket: Ticket, servers: &mut FixedServers) -> Result<ToldReply, Fail> {
        match self {
            Played::Bare(core) => Ok(done(answer_bare(core, ticket, servers))),
            Played::Gated(_) => Err("the calls of a core with a gate fail")?,
        }
    }

    fn fail(&mut self, ticket: Ticket) -> Result<(), CoreFault> {
        match self {
            Played::Bare(core) => core.settle(ticket, Outcome::Failed),
            Played::Gated(core) => core.settle(ticket, Outcome::Failed),
        }
    }

    fn output(&mut self, client: usize) -> Result<Vec<u8>, CoreFault> {
        match self {
            Played::Bare(core) => core.take_output(client),
            Played::Gated(core) => core.take_output(client),
        }
    }

    fn close(&mut self, client: usize) -> Result<(), CoreFault> {
        match self {
            Played::Bare(core) => core.close(client),
            Played::Gated(core) => core.close(client),
        }
    }

    fn leave_line(&mut self, client: usize) -> bool {
        match self {
            Played::Bare(core) => core.leave_line(client),
            Played::Gated(core) => core.leave_line(client),
        }
    }

    fn is_closed(&self, client: usize) -> bool {
        match self {
            Played::Bare(core) => core.is_closed(client),
            Played::Gated(core) => core.is_closed(client),
        }
    }

    fn is_out(&self) -> bool {
        match self {
            Played::Bare(core) => core.is_out(),
            Played::Gated(core) => core.is_out(),
        }
    }

    // The number of the generation that what the text says is.
    fn reload(&mut self, alloc: Global, text: &str) -> Result<u32, Fail> {
        match self {
            Played::Bare(core) => reload_bare(core, tree(alloc, text)?),
            Played::Gated(core) => reload_gated(alloc, core, config(alloc, text)?),
        }
    }
}

fn reload_bare(core: &mut Core, tree: Tree) -> Result<u32, Fail> {
    match core.reload(tree) {
        Ok(number) => Ok(number),
        Err(_) => Err("too many generations")?,
    }
}

fn reload_gated(alloc: Global, core: &mut ServedCore, config: Config) -> Result<u32, Fail> {
    match core.load(alloc, config) {
        Ok(number) => Ok(number),
        Err(LoadFault::OtherServers) => Err("the servers have other numbers")?,
        Err(LoadFault::Refused(_)) => Err("the configuration is refused")?,
    }
}

// The trees of the examples: no server, server 0, a pool of three servers, server 0 warmed up from server 1, and server 0 warmed up from itself.
fn tree(alloc: Global, name: &str) -> Result<Tree, Fail> {
    match name {
        "null" => Ok(Tree::new(alloc, TreeForm::Null)?),
        "server" => Ok(server(alloc, 0)?),
        "three servers" => Ok(three_servers(alloc)?),
        "warm-up" => Ok(warm_up(alloc, 1)?),
        "warm-up of itself" => Ok(warm_up(alloc, 0)?),
        _ => Err("no tree has this name")?,
    }
}

fn server(alloc: Global, number: u32) -> Result<Tree, AllocError>
    ensures { IfOk result (λ tree. tree ≡ route.Server number) }
{
    Tree::new(alloc, TreeForm::Server(ServerId::new(number)))
}

fn three_servers(alloc: Global) -> Result<Tree, AllocError> {
    let servers = [ServerId::new(0), ServerId::new(1), ServerId::new(2)];
    let pool = Vec::from_slice(alloc, servers.as_slice())?;
    Tree::new(alloc, TreeForm::Pool(pool))
}

fn warm_up(alloc: Global, warm: u32) -> Result<Tree, AllocError> {
    let cold = Box::new(alloc, server(alloc, 0)?)?;
    let warm = Box::new(alloc, server(alloc, warm)?)?;
    let form = TreeForm::WarmUp {
        cold,
        warm,
        exptime: 0,
    };
    Tree::new(alloc, form)
}

fn config(alloc: Global, text: &str) -> Result<Config, Fail> {
    Ok(read_config(alloc, text)?)
}

// The limits of the examples: those of scripts, or so many commands of a client and so many calls at a server.
fn limits(text: &str) -> CoreLimits {
    let (depth, window, sharing) = match text {
        "depth 1, alone" => (1, 4, Sharing::Alone),
        "depth 2, alone" => (2, 4, Sharing::Alone),
        "depth 2, shared" => (2, 4, Sharing::Shared),
        "depth 16, shared" => (16, 16, Sharing::Shared),
        _ => return CoreLimits::of_scripts(),
    };
    CoreLimits {
        clients: 64,
        held: 2_097_152,
        depth,
        window,
        sharing,
        version: None,
    }
}

// Servers that held nothing before their first call, or those of the first configuration what its tree can have put there.
fn own_begun() -> Beginnings {
    Beginnings {
        opened: Beginning::Own,
        added: Beginning::Own,
    }
}

fn gated_core(alloc: Global, text: &str, begun: Beginnings) -> Result<ServedCore, Fail> {
    match judge(alloc, config(alloc, text)?) {
        Ok(accepted) => Ok(ServedCore::new_from(alloc, accepted, begun, CoreLimits::of_scripts())?),
        Err(_) => Err("the gate refuses the configuration")?,
    }
}

// A core as the text says: `configuration: JSON`, `own: JSON` where servers began so, or the name of a tree and the limits.
fn core(alloc: Global, text: &str) -> Result<Played, Fail> {
    match text.split_once(": ") {
        Some(("configuration", json)) => {
            Ok(Played::Gated(gated_core(alloc, json, Beginnings::any())?))
        }
        Some(("own", json)) => Ok(Played::Gated(gated_core(alloc, json, own_begun())?)),
        Some((name, rest)) => Ok(Played::Bare(Core::unchecked(
            alloc,
            tree(alloc, name)?,
            limits(rest),
        ))),
        None => Err("no core")?,
    }
}

// A ticket that no core gave out, with an ask like that of the call that is out.
#[tactic(auto, using(crate::proofs::Fitting::same_is_ask))]
fn forged(alloc: Global, number: u64) -> Result<Ticket, Fail> {
    let ask = SharedAsk::new(alloc, ask(alloc, "get a|")?)?;
    Ok(Ticket {
        ask,
        number,
        origin: Origin::Client,
        server: ServerId::new(0),
    })
}

// 2,097,152 letters.
fn two_mebibytes(alloc: Global) -> Result<Vec<u8>, AllocError> {
    let mut piece = Vec::new(alloc);
    piece.resize(2_097_152, b'a')?;
    Ok(piece)
}

// The ticket of this number, if it was given out and not handed back.
fn take(tickets: &mut Vec<Ticket>, number: u64) -> Option<Ticket> {
    for at in 0..tickets.len() {
        if tickets
            .get(at)
            .is_some_and(|ticket| ticket.number == number)
        {
            return Some(tickets.remove(at));
        }
    }
    None
}

impl CoreStage {
    /// A core as the text says, from which no ticket was given out.
    pub fn new(alloc: Global, text: &str) -> Result<CoreStage, Fail> {
        Ok(CoreStage {
            alloc,
            core: core(alloc, text)?,
            tickets: Vec::new(alloc),
            servers: FixedServers::new(alloc),
        })
    }

    fn open(&mut self) -> ToldReply {
        match self.core.open() {
            Ok(client) => number("", client as u64),
            Err(fault) => word(words_of(fault)),
        }
    }

    // So many clients come; what the first one is told that isn't taken, if one isn't.
    fn open_all(&mut self, count: u64) -> ToldReply {
        for _ in 0..count {
            if let Err(fault) = self.core.open() {
                return word(words_of(fault));
            }
        }
        word("ok")
    }

    fn feed(&mut self, client: usize, text: &str) -> Result<ToldReply, AllocError> {
        let piece = text.replace(self.alloc, r"\r\n", "\r\n")?;
        Ok(done(self.core.feed(client, piece.as_bytes())))
    }

    fn fill(&mut self, client: usize) -> Result<ToldReply, AllocError> {
        let piece = two_mebibytes(self.alloc)?;
        Ok(done(self.core.feed(client, piece.as_slice())))
    }

    fn poll(&mut self, client: usize) -> Result<ToldReply, Fail> {
        match self.core.poll(client) {
            Ok(poll) => {
                let told = polled(&poll);
                self.keep(poll)?;
                Ok(told)
            }
            Err(fault) => Ok(word(words_of(fault))),
        }
    }

    fn keep(&mut self, poll: Poll) -> Result<(), Fail> {
        if let Poll::Call(ticket) = poll {
            if self.tickets.push(ticket).is_err() {
                return Err("no memory for a ticket")?;
            }
        }
        Ok(())
    }

    // The call of this number fails, whose ticket was given out.
    fn fail(&mut self, number: u64) -> Result<ToldReply, Fail> {
        match take(&mut self.tickets, number) {
            Some(ticket) => Ok(done(self.core.fail(ticket))),
            None => Err("no ticket of this number was given out")?,
        }
    }

    // The call of this number, whose ticket was given out, has the servers' answer.
    fn answer_call(&mut self, number: u64) -> Result<ToldReply, Fail> {
        match take(&mut self.tickets, number) {
            Some(ticket) => self.core.answer(ticket, &mut self.servers),
            None => Err("no ticket of this number was given out")?,
        }
    }

    /// Whether the core takes it that the call of this number fails.
    pub fn takes_failure(&mut self, number: u64) -> Result<bool, Fail> {
        match take(&mut self.tickets, number) {
            Some(ticket) => Ok(self.core.fail(ticket).is_ok()),
            None => Err("no ticket of this number was given out")?,
        }
    }

    // What the core says where a call is to fail by a ticket of this number that it didn't give out.
    fn forge(&mut self, number: u64) -> Result<ToldReply, Fail> {
        let ticket = forged(self.alloc, number)?;
        Ok(done(self.core.fail(ticket)))
    }

    fn output(&mut self, client: usize) -> Result<String, Fail> {
        match self.core.output(client) {
            Ok(bytes) => shown(self.alloc, bytes),
            Err(fault) => Ok(words_of(fault).to_string(self.alloc)?),
        }
    }

    fn reload(&mut self, text: &str) -> Result<ToldReply, Fail> {
        Ok(number("", self.core.reload(self.alloc, text)? as u64))
    }

    // Each call of the servers fails from now on.
    fn take_down(&mut self) -> ToldReply {
        self.servers.are_down = true;
        word("ok")
    }

    fn close(&mut self, client: usize) -> ToldReply {
        done(self.core.close(client))
    }

    // What is told of an event that is about a client or a number.
    fn told_of(&mut self, verb: &str, about: u64, text: &str) -> Result<ToldReply, Fail> {
        let client = about as usize;
        match verb {
            "open" => Ok(self.open_all(about)),
            "feed" => Ok(self.feed(client, text)?),
            "fill" => Ok(self.fill(client)?),
            "poll" => self.poll(client),
            "serve" => self.core.serve(client, &mut self.servers),
            "fail" => self.fail(about),
            "answer" => self.answer_call(about),
            "forge" => self.forge(about),
            "close" => Ok(self.close(client)),
            "leave" => Ok(yes_or_no(self.core.leave_line(client))),
            "closed" => Ok(yes_or_no(self.core.is_closed(client))),
            _ => Err("no such event")?,
        }
    }

    fn told(&mut self, verb: &str, rest: &str) -> Result<ToldReply, Fail> {
        match (verb, rest) {
            ("open", "") => Ok(self.open()),
            ("out", "") => Ok(yes_or_no(self.core.is_out())),
            ("calls", "") => Ok(number("", self.servers.calls)),
            ("servers", "down") => Ok(self.take_down()),
            ("reload", text) => self.reload(text),
            _ => {
                let (about, text) = cut(rest);
                self.told_of(verb, about.parse::<u64>()?, text)
            }
        }
    }

    // What an event gives, as text.
    fn answer(&mut self, event: &str) -> Result<String, Fail> {
        let (verb, rest) = cut(event);
        if verb == "output" {
            self.output(rest.parse::<usize>()?)
        } else {
            text_of(self.alloc, self.told(verb, rest)?)
        }
    }
}

// The first word, and what comes after the space.
fn cut(text: &str) -> (&str, &str) {
    text.split_once(' ').unwrap_or((text, ""))
}

fn text_of(alloc: Global, told: ToldReply) -> Result<String, Fail> {
    let mut text = told.words.to_string(alloc)?;
    if let Some(number) = told.number {
        text.push_str(number.to_string(alloc)?.as_str())?;
    }
    Ok(text)
}

// Output as it stands in the examples.
fn shown(alloc: Global, bytes: Vec<u8>) -> Result<String, Fail> {
    if bytes.is_empty() {
        return Ok("nothing".to_string(alloc)?);
    }
    let text = String::from_utf8(bytes)?;
    Ok(text.as_str().replace(alloc, "\r\n", r"\r\n")?)
}

// An event gives what stands after its arrow; a remark is passed over.
fn play_line(stage: &mut CoreStage, name: &str, line: &str) -> Result<(), Fail> {
    if line.starts_with("-- ") {
        return Ok(());
    }
    let (event, want) = line.split_once(" => ").ok_or("no arrow")?;
    let got = stage.answer(event)?;
    if got.as_str() != want {
        return Err(Fail::new(format_args!("{name}\n{event} => {got}")));
    }
    Ok(())
}

/// Plays these events.
pub fn play_lines(stage: &mut CoreStage, name: &str, lines: &str) -> Result<(), Fail> {
    for line in lines.lines() {
        play_line(stage, name, line)?;
    }
    Ok(())
}

fn play_example(alloc: Global, name: &str, lines: &str) -> Result<(), Fail> {
    let (first, rest) = lines.split_once('\n').ok_or("no events")?;
    let mut stage = CoreStage::new(alloc, first)?;
    play_lines(&mut stage, name, rest)
}

/// Plays each example of a text: its name, its core, and its events.
pub fn play(alloc: Global, text: &str) -> Result<(), Fail> {
    for example in text.split("\n\n") {
        let (name, lines) = example.split_once('\n').ok_or("no core")?;
        play_example(alloc, name, lines)?;
    }
    Ok(())
}
