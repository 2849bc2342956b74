//! Worked jobs: each form of route with outcomes of each of its calls, on small trees. Expected texts were written by hand
//! from the definition of a word; a call is told as its server and the first letter of what it is asked, a copy's as `c` and
//! the number of the call whose data it carries.

ghost use Rattle.std.specs.Prelude.{IfOk};
ghost use Rattle.mc_types.specs.Fits.{Fits, IsAnswer, FitsFetch, FitsStore, FitsCas, FitsDelete};
ghost use Rattle.fresh_runs.specs.Single.{FitsOutcome};

use crate::trees::tree_of;
use examples_tables::tellers::{Teller, all_told, halves, push_number, push_word};
use mc_types::{Answer, Ask, Body, Dialect, Key, Op, Origin, Outcome, ServerId, SharedAsk, Tokens};
use route_job::{Job, JobStep};
use route_json::ConfigFault;
use route_json::names::op_of;
use route_tree::{Tree, TreeForm};
use std::alloc::{AllocError, Global};
use std::test::Fail;

// A route, a command, the outcomes of its calls; and then the calls, with the reply or what is called next.
//
// Of a get the outcome is a miss (`m`) or a hit of that byte, of a store stored (`s`) or not, of a cas another value (`x`)
// or no item, of a delete deleted (`d`) or no item; `e` is an error line, and `f` a call that failed.
fn table() -> &'static str {
    r#"# A server is called once.
server: get => 7g
server: get h => 7g = hit of 0
server: get m => 7g = miss
server: set f => 7s = failed
# Null and error call nothing.
null: get => = miss
null: add => = not stored
null: delete => = not found
error: get => = failed
# All-sync gives the worst reply.
all_sync: delete d => 1d 2d
all_sync: delete dd => 1d 2d = deleted
all_sync: delete df => 1d 2d = failed
all_sync: delete fd => 1d 2d = failed
all_sync: delete nd => 1d 2d = not found
all_sync: get hm => 1g 2g = miss
all_sync: get hi => 1g 2g = hit of 0
# Exists outranks not found.
all_sync: cas nx => 1c 2c = exists
all_sync: cas xn => 1c 2c = exists
# Failover passes over errors.
failover: get m => 1g = miss
failover: get f => 1g 2g
failover: get e => 1g = error
failover: get fh => 1g 2g = hit of 1
failover: get ff => 1g 2g = failed
failover: set fs => 1s 2s = stored
# Miss-failover looks for a hit.
miss_failover: get h => 1g = hit of 0
miss_failover: get m => 1g 2g
miss_failover: get mh => 1g 2g = hit of 1
miss_failover: get fm => 1g 2g = miss
miss_failover: set f => 1s = failed
# Warm-up fills the cold side.
warm_up: get h => 1g = hit of 0
warm_up: get mm => 1g 2g = miss
warm_up: get ff => 1g 2g = failed
warm_up: get mh => 1g 2g 1ac1
warm_up: get mhs => 1g 2g 1ac1 = hit of 1
warm_up: get mhf => 1g 2g 1ac1 = hit of 1
warm_up: set s => 1s = stored
warm_up: delete d => 1d = deleted
# A gets is answered by the cold side.
warm_up: gets mhsm => 1g 2g 1ac1 1g = miss
# An operation has its own routes.
by_operation: delete dn => 1d 2d = not found
by_operation: get h => 5g = hit of 0
# Replicas, and a warm-up with deletes to both servers.
replicas: get fh => 1g 2g = hit of 1
replicas: delete df => 1d 2d = failed
warm_up_with_deletes: get mhs => 1g 2g 1ac1 = hit of 1
warm_up_with_deletes: delete dd => 1d 2d = deleted"#
}

// The route of this name.
fn route_of(name: &str) -> &'static str {
    match name {
        "null" => r#""NullRoute""#,
        "error" => r#""ErrorRoute""#,
        "all_sync" => r#""AllSyncRoute|Pool|s1-s2""#,
        "failover" => r#""FailoverRoute|Pool|s1-s2""#,
        "miss_failover" => r#""MissFailoverRoute|Pool|s1-s2""#,
        "warm_up" =>
            r#"{"type":"WarmUpRoute","cold":"PoolRoute|s1","warm":"PoolRoute|s2","exptime":60}"#,
        _ => route_with_deletes(name),
    }
}

// The route of this name: deletes go to both servers, all else by the default.
fn route_with_deletes(name: &str) -> &'static str {
    match name {
        "by_operation" =>
            r#"{"type":"OperationSelectorRoute","operation_policies":{"delete":"AllSyncRoute|Pool|s1-s2"},"default_policy":"PoolRoute|s5-s6"}"#,
        "replicas" =>
            r#"{"type":"OperationSelectorRoute","operation_policies":{"delete":"AllSyncRoute|Pool|s1-s2"},"default_policy":"FailoverRoute|Pool|s1-s2"}"#,
        "warm_up_with_deletes" =>
            r#"{"type":"OperationSelectorRoute","operation_policies":{"delete":"AllSyncRoute|Pool|s1-s2"},"default_policy":{"type":"WarmUpRoute","cold":"PoolRoute|s1","warm":"PoolRoute|s2","exptime":60}}"#,
        _ => "",
    }
}

// The tree of this name: server 7 itself, or that of its route.
fn tree_named(alloc: Global, name: &str) -> Result<Tree, ConfigFault> {
    if name == "server" {
        return Ok(Tree::new(alloc, TreeForm::Server(ServerId::new(7)))?);
    }
    tree_of(alloc, route_of(name))
}

// What the letter means for a get: a miss (`m`), or a hit of that byte.
fn fetched(alloc: Global, with_cas: bool, letter: u8) -> Result<Answer, AllocError>
    ensures fits { IfOk result (FitsFetch with_cas) }
    ensures ranges { IfOk result IsAnswer }
{
    if letter == b'm' {
        return Ok(Answer::Miss);
    }
    Ok(Answer::Hit {
        flags: 0,
        body: Body::from_slice(alloc, &[letter])?,
        cas: if with_cas { Some(1) } else { None },
    })
}

// For a store: stored (`s`) or not.
fn stored(letter: u8) -> Answer
    ensures fits { FitsStore result }
    ensures ranges { IsAnswer result }
{
    if letter == b's' {
        Answer::Stored
    } else {
        Answer::NotStored
    }
}

// For a cas: another value (`x`) or no item.
fn compared(letter: u8) -> Answer
    ensures fits { FitsCas result }
    ensures ranges { IsAnswer result }
{
    if letter == b'x' {
        Answer::Exists
    } else {
        Answer::NotFound
    }
}

// For a delete: deleted (`d`) or no item.
fn deleted(letter: u8) -> Answer
    ensures fits { FitsDelete result }
    ensures ranges { IsAnswer result }
{
    if letter == b'd' {
        Answer::Deleted
    } else {
        Answer::NotFound
    }
}

// The answer that the letter means for this ask; `e` is an error line, as is every letter for other operations.
fn answer_of(alloc: Global, ask: &Ask, letter: u8) -> Result<Answer, AllocError>
    ensures { IfOk result (Fits ask.now) }
{
    if letter == b'e' {
        return Ok(Answer::Error);
    }
    match ask.dialect {
        Dialect::Meta => Ok(Answer::Error),
        Dialect::Classic => match ask.op {
            Op::Get => {
                let answer = fetched(alloc, ask.with_cas, letter)?;
                Ok(answer)
            }
            Op::Set => Ok(stored(letter)),
            Op::Add => Ok(stored(letter)),
            Op::Cas => Ok(compared(letter)),
            Op::Delete => Ok(deleted(letter)),
            _ => Ok(Answer::Error),
        },
    }
}

// The outcome that the letter means; `f` is a call that failed.
fn outcome_of(alloc: Global, ask: &Ask, letter: u8) -> Result<Outcome, AllocError>
    ensures { IfOk result (FitsOutcome ask.now) }
{
    if letter == b'f' {
        return Ok(Outcome::Failed);
    }
    let answer = answer_of(alloc, ask, letter)?;
    Ok(Outcome::Answered(answer))
}

// The first letter of the operation.
fn letter_of(op: Op) -> &'static str {
    match op {
        Op::Get => "g",
        Op::Set => "s",
        Op::Add => "a",
        Op::Cas => "c",
        Op::Delete => "d",
        _ => "?",
    }
}

// The next call, told as its server, its operation and its origin.
fn push_call(out: &mut String, server: ServerId, op: Op, origin: Origin) -> Result<(), AllocError> {
    push_number(out, server.number())?;
    out.push_str(letter_of(op))?;
    match origin {
        Origin::CopyOf(call) => write!(out, "c{call}"),
        Origin::Client => Ok(()),
    }
}

fn reply_word(reply: &Answer) -> &'static str {
    match reply {
        Answer::Hit { .. } => "hit",
        Answer::Miss => "miss",
        Answer::Stored => "stored",
        Answer::NotStored => "not stored",
        Answer::Exists => "exists",
        Answer::NotFound => "not found",
        Answer::Deleted => "deleted",
        Answer::Error => "error",
        Answer::ServerError(_) => "failed",
        _ => "other",
    }
}

// The reply, and the call whose item it shows.
fn push_end(out: &mut String, reply: &Answer, from: Option<u64>) -> Result<(), AllocError> {
    push_word(out, "= ")?;
    out.push_str(reply_word(reply))?;
    match from {
        Some(call) => write!(out, " of {call}"),
        None => Ok(()),
    }
}

// One call with the outcome that the letter means.
fn step(alloc: Global, job: &mut Job, letter: u8, out: &mut String) -> Result<(), AllocError> {
    let outcome = match job.next() {
        JobStep::Call {
            server,
            ask,
            origin,
        } => {
            push_call(out, server, ask.get().op, origin)?;
            outcome_of(alloc, ask.get(), letter)?
        }
        JobStep::Done(_) => return push_word(out, "done too early"),
    };
    job.take(alloc, outcome)
}

// The reply, or what is called next.
fn push_next(out: &mut String, job: &Job) -> Result<(), AllocError> {
    match job.next() {
        JobStep::Call {
            server,
            ask,
            origin,
        } => push_call(out, server, ask.get().op, origin),
        JobStep::Done(done) => push_end(out, &done.reply, done.from),
    }
}

// The calls with these outcomes, and then the reply or the next call.
fn told_of(alloc: Global, job: &mut Job, letters: &[u8]) -> Result<String, AllocError> {
    let mut out = String::new(alloc);
    for letter in letters {
        step(alloc, job, *letter, &mut out)?;
    }
    push_next(&mut out, job)?;
    Ok(out)
}

// A classic ask.
fn ask_of(alloc: Global, key: Key, op: Op, with_cas: bool) -> Ask {
    let mut ask = Ask::bare(Dialect::Classic, op, key, Tokens::new(alloc));
    ask.with_cas = with_cas;
    ask
}

fn job_of(alloc: Global, tree: &Tree, ask: Ask) -> Result<Job, AllocError> {
    Job::new(alloc, tree, SharedAsk::new(alloc, ask)?)
}

// A command of the key `a`; its hash is e40c292c, which is 0 modulo 2 and 1 modulo 3.
fn told_by(
    alloc: Global,
    tree: &Tree,
    op: Op,
    with_cas: bool,
    letters: &[u8],
) -> Result<String, AllocError> {
    match Key::read(b"a") {
        Ok(key) => {
            let mut job = job_of(alloc, tree, ask_of(alloc, key, op, with_cas))?;
            told_of(alloc, &mut job, letters)
        }
        Err(_) => "a is no key".to_string(alloc),
    }
}

fn told_on(alloc: Global, tree: &Tree, command: &str) -> Result<String, AllocError> {
    let (word, letters) = halves(command, " ");
    if word == "gets" {
        return told_by(alloc, tree, Op::Get, true, letters.as_bytes());
    }
    match op_of(word) {
        Some(op) => told_by(alloc, tree, op, false, letters.as_bytes()),
        None => "no such operation".to_string(alloc),
    }
}

struct OfJobs;

impl Teller for OfJobs {
    fn told(alloc: Global, example: &str) -> Result<String, AllocError> {
        let (name, command) = halves(example, ": ");
        match tree_named(alloc, name) {
            Ok(tree) => told_on(alloc, &tree, command),
            Err(fault) => fault.to_string(alloc),
        }
    }
}

#[test]
fn jobs(rt: HostRuntime) -> Result<(), Fail> {
    all_told::<OfJobs>(rt.alloc(), table())
}

// The server that is called next, if one is.
fn next_server(job: &Job) -> Option<ServerId> {
    match job.next() {
        JobStep::Call { server, .. } => Some(server),
        JobStep::Done(_) => None,
    }
}

// The next call fails.
fn fail_next(alloc: Global, job: &mut Job) -> Result<(), Fail> {
    match job.next() {
        JobStep::Call { .. } => {}
        JobStep::Done(_) => return Err(Fail::from("done too early")),
    }
    job.take(alloc, Outcome::Failed)?;
    Ok(())
}

// The tree takes two requests for memory and the ask one, and the command none: with the fourth request refused it still passes.
#[test]
fn a_command_of_a_pool_takes_no_memory(rt: HostRuntime) -> Result<(), Fail> {
    let alloc = rt.alloc();
    let pool = vec![in alloc; ServerId::new(5), ServerId::new(6)]?;
    let tree = Tree::new(alloc, TreeForm::Pool(pool))?;
    let key = Key::read(b"a").ok().ok_or("a is a key")?;
    let mut job = job_of(alloc, &tree, ask_of(alloc, key, Op::Get, false))?;
    assert!(rt; next_server(&job) == Some(ServerId::new(5)));
    fail_next(alloc, &mut job)?;
    assert!(rt; next_server(&job).is_none());
    Ok(())
}
