//! What a running proxy tells of itself, and the families of these numbers.

ghost use Rattle.std.specs.Prelude.{◌≡◌, ◌++◌, [], ◌∷◌, IfOk, OnOk, codes, string_bytes, map as each_of, flat_map};
ghost use Rattle.watch_admin.specs.declared.families.Amount.TheVariants.{Count};
ghost use Rattle.watch_admin.specs.Told.{label_read, sample_read, command_count, command_counts, one_labelled, came_counts, ended_counts, server_count, made_count, outcome_count, outcome_counts, TellsCommands, TellsClients, TellsMessages, TellsBegun, TellsCalls, TellsServers, TellsUnplaced, Tells, IsAmong, AddsTo};

use crate::families::{Amount, Family, Label, MetricKind, Sample, Samples, Spread};
use std::alloc::{AllocError, Global};

/// The program and what it uses.
#[derive(Drop)]
pub struct ProcessNumbers {
    pub version: String,
    /// Whether it was proved before it was built.
    pub proved: bool,
    /// For how long it has run.
    pub uptime_ms: u64,
    /// How long processors worked for it.
    pub processor_ms: u64,
    /// How much of its memory is in use, in bytes.
    pub resident_bytes: u64,
    /// How many of its lines could not be written.
    pub lost_lines: u64,
}

/// Its configurations.
#[derive(Clone, Copy)]
pub struct ConfigNumbers {
    /// Which one is in use, the first being 1.
    pub generation: u64,
    /// How many texts of its file were loaded since the start.
    pub accepted: u64,
    /// How many said what the one in use says.
    pub unchanged: u64,
    /// How many were not loaded, for whatever reason.
    pub refused: u64,
}

/// The last text of its file that was not loaded.
#[derive(Drop)]
pub struct RefusalNumbers {
    /// What was said of it, in a line.
    pub line: String,
    /// When that was, in milliseconds from the begin of 1970 on.
    pub at_ms: u64,
}

/// Its clients.
#[derive(Clone, Copy)]
pub struct ClientNumbers {
    /// How many are there.
    pub connected: u64,
    /// How many were taken.
    pub accepted: u64,
    /// How many were turned away, as there were too many.
    pub refused: u64,
    /// How many of their messages were no valid commands, or had too large data: each was answered by an error, and no server was
    /// asked.
    pub bad_messages: u64,
    /// How often the system refused to accept a connection.
    pub unaccepted: u64,
    /// How many bytes were read of them.
    pub read_bytes: u64,
    /// How many bytes there were to send to them.
    pub sent_bytes: u64,
}

/// Commands of one operation that have ended, one for each key of a message.
#[derive(Clone, Copy)]
pub struct CommandNumbers {
    /// The operation's name.
    pub op: &'static str,
    /// Those whose reply shows an item.
    pub items: u64,
    /// Those that were deletes, and were acknowledged.
    pub acknowledged: u64,
    /// Those whose reply is an error.
    pub errors: u64,
    /// All others.
    pub others: u64,
}

/// Calls of commands, of all servers together.
#[derive(Clone, Copy)]
pub struct CallNumbers {
    /// How many were made.
    pub made: u64,
    /// How many of them were answered.
    pub answered: u64,
    /// How many have failed, those that failed at once too.
    pub failed: u64,
    /// How often one that was made, or answered, or has failed, is counted at no server: memory was refused for that.
    pub unplaced: u64,
}

/// How often something was for one cause.
#[derive(Clone, Copy)]
pub struct CauseNumbers {
    /// The cause's name.
    pub cause: &'static str,
    pub count: u64,
}

/// Answers of a server, or commands, that took up to so long.
#[derive(Drop)]
pub struct SpanNumbers {
    /// In seconds, or `+Inf`.
    pub most: String,
    /// How many took that long, and longer than those of the row before.
    pub count: u64,
}

/// How long commands took that have ended.
#[derive(Drop)]
pub struct CommandTimes {
    /// How many of them have a time.
    pub ended: u64,
    /// How long these took altogether.
    pub micros: u64,
    /// How many of them took how long, the shortest ones first.
    pub spans: Vec<SpanNumbers>,
}

/// How long a server is waited for, and after how many failures it is left alone for how long.
#[derive(Clone, Copy)]
pub struct LimitNumbers {
    /// How long a call may take.
    pub call_ms: u64,
    /// How long a connection may take to stand.
    pub connect_ms: u64,
    /// After how many failures in a row its calls fail at once.
    pub failures: u64,
    /// For how long they do.
    pub retry_ms: u64,
}

/// One of its servers.
#[derive(Drop)]
pub struct ServerNumbers {
    /// Its text in the configuration.
    pub text: String,
    pub limits: LimitNumbers,
    /// Whether a connection to it stands, and no answer of it is late.
    pub is_up: bool,
    /// Whether answers of it are late.
    pub is_late: bool,
    /// Whether its name has led to no machine so far.
    pub is_unknown: bool,
    /// Whether its calls fail at once.
    pub fails_at_once: bool,
    /// How many connections to it stood.
    pub connections: u64,
    /// How many calls are out.
    pub calls_out: u64,
    /// How often its link failed, a row for each cause.
    pub failures: Vec<CauseNumbers>,
    /// How many calls of it were made.
    pub made: u64,
    /// How many of them were answered.
    pub answered: u64,
    /// How many answers were errors.
    pub errors: u64,
    /// How many calls have failed that went out.
    pub failed: u64,
    /// How many have failed that never went out.
    pub unsent: u64,
    /// How many answers have a time.
    pub timed: u64,
    /// How long these took altogether.
    pub answer_micros: u64,
    /// How many of them took how long, the shortest ones first.
    pub spans: Vec<SpanNumbers>,
}

/// What a running proxy tells of itself.
#[derive(Drop)]
pub struct Numbers {
    pub process: ProcessNumbers,
    pub config: ConfigNumbers,
    /// The SHA-256 of the text in use, in hexadecimal digits.
    pub config_sum: String,
    pub refusal: Option<RefusalNumbers>,
    pub clients: ClientNumbers,
    /// How many of its clients have gone, a row for each cause.
    pub departures: Vec<CauseNumbers>,
    /// How many commands have begun, one for each key of a message.
    pub begun: u64,
    pub commands: Vec<CommandNumbers>,
    pub command_times: CommandTimes,
    pub calls: CallNumbers,
    pub servers: Vec<ServerNumbers>,
    /// How many requests for these numbers were answered before.
    pub scrapes: u64,
}

fn one(name: &'static str, kind: MetricKind, help: &'static str, amount: Amount) -> Family
    ensures { Tells name.now (([], amount) ∷ []) result }
{
    Family {
        name,
        kind,
        help,
        samples: Samples::One(amount),
    }
}

fn counter(name: &'static str, help: &'static str, count: u64) -> Family
    ensures { Tells name.now (([], Count count) ∷ []) result }
{
    one(name, MetricKind::Counter, help, Amount::Count(count))
}

fn gauge(name: &'static str, help: &'static str, count: u64) -> Family {
    one(name, MetricKind::Gauge, help, Amount::Count(count))
}

fn each(name: &'static str, kind: MetricKind, help: &'static str, samples: Vec<Sample>) -> Family
    ensures { Tells name.now (each_of sample_read samples.items) result }
{
    Family {
        name,
        kind,
        help,
        samples: Samples::Each(samples),
    }
}

fn label(alloc: Global, name: &'static str, value: &str) -> Result<Label, AllocError>
    ensures { IfOk result (λ label. label_read label ≡ (name.now, value.now)) }
{
    Ok(Label {
        name,
        value: String::from_str(alloc, value)?,
    })
}

// A number with one label.
fn sample(alloc: Global, name: &'static str, value: &str, count: u64) -> Result<Sample, AllocError>
    ensures { IfOk result (λ sample. sample_read sample ≡ one_labelled name.now value.now count) }
{
    let mut labels = Vec::new(alloc);
    labels.push(label(alloc, name, value)?)?;
    Ok(Sample {
        labels,
        amount: Amount::Count(count),
    })
}

// A number of a server.
fn server_sample(alloc: Global, server: &ServerNumbers, count: u64) -> Result<Sample, AllocError>
    ensures { IfOk result (λ sample. sample_read sample ≡ server_count server.now count) }
{
    sample(alloc, "server", server.text.as_str(), count)
}

// How often a server failed for a cause.
fn failure_sample(
    alloc: Global,
    server: &ServerNumbers,
    failures: &CauseNumbers,
) -> Result<Sample, AllocError> {
    let mut failed = server_sample(alloc, server, failures.count)?;
    failed.labels.push(label(alloc, "cause", failures.cause)?)?;
    Ok(failed)
}

// The program.
fn build_sample(alloc: Global, process: &ProcessNumbers) -> Result<Sample, AllocError> {
    let proved = if process.proved { "true" } else { "false" };
    let mut built = sample(alloc, "version", process.version.as_str(), 1)?;
    built.labels.push(label(alloc, "proved", proved)?)?;
    Ok(built)
}

fn add_process(
    alloc: Global,
    process: &ProcessNumbers,
    families: &mut Vec<Family>,
) -> Result<(), AllocError>
    ensures { OnOk result (AddsTo families.old.items families.new.items) }
{
    let mut builds = Vec::new(alloc);
    builds.push(build_sample(alloc, process)?)?;
    families.push(each(
        "mcgate_build_info",
        MetricKind::Gauge,
        "The version that runs, and whether it was proved.",
        builds,
    ))?;
    families.push(one(
        "mcgate_uptime_seconds",
        MetricKind::Gauge,
        "For how long it has run.",
        Amount::Millis(process.uptime_ms),
    ))?;
    families.push(one(
        "mcgate_cpu_seconds_total",
        MetricKind::Counter,
        "Processor time that it used.",
        Amount::Millis(process.processor_ms),
    ))?;
    families.push(gauge(
        "mcgate_resident_memory_bytes",
        "Memory in use.",
        process.resident_bytes,
    ))?;
    families.push(counter(
        "mcgate_lost_lines_total",
        "Lines that could not be written to its outputs.",
        process.lost_lines,
    ))?;
    Ok(())
}

// When a text was refused last; 0 where none was.
fn refused_at(refusal: &Option<RefusalNumbers>) -> Amount {
    match refusal {
        Some(refusal) => Amount::Millis(refusal.at_ms),
        None => Amount::Millis(0),
    }
}

fn add_config(
    alloc: Global,
    config: &ConfigNumbers,
    sum: &str,
    refusal: &Option<RefusalNumbers>,
    families: &mut Vec<Family>,
) -> Result<(), AllocError>
    ensures { OnOk result (AddsTo families.old.items families.new.items) }
{
    let mut texts = Vec::new(alloc);
    texts.push(sample(alloc, "sha256", sum, 1)?)?;
    families.push(each(
        "mcgate_config_info",
        MetricKind::Gauge,
        "The text in use, by its sum.",
        texts,
    ))?;
    families.push(gauge(
        "mcgate_generation",
        "The configuration in use.",
        config.generation,
    ))?;
    let mut reloads = Vec::new(alloc);
    reloads.push(sample(alloc, "verdict", "accepted", config.accepted)?)?;
    reloads.push(sample(alloc, "verdict", "unchanged", config.unchanged)?)?;
    reloads.push(sample(alloc, "verdict", "refused", config.refused)?)?;
    families.push(each(
        "mcgate_reloads_total",
        MetricKind::Counter,
        "New texts of its file, by what became of them.",
        reloads,
    ))?;
    families.push(one(
        "mcgate_config_last_refused_timestamp_seconds",
        MetricKind::Gauge,
        "When a text of its file was refused last, in seconds from the begin of 1970 on; 0 where none was.",
        refused_at(refusal),
    ))?;
    Ok(())
}

fn came_samples(alloc: Global, clients: &ClientNumbers) -> Result<Vec<Sample>, AllocError>
    ensures { IfOk result (λ came. each_of sample_read came.items ≡ came_counts clients.now) }
{
    let mut came = Vec::new(alloc);
    came.push(sample(alloc, "verdict", "accepted", clients.accepted)?)?;
    came.push(sample(alloc, "verdict", "refused", clients.refused)?)?;
    Ok(came)
}

// How many clients came.
#[tactic(auto, using(crate::proofs::Told::last_is_among))]
fn add_came(
    alloc: Global,
    clients: &ClientNumbers,
    families: &mut Vec<Family>,
) -> Result<(), AllocError>
    ensures adds { OnOk result (AddsTo families.old.items families.new.items) }
    ensures told { OnOk result (TellsClients clients.now families.new.items) }
{
    families.push(each(
        "mcgate_client_connections_total",
        MetricKind::Counter,
        "Clients that came; those refused were too many.",
        came_samples(alloc, clients)?,
    ))?;
    Ok(())
}

// How many have gone, for each cause.
fn gone_samples(alloc: Global, departures: &[CauseNumbers]) -> Result<Vec<Sample>, AllocError> {
    let mut gone = Vec::new(alloc);
    for departure in departures {
        gone.push(sample(alloc, "cause", departure.cause, departure.count)?)?;
    }
    Ok(gone)
}

// How often none could be accepted, how many have gone, and what came of them and went to them.
fn add_traffic(
    alloc: Global,
    clients: &ClientNumbers,
    departures: &[CauseNumbers],
    families: &mut Vec<Family>,
) -> Result<(), AllocError>
    ensures { OnOk result (AddsTo families.old.items families.new.items) }
{
    families.push(counter(
        "mcgate_accept_failures_total",
        "How often the system refused to accept a connection: too many descriptors were open, or no memory was left.",
        clients.unaccepted,
    ))?;
    families.push(each(
        "mcgate_clients_closed_total",
        MetricKind::Counter,
        "Clients that are gone, by why they went.",
        gone_samples(alloc, departures)?,
    ))?;
    let mut bytes = Vec::new(alloc);
    bytes.push(sample(alloc, "direction", "in", clients.read_bytes)?)?;
    bytes.push(sample(alloc, "direction", "out", clients.sent_bytes)?)?;
    families.push(each(
        "mcgate_client_bytes_total",
        MetricKind::Counter,
        "Bytes that came from clients, and that there were to send to them.",
        bytes,
    ))?;
    Ok(())
}

#[tactic(auto, using(crate::proofs::Told::one_more, crate::proofs::Told::more_then, crate::proofs::Told::stays_among))]
fn add_clients(
    alloc: Global,
    clients: &ClientNumbers,
    departures: &[CauseNumbers],
    families: &mut Vec<Family>,
) -> Result<(), AllocError>
    ensures adds { OnOk result (AddsTo families.old.items families.new.items) }
    ensures told { OnOk result (TellsClients clients.now families.new.items) }
{
    families.push(gauge(
        "mcgate_clients",
        "Clients that are there.",
        clients.connected,
    ))?;
    add_came(alloc, clients, families)?;
    add_traffic(alloc, clients, departures, families)
}

// How many of their messages were refused.
#[tactic(auto, using(crate::proofs::Told::last_is_among))]
fn add_bad_messages(clients: &ClientNumbers, families: &mut Vec<Family>) -> Result<(), AllocError>
    ensures adds { OnOk result (AddsTo families.old.items families.new.items) }
    ensures told { OnOk result (TellsMessages clients.now families.new.items) }
{
    families.push(counter(
        "mcgate_bad_messages_total",
        "Messages of clients that were no valid commands, or had too large data, and were answered by an error.",
        clients.bad_messages,
    ))?;
    Ok(())
}

// How many commands have begun.
#[tactic(auto, using(crate::proofs::Told::last_is_among))]
fn add_begun(begun: u64, families: &mut Vec<Family>) -> Result<(), AllocError>
    ensures adds { OnOk result (AddsTo families.old.items families.new.items) }
    ensures told { OnOk result (TellsBegun begun families.new.items) }
{
    families.push(counter(
        "mcgate_commands_begun_total",
        "Commands that have begun, one for each key.",
        begun,
    ))?;
    Ok(())
}

// A number of an operation.
fn command_sample(
    alloc: Global,
    op: &'static str,
    reply: &'static str,
    count: u64,
) -> Result<Sample, AllocError>
    ensures { IfOk result (λ sample. sample_read sample ≡ command_count op.now reply.now count) }
{
    let mut ended = sample(alloc, "op", op, count)?;
    ended.labels.push(label(alloc, "reply", reply)?)?;
    Ok(ended)
}

// How many commands of an operation have ended, for each kind of reply.
fn add_command(
    alloc: Global,
    commands: &CommandNumbers,
    samples: &mut Vec<Sample>,
) -> Result<(), AllocError>
    ensures { OnOk result (each_of sample_read samples.new.items ≡ each_of sample_read samples.old.items ++ command_counts commands.now) }
{
    let op = commands.op;
    samples.push(command_sample(alloc, op, "item", commands.items)?)?;
    samples.push(command_sample(alloc, op, "acknowledged", commands.acknowledged)?)?;
    samples.push(command_sample(alloc, op, "error", commands.errors)?)?;
    samples.push(command_sample(alloc, op, "other", commands.others)?)?;
    Ok(())
}

#[tactic(auto, using(crate::proofs::Told::last_is_among))]
fn add_commands(
    alloc: Global,
    commands: &[CommandNumbers],
    families: &mut Vec<Family>,
) -> Result<(), AllocError>
    ensures adds { OnOk result (AddsTo families.old.items families.new.items) }
    ensures told { OnOk result (TellsCommands commands.now families.new.items) }
{
    let mut samples = Vec::new(alloc);
    for of_op in commands {
        add_command(alloc, of_op, &mut samples)?;
    }
    families.push(each(
        "mcgate_commands_total",
        MetricKind::Counter,
        "Commands that have ended, one for each key: with an item in the reply, as an acknowledged delete, with an error, or otherwise.",
        samples,
    ))?;
    Ok(())
}

// A number without a label.
fn bare_sample(alloc: Global, amount: Amount) -> Sample {
    Sample {
        labels: Vec::new(alloc),
        amount,
    }
}

// How many commands took at most how long.
fn command_buckets(alloc: Global, times: &CommandTimes) -> Result<Vec<Sample>, AllocError> {
    let mut buckets = Vec::new(alloc);
    let mut count = 0u64;
    for span in &times.spans {
        count = count.saturating_add(span.count);
        buckets.push(sample(alloc, "le", span.most.as_str(), count)?)?;
    }
    Ok(buckets)
}

fn add_command_times(
    alloc: Global,
    times: &CommandTimes,
    families: &mut Vec<Family>,
) -> Result<(), AllocError>
    ensures { OnOk result (AddsTo families.old.items families.new.items) }
{
    let mut spread = Spread {
        buckets: command_buckets(alloc, times)?,
        sums: Vec::new(alloc),
        counts: Vec::new(alloc),
    };
    spread
        .sums
        .push(bare_sample(alloc, Amount::Micros(times.micros)))?;
    spread
        .counts
        .push(bare_sample(alloc, Amount::Count(times.ended)))?;
    families.push(Family {
        name: "mcgate_command_seconds",
        kind: MetricKind::Histogram,
        help: "How long commands took that have ended, from when they began, or came to wait for their key.",
        samples: Samples::Times(spread),
    })?;
    Ok(())
}

fn ended_samples(alloc: Global, calls: &CallNumbers) -> Result<Vec<Sample>, AllocError>
    ensures { IfOk result (λ ended. each_of sample_read ended.items ≡ ended_counts calls.now) }
{
    let mut ended = Vec::new(alloc);
    ended.push(sample(alloc, "outcome", "answered", calls.answered)?)?;
    ended.push(sample(alloc, "outcome", "failed", calls.failed)?)?;
    Ok(ended)
}

// How many calls of all servers have ended, and how.
#[tactic(auto, using(crate::proofs::Told::last_is_among))]
fn add_ended_calls(
    alloc: Global,
    calls: &CallNumbers,
    families: &mut Vec<Family>,
) -> Result<(), AllocError>
    ensures adds { OnOk result (AddsTo families.old.items families.new.items) }
    ensures told { OnOk result (IsAmong (Tells (codes "mcgate_calls_total") (ended_counts calls.now)) families.new.items) }
{
    families.push(each(
        "mcgate_calls_total",
        MetricKind::Counter,
        "Those that have ended, by what became of them, also where they failed at once.",
        ended_samples(alloc, calls)?,
    ))?;
    Ok(())
}

// How many were made.
#[tactic(auto, using(crate::proofs::Told::last_is_among))]
fn add_made_calls(calls: &CallNumbers, families: &mut Vec<Family>) -> Result<(), AllocError>
    ensures adds { OnOk result (AddsTo families.old.items families.new.items) }
    ensures told { OnOk result (IsAmong (Tells (codes "mcgate_calls_made_total") (([], Count calls.now.made) ∷ [])) families.new.items) }
{
    families.push(counter(
        "mcgate_calls_made_total",
        "Calls of servers that commands have made.",
        calls.made,
    ))?;
    Ok(())
}

#[tactic(auto, using(crate::proofs::Told::more_then, crate::proofs::Told::stays_among))]
fn add_all_calls(
    alloc: Global,
    calls: &CallNumbers,
    families: &mut Vec<Family>,
) -> Result<(), AllocError>
    ensures adds { OnOk result (AddsTo families.old.items families.new.items) }
    ensures told { OnOk result (TellsCalls calls.now families.new.items) }
{
    add_made_calls(calls, families)?;
    add_ended_calls(alloc, calls, families)
}

// What is told of a server in one number.
#[derive(Clone, Copy)]
enum ServerCount {
    Up,
    Late,
    Unknown,
    AtOnce,
    Connections,
    CallsOut,
    Errors,
    CallLimit,
    ConnectLimit,
    FailLimit,
    Retry,
}

fn server_amount(server: &ServerNumbers, what: ServerCount) -> Amount {
    match what {
        ServerCount::Up => Amount::Count(u64::from(server.is_up)),
        ServerCount::Late => Amount::Count(u64::from(server.is_late)),
        ServerCount::Unknown => Amount::Count(u64::from(server.is_unknown)),
        ServerCount::AtOnce => Amount::Count(u64::from(server.fails_at_once)),
        ServerCount::Connections => Amount::Count(server.connections),
        ServerCount::CallsOut => Amount::Count(server.calls_out),
        ServerCount::Errors => Amount::Count(server.errors),
        ServerCount::CallLimit => Amount::Millis(server.limits.call_ms),
        ServerCount::ConnectLimit => Amount::Millis(server.limits.connect_ms),
        ServerCount::FailLimit => Amount::Count(server.limits.failures),
        ServerCount::Retry => Amount::Millis(server.limits.retry_ms),
    }
}

// A number of this server.
fn amount_sample(
    alloc: Global,
    server: &ServerNumbers,
    what: ServerCount,
) -> Result<Sample, AllocError> {
    let mut told = server_sample(alloc, server, 0)?;
    told.amount = server_amount(server, what);
    Ok(told)
}

// A number of each server.
fn server_samples(
    alloc: Global,
    servers: &[ServerNumbers],
    what: ServerCount,
) -> Result<Vec<Sample>, AllocError> {
    let mut samples = Vec::new(alloc);
    for server in servers {
        samples.push(amount_sample(alloc, server, what)?)?;
    }
    Ok(samples)
}

// How often a server failed, for each cause.
fn add_failures(
    alloc: Global,
    server: &ServerNumbers,
    samples: &mut Vec<Sample>,
) -> Result<(), AllocError> {
    for failures in &server.failures {
        samples.push(failure_sample(alloc, server, failures)?)?;
    }
    Ok(())
}

fn failures_of(alloc: Global, servers: &[ServerNumbers]) -> Result<Vec<Sample>, AllocError> {
    let mut samples = Vec::new(alloc);
    for server in servers {
        add_failures(alloc, server, &mut samples)?;
    }
    Ok(samples)
}

// A number of a server's calls that ended so.
fn outcome_sample(
    alloc: Global,
    server: &ServerNumbers,
    outcome: &'static str,
    count: u64,
) -> Result<Sample, AllocError>
    ensures { IfOk result (λ sample. sample_read sample ≡ outcome_count server.now outcome.now count) }
{
    let mut ended = server_sample(alloc, server, count)?;
    ended.labels.push(label(alloc, "outcome", outcome)?)?;
    Ok(ended)
}

// How many calls of a server were answered, and how many have failed that went out, and how many that never did.
fn add_outcomes(
    alloc: Global,
    server: &ServerNumbers,
    samples: &mut Vec<Sample>,
) -> Result<(), AllocError>
    ensures { OnOk result (each_of sample_read samples.new.items ≡ each_of sample_read samples.old.items ++ outcome_counts server.now) }
{
    samples.push(outcome_sample(alloc, server, "answered", server.answered)?)?;
    samples.push(outcome_sample(alloc, server, "failed", server.failed)?)?;
    samples.push(outcome_sample(alloc, server, "unsent", server.unsent)?)?;
    Ok(())
}

fn outcomes_of(alloc: Global, servers: &[ServerNumbers]) -> Result<Vec<Sample>, AllocError>
    ensures { IfOk result (λ samples. each_of sample_read samples.items ≡ flat_map outcome_counts servers.now) }
{
    let mut samples = Vec::new(alloc);
    for server in servers {
        add_outcomes(alloc, server, &mut samples)?;
    }
    Ok(samples)
}

// How many calls of each server were made.
fn made_of(alloc: Global, servers: &[ServerNumbers]) -> Result<Vec<Sample>, AllocError>
    ensures { IfOk result (λ samples. each_of sample_read samples.items ≡ each_of made_count servers.now) }
{
    let mut samples = Vec::new(alloc);
    for server in servers {
        samples.push(server_sample(alloc, server, server.made)?)?;
    }
    Ok(samples)
}

// How many answers of a server took at most how long.
fn add_buckets(
    alloc: Global,
    server: &ServerNumbers,
    samples: &mut Vec<Sample>,
) -> Result<(), AllocError> {
    let mut count = 0u64;
    for span in &server.spans {
        count = count.saturating_add(span.count);
        let mut bucket = server_sample(alloc, server, count)?;
        bucket.labels.push(label(alloc, "le", span.most.as_str())?)?;
        samples.push(bucket)?;
    }
    Ok(())
}

// How long the answers of a server took.
fn add_spread(
    alloc: Global,
    server: &ServerNumbers,
    spread: &mut Spread,
) -> Result<(), AllocError> {
    add_buckets(alloc, server, &mut spread.buckets)?;
    let mut sum = server_sample(alloc, server, 0)?;
    sum.amount = Amount::Micros(server.answer_micros);
    spread.sums.push(sum)?;
    spread
        .counts
        .push(server_sample(alloc, server, server.timed)?)?;
    Ok(())
}

fn spread_of(alloc: Global, servers: &[ServerNumbers]) -> Result<Spread, AllocError> {
    let mut spread = Spread {
        buckets: Vec::new(alloc),
        sums: Vec::new(alloc),
        counts: Vec::new(alloc),
    };
    for server in servers {
        add_spread(alloc, server, &mut spread)?;
    }
    Ok(spread)
}

// How many calls of servers have ended, and how.
#[tactic(auto, using(crate::proofs::Told::last_is_among))]
fn add_server_outcomes(
    alloc: Global,
    servers: &[ServerNumbers],
    families: &mut Vec<Family>,
) -> Result<(), AllocError>
    ensures adds { OnOk result (AddsTo families.old.items families.new.items) }
    ensures told { OnOk result (IsAmong (Tells (codes "mcgate_server_calls_total") (flat_map outcome_counts servers.now)) families.new.items) }
{
    families.push(each(
        "mcgate_server_calls_total",
        MetricKind::Counter,
        "Calls of the server that have ended, by what became of them; those unsent have failed and never went out.",
        outcomes_of(alloc, servers)?,
    ))?;
    Ok(())
}

// How many were made.
#[tactic(auto, using(crate::proofs::Told::last_is_among))]
fn add_made_of_servers(
    alloc: Global,
    servers: &[ServerNumbers],
    families: &mut Vec<Family>,
) -> Result<(), AllocError>
    ensures adds { OnOk result (AddsTo families.old.items families.new.items) }
    ensures told { OnOk result (IsAmong (Tells (codes "mcgate_server_calls_made_total") (each_of made_count servers.now)) families.new.items) }
{
    families.push(each(
        "mcgate_server_calls_made_total",
        MetricKind::Counter,
        "Calls of the server that commands have made.",
        made_of(alloc, servers)?,
    ))?;
    Ok(())
}

// How often a call is counted at none of them.
#[tactic(auto, using(crate::proofs::Told::last_is_among))]
fn add_unplaced(calls: &CallNumbers, families: &mut Vec<Family>) -> Result<(), AllocError>
    ensures adds { OnOk result (AddsTo families.old.items families.new.items) }
    ensures told { OnOk result (IsAmong (Tells (codes "mcgate_calls_unplaced_total") (([], Count calls.now.unplaced) ∷ [])) families.new.items) }
{
    families.push(counter(
        "mcgate_calls_unplaced_total",
        "How often a call that was made, or answered, or has failed, is counted at no server, as memory was refused for that.",
        calls.unplaced,
    ))?;
    Ok(())
}

// How many calls of servers were made, and what has become of them.
#[tactic(auto, using(crate::proofs::Told::more_then, crate::proofs::Told::stays_among))]
fn add_calls_of_servers(
    alloc: Global,
    servers: &[ServerNumbers],
    calls: &CallNumbers,
    families: &mut Vec<Family>,
) -> Result<(), AllocError>
    ensures adds { OnOk result (AddsTo families.old.items families.new.items) }
    ensures told { OnOk result (TellsServers servers.now families.new.items) }
    ensures unplaced { OnOk result (TellsUnplaced calls.now families.new.items) }
{
    add_made_of_servers(alloc, servers, families)?;
    add_server_outcomes(alloc, servers, families)?;
    add_unplaced(calls, families)
}

// Their answers: errors, and how long they took.
fn add_answers(
    alloc: Global,
    servers: &[ServerNumbers],
    families: &mut Vec<Family>,
) -> Result<(), AllocError>
    ensures { OnOk result (AddsTo families.old.items families.new.items) }
{
    families.push(each(
        "mcgate_server_error_answers_total",
        MetricKind::Counter,
        "Answers of the server that were errors: ERROR, CLIENT_ERROR or SERVER_ERROR.",
        server_samples(alloc, servers, ServerCount::Errors)?,
    ))?;
    families.push(Family {
        name: "mcgate_server_call_seconds",
        kind: MetricKind::Histogram,
        help: "How long the server's answers took, from when the call went out.",
        samples: Samples::Times(spread_of(alloc, servers)?),
    })?;
    Ok(())
}

// How long servers are waited for, and after how many failures they are left alone for how long.
fn add_limits(
    alloc: Global,
    servers: &[ServerNumbers],
    families: &mut Vec<Family>,
) -> Result<(), AllocError>
    ensures { OnOk result (AddsTo families.old.items families.new.items) }
{
    families.push(each(
        "mcgate_server_call_limit_seconds",
        MetricKind::Gauge,
        "How long a call to the server may take.",
        server_samples(alloc, servers, ServerCount::CallLimit)?,
    ))?;
    families.push(each(
        "mcgate_server_connect_limit_seconds",
        MetricKind::Gauge,
        "How long a connection to the server may take to stand.",
        server_samples(alloc, servers, ServerCount::ConnectLimit)?,
    ))?;
    families.push(each(
        "mcgate_server_fail_limit",
        MetricKind::Gauge,
        "After how many failures in a row calls of the server fail at once.",
        server_samples(alloc, servers, ServerCount::FailLimit)?,
    ))?;
    families.push(each(
        "mcgate_server_retry_seconds",
        MetricKind::Gauge,
        "For how long they do, before one call tries it.",
        server_samples(alloc, servers, ServerCount::Retry)?,
    ))?;
    Ok(())
}

fn add_states(
    alloc: Global,
    servers: &[ServerNumbers],
    families: &mut Vec<Family>,
) -> Result<(), AllocError>
    ensures { OnOk result (AddsTo families.old.items families.new.items) }
{
    families.push(each(
        "mcgate_server_up",
        MetricKind::Gauge,
        "1 where a connection to the server stands.",
        server_samples(alloc, servers, ServerCount::Up)?,
    ))?;
    families.push(each(
        "mcgate_server_late",
        MetricKind::Gauge,
        "1 while answers of the server to calls that have failed are still to come.",
        server_samples(alloc, servers, ServerCount::Late)?,
    ))?;
    families.push(each(
        "mcgate_server_unknown",
        MetricKind::Gauge,
        "1 while the server's name has led to no machine: its calls fail at once.",
        server_samples(alloc, servers, ServerCount::Unknown)?,
    ))?;
    families.push(each(
        "mcgate_server_fails_at_once",
        MetricKind::Gauge,
        "1 while calls of the server fail at once, without being sent.",
        server_samples(alloc, servers, ServerCount::AtOnce)?,
    ))?;
    Ok(())
}

// The connections to servers, their calls that are out, and their failures.
fn add_links(
    alloc: Global,
    servers: &[ServerNumbers],
    families: &mut Vec<Family>,
) -> Result<(), AllocError>
    ensures { OnOk result (AddsTo families.old.items families.new.items) }
{
    families.push(each(
        "mcgate_server_connections_total",
        MetricKind::Counter,
        "Connections to the server that stood.",
        server_samples(alloc, servers, ServerCount::Connections)?,
    ))?;
    families.push(each(
        "mcgate_server_calls_out",
        MetricKind::Gauge,
        "Calls at the server that wait for its answer.",
        server_samples(alloc, servers, ServerCount::CallsOut)?,
    ))?;
    families.push(each(
        "mcgate_server_failures_total",
        MetricKind::Counter,
        "Failures of the link to the server, by cause.",
        failures_of(alloc, servers)?,
    ))?;
    Ok(())
}

// The states of servers, their connections, and their limits.
#[tactic(auto, using(crate::proofs::Told::more_then))]
fn add_servers(
    alloc: Global,
    servers: &[ServerNumbers],
    families: &mut Vec<Family>,
) -> Result<(), AllocError>
    ensures { OnOk result (AddsTo families.old.items families.new.items) }
{
    add_states(alloc, servers, families)?;
    add_links(alloc, servers, families)?;
    add_limits(alloc, servers, families)
}

// Their answers, and how often all this was asked.
#[tactic(auto, using(crate::proofs::Told::one_more, crate::proofs::Told::more_then))]
fn add_rest(alloc: Global, numbers: &Numbers, families: &mut Vec<Family>) -> Result<(), AllocError>
    ensures { OnOk result (AddsTo families.old.items families.new.items) }
{
    add_answers(alloc, numbers.servers.as_slice(), families)?;
    families.push(counter(
        "mcgate_scrapes_total",
        "Requests for these numbers that were answered before.",
        numbers.scrapes,
    ))?;
    Ok(())
}

/// The families of these numbers. One of them, `mcgate_client_connections_total`, has just how many clients were accepted and refused; one,
/// `mcgate_bad_messages_total`, how many of their messages were refused; one, `mcgate_commands_begun_total`, how many commands have begun; one, `mcgate_commands_total`, of each operation how many commands ended with each
/// kind of reply; `mcgate_calls_made_total` and `mcgate_calls_total` have how many calls were made, and how many of them were answered and have
/// failed; and `mcgate_server_calls_made_total` and `mcgate_server_calls_total` the same of each server, where those unsent stand apart;
/// and `mcgate_calls_unplaced_total` how often a call is counted at no server. Of the numbers of other families no clause tells. The only error is that memory was refused.
#[tactic(auto, using(crate::proofs::Told::more_then, crate::proofs::Told::stays_among))]
pub fn families_of(alloc: Global, numbers: &Numbers) -> Result<Vec<Family>, AllocError>
    ensures clients { IfOk result (λ families. TellsClients numbers.now.clients families.items) }
    ensures messages { IfOk result (λ families. TellsMessages numbers.now.clients families.items) }
    ensures begun { IfOk result (λ families. TellsBegun numbers.now.begun families.items) }
    ensures commands { IfOk result (λ families. TellsCommands numbers.now.commands.items families.items) }
    ensures calls { IfOk result (λ families. TellsCalls numbers.now.calls families.items) }
    ensures servers { IfOk result (λ families. TellsServers numbers.now.servers.items families.items) }
    ensures unplaced { IfOk result (λ families. TellsUnplaced numbers.now.calls families.items) }
{
    let mut families = Vec::new(alloc);
    add_process(alloc, &numbers.process, &mut families)?;
    let sum = numbers.config_sum.as_str();
    add_config(alloc, &numbers.config, sum, &numbers.refusal, &mut families)?;
    let departures = numbers.departures.as_slice();
    add_clients(alloc, &numbers.clients, departures, &mut families)?;
    add_bad_messages(&numbers.clients, &mut families)?;
    add_begun(numbers.begun, &mut families)?;
    add_commands(alloc, numbers.commands.as_slice(), &mut families)?;
    add_command_times(alloc, &numbers.command_times, &mut families)?;
    add_all_calls(alloc, &numbers.calls, &mut families)?;
    let servers = numbers.servers.as_slice();
    add_servers(alloc, servers, &mut families)?;
    add_calls_of_servers(alloc, servers, &numbers.calls, &mut families)?;
    add_rest(alloc, numbers, &mut families)?;
    Ok(families)
}

// What was said of the last text that was refused, and when, if one was.
fn refusal_samples(
    alloc: Global,
    refusal: &Option<RefusalNumbers>,
) -> Result<Vec<Sample>, AllocError> {
    let mut samples = Vec::new(alloc);
    if let Some(refusal) = refusal {
        let mut refused = sample(alloc, "line", refusal.line.as_str(), 0)?;
        refused.amount = Amount::Millis(refusal.at_ms);
        samples.push(refused)?;
    }
    Ok(samples)
}

/// The families of these numbers, and one for whoever takes texts too: the line of the last text that was refused, with its time. The counts of clients,
/// of refused messages, of commands and of calls, also of each server, stand at their names, as [`families_of`] says. The only error is that memory was refused.
#[tactic(auto, using(crate::proofs::Told::one_more, crate::proofs::Told::stays_among))]
pub fn families_with_lines(alloc: Global, numbers: &Numbers) -> Result<Vec<Family>, AllocError>
    ensures clients { IfOk result (λ families. TellsClients numbers.now.clients families.items) }
    ensures messages { IfOk result (λ families. TellsMessages numbers.now.clients families.items) }
    ensures begun { IfOk result (λ families. TellsBegun numbers.now.begun families.items) }
    ensures commands { IfOk result (λ families. TellsCommands numbers.now.commands.items families.items) }
    ensures calls { IfOk result (λ families. TellsCalls numbers.now.calls families.items) }
    ensures servers { IfOk result (λ families. TellsServers numbers.now.servers.items families.items) }
    ensures unplaced { IfOk result (λ families. TellsUnplaced numbers.now.calls families.items) }
{
    let mut families = families_of(alloc, numbers)?;
    families.push(each(
        "mcgate_config_last_refused",
        MetricKind::Gauge,
        "What was said of the text of its file that was refused last, and when that was.",
        refusal_samples(alloc, &numbers.refusal)?,
    ))?;
    Ok(families)
}
