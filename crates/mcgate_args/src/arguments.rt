//! The program's arguments, and what they ask for.

ghost use Rattle.std.specs.Prelude.{◌≡◌};
ghost use Rattle.clap.specs.Values.{kind_of};
ghost use Rattle.mcgate_args.specs.Stops.{arguments_fault_at};

use crate::beginning_arguments::{begun_of, judging_of};
use crate::cache_arguments::{CACHE_HELP, CacheJob, cache_job};
use crate::certify_arguments::{CERTIFY_HELP, certify_job};
use crate::commands::program;
use crate::fleets::arguments::{FleetJob, fleet_job, is_of_fleet};
use crate::history_arguments::{HISTORY_HELP, history_job};
use crate::loopback_arguments::{LOOPBACK_HELP, loopback_job};
use crate::plan_arguments::{PLAN_HELP, PlanJob, plan_job};
use crate::serve_arguments::{SERVE_HELP, serve_job};
use crate::slots::arguments::{SLOTS_HELP, SlotsJob, slots_job};
use crate::tell_arguments::{TELL_HELP, TellJob, tell_job};
use clap::error::ErrorKind;
use clap::{ArgMatches, Error};
use core_accepted::Beginnings;
use fault_words::commands::Command;
use mc_types::{Key, KeyFault};
use mcgate_ends::serve_job::ServeJob;
use mcgate_lines::Form;
use mcgate_replay::Judging;
use mcgate_replay::judging::USUAL_GENERATIONS;
use std::alloc::Global;
use text_words::number::u32_number;

/// What is done with an input.
#[derive(Clone, Copy)]
pub enum Task {
    /// It is a configuration, and the gate's verdict on it is printed in this form.
    Check { form: Form },
    /// It is a script, and it is run, its trees judged so.
    Replay { judging: Judging },
}

/// What the arguments ask for.
#[derive(Drop)]
pub enum Job<'a> {
    /// Do this with a file, or with standard input.
    Run {
        task: Task,
        file: Option<&'a str>,
    },
    /// Print the gate's verdict on a configuration, of a file or of standard input, and whether it may follow this history, in this
    /// form, if servers began so.
    CheckAfter {
        history: &'a str,
        begun: Beginnings,
        form: Form,
        file: Option<&'a str>,
    },
    /// Tell what a history remembers.
    History {
        file: &'a str,
    },
    /// Print how to get from one configuration to another.
    Plan(PlanJob<'a>),
    /// Run a script of events, of a file or of standard input, over the configuration in this file, its trees judged so.
    RunOver {
        judging: Judging,
        config: &'a str,
        file: Option<&'a str>,
    },
    /// Print the gate's verdict on the configurations of a fleet.
    CheckFleet(FleetJob<'a>),
    /// Print where these keys live in the tree of the configuration in this file.
    Where {
        file: &'a str,
        keys: Vec<Key>,
    },
    /// Print a certificate of the configuration of a file or of standard input.
    Certify {
        file: Option<&'a str>,
    },
    /// Print a configuration with a table of slots.
    Slots(SlotsJob<'a>),
    /// Run a script, of a file or of standard input, over TCP, where new servers are emptied before their first call or not, and so many
    /// trees are held at most.
    Loopback {
        file: Option<&'a str>,
        flushes_new: bool,
        most: u32,
    },
    /// Be a cache server.
    Cache(CacheJob<'a>),
    /// Serve a configuration over TCP, where each of these texts says.
    Serve(ServeJob<'a>, Vec<&'a str>),
    /// Tell a proxy that runs something.
    Tell(TellJob<'a>),
    /// Print this text.
    Print(&'static str),
}

/// Why the arguments ask for nothing.
#[derive(Clone, Copy)]
pub enum ArgumentsFault {
    /// The program has no such arguments.
    Refused,
    /// One that is to be a key is none.
    Key(KeyFault),
    /// Memory was refused.
    NoMemory,
}

impl From<Error> for ArgumentsFault {
    ghost from_gives = { λ error fault. fault ≡ arguments_fault_at (kind_of error) };

    fn from(error: Error) -> ArgumentsFault {
        match error.kind() {
            ErrorKind::OutOfMemory => ArgumentsFault::NoMemory,
            _ => ArgumentsFault::Refused,
        }
    }
}

const VERSION: &str = "mcgate 1\n";

const HELP: &str =
    "mcgate sends memcached commands through a tree of routes, and asks of a tree whether it can show deleted data.

usage: mcgate check [--explain | --dot] [--history HISTORY] [FILE]
                                     print the gate's verdict on a configuration, with --explain also in words,
                                     with --dot as a picture
       mcgate check --fleet [--with FILE ..] [FILE]
                                     the same for proxies before the same servers, which run by any of these at the same time
       mcgate certify [FILE]         print a certificate of a configuration that the gate accepts
       mcgate replay [--any] [--config FILE] [SCRIPT]
                                     run a script, and print what each client gets
       mcgate where --config FILE KEY..
                                     print where keys live in the tree of a configuration
       mcgate serve --config FILE --listen HOST:PORT [--any]
                                     serve a configuration that the gate accepts, between clients and servers
       mcgate tell PATH WORD         tell a running serve --control PATH: drain, reload, status, servers, log LEVEL, where KEY
       mcgate history FILE           print what serve --history FILE remembers
       mcgate slots [--add ADDR | --remove ADDR] [--pool NAME] [--after FILE ..] [FILE]
                                     print a configuration with a table of slots in a pool, of a server more or less
       mcgate plan OLD NEW           print by which steps one configuration may follow another
       mcgate cache --listen HOST:PORT --capacity C
                                     be a memcached server of C items
       mcgate loopback [SCRIPT]      run a script with proxy, clients and servers as ends of TCP connections
       mcgate help [COMMAND]         print this, or more of a command; so do -h and --help after it
       mcgate --version              print the version

Without FILE or SCRIPT the input is standard input. Without any arguments mcgate is mcgate replay.
Exit status: 0 accepted or done, 1 refused by the gate, 2 bad arguments or input, 3 memory or a device failed, or too many calls.
";

const CHECK_HELP: &str =
    "usage: mcgate check [--explain | --dot] [--history HISTORY] [--opened WORD] [--new-servers WORD] [FILE]
       mcgate check --fleet [--with FILE ..] [FILE]

Reads a configuration in JSON, of FILE or of standard input, and prints the gate's verdict:
  accepted places=N      no run of the tree shows deleted data; the keys have N places
  refused: server=A read=OP delete=D prefix=P residue=R/L
                         at this place a read OP may be answered from server A, which a delete D may leave as it was;
                         the events of a script that shows it follow, where one is found
  refused: too many places
                         there are more than 262,144
  config: ..             the first fault of what is no configuration
With --explain lines that begin with # follow: by which way a read reaches the server, which servers the delete clears and
which it leaves, and what to change.
With --dot the tree and its servers are printed as a graph for Graphviz, in place of accepted and refused lines: of a refused
tree the way by which a read reaches the server and the server are red.
With --history the configuration is judged also as mcgate serve --history HISTORY would, and nothing is written:
  history accepted generation=G
                         it may be the G-th
  history unchanged generation=G
                         the last line says it
  history refused generation=G server=A ..
                         A may hold what a delete under generation G left
  history: line N: ..    why HISTORY is no history
--opened and --new-servers say what servers held before, as of mcgate serve; a tree alone or of a fleet is judged whatever they held.
With --fleet all proxies before the same servers are judged together, each of which may run by any of the files at any time. First
each file is judged by itself, and the first that isn't accepted is told as above; then all together, which gives one line:
  accepted trees=N       no run of such proxies shows deleted data, whichever of the N trees each runs by
  refused: a read copies, route=R prefix=P file=F
                         by the tree of F a get of keys with this prefix copies an item, at this route
  refused: reads=F deletes=G server=A read=OP delete=D prefix=P residue=R/L
                         the same gap of two trees: a read by that of F may be answered from A, which a delete by that of G leaves
  refused: too many files, or too many places reads=F deletes=G
                         there are more than 15 files, or the two trees together have more than 262,144 places
Exit status: 0 accepted, 1 refused, 2 no configuration, 3 memory or a device failed.
";

const REPLAY_HELP: &str =
    "usage: mcgate replay [--any] [--opened WORD] [--new-servers WORD] [--generations N] [--config FILE] [SCRIPT]

Reads a script, of the file SCRIPT or of standard input: a configuration on its first line, or pool N, and then one event a line,
or reload and a configuration, which is loaded there.
With --config the configuration is the text of FILE, of any number of lines, and each line of the script is one of the others.
Runs it over servers in memory, and prints what each client gets, what became of reloads, and a report:
  < C TEXT               new output of client C
  reload accepted generation=G
                         the G-th tree is in use from here on
  reload refused ..      the gate refuses it with the trees before it, and the one in use stays
  done N commands M calls K stale
                         K replies showed what had been deleted
--opened and --new-servers say what servers held before, as of mcgate serve; a hold that says otherwise is a bad line.
With --generations at most N trees are held, the first one among them, and each further one is refused: 1..=4294967295, 16 where it
is left out.
A first tree that the gate refuses isn't run, and its refused: line is printed; with --any every tree is run, and a reload is
unchecked in place of accepted.
Exit status: 0 done, 1 refused by the gate, 2 bad script, 3 memory or a device failed, or too many calls.
";

const WHERE_HELP: &str = "usage: mcgate where --config FILE KEY..

Reads a configuration in JSON, of FILE, and prints a block for each KEY:
  key=K hash_part=H hash=N prefix=P residue=R/L
                         what of the key is hashed, its hash, and its place
    OP A ..              for each operation the servers that the tree has for it at this key
    limits A NAME=N ..   for each of these servers the limits that its pools say, if they say some
  refused: too many places
                         there are more than 262,144
  config: ..             the first fault of what is no configuration
Exit status: 0 done, 1 too many places or a KEY that is none, 2 bad arguments or no configuration, 3 memory or a device failed.
";

/// The number after a flag, if the flag stands there: of 1 to 20 digits, in 1..=4294967295.
pub fn count_of(given: &ArgMatches<'_>, name: &str) -> Result<Option<u32>, ArgumentsFault> {
    match given.get_str(name) {
        None => Ok(None),
        Some(text) => match u32_number(text.as_bytes()) {
            None | Some(0) => Err(ArgumentsFault::Refused),
            Some(count) => Ok(Some(count)),
        },
    }
}

/// How many trees a script has at most, by the flag `--generations N`.
pub fn most_of(given: &ArgMatches<'_>) -> Result<u32, ArgumentsFault> {
    Ok(count_of(given, "generations")?.unwrap_or(USUAL_GENERATIONS))
}

/// The texts after a flag that may stand there more than once.
pub fn texts_of<'a>(
    alloc: Global,
    given: &ArgMatches<'a>,
    name: &str,
) -> Result<Vec<&'a str>, ArgumentsFault> {
    let mut texts = Vec::new(alloc);
    if let Some(found) = given.get_strs(name) {
        for text in found {
            if texts.push(*text).is_err() {
                return Err(ArgumentsFault::NoMemory);
            }
        }
    }
    Ok(texts)
}

// The form of a verdict by its two flags, of which at most one may be given.
fn form_of(explain: bool, dot: bool) -> Result<Form, ArgumentsFault> {
    match (explain, dot) {
        (false, false) => Ok(Form::Lines),
        (true, false) => Ok(Form::Explained),
        (false, true) => Ok(Form::Picture),
        (true, true) => Err(ArgumentsFault::Refused),
    }
}

// What the arguments after `check` ask for, where a fleet's flags stand there.
fn fleet_check<'a>(alloc: Global, given: &ArgMatches<'a>) -> Result<Job<'a>, ArgumentsFault> {
    if given.get_str("history").is_some() {
        return Err(ArgumentsFault::Refused);
    }
    Ok(Job::CheckFleet(fleet_job(alloc, given)?))
}

// What they ask for where none does.
fn tree_check<'a>(given: &ArgMatches<'a>) -> Result<Job<'a>, ArgumentsFault> {
    let form = form_of(given.get_flag("explain"), given.get_flag("dot"))?;
    let begun = begun_of(given)?;
    let file = given.get_str("FILE");
    match given.get_str("history") {
        None => Ok(Job::Run {
            task: Task::Check { form },
            file,
        }),
        Some(_) if matches!(form, Form::Picture) => Err(ArgumentsFault::Refused),
        Some(history) => Ok(Job::CheckAfter {
            history,
            begun,
            form,
            file,
        }),
    }
}

// What the arguments after `check` ask for.
fn check_job<'a>(alloc: Global, given: &ArgMatches<'a>) -> Result<Job<'a>, ArgumentsFault> {
    if is_of_fleet(given) {
        fleet_check(alloc, given)
    } else {
        tree_check(given)
    }
}

// What the arguments after `replay` ask for.
fn replay_job<'a>(given: &ArgMatches<'a>) -> Result<Job<'a>, ArgumentsFault> {
    let judging = judging_of(given)?;
    let file = given.get_str("SCRIPT");
    match given.get_str("config") {
        Some(config) => Ok(Job::RunOver {
            judging,
            config,
            file,
        }),
        None => Ok(Job::Run {
            task: Task::Replay { judging },
            file,
        }),
    }
}

// The keys of these texts.
fn keys_of(alloc: Global, texts: &[&str]) -> Result<Vec<Key>, ArgumentsFault> {
    let mut keys = Vec::new(alloc);
    for text in texts {
        match Key::read(text.as_bytes()) {
            Ok(key) => {
                if keys.push(key).is_err() {
                    return Err(ArgumentsFault::NoMemory);
                }
            }
            Err(fault) => return Err(ArgumentsFault::Key(fault)),
        }
    }
    Ok(keys)
}

// What the arguments after `where` ask for.
fn where_job<'a>(alloc: Global, given: &ArgMatches<'a>) -> Result<Job<'a>, ArgumentsFault> {
    let (Some(file), Some(texts)) = (given.get_str("config"), given.get_strs("KEY")) else {
        return Err(ArgumentsFault::Refused);
    };
    let keys = keys_of(alloc, texts)?;
    Ok(Job::Where { file, keys })
}

// What is told of a command.
fn help_of(command: Command) -> &'static str {
    match command {
        Command::Check => CHECK_HELP,
        Command::Certify => CERTIFY_HELP,
        Command::Replay => REPLAY_HELP,
        Command::Where => WHERE_HELP,
        Command::Cache => CACHE_HELP,
        Command::Loopback => LOOPBACK_HELP,
        Command::Serve => SERVE_HELP,
        Command::History => HISTORY_HELP,
        Command::Slots => SLOTS_HELP,
        Command::Plan => PLAN_HELP,
        Command::Tell => TELL_HELP,
        Command::Help => HELP,
    }
}

// What the arguments after `help` ask for.
fn help_job<'a>(given: &ArgMatches<'a>) -> Result<Job<'a>, ArgumentsFault> {
    match given.get_str("COMMAND") {
        None => Ok(Job::Print(HELP)),
        Some(name) => match Command::of(name) {
            Some(command) => Ok(Job::Print(help_of(command))),
            None => Err(ArgumentsFault::Refused),
        },
    }
}

// What the arguments after a command ask for.
fn job_of<'a>(
    alloc: Global,
    command: Command,
    given: &ArgMatches<'a>,
) -> Result<Job<'a>, ArgumentsFault> {
    match command {
        Command::Help => help_job(given),
        _ if given.get_flag("help") => Ok(Job::Print(help_of(command))),
        Command::Check => check_job(alloc, given),
        Command::Certify => Ok(certify_job(given)),
        Command::Replay => replay_job(given),
        Command::Where => where_job(alloc, given),
        Command::Serve => serve_job(alloc, given),
        Command::Cache => cache_job(given),
        Command::Loopback => loopback_job(given),
        Command::History => history_job(given),
        Command::Slots => slots_job(alloc, given),
        Command::Plan => plan_job(given),
        Command::Tell => tell_job(given),
    }
}

// What the arguments after the command of this name ask for.
fn job_after<'a>(
    alloc: Global,
    name: &str,
    given: &ArgMatches<'a>,
) -> Result<Job<'a>, ArgumentsFault> {
    match Command::of(name) {
        Some(command) => job_of(alloc, command, given),
        None => Err(ArgumentsFault::Refused),
    }
}

// What arguments without a command ask for.
fn plain_job<'a>(given: &ArgMatches<'a>) -> Job<'a> {
    if given.get_flag("help") {
        return Job::Print(HELP);
    }
    if given.get_flag("version") {
        return Job::Print(VERSION);
    }
    Job::Run {
        task: Task::Replay {
            judging: Judging::Asked(USUAL_GENERATIONS),
        },
        file: None,
    }
}

/// What the arguments ask for, the program's name first: `check [--explain | --dot] [--history HISTORY] [FILE]` or `check --fleet
/// [--with FILE ..] [FILE]`, `certify [FILE]`, `replay [--any] [--config FILE] [SCRIPT]`, `where --config FILE KEY..`, `history FILE`,
/// `plan OLD NEW`, these but `certify`, `where` and `history` also with `--opened WORD` and `--new-servers WORD`,
/// `tell PATH WORD [KEY]`, `slots [--add ADDR | --remove ADDR] [--pool NAME] [--after FILE ..] [FILE]`,
/// `cache --listen HOST:PORT --capacity C [--memory-mb N] [--turns N]`, `loopback [--flush-all] [SCRIPT]`, this one and `replay` also
/// with `--generations N`, `serve` with its flags, or none at all after it, which is `replay`. Also `help [COMMAND]`, `-h` and `--help`, before or after a command, and `--version`.
///
/// A KEY that is none is [`ArgumentsFault::Key`], and any other arguments are [`ArgumentsFault::Refused`].
pub fn read_arguments<'a>(
    alloc: Global,
    arguments: &'a [String],
) -> Result<Job<'a>, ArgumentsFault> {
    let Ok(program) = program(alloc) else {
        return Err(ArgumentsFault::NoMemory);
    };
    let matches = program.try_get_matches_from(arguments)?;
    match matches.subcommand() {
        Some((name, given)) => job_after(alloc, name, given),
        None => Ok(plain_job(&matches)),
    }
}
