//! The program from its arguments to its exit status. In tables `⏎` is a line end.

use core_accepted::{Beginning, Beginnings};
use examples_tables::tables::unfolded;
use examples_tables::tellers::{Teller, halves, wrong};
use fault_words::fault_in_words;
use fault_words::script::BadLine;
use mcgate_args::arguments::{ArgumentsFault, Job, Task, read_arguments};
use mcgate_args::bad_lines::{bad_line_of_events, bad_line_of_task};
use mcgate_args::details::Explaining;
use mcgate_args::ends::{ProgramEnd, end_of, read_configuration, run_events, run_input};
use mcgate_args::serve_arguments::all_places;
use mcgate_args::slots::SlotsChange;
use mcgate_args::tell_arguments::TellJob;
use mcgate_ends::details::Details;
use mcgate_ends::ends::Stop;
use mcgate_ends::input::{text_noting, text_of};
use mcgate_ends::input_text::InputFault;
use mcgate_ends::serve_job::ServeJob;
use mcgate_lines::{Form, RunFault};
use mcgate_replay::Judging;
use mcgate_replay::judging::USUAL_GENERATIONS;
use route_json::Config;
use serve_links::{ServerDialect, VersionText};
use std::alloc::{AllocError, Global};
use std::io;
use std::io::ErrorKind;
use std::test::Fail;

// Arguments between spaces, and what they ask for; `told` where their words have a fault.
fn commands() -> &'static str {
    "mcgate => replay - of standard input
mcgate replay => replay - of standard input
mcgate replay f => replay - of f
mcgate replay --any => replay any of standard input
mcgate replay --any f => replay any of f
mcgate replay f --any => replay any of f
mcgate replay --config c => replay - over c of standard input
mcgate replay --config c f => replay - over c of f
mcgate replay f --config c --any => replay any over c of f
mcgate check => check of standard input
mcgate check f => check of f
mcgate check --explain f => check explained of f
mcgate check f --dot => check drawn of f
mcgate check --explain --dot => refused, told
mcgate check --fleet => check of a fleet with 0 and standard input
mcgate check --fleet --with a --with=b f => check of a fleet with 2 and f
mcgate check --with a f => refused, told
mcgate check --fleet --dot f => refused, told
mcgate check --fleet --explain => refused, told
mcgate certify => certify of standard input
mcgate certify f => certify of f
mcgate check --history h => check of standard input after h
mcgate check c --history h => check of c after h
mcgate check --history h --explain c => check explained of c after h
mcgate check --history h --dot => refused, told
mcgate check --history h --opened own --new-servers empty => check of standard input after h own empty
mcgate check --opened own c => check of c
mcgate check --opened empty c => refused, told
mcgate replay --opened own => replay own of standard input
mcgate replay --new-servers=empty f => replay empty of f
mcgate replay --config c --opened own --new-servers empty f => replay own empty over c of f
mcgate replay --opened any --new-servers any => replay - of standard input
mcgate replay --any --opened own => replay any of standard input
mcgate replay --new-servers own => refused, told
mcgate replay --generations 1 f => replay - at most 1 of f
mcgate replay --opened own --generations=4294967295 => replay own at most 4294967295 of standard input
mcgate replay f --generations 20 --config c => replay - at most 20 over c of f
mcgate replay --generations 16 => replay - of standard input
mcgate replay --any --generations 3 => replay any of standard input
mcgate plan a b => plan a b
mcgate plan --opened own --new-servers empty a b => plan a b own empty
mcgate plan a => refused, told
mcgate plan a b c => refused, told
mcgate history h => history h
mcgate history => refused, told
mcgate slots c => slots of c after 0
mcgate slots --add a:1 --after b --after d c => one more of c after 2
mcgate slots --remove a:1 --pool A => one less of standard input after 0
mcgate slots --add a:1 --remove b:1 c => refused, told
mcgate where --config c k => where 1 in c
mcgate where --config c  => no key
mcgate cache --listen a:1 --capacity 5 => cache 5
mcgate cache --capacity 4294967295 --turns 7 --listen a:1 => cache 4294967295 turns 7
mcgate cache --listen a:1 --capacity 5 --memory-mb 6 => cache 5 memory-mb 6
mcgate loopback => loopback of standard input
mcgate loopback f => loopback of f
mcgate loopback --flush-all f => emptied loopback of f
mcgate loopback --generations 2 f => loopback at most 2 of f
mcgate loopback --generations 30 --flush-all => emptied loopback at most 30 of standard input
mcgate serve --listen a:1 --config c => serve - fail-limit 3 auto
mcgate serve --any --listen a:1 --config c --reload-every 4 --reload-ms 5 --fail-limit 6 => serve any reload-every 4 reload-ms 5 fail-limit 6 auto
mcgate serve --listen a:1 --config c --history h => serve - after h fail-limit 3 auto
mcgate serve --listen a:1 --config c --history h --any => refused, told
mcgate serve --listen a:1 --config c --stores-wait => serve - fail-limit 3 stores-wait auto
mcgate serve --listen a:1 --config c --stores-wait 7 => refused, told
mcgate serve --listen a:1 --config c --stall-ms 7 --memory-mb 8 => serve - fail-limit 3 stall-ms 7 memory 8388608 auto
mcgate serve --listen a:1 --config c --metrics b:2 => serve - fail-limit 3 metrics b:2 auto
mcgate serve --listen a:1 --config c --control d => serve - fail-limit 3 control d drain-ms 10000 auto
mcgate serve --listen a:1 --config c --control d --drain-ms 5 => serve - fail-limit 3 control d drain-ms 5 auto
mcgate serve --listen a:1 --config c --drain-ms 0 => refused, told
mcgate serve --listen a:1 --config c --drain-on-eof => serve - fail-limit 3 drain-on-eof auto
mcgate serve --listen a:1,fd:0 --config c --drain-on-eof => refused
mcgate serve --listen unix:a --unix-mode 660 --config c => serve - at unix:a 660 fail-limit 3 auto
mcgate serve --listen unix:a --unix-mode 777 --config c => refused, told
mcgate serve --listen a:1 --config c --listen unix:a --listen=b:2,fd:0 => serve - at a:1,unix:a,b:2,fd:0 600 fail-limit 3 auto
mcgate serve --listen a:1 --listen fd:0 --config c --drain-on-eof => refused
mcgate serve --listen a:1 --config c --listen => refused, told
mcgate cache --listen a:1 --capacity 5 --listen b:2 => refused, told
mcgate serve --listen a:1 --config c --fleet --reuse-port --tcp-backlog 9 => serve - fleet port shared backlog 9 fail-limit 3 auto
mcgate serve --listen a:1 --config c --reuse-port => refused, told
mcgate serve --listen a:1 --config c --keepalive-s 5 --resolve-s 7 => serve - keepalive-s 5 resolve-s 7 fail-limit 3 auto
mcgate serve --listen a:1 --config c --resolve-s 0 => refused, told
mcgate serve --listen a:1 --config c --log-level warn => serve - fail-limit 3 log warn auto
mcgate serve --listen a:1 --config c --log-json => serve - fail-limit 3 log info json auto
mcgate serve --listen a:1 --config c --log-level all => refused, told
mcgate tell d drain => tell d drain
mcgate tell d where k => tell d where k
mcgate tell d log warn => tell d log warn
mcgate serve --listen a:1 --config c --server-dialect auto => serve - fail-limit 3 auto
mcgate serve --listen a:1 --config c --server-dialect classic => serve - fail-limit 3 classic
mcgate serve --listen a:1 --config c --server-dialect meta => serve - fail-limit 3 meta
mcgate serve --listen a:1 --config c --server-dialect old => refused, told
mcgate serve --listen a:1 --config c --version-text 1.6.0-mcgate => serve - fail-limit 3 auto version 1.6.0-mcgate
mcgate serve --listen a:1 --config c --version-text  => refused, told
mcgate serve --listen a:1 --config c --certificate d => serve - by d fail-limit 3 auto
mcgate serve --listen a:1 --config c --opened own --new-servers empty => serve - fail-limit 3 auto own empty
mcgate serve --listen a:1 --config c --opened any --new-servers any => serve - fail-limit 3 auto
mcgate serve --listen a:1 --config c --opened own => serve - fail-limit 3 auto own
mcgate serve --listen a:1 --config c --new-servers empty => serve - fail-limit 3 auto empty
mcgate serve --listen a:1 --config c --opened empty => refused, told
mcgate serve --listen a:1 --config c --new-servers flush => serve - fail-limit 3 auto empty
mcgate serve --listen a:1 --config c --new-servers full => refused, told
mcgate serve --listen a:1 --config c --fleet --history h => serve - fleet after h fail-limit 3 auto
mcgate serve --listen a:1 --config c --fleet --any => refused, told
mcgate serve --listen a:1 --config c --opened own --fleet => refused, told
mcgate serve --listen a:1 --config c --fleet --new-servers empty => refused, told"
}

// Arguments that the program doesn't have.
fn refused() -> &'static str {
    "mcgate play => refused, told
mcgate  => refused, told
mcgate --any => refused, told
mcgate help chek => refused, told
mcgate help check serve => refused, told
mcgate check --any => refused, told
mcgate certify --any => refused, told
mcgate certify f g => refused, told
mcgate where k => refused, told
mcgate where --config c => refused, told
mcgate cache --listen a:1 => refused, told
mcgate serve --config c => refused, told
mcgate cache --listen a:1 --capacity 0 => refused, told
mcgate cache --listen a:1 --capacity 4294967296 => refused, told
mcgate cache --listen a:1 --capacity 5 --memory-mb 0 => refused, told
mcgate tell d => refused, told
mcgate tell d log => refused, told
mcgate tell d log all => refused, told
mcgate tell d drain k => refused, told
mcgate tell d stop => refused, told
mcgate check f g => refused, told
mcgate loopback --any => refused, told
mcgate loopback --generations 0 f => refused, told
mcgate loopback f --generations => refused, told
mcgate replay --generations 4294967296 => refused, told
mcgate replay --any --generations x => refused, told
mcgate replay --generations 2 --generations 3 => refused, told
mcgate check --generations 2 => refused, told
mcgate serve --config c --listen a:1 --generations 2 => refused, told
mcgate replay --any --any => refused, told
mcgate replay --any=yes => refused, told
mcgate replay --config => refused, told
mcgate check --config c => refused, told
mcgate replay f g => refused, told
mcgate replay replay f => refused, told"
}

fn arguments_of(alloc: Global, line: &str) -> Result<Vec<String>, AllocError> {
    let mut given = Vec::new(alloc);
    for word in line.split(' ') {
        given.push(String::from_str(alloc, word)?)?;
    }
    Ok(given)
}

fn any_word(any: bool) -> &'static str {
    if any { "any" } else { "-" }
}

fn begun_words(begun: Beginnings) -> &'static str {
    match (begun.opened, begun.added) {
        (Beginning::Any, Beginning::Any) => "",
        (Beginning::Own, Beginning::Any) => " own",
        (Beginning::Any, Beginning::Own) => " empty",
        (Beginning::Own, Beginning::Own) => " own empty",
    }
}

fn judging_words(judging: Judging) -> &'static str {
    match judging {
        Judging::Any => " any",
        Judging::Asked(_) => " -",
        Judging::Begun(begun, _) => begun_words(begun),
    }
}

// How many trees are held at most, where that is told.
fn most_of(judging: Judging) -> u32 {
    match judging {
        Judging::Any => USUAL_GENERATIONS,
        Judging::Asked(most) => most,
        Judging::Begun(_, most) => most,
    }
}

fn form_words(form: Form) -> &'static str {
    match form {
        Form::Lines => "check",
        Form::Explained => "check explained",
        Form::Picture => "check drawn",
    }
}

fn push_task(out: &mut String, task: Task) -> Result<(), AllocError> {
    match task {
        Task::Check { form } => out.push_str(form_words(form)),
        Task::Replay { judging } => push_replay(out, judging),
    }
}

fn push_replay(out: &mut String, judging: Judging) -> Result<(), AllocError> {
    write!(out, "replay{}", judging_words(judging))?;
    push_most(out, most_of(judging))
}

// How many trees are held at most, if not as many as usual.
fn push_most(out: &mut String, most: u32) -> Result<(), AllocError> {
    if most != USUAL_GENERATIONS {
        write!(out, " at most {most}")?;
    }
    Ok(())
}

fn push_number(out: &mut String, word: &str, number: Option<u32>) -> Result<(), AllocError> {
    if let Some(number) = number {
        write!(out, " {word} {number}")?;
    }
    Ok(())
}

fn push_version(out: &mut String, version: &Option<VersionText>) -> Result<(), AllocError> {
    if let Some(version) = version {
        let text = str::from_utf8(version.as_bytes()).unwrap_or("?");
        write!(out, " version {text}")?;
    }
    Ok(())
}

fn dialect_word(dialect: ServerDialect) -> &'static str {
    match dialect {
        ServerDialect::Auto => "auto",
        ServerDialect::Classic => "classic",
        ServerDialect::Meta => "meta",
    }
}

fn push_beginning(out: &mut String, word: &str, beginning: Beginning) -> Result<(), AllocError> {
    if let Beginning::Own = beginning {
        write!(out, " {word}")?;
    }
    Ok(())
}

fn mode_word(mode: u32) -> &'static str {
    match mode {
        0o600 => "600",
        0o660 => "660",
        _ => "666",
    }
}

// A number that isn't the usual one.
fn push_unusual(out: &mut String, word: &str, number: u32, usual: u32) -> Result<(), AllocError> {
    if number != usual {
        write!(out, " {word} {number}")?;
    }
    Ok(())
}

fn push_serve(out: &mut String, job: &ServeJob<'_>, places: &str) -> Result<(), AllocError> {
    write!(out, "serve {}", any_word(job.any))?;
    if job.fleet {
        out.push_str(" fleet")?;
    }
    if places != "a:1" {
        write!(out, " at {places} {}", mode_word(job.unix_mode))?;
    }
    if job.reuse_port {
        out.push_str(" port shared")?;
    }
    push_unusual(out, "backlog", job.tcp_backlog, 1_024)?;
    push_unusual(out, "keepalive-s", job.keepalive_s, 60)?;
    push_unusual(out, "resolve-s", job.resolve_s, 60)?;
    if let Some(certificate) = job.certificate {
        write!(out, " by {certificate}")?;
    }
    if let Some(history) = job.history {
        write!(out, " after {history}")?;
    }
    push_number(out, "reload-every", job.reload_every)?;
    push_number(out, "reload-ms", job.reload_ms)?;
    push_number(out, "fail-limit", Some(job.settings.fail_limit))?;
    if job.settings.stores_wait {
        out.push_str(" stores-wait")?;
    }
    if job.stall_ms != 10_000 {
        write!(out, " stall-ms {} memory {}", job.stall_ms, job.memory)?;
    }
    if let Some(metrics) = job.metrics {
        write!(out, " metrics {metrics}")?;
    }
    if let Some(log) = job.log {
        write!(out, " log {}", log.level.word())?;
        out.push_str(if log.json { " json" } else { "" })?;
    }
    if let Some(control) = job.control {
        write!(out, " control {control} drain-ms {}", job.drain_ms)?;
    }
    out.push_str(if job.drain_on_eof {
        " drain-on-eof"
    } else {
        ""
    })?;
    write!(out, " {}", dialect_word(job.settings.server_dialect))?;
    push_version(out, &job.settings.version)?;
    push_beginning(out, "own", job.begun.opened)?;
    push_beginning(out, "empty", job.begun.added)
}

fn file_word<'a>(file: &Option<&'a str>) -> &'a str {
    match file {
        Some(name) => *name,
        None => "standard input",
    }
}

fn change_words(change: SlotsChange<'_>) -> &'static str {
    match change {
        SlotsChange::Keep => "slots",
        SlotsChange::Add(_) => "one more",
        SlotsChange::Remove(_) => "one less",
    }
}

fn push_tell(out: &mut String, job: &TellJob<'_>) -> Result<(), AllocError> {
    write!(out, "tell {} {}", job.path, job.word)?;
    if let Some(more) = job.more {
        write!(out, " {more}")?;
    }
    Ok(())
}

fn push_job(alloc: Global, out: &mut String, job: &Job<'_>) -> Result<(), AllocError> {
    match job {
        Job::Run { task, file } => {
            push_task(out, *task)?;
            write!(out, " of {}", file_word(file))?;
        }
        Job::CheckAfter {
            history,
            begun,
            form,
            file,
        } => {
            write!(out, "{} of {}", form_words(*form), file_word(file))?;
            write!(out, " after {history}{}", begun_words(*begun))?;
        }
        Job::Plan(job) => {
            write!(out, "plan {} {}", job.old, job.new)?;
            out.push_str(begun_words(job.begun))?;
        }
        Job::History { file } => write!(out, "history {file}")?,
        Job::Slots(job) => {
            out.push_str(change_words(job.change))?;
            write!(
                out,
                " of {} after {}",
                file_word(&job.file),
                job.after.len()
            )?;
        }
        Job::RunOver {
            judging,
            config,
            file,
        } => {
            push_replay(out, *judging)?;
            write!(out, " over {config}")?;
            write!(out, " of {}", file_word(file))?;
        }
        Job::CheckFleet(job) => {
            write!(out, "check of a fleet with {}", job.with.len())?;
            write!(out, " and {}", file_word(&job.file))?;
        }
        Job::Where { file, keys } => write!(out, "where {} in {file}", keys.len())?,
        Job::Certify { file } => write!(out, "certify of {}", file_word(file))?,
        Job::Loopback {
            file,
            flushes_new,
            most,
        } => {
            let emptied = if *flushes_new { "emptied " } else { "" };
            write!(out, "{emptied}loopback")?;
            push_most(out, *most)?;
            write!(out, " of {}", file_word(file))?;
        }
        Job::Cache(job) => {
            write!(out, "cache {}", job.settings.capacity)?;
            push_number(out, "memory-mb", job.memory_mb)?;
            push_number(out, "turns", job.turns)?;
        }
        Job::Serve(job, listen) => {
            let places = all_places(alloc, listen.as_slice())?;
            push_serve(out, job, places.as_str())?;
        }
        Job::Tell(job) => push_tell(out, job)?,
        Job::Print(text) => out.push_str(text)?,
    }
    Ok(())
}

fn job_words(alloc: Global, job: &Job<'_>) -> Result<String, AllocError> {
    let mut words = String::new(alloc);
    push_job(alloc, &mut words, job)?;
    Ok(words)
}

fn words_of_arguments(alloc: Global, given: &[String]) -> Result<String, AllocError> {
    match read_arguments(alloc, given) {
        Ok(job) => job_words(alloc, &job),
        Err(ArgumentsFault::Refused) => "refused".to_string(alloc),
        Err(ArgumentsFault::Key(_)) => "no key".to_string(alloc),
        Err(ArgumentsFault::NoMemory) => "no memory".to_string(alloc),
    }
}

// The words of the job that a line of arguments asks for.
fn asked(alloc: Global, line: &str) -> Result<String, AllocError> {
    let given = arguments_of(alloc, line)?;
    words_of_arguments(alloc, given.as_slice())
}

fn told_of_arguments(alloc: Global, given: &[String]) -> Result<String, AllocError> {
    let mut words = words_of_arguments(alloc, given)?;
    if fault_in_words(alloc, given)?.is_some() {
        words.push_str(", told")?;
    }
    Ok(words)
}

struct OfArguments;

impl Teller for OfArguments {
    fn told(alloc: Global, line: &str) -> Result<String, AllocError> {
        let given = arguments_of(alloc, line)?;
        told_of_arguments(alloc, given.as_slice())
    }
}

#[test]
fn jobs_of_arguments(rt: HostRuntime) -> Result<(), Fail> {
    assert_eq!(rt; wrong::<OfArguments>(rt.alloc(), commands())?.as_str(), "");
    assert_eq!(rt; wrong::<OfArguments>(rt.alloc(), refused())?.as_str(), "");
    Ok(())
}

#[test]
fn a_key_with_a_space(rt: HostRuntime) -> Result<(), Fail> {
    let mut given = arguments_of(rt.alloc(), "mcgate where --config c")?;
    given.push(String::from_str(rt.alloc(), "a b")?)?;
    let words = words_of_arguments(rt.alloc(), given.as_slice())?;
    assert_eq!(rt; words.as_str(), "no key");
    Ok(())
}

// Arguments, and what the printed text begins with.
fn printed() -> &'static str {
    "mcgate --help => mcgate sends
mcgate -h => mcgate sends
mcgate help => mcgate sends
mcgate help where => usage: mcgate where 
mcgate help serve => usage: mcgate serve 
mcgate history -h => usage: mcgate history 
mcgate help plan => usage: mcgate plan 
mcgate cache -h => usage: mcgate cache 
mcgate check --help => usage: mcgate check 
mcgate replay --help => usage: mcgate replay 
mcgate --version => mcgate 1⏎"
}

fn begins_so(alloc: Global, line: &str, front: &str) -> Result<bool, AllocError> {
    let front = unfolded(alloc, front)?;
    let text = asked(alloc, line)?;
    Ok(text.as_str().starts_with(front.as_str()))
}

#[test]
fn help_and_version(rt: HostRuntime) -> Result<(), Fail> {
    for example in printed().lines() {
        let (line, front) = halves(example, " => ");
        assert!(rt; begins_so(rt.alloc(), line, front)?, "at {line}");
    }
    Ok(())
}

#[test]
fn inputs_of_files(rt: HostRuntime) -> Result<(), Fail> {
    let Ok(text) = text_of(&rt, Some("/dev/null")) else {
        return Err(Fail::from("not read"));
    };
    assert_eq!(rt; text.as_str(), "");
    for path in ["/dev/null/x", "/"] {
        let read = text_of(&rt, Some(path));
        assert!(rt; matches!(read, Err(InputFault::Device)), "at {path}");
    }
    Ok(())
}

// What is said of a file that gave no input.
fn told_of_file(rt: &HostRuntime, path: &str) -> Result<String, Fail> {
    let mut failure = None;
    let _ = text_noting(rt, Some(path), &mut failure);
    let mut details = Details::new(rt.alloc());
    if let Some(failure) = failure {
        details.add_failure(rt.alloc(), path, &failure);
    }
    Ok(joined(rt.alloc(), &details)?)
}

// The lines of detail, one after the other.
fn joined(alloc: Global, details: &Details) -> Result<String, AllocError> {
    let mut all = String::new(alloc);
    for line in details.lines() {
        all.push_str(line.as_str())?;
        all.push_str("\n")?;
    }
    Ok(all)
}

#[test]
fn files_that_give_no_input(rt: HostRuntime) -> Result<(), Fail> {
    let cases = [
        ("/dev/null", ""),
        (
            "/dev/null/x",
            "mcgate: cannot open /dev/null/x: Not a directory\n",
        ),
        ("/", "mcgate: cannot read /: it is a folder\n"),
    ];
    for (path, want) in cases {
        let told = told_of_file(&rt, path)?;
        assert_eq!(rt; told.as_str(), want, "at {path}");
    }
    Ok(())
}

// Inputs and faults, and what is said of them.
fn table() -> &'static str {
    r#"told of check: too large => mcgate: f has more than 16777216 bytes⏎
told of replay: not UTF-8 => mcgate: f isn't UTF-8⏎
told of replay own: pool 1⏎hold 0 a 1⏎ => mcgate: f: by --opened the server of that line can't have held the key⏎
told of replay empty: pool 1⏎hold 0 a 1⏎ => mcgate: f: by --new-servers the server of that line can't have held the key⏎
told of replay own empty: pool 1⏎hold 0 a 1⏎ => mcgate: f: by --opened and --new-servers the server of that line can't have held the key⏎
told of replay: no memory => 
refusal of check f: {"pools":{},"route":"NullRoute"} => 
refusal of check f: {} => 
refusal of replay f: pool 1⏎ => 
refusal of check f: not UTF-8 => 
listening by InvalidInput: a => mcgate: cannot listen on a: no port: expected HOST:PORT⏎
listening by AddrInUse: a:1 => mcgate: cannot listen on a:1: address in use⏎
listening by OutOfMemory: a:1 => 
listening at a path by AddrInUse: /a => mcgate: cannot listen on /a: address in use⏎
listening at a path by OutOfMemory: /a => 
end of replay: too large => 2 -⏎input: too large⏎
end of replay: not UTF-8 => 2 -⏎input: not UTF-8⏎
end of replay: no memory => 3 memory: refused⏎
end of replay: device => 3 device: failed⏎
end of events: too large => 2 -⏎input: too large⏎
end of events: device => 3 device: failed⏎
configuration: {"pools":{},⏎"route":"NullRoute"}⏎ => a configuration
configuration: too large => input: too large⏎
configuration: not UTF-8 => input: not UTF-8⏎
bad line of check: pool 1⏎⏎los 0 a⏎ => 
bad line of replay: pool 1⏎ => 
bad line of replay: {}⏎ => 
stop by usage:  => 2 usage: mcgate check, replay, serve, cache or loopback⏎
stop by no memory for arguments:  => 3 memory: refused⏎
stop by OutOfMemory:  => 3 memory: refused⏎
stop by StorageFull:  => 3 device: failed⏎
stop by NotFound:  => 3 device: failed⏎
stop by memory in a run:  => 3 memory: refused⏎
stop by a writer:  => 3 device: failed⏎
stop by calls:  => 3 calls: more than 18446744073709551615⏎"#
}

fn replay_begun(opened: Beginning, added: Beginning) -> Task {
    Task::Replay {
        judging: Judging::Begun(Beginnings { opened, added }, USUAL_GENERATIONS),
    }
}

fn task_named(word: &str) -> Task {
    match word {
        "replay" => Task::Replay {
            judging: Judging::Asked(USUAL_GENERATIONS),
        },
        "replay own" => replay_begun(Beginning::Own, Beginning::Any),
        "replay empty" => replay_begun(Beginning::Any, Beginning::Own),
        "replay own empty" => replay_begun(Beginning::Own, Beginning::Own),
        "explain" => Task::Check {
            form: Form::Explained,
        },
        _ => Task::Check { form: Form::Lines },
    }
}

// The input of this text, or a fault by its name.
fn input_of(alloc: Global, text: &str) -> Result<String, InputFault> {
    match text {
        "too large" => Err(InputFault::TooLarge),
        "not UTF-8" => Err(InputFault::NotUtf8),
        "no memory" => Err(InputFault::NoMemory),
        "device" => Err(InputFault::Device),
        _ => match String::from_str(alloc, text) {
            Ok(text) => Ok(text),
            Err(_) => Err(InputFault::NoMemory),
        },
    }
}

// What is said of the input of a task, of which no line is bad.
fn told_of_input(alloc: Global, task: Task, text: &str) -> Result<String, AllocError> {
    let input = input_of(alloc, text);
    let mut details = Details::new(alloc);
    details.add_task(alloc, task, "f", &input, None);
    joined(alloc, &details)
}

fn file_of(name: &str) -> Option<&str> {
    if name.is_empty() { None } else { Some(name) }
}

// What is said of the input of a task, whose tree the gate refuses.
fn told_of_refusal(alloc: Global, line: &str, text: &str) -> Result<String, AllocError> {
    let (task, file) = halves(line, " ");
    let input = input_of(alloc, text);
    let mut details = Details::new(alloc);
    details.add_refused_task(alloc, task_named(task), file_of(file), &input);
    joined(alloc, &details)
}

fn kind_named(word: &str) -> ErrorKind {
    match word {
        "InvalidInput" => ErrorKind::InvalidInput,
        "AddrInUse" => ErrorKind::AddrInUse,
        "OutOfMemory" => ErrorKind::OutOfMemory,
        "StorageFull" => ErrorKind::StorageFull,
        _ => ErrorKind::NotFound,
    }
}

// What is said of an address and an error of the system.
fn told_of_address(alloc: Global, kind: ErrorKind, address: &str) -> Result<String, AllocError> {
    let mut details = Details::new(alloc);
    details.add_listen(alloc, address, &io::Error::from(kind));
    joined(alloc, &details)
}

// What is said of a path and an error of the system.
fn told_of_path(alloc: Global, kind: ErrorKind, path: &str) -> Result<String, AllocError> {
    let mut details = Details::new(alloc);
    details.add_path(alloc, path, &io::Error::from(kind));
    joined(alloc, &details)
}

// The status, what is said on standard error, and what was printed.
fn end_words(alloc: Global, end: ProgramEnd, out: &[u8]) -> Result<String, AllocError> {
    let printed = str::from_utf8(out).unwrap_or("?");
    let complaint = end.complaint.unwrap_or("-");
    let mut words = format!(in alloc; "{} {complaint}\n", end.status)?;
    words.push_str(printed)?;
    Ok(words)
}

fn end_of_replay(alloc: Global, text: &str) -> Result<String, AllocError> {
    let input = input_of(alloc, text);
    let mut out = Vec::new(alloc);
    let end = end_of(run_input(alloc, task_named("replay"), &input, &mut out));
    end_words(alloc, end, out.as_slice())
}

fn end_of_events(alloc: Global, text: &str) -> Result<String, AllocError> {
    let config = Config::of_pool(alloc, 1)?;
    let input = input_of(alloc, text);
    let mut out = Vec::new(alloc);
    let judging = Judging::Asked(USUAL_GENERATIONS);
    let end = end_of(run_events(alloc, judging, config, &input, &mut out));
    end_words(alloc, end, out.as_slice())
}

fn told_of_end(alloc: Global, of: &str, text: &str) -> Result<String, AllocError> {
    match of {
        "replay" => end_of_replay(alloc, text),
        _ => end_of_events(alloc, text),
    }
}

fn stop_named(word: &str) -> Stop {
    match word {
        "usage" => Stop::from(ArgumentsFault::Refused),
        "no memory for arguments" => Stop::from(ArgumentsFault::NoMemory),
        "memory in a run" => Stop::from(RunFault::NoMemory),
        "a writer" => Stop::from(RunFault::Writer),
        "calls" => Stop::from(RunFault::TooManyCalls),
        _ => Stop::from(io::Error::from(kind_named(word))),
    }
}

// It is dropped here, where nothing else can end the function.
fn config_word(config: Option<Config>) -> &'static str {
    if config.is_some() {
        "a configuration"
    } else {
        ""
    }
}

fn reading_word(alloc: Global, text: &str, out: &mut Vec<u8>) -> &'static str {
    let input = input_of(alloc, text);
    match read_configuration(alloc, &input, out) {
        Ok(config) => config_word(config),
        Err(_) => "stopped",
    }
}

// What is printed of an input that is to be a configuration, and whether it is one.
fn told_of_configuration(alloc: Global, text: &str) -> Result<String, AllocError> {
    let mut out = Vec::new(alloc);
    let word = reading_word(alloc, text, &mut out);
    out.extend_from_slice(word.as_bytes())?;
    str::from_utf8(out.as_slice())
        .unwrap_or("?")
        .to_string(alloc)
}

// The words of a bad line on standard error; none where there is none.
fn words_of(alloc: Global, found: Option<BadLine<'_>>) -> Result<String, AllocError> {
    match found {
        Some(bad) => format!(in alloc; "{bad}"),
        None => Ok(String::new(alloc)),
    }
}

fn words_of_task(alloc: Global, task: Task, text: &str) -> Result<String, AllocError> {
    let input = input_of(alloc, text);
    words_of(alloc, bad_line_of_task(alloc, task, &input)?)
}

fn words_of_events(alloc: Global, text: &str) -> Result<String, AllocError> {
    let config = Config::of_pool(alloc, 1)?;
    let input = input_of(alloc, text);
    words_of(alloc, bad_line_of_events(alloc, config, &input)?)
}

fn told_of_bad_line(alloc: Global, of: &str, text: &str) -> Result<String, AllocError> {
    match of {
        "events" => words_of_events(alloc, text),
        _ => words_of_task(alloc, task_named(of), text),
    }
}

fn told_of(alloc: Global, question: &str, text: &str) -> Result<String, AllocError> {
    if let Some((what, name)) = question.split_once(" by ") {
        return match what {
            "stop" => end_words(alloc, end_of(Err(stop_named(name))), b""),
            "listening at a path" => told_of_path(alloc, kind_named(name), text),
            _ => told_of_address(alloc, kind_named(name), text),
        };
    }
    let (what, of) = halves(question, " of ");
    match what {
        "told" => told_of_input(alloc, task_named(of), text),
        "refusal" => told_of_refusal(alloc, of, text),
        "end" => told_of_end(alloc, of, text),
        "bad line" => told_of_bad_line(alloc, of, text),
        _ => told_of_configuration(alloc, text),
    }
}

struct OfEnds;

impl Teller for OfEnds {
    fn told(alloc: Global, example: &str) -> Result<String, AllocError> {
        let (question, folded) = halves(example, ": ");
        let text = unfolded(alloc, folded)?;
        let told = told_of(alloc, question, text.as_str())?;
        told.as_str().replace(alloc, "\n", "⏎")
    }
}

#[test]
fn ends_and_what_is_said(rt: HostRuntime) -> Result<(), Fail> {
    assert_eq!(rt; wrong::<OfEnds>(rt.alloc(), table())?.as_str(), "");
    Ok(())
}
