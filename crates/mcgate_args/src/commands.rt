//! The program's commands with their flags, as the parser of its arguments is told of them.

use clap::{Arg, ArgAction};
use fault_words::commands::{Command, TOP_FLAGS, Takes, is_repeated, takes_of};
use std::alloc::{AllocError, Global};

// The flag of this name of a command.
fn flag<'a>(alloc: Global, command: Command, name: &'static str) -> Arg<'a> {
    let flag = Arg::new(alloc, name).long(name);
    if name == "help" {
        flag.short('h').action(ArgAction::SetTrue)
    } else if takes_of(name) == Takes::Nothing {
        flag.action(ArgAction::SetTrue)
    } else if is_repeated(command, name) {
        flag.action(ArgAction::Append)
    } else {
        flag.action(ArgAction::Set)
    }
}

// The word of this name, which is no flag; of keys there may be several.
fn word<'a>(alloc: Global, name: &'static str) -> Arg<'a> {
    let word = Arg::new(alloc, name);
    if name == "KEY" {
        word.num_args(1..).action(ArgAction::Append)
    } else {
        word
    }
}

// The names of the words that follow a command and are no flags.
fn words_of(command: Command) -> &'static [&'static str] {
    match command {
        Command::Check | Command::Certify | Command::History | Command::Slots => &["FILE"],
        Command::Replay | Command::Loopback => &["SCRIPT"],
        Command::Where => &["KEY"],
        Command::Plan => &["OLD", "NEW"],
        Command::Tell => &["PATH", "WORD", "MORE"],
        Command::Help => &["COMMAND"],
        Command::Serve | Command::Cache => &[],
    }
}

// What an argument is.
#[derive(Clone, Copy)]
enum ArgumentKind {
    // A flag of this command.
    Flag(Command),
    Word,
}

fn argument<'a>(alloc: Global, kind: ArgumentKind, name: &'static str) -> Arg<'a> {
    match kind {
        ArgumentKind::Flag(command) => flag(alloc, command, name),
        ArgumentKind::Word => word(alloc, name),
    }
}

// A parser that knows these too.
fn with_arguments<'a>(
    alloc: Global,
    parser: clap::Command<'a>,
    kind: ArgumentKind,
    names: &[&'static str],
) -> Result<clap::Command<'a>, AllocError> {
    let mut parser = parser;
    for name in names {
        parser = parser.arg(argument(alloc, kind, name))?;
    }
    Ok(parser)
}

// All commands.
const COMMANDS: [Command; 12] = [
    Command::Check,
    Command::Certify,
    Command::Replay,
    Command::Where,
    Command::Serve,
    Command::Cache,
    Command::Loopback,
    Command::History,
    Command::Slots,
    Command::Plan,
    Command::Tell,
    Command::Help,
];

// A parser that knows no flags and words so far.
fn bare_parser<'a>(alloc: Global, name: &'static str) -> clap::Command<'a> {
    clap::Command::new(alloc, name)
        .disable_help_flag(true)
        .disable_help_subcommand(true)
}

// The parser of what follows a command.
fn parser_of<'a>(alloc: Global, command: Command) -> Result<clap::Command<'a>, AllocError> {
    let parser = bare_parser(alloc, command.name());
    let parser = with_arguments(alloc, parser, ArgumentKind::Flag(command), command.flags())?;
    with_arguments(alloc, parser, ArgumentKind::Word, words_of(command))
}

// Drops a parser.
fn drop_parser(_parser: clap::Command<'_>) {}

// A parser that knows this command too.
fn with_command<'a>(
    alloc: Global,
    parser: clap::Command<'a>,
    command: Command,
) -> Result<clap::Command<'a>, AllocError> {
    match parser_of(alloc, command) {
        Ok(known) => parser.subcommand(known),
        Err(refused) => {
            drop_parser(parser);
            Err(refused)
        }
    }
}

/// The parser of the program's arguments. The only error is running out of memory.
pub fn program<'a>(alloc: Global) -> Result<clap::Command<'a>, AllocError> {
    let parser = bare_parser(alloc, "mcgate");
    let mut parser = with_arguments(
        alloc,
        parser,
        ArgumentKind::Flag(Command::Help),
        TOP_FLAGS.as_slice(),
    )?;
    for command in COMMANDS {
        parser = with_command(alloc, parser, command)?;
    }
    Ok(parser)
}
