//! The program's commands: which flags each has, and which words may follow.

/// What follows a flag.
#[derive(Clone, Copy, PartialEq, Eq)]
pub enum Takes {
    Nothing,
    File,
    Address,
    /// The name of a pool.
    Pool,
    /// A number in 1..=4294967295.
    Count,
    /// One of a few words.
    Word,
    /// The text of a version.
    Version,
}

/// The commands.
#[derive(Clone, Copy, PartialEq, Eq)]
pub enum Command {
    Check,
    Certify,
    Replay,
    Where,
    Serve,
    Cache,
    Loopback,
    History,
    Slots,
    Plan,
    Tell,
    Help,
}

/// The names of the commands.
pub const COMMANDS: [&str; 12] = [
    "check", "certify", "replay", "where", "serve", "cache", "loopback", "history", "slots",
    "plan", "tell", "help",
];

const CHECK_FLAGS: [&str; 8] = [
    "help",
    "explain",
    "dot",
    "fleet",
    "with",
    "history",
    "opened",
    "new-servers",
];

const SERVE_FLAGS: [&str; 38] = [
    "help",
    "check",
    "config",
    "listen",
    "fleet",
    "unix-mode",
    "tcp-backlog",
    "reuse-port",
    "any",
    "history",
    "certificate",
    "clients",
    "client-window",
    "link-window",
    "call-ms",
    "connect-ms",
    "fail-limit",
    "retry-ms",
    "stores-wait",
    "give-up-ms",
    "keepalive-s",
    "resolve-s",
    "polls",
    "stall-ms",
    "memory-mb",
    "metrics",
    "control",
    "drain-ms",
    "drain-on-eof",
    "log-level",
    "log-json",
    "server-dialect",
    "version-text",
    "opened",
    "new-servers",
    "reload-ms",
    "reload-every",
    "turns",
];

const CACHE_FLAGS: [&str; 6] = [
    "help",
    "listen",
    "capacity",
    "memory-mb",
    "flush-all",
    "turns",
];

/// The flags that may stand before any command.
pub const TOP_FLAGS: [&str; 2] = ["help", "version"];

const PLAIN_FLAGS: [&str; 12] = [
    "help",
    "version",
    "any",
    "check",
    "explain",
    "dot",
    "fleet",
    "log-json",
    "drain-on-eof",
    "stores-wait",
    "reuse-port",
    "flush-all",
];

const FILE_FLAGS: [&str; 6] = [
    "config",
    "certificate",
    "with",
    "history",
    "after",
    "control",
];

const ADDRESS_FLAGS: [&str; 4] = ["listen", "metrics", "add", "remove"];

const WORD_FLAGS: [&str; 5] = [
    "server-dialect",
    "opened",
    "new-servers",
    "unix-mode",
    "log-level",
];

/// What follows the flag of this name.
pub fn takes_of(flag: &str) -> Takes {
    if PLAIN_FLAGS.as_slice().contains(&flag) {
        Takes::Nothing
    } else if FILE_FLAGS.as_slice().contains(&flag) {
        Takes::File
    } else if ADDRESS_FLAGS.as_slice().contains(&flag) {
        Takes::Address
    } else if WORD_FLAGS.as_slice().contains(&flag) {
        Takes::Word
    } else if flag == "pool" {
        Takes::Pool
    } else if flag == "version-text" {
        Takes::Version
    } else {
        Takes::Count
    }
}

/// Whether a flag of a command may stand there more than once.
pub fn is_repeated(command: Command, flag: &str) -> bool {
    flag == "with" || flag == "after" || (flag == "listen" && command == Command::Serve)
}

/// The words of which one follows the flag of this name, where it takes one of a few.
pub fn words_after(flag: &str) -> &'static [&'static str] {
    match flag {
        "server-dialect" => &["auto", "classic", "meta"],
        "opened" => &["any", "own"],
        "new-servers" => &["any", "empty", "flush"],
        "log-level" => &["error", "warn", "info", "debug"],
        "unix-mode" => &["600", "660", "666"],
        _ => &[],
    }
}

/// What a proxy that runs is told.
pub const TOLD: [&str; 6] = ["drain", "reload", "status", "servers", "log", "where"];

impl Takes {
    /// What stands for the value in a usage line.
    pub fn value(self) -> &'static str {
        match self {
            Takes::Nothing => "",
            Takes::File => "FILE",
            Takes::Address => "HOST:PORT",
            Takes::Pool => "NAME",
            Takes::Count => "N",
            Takes::Word => "WORD",
            Takes::Version => "TEXT",
        }
    }
}

impl Command {
    /// The command of this name.
    pub fn of(word: &str) -> Option<Command> {
        match word {
            "check" => Some(Command::Check),
            "certify" => Some(Command::Certify),
            "replay" => Some(Command::Replay),
            "where" => Some(Command::Where),
            "serve" => Some(Command::Serve),
            "cache" => Some(Command::Cache),
            "loopback" => Some(Command::Loopback),
            "history" => Some(Command::History),
            "slots" => Some(Command::Slots),
            "plan" => Some(Command::Plan),
            "tell" => Some(Command::Tell),
            "help" => Some(Command::Help),
            _ => None,
        }
    }

    /// Its name.
    pub fn name(self) -> &'static str {
        match self {
            Command::Check => "check",
            Command::Certify => "certify",
            Command::Replay => "replay",
            Command::Where => "where",
            Command::Serve => "serve",
            Command::Cache => "cache",
            Command::Loopback => "loopback",
            Command::History => "history",
            Command::Slots => "slots",
            Command::Plan => "plan",
            Command::Tell => "tell",
            Command::Help => "help",
        }
    }

    /// Its words, as a usage line has them.
    pub fn usage(self) -> &'static str {
        match self {
            Command::Check => {
                "mcgate check [--explain | --dot] [--history FILE] [--opened WORD] [--new-servers WORD] [FILE], or mcgate check --fleet [--with FILE ..] [FILE]"
            }
            Command::Certify => "mcgate certify [FILE]",
            Command::Replay => {
                "mcgate replay [--any] [--opened WORD] [--new-servers WORD] [--generations N] [--config FILE] [SCRIPT]"
            }
            Command::Where => "mcgate where --config FILE KEY..",
            Command::Serve => {
                "mcgate serve --config FILE --listen HOST:PORT [--fleet | --any] [--check] [FLAG N ..]"
            }
            Command::Cache =>
                "mcgate cache --listen HOST:PORT --capacity C [--memory-mb N] [--flush-all] [--turns N]",
            Command::Loopback => "mcgate loopback [--flush-all] [--generations N] [SCRIPT]",
            Command::History => "mcgate history FILE",
            Command::Slots => {
                "mcgate slots [--add HOST:PORT | --remove HOST:PORT] [--pool NAME] [--after FILE ..] [FILE]"
            }
            Command::Plan => "mcgate plan [--opened WORD] [--new-servers WORD] OLD NEW",
            Command::Tell =>
                "mcgate tell PATH drain | reload | status | servers | log LEVEL | where KEY",
            Command::Help => "mcgate help [COMMAND]",
        }
    }

    /// The names of its flags.
    pub fn flags(self) -> &'static [&'static str] {
        match self {
            Command::Check => &CHECK_FLAGS,
            Command::Replay => &[
                "help",
                "any",
                "opened",
                "new-servers",
                "generations",
                "config",
            ],
            Command::Plan => &["help", "opened", "new-servers"],
            Command::Where => &["help", "config"],
            Command::Serve => &SERVE_FLAGS,
            Command::Cache => &CACHE_FLAGS,
            Command::Slots => &["help", "add", "remove", "pool", "after"],
            Command::Loopback => &["help", "flush-all", "generations"],
            Command::Certify | Command::History | Command::Tell | Command::Help => &["help"],
        }
    }

    /// The flags that it can't do without.
    pub fn needed(self) -> &'static [&'static str] {
        match self {
            Command::Where => &["config"],
            Command::Serve => &["config", "listen"],
            Command::Cache => &["listen", "capacity"],
            _ => &[],
        }
    }

    /// The pairs of its flags that don't go together.
    pub fn apart(self) -> &'static [[&'static str; 2]] {
        match self {
            Command::Check => &[
                ["explain", "dot"],
                ["fleet", "explain"],
                ["fleet", "dot"],
                ["fleet", "history"],
                ["dot", "history"],
            ],
            Command::Serve => &[
                ["fleet", "any"],
                ["fleet", "opened"],
                ["fleet", "new-servers"],
                ["any", "history"],
                ["any", "certificate"],
            ],
            Command::Slots => &[["add", "remove"]],
            _ => &[],
        }
    }

    /// How many words it takes at most that are no flags and no values of theirs.
    pub fn most_words(self) -> usize {
        match self {
            Command::Check
            | Command::Certify
            | Command::Replay
            | Command::Loopback
            | Command::History
            | Command::Slots
            | Command::Help => 1,
            Command::Plan => 2,
            Command::Tell => 3,
            Command::Where => usize::MAX,
            Command::Serve | Command::Cache => 0,
        }
    }

    /// How many of those it takes at least.
    pub fn least_words(self) -> usize {
        match self {
            Command::Where | Command::History => 1,
            Command::Plan | Command::Tell => 2,
            _ => 0,
        }
    }

    /// What those words are.
    pub fn word(self) -> &'static str {
        match self {
            Command::Check | Command::Certify | Command::History | Command::Slots | Command::Plan =>
                "FILE",
            Command::Replay | Command::Loopback => "SCRIPT",
            Command::Where => "KEY",
            Command::Serve | Command::Cache => "",
            Command::Tell => "PATH, WORD",
            Command::Help => "COMMAND",
        }
    }
}
