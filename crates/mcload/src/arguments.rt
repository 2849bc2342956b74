//! The arguments of the command line.

pub const USAGE: &str = "usage: mcload fill|load|freshness HOST:PORT [FLAG N ..]
  fill       sets each key once
  load       gets and sets of keys that were filled
  freshness  sets a value that was never set before, deletes and gets, and counts gets of deleted values
  --clients N    connections, 8 where it is left out
  --depth N      commands of each that are under way, 1
  --size N       bytes of a value, 16..=1048576, 32
  --keys N       different keys, 1000
  --commands N   ends after so many commands, 100000
  --seconds N    or after so many seconds, 60
  --gets N       of a hundred commands of load so many are gets, 90
  --again-ms N   a client whose connection is lost connects anew after so long; else that ends the run
  --seed N       of the choice of commands and keys, 1";

/// What the clients do.
#[derive(Clone, Copy, PartialEq, Eq)]
pub enum LoadJob {
    /// They set each key once.
    Fill,
    /// They get and set keys.
    Load,
    /// They set new values, get and delete.
    Freshness,
}

/// What the arguments ask for.
#[derive(Clone, Copy)]
pub struct LoadSettings<'a> {
    pub job: LoadJob,
    /// A host and a port.
    pub address: &'a str,
    pub clients: u64,
    /// How many commands each client keeps under way.
    pub depth: u64,
    /// The bytes of a value.
    pub size: usize,
    /// How many different keys there are, 1 or more.
    pub keys: u64,
    /// It ends after so many commands.
    pub commands: u64,
    /// Or after so many seconds.
    pub seconds: u64,
    /// Of a hundred commands of [`Job::Load`] so many are gets.
    pub gets: u64,
    /// After so many milliseconds a client connects anew whose connection was lost. `None`: that ends the run.
    pub again_ms: Option<u64>,
    /// Of the choice of commands and keys.
    pub seed: u64,
}

fn job_of(word: &str) -> Option<LoadJob> {
    match word {
        "fill" => Some(LoadJob::Fill),
        "load" => Some(LoadJob::Load),
        "freshness" => Some(LoadJob::Freshness),
        _ => None,
    }
}

// A number in a range.
fn number_of(word: &str, least: u64, most: u64) -> Option<u64> {
    let number = word.parse::<u64>().ok()?;
    if number < least || number > most {
        return None;
    }
    Some(number)
}

impl<'a> LoadSettings<'a> {
    fn new(job: LoadJob, address: &'a str) -> LoadSettings<'a> {
        LoadSettings {
            job,
            address,
            clients: 8,
            depth: 1,
            size: 32,
            keys: 1_000,
            commands: 100_000,
            seconds: 60,
            gets: 90,
            again_ms: None,
            seed: 1,
        }
    }

    // Takes a flag and its number.
    fn set(&mut self, flag: &str, word: &str) -> Option<()> {
        match flag {
            "--clients" => self.clients = number_of(word, 1, 1_000)?,
            "--depth" => self.depth = number_of(word, 1, 1_000)?,
            "--size" => self.size = number_of(word, 16, 1_048_576)? as usize,
            "--keys" => self.keys = number_of(word, 1, 1_000_000)?,
            "--commands" => self.commands = number_of(word, 1, 1_000_000_000_000)?,
            "--seconds" => self.seconds = number_of(word, 1, 1_000_000)?,
            "--gets" => self.gets = number_of(word, 0, 100)?,
            "--again-ms" => self.again_ms = Some(number_of(word, 1, 60_000)?),
            "--seed" => self.seed = number_of(word, 0, u64::MAX)?,
            _ => return None,
        }
        Some(())
    }
}

/// What these arguments ask for, the program's name first. `None` where the program has no such arguments.
pub fn settings_of(arguments: &[String]) -> Option<LoadSettings<'_>> {
    let [_, job, address, flags @ ..] = arguments else {
        return None;
    };
    let mut settings = LoadSettings::new(job_of(job.as_str())?, address.as_str());
    for pair in flags.chunks(2) {
        match pair {
            [flag, number] => settings.set(flag.as_str(), number.as_str())?,
            _ => return None,
        }
    }
    if settings.job == LoadJob::Fill {
        settings.commands = settings.keys;
    }
    Some(settings)
}
