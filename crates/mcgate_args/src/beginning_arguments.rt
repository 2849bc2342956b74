//! What arguments say of how servers began.

use crate::arguments::{ArgumentsFault, most_of};
use clap::ArgMatches;
use core_accepted::{Beginning, Beginnings};
use mcgate_replay::Judging;

// What the first servers held: anything where the word is `any` or left out.
fn opened_of(word: Option<&str>) -> Result<Beginning, ArgumentsFault> {
    match word {
        None | Some("any") => Ok(Beginning::Any),
        Some("own") => Ok(Beginning::Own),
        Some(_) => Err(ArgumentsFault::Refused),
    }
}

// What new servers held before their first call: nothing where they were empty, or are emptied first.
fn added_of(word: Option<&str>) -> Result<Beginning, ArgumentsFault> {
    match word {
        None | Some("any") => Ok(Beginning::Any),
        Some("empty" | "flush") => Ok(Beginning::Own),
        Some(_) => Err(ArgumentsFault::Refused),
    }
}

/// How servers began, by the flags `--opened any|own` and `--new-servers any|empty|flush`.
pub fn begun_of(given: &ArgMatches<'_>) -> Result<Beginnings, ArgumentsFault> {
    Ok(Beginnings {
        opened: opened_of(given.get_str("opened"))?,
        added: added_of(given.get_str("new-servers"))?,
    })
}

/// Whether new servers are to be emptied before their first call.
pub fn flushes_new(given: &ArgMatches<'_>) -> bool {
    given.get_str("new-servers") == Some("flush")
}

/// How the trees of a script are judged, and how many are held, by these flags, `--generations N` and `--any`, beside which they say
/// nothing.
pub fn judging_of(given: &ArgMatches<'_>) -> Result<Judging, ArgumentsFault> {
    let begun = begun_of(given)?;
    let most = most_of(given)?;
    Ok(match (given.get_flag("any"), begun.opened, begun.added) {
        (true, _, _) => Judging::Any,
        (false, Beginning::Any, Beginning::Any) => Judging::Asked(most),
        (false, _, _) => Judging::Begun(begun, most),
    })
}
