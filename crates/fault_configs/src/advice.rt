//! A trouble of a configuration in words: the way to it, what is expected there, and what was likely meant.

use crate::address::{AddressTrouble, address_trouble};
use crate::fields::{OPERATIONS, ROUTES, fields_of, name_of};
use crate::names::nearest;
use crate::place::TextPlace;
use crate::trouble::{PathStep, Trouble};
use route_json::names::{Holder, rest_after};
use route_tree::{DEPTH_LIMIT, POOL_LIMIT, SLOT_LIMIT};
use serde_json::{Map, Value};
use std::alloc::{AllocError, Global};
use text_words::escapes::{Escaped, EscapedByte};

/// How many names of pools are told.
const MOST_NAMES: usize = 12;

/// What words about a configuration are made of.
#[derive(Clone, Copy)]
pub struct About<'a, 'b> {
    pub file: &'a str,
    /// Where in the file the trouble is, if that was found.
    pub place: Option<TextPlace>,
    /// The pools of the configuration, where they were met.
    pub pools: Option<&'b Map<String, Value>>,
}

fn push_escaped(words: &mut String, text: &str) -> Result<(), AllocError> {
    write!(words, "{}", Escaped(text.as_bytes()))
}

// A name of the file's in the escapes, between these words.
fn push_between(
    words: &mut String,
    front: &str,
    name: &str,
    behind: &str,
) -> Result<(), AllocError> {
    words.push_str(front)?;
    push_escaped(words, name)?;
    words.push_str(behind)
}

// A name on the way, as JSON pointers write it: `~` is `~0`, and `/` is `~1`.
fn push_name(words: &mut String, name: &str) -> Result<(), AllocError> {
    for byte in name.as_bytes() {
        match *byte {
            b'~' => words.push_str("~0")?,
            b'/' => words.push_str("~1")?,
            other => write!(words, "{}", EscapedByte(other))?,
        }
    }
    Ok(())
}

// The way as a JSON pointer; of the whole configuration nothing.
fn push_way(words: &mut String, way: &[PathStep<'_>]) -> Result<(), AllocError> {
    for step in way {
        words.push_str("/")?;
        match step {
            PathStep::Name(name) => push_name(words, name)?,
            PathStep::Number(number) => write!(words, "{number}")?,
        }
    }
    if !way.is_empty() {
        words.push_str(": ")?;
    }
    Ok(())
}

fn push_list(words: &mut String, names: &[&str]) -> Result<(), AllocError> {
    let mut mark = "";
    for name in names {
        words.push_str(mark)?;
        words.push_str(name)?;
        mark = ", ";
    }
    Ok(())
}

// Which fields an object of this kind has.
fn push_fields(words: &mut String, holder: Holder) -> Result<(), AllocError> {
    write!(words, "{} has ", name_of(holder))?;
    push_list(words, fields_of(holder))
}

// `no KIND NAME; KINDs are NAMES`
fn push_unknown(
    words: &mut String,
    kind: &str,
    name: &str,
    names: &[&str],
) -> Result<(), AllocError> {
    write!(words, "no {kind} ")?;
    push_between(words, "", name, "; ")?;
    write!(words, "{kind}s are ")?;
    push_list(words, names)
}

// `; did you mean NAME?`, if a name is near.
fn push_meant(words: &mut String, meant: Option<&str>) -> Result<(), AllocError> {
    match meant {
        Some(name) => push_between(words, "; did you mean ", name, "?"),
        None => Ok(()),
    }
}

// The names of the pools, of which the last ones may be left out.
fn push_pools(words: &mut String, pools: &Map<String, Value>) -> Result<(), AllocError> {
    let mut mark = "";
    for (name, _) in pools.iter().take(MOST_NAMES) {
        words.push_str(mark)?;
        push_escaped(words, name.as_str())?;
        mark = ", ";
    }
    if pools.len() > MOST_NAMES {
        write!(words, " and {} more", pools.len() - MOST_NAMES)?;
    }
    Ok(())
}

// The pool whose name is nearest.
fn nearest_pool<'a>(
    alloc: Global,
    name: &str,
    pools: &'a Map<String, Value>,
) -> Result<Option<&'a str>, AllocError> {
    let mut names = Vec::new(alloc);
    for (known, _) in pools.iter() {
        names.push(known.as_str())?;
    }
    nearest(alloc, name, names.as_slice())
}

// Which pools there are where none has this name, and the one that was likely meant.
fn push_known_pools(
    alloc: Global,
    words: &mut String,
    name: &str,
    pools: &Map<String, Value>,
) -> Result<(), AllocError> {
    if pools.is_empty() {
        return words.push_str(": there are no pools");
    }
    words.push_str("; pools are ")?;
    push_pools(words, pools)?;
    push_meant(words, nearest_pool(alloc, name, pools)?)
}

impl About<'_, '_> {
    fn has_pool(&self, name: &str) -> bool {
        match self.pools {
            Some(pools) => pools.contains_key(name),
            None => false,
        }
    }

    fn push_no_field(
        &self,
        alloc: Global,
        words: &mut String,
        holder: Holder,
        name: &str,
    ) -> Result<(), AllocError> {
        push_between(words, "no field ", name, " here: ")?;
        push_fields(words, holder)?;
        push_meant(words, nearest(alloc, name, fields_of(holder))?)
    }

    fn push_missing(
        &self,
        words: &mut String,
        holder: Holder,
        name: &str,
    ) -> Result<(), AllocError> {
        write!(words, "the field {name} is missing: ")?;
        push_fields(words, holder)
    }

    fn push_no_server(&self, words: &mut String, text: &str) -> Result<(), AllocError> {
        push_between(words, "\"", text, "\" is no address: ")?;
        match address_trouble(text) {
            Some(AddressTrouble::NoBrackets(_)) | None => words.push_str(
                "expected HOST:PORT or HOST:PORT:WEIGHT, a port in 1..=65535 and a weight in 1..=16",
            ),
            Some(trouble) => write!(words, "{trouble}"),
        }
    }

    fn push_no_pool(
        &self,
        alloc: Global,
        words: &mut String,
        name: &str,
    ) -> Result<(), AllocError> {
        push_between(words, "no pool ", name, "")?;
        match self.pools {
            Some(pools) => push_known_pools(alloc, words, name, pools),
            None => Ok(()),
        }
    }

    // What a text was likely meant to be, where a route's short text is wanted.
    fn push_short_meant(
        &self,
        alloc: Global,
        words: &mut String,
        text: &str,
    ) -> Result<(), AllocError> {
        if self.has_pool(text) {
            return push_short(words, "PoolRoute|", text);
        }
        let (front, rest) = text.split_once('|').unwrap_or((text, ""));
        match nearest(alloc, front, ROUTES.as_slice())? {
            Some(route) => push_short_of(words, route, rest_after("Pool|", rest).unwrap_or(rest)),
            None => words.push_str(
                "; short texts are \"PoolRoute|NAME\", \"AllSyncRoute|Pool|NAME\" and the like, \"NullRoute\" and \"ErrorRoute\"",
            ),
        }
    }

    fn push_no_short(
        &self,
        alloc: Global,
        words: &mut String,
        text: &str,
    ) -> Result<(), AllocError> {
        push_between(words, "no route ", text, "")?;
        self.push_short_meant(alloc, words, text)
    }

    fn push_no_type(
        &self,
        alloc: Global,
        words: &mut String,
        name: &str,
    ) -> Result<(), AllocError> {
        push_unknown(words, "route", name, ROUTES.as_slice())?;
        let (front, _) = name.split_once('|').unwrap_or((name, ""));
        push_meant(words, nearest(alloc, front, ROUTES.as_slice())?)
    }

    fn push_no_operation(
        &self,
        alloc: Global,
        words: &mut String,
        name: &str,
    ) -> Result<(), AllocError> {
        push_unknown(words, "operation", name, OPERATIONS.as_slice())?;
        push_meant(words, nearest(alloc, name, OPERATIONS.as_slice())?)
    }

    fn push_trouble(
        &self,
        alloc: Global,
        words: &mut String,
        trouble: Trouble<'_>,
    ) -> Result<(), AllocError> {
        match trouble {
            Trouble::NoField(holder, name) => self.push_no_field(alloc, words, holder, name),
            Trouble::Missing(holder, name) => self.push_missing(words, holder, name),
            Trouble::Wanted(wanted) => write!(words, "expected {wanted}"),
            Trouble::NoServer(text) => self.push_no_server(words, text),
            Trouble::Over(name) => push_between(
                words,
                "the epoch of \"",
                name,
                "\" is over, as a later server has its address: take a new one, as HOST:PORT#3",
            ),
            Trouble::EmptyPool(_) => words.push_str("the pool has no servers"),
            Trouble::TooManyServers(_, count) => {
                write!(
                    words,
                    "{count} servers, and a pool has at most {POOL_LIMIT}"
                )
            }
            Trouble::TooManySlots(_) => {
                write!(
                    words,
                    "the weights of the pool make more than {SLOT_LIMIT} in all"
                )
            }
            Trouble::NoPlace(count) => write!(
                words,
                "expected a place in servers: there are {count}, counted from 0"
            ),
            Trouble::TooDeep => {
                write!(
                    words,
                    "routes stand more than {DEPTH_LIMIT} deep in each other"
                )
            }
            Trouble::NoShort(text) => self.push_no_short(alloc, words, text),
            Trouble::NoType(name) => self.push_no_type(alloc, words, name),
            Trouble::NoPool(name) => self.push_no_pool(alloc, words, name),
            Trouble::NoChildren => words.push_str("no children: at least one route is wanted"),
            Trouble::NoOperation(name) => self.push_no_operation(alloc, words, name),
            Trouble::NoPrefix(_) => words.push_str(
                "no prefix of keys: 1 to 250 bytes without spaces and control characters",
            ),
        }
    }

    // `mcgate: FILE:LINE:COLUMN: `
    fn push_place(&self, words: &mut String) -> Result<(), AllocError> {
        write!(words, "mcgate: {}:", self.file)?;
        if let Some(place) = self.place {
            write!(words, "{place}:")?;
        }
        words.push_str(" ")
    }

    fn push_line(
        &self,
        alloc: Global,
        words: &mut String,
        way: &[PathStep<'_>],
        trouble: Trouble<'_>,
    ) -> Result<(), AllocError> {
        self.push_place(words)?;
        push_way(words, way)?;
        self.push_trouble(alloc, words, trouble)
    }

    /// The line of a trouble: `mcgate: FILE:LINE:COLUMN: WAY: WORDS`. The only error is running out of memory.
    pub fn line(
        &self,
        alloc: Global,
        way: &[PathStep<'_>],
        trouble: Trouble<'_>,
    ) -> Result<String, AllocError> {
        let mut words = String::new(alloc);
        self.push_line(alloc, &mut words, way, trouble)?;
        Ok(words)
    }
}

// `; did you mean "FRONTNAME"?`
fn push_short(words: &mut String, front: &str, name: &str) -> Result<(), AllocError> {
    words.push_str("; did you mean \"")?;
    push_between(words, front, name, "\"?")
}

// How the short text of a route of this type begins, if it has one: the name of a pool follows, or nothing.
fn short_front(route: &str) -> Option<&'static str> {
    match route {
        "PoolRoute" => Some("PoolRoute|"),
        "AllSyncRoute" => Some("AllSyncRoute|Pool|"),
        "FailoverRoute" => Some("FailoverRoute|Pool|"),
        "MissFailoverRoute" => Some("MissFailoverRoute|Pool|"),
        "NullRoute" => Some("NullRoute"),
        "ErrorRoute" => Some("ErrorRoute"),
        _ => None,
    }
}

// What the short text of a route of this type was likely meant to be, with this pool where it names one.
fn push_short_of(words: &mut String, route: &str, pool: &str) -> Result<(), AllocError> {
    match short_front(route) {
        Some(front) if front.ends_with("|") => push_short(words, front, pool),
        Some(front) => push_short(words, front, ""),
        None => write!(words, "; a {route} is an object with type and its fields"),
    }
}
