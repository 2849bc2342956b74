//! What lines tell by keys, as words and in JSON.

use examples_tables::tables::same;
use examples_tables::tellers::{Teller, wrong};
use mcgate_notes::events::{Field, InJson, InWords, LogEvent, Subject};
use std::alloc::{AllocError, Global};
use std::test::Fail;

// The name of a server that failed 3 times, and what is told of it. The name is the text of the line, too.
fn servers() -> &'static str {
    r#"a:1 => server server=a:1 in_a_row=3 | ,"subject":"server","server":"a:1","in_a_row":3,"line":"a:1"
a b => server server="a b" in_a_row=3 | ,"subject":"server","server":"a b","in_a_row":3,"line":"a b"
a=b => server server="a=b" in_a_row=3 | ,"subject":"server","server":"a=b","in_a_row":3,"line":"a=b"
a"\b => server server="a\"\\b" in_a_row=3 | ,"subject":"server","server":"a\"\\b","in_a_row":3,"line":"a\"\\b"
a\b => server server=a\b in_a_row=3 | ,"subject":"server","server":"a\\b","in_a_row":3,"line":"a\\b"
ä => server server="??" in_a_row=3 | ,"subject":"server","server":"??","in_a_row":3,"line":"??"
 => server server="" in_a_row=3 | ,"subject":"server","server":"","in_a_row":3,"line":"""#
}

// Words behind a verdict, and what is told of it.
fn verdicts() -> &'static str {
    r#"generation=2 => reload verdict=v generation=2 | ,"subject":"reload","verdict":"v","generation":2,"line":"generation=2"
prefix= residue=0/1 => reload verdict=v prefix="" residue=0/1 | ,"subject":"reload","verdict":"v","prefix":"","residue":"0/1","line":"prefix= residue=0/1"
prefix=7 generation=x => reload verdict=v prefix=7 generation=x | ,"subject":"reload","verdict":"v","prefix":"7","generation":"x","line":"prefix=7 generation=x"
too many => reload verdict=v | ,"subject":"reload","verdict":"v","line":"too many""#
}

// Texts of lines that have no keys.
fn texts() -> &'static str {
    r#"a b => process text="a b" | ,"subject":"process","line":"a b"
a => process text=a | ,"subject":"process","line":"a""#
}

fn both(alloc: Global, event: LogEvent<'_>, text: &str) -> Result<String, AllocError> {
    let words = InWords { event, text };
    let more = InJson { event, text };
    format!(in alloc; "{words} | {more}")
}

struct OfServers;

impl Teller for OfServers {
    fn told(alloc: Global, example: &str) -> Result<String, AllocError> {
        let fields = [Field::text("server", example), Field::count("in_a_row", 3)];
        both(alloc, LogEvent::warn(Subject::Server, &fields), example)
    }
}

struct OfVerdicts;

impl Teller for OfVerdicts {
    fn told(alloc: Global, example: &str) -> Result<String, AllocError> {
        let fields = [Field::text("verdict", "v")];
        let event = LogEvent::info(Subject::Reload, &fields);
        both(alloc, event.with_words(example), example)
    }
}

struct OfEvents;

impl Teller for OfEvents {
    fn told(alloc: Global, example: &str) -> Result<String, AllocError> {
        both(alloc, LogEvent::info(Subject::Process, &[]), example)
    }
}

#[test]
fn events_of_servers(rt: HostRuntime) -> Result<(), Fail> {
    same(
        "servers",
        wrong::<OfServers>(rt.alloc(), servers())?.as_str(),
        "",
    )
}

#[test]
fn events_of_new_texts(rt: HostRuntime) -> Result<(), Fail> {
    same(
        "new texts",
        wrong::<OfVerdicts>(rt.alloc(), verdicts())?.as_str(),
        "",
    )
}

#[test]
fn events_without_keys(rt: HostRuntime) -> Result<(), Fail> {
    same(
        "no keys",
        wrong::<OfEvents>(rt.alloc(), texts())?.as_str(),
        "",
    )
}
