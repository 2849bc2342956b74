//! Words with which nothing is wrong, names that are near, addresses that are none.

use examples_tables::tellers::{Teller, halves, wrong};
use fault_configs::{address_trouble, nearest};
use fault_words::{fault_in_words, key_fault_in_words};
use std::alloc::{AllocError, Global};
use std::test::Fail;

fn faults() -> &'static str {
    "words: mcgate serve --config c --listen a:1 --listen b:2 => 
words: mcgate tell p drain => 
words: mcgate tell p log debug => 
words: mcgate tell p where k => 
words: mcgate replay --generations 3 f => 
words: mcgate replay f --config c --any => 
words: mcgate check - => 
words: mcgate serve --any --listen=a:1 --config c --reload-ms 5 => 
words: mcgate -h => "
}

// Words of which each that is to be a key is one.
fn keys() -> &'static str {
    "key words: mcgate where a --config c b => "
}

// Words, and which of check, replay, PoolRoute and A is near to each.
fn near() -> &'static str {
    "near: chek => check
near: rep => replay
near: Poolroute => PoolRoute
near: B => none
near: nothing => none"
}

fn addresses() -> &'static str {
    "address: localhost => no port: expected HOST:PORT
address: :11211 => no host: expected HOST:PORT
address: a:99999 => port 99999 is above 65535
address: a:x => x is no port: expected 0 to 65535
address: ::1:11211 => a host with colons stands in brackets: [::1]
address: [::1]:11211 => 
address: unix:/a => 
address: unix:a => a is no path: expected / and more behind unix:, at most 107 bytes
address: 127.0.0.1:0 => "
}

// Words between spaces.
fn words_of(alloc: Global, line: &str) -> Result<Vec<String>, AllocError> {
    let mut words = Vec::new(alloc);
    for word in line.split(' ') {
        words.push(String::from_str(alloc, word)?)?;
    }
    Ok(words)
}

fn told_of_words(alloc: Global, line: &str) -> Result<String, AllocError> {
    let words = words_of(alloc, line)?;
    match fault_in_words(alloc, words.as_slice())? {
        None => Ok(String::new(alloc)),
        Some(fault) => format!(in alloc; "{fault}"),
    }
}

fn told_of_keys(alloc: Global, line: &str) -> Result<String, AllocError> {
    let words = words_of(alloc, line)?;
    match key_fault_in_words(words.as_slice()) {
        None => Ok(String::new(alloc)),
        Some(fault) => format!(in alloc; "{fault}"),
    }
}

fn told_of_name(alloc: Global, word: &str) -> Result<String, AllocError> {
    let names = ["check", "replay", "PoolRoute", "A"];
    let found = nearest(alloc, word, names.as_slice())?;
    found.unwrap_or("none").to_string(alloc)
}

fn told_of_address(alloc: Global, text: &str) -> Result<String, AllocError> {
    match address_trouble(text) {
        None => Ok(String::new(alloc)),
        Some(trouble) => format!(in alloc; "{trouble}"),
    }
}

fn told_of(alloc: Global, question: &str, text: &str) -> Result<String, AllocError> {
    match question {
        "words" => told_of_words(alloc, text),
        "key words" => told_of_keys(alloc, text),
        "near" => told_of_name(alloc, text),
        _ => told_of_address(alloc, text),
    }
}

struct OfFaults;

impl Teller for OfFaults {
    fn told(alloc: Global, example: &str) -> Result<String, AllocError> {
        let (question, text) = halves(example, ": ");
        told_of(alloc, question, text)
    }
}

#[test]
fn faults_of_words(rt: HostRuntime) -> Result<(), Fail> {
    for table in [faults(), keys(), near(), addresses()] {
        assert_eq!(rt; wrong::<OfFaults>(rt.alloc(), table)?.as_str(), "");
    }
    Ok(())
}
