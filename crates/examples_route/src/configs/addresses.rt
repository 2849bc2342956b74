//! Addresses, the texts of servers, and sets of addresses that number them.

use examples_tables::tellers::{Teller, all_told, halves};
use mc_types::ServerId;
use route_json::addresses::{Servers, address_in, is_address, read_server};
use std::alloc::{AllocError, Global};
use std::test::Fail;

// Texts, and whether each is an address.
fn addresses() -> &'static str {
    "h:1 => true
h:0 => false
h:65535 => true
h:65536 => false
h:00001 => true
h:000001 => false
h: => false
h:a => false
:11 => false
::1 => true
h => false
h 1:1 => false
h\u{7f}:1 => false
é:1 => false
«253 h»:1 => true
«254 h»:1 => false
unix:/a => true
unix:/ => false
unix:a => false
unix: => false
Unix:/a => false
unix:/a:b => false
unix:/«106 a» => true
unix:/«107 a» => false"
}

struct OfAddresses;

impl Teller for OfAddresses {
    fn told(alloc: Global, text: &str) -> Result<String, AllocError> {
        is_address(text).to_string(alloc)
    }
}

// Texts of servers, and what each says: an address and a weight.
fn weights() -> &'static str {
    r#"h:1:2 => Some(("h:1", 2))
h:1:16 => Some(("h:1", 16))
h:1:02 => Some(("h:1", 2))
h:1:17 => None
h:1:0 => None
h:1:002 => None
h:1: => None
h:1:a => None
h:0:2 => None
h:1 => Some(("h:1", 1))
[::1]:5001:2 => Some(("[::1]:5001", 2))
[::1]:5001 => Some(("[::1]:5001", 1))
a::1 => None
[:1]:5 => None
[a:1]:5 => None
::1 => Some(("::1", 1))
:1:2 => Some((":1:2", 1))
1:2:3:4 => Some(("1:2:3:4", 1))
h:1#2 => Some(("h:1#2", 1))
h:1#2:3 => Some(("h:1#2", 3))
unix:/a/b => Some(("unix:/a/b", 1))
unix:/a:3 => Some(("unix:/a", 3))
unix:/a#2:3 => Some(("unix:/a#2", 3))
unix:/a:17 => None
unix:/a:80:2 => Some(("unix:/a:80:2", 1))
[::1]:5001#7 => Some(("[::1]:5001#7", 1))
h#2:1 => Some(("h#2:1", 1))
h:1#999999999 => Some(("h:1#999999999", 1))
h:1#1000000000 => None
h:1:3#2 => None
h:1#0 => None
h:1#02 => None
h:1# => None
h:1#2#3 => None
h#2 => None"#
}

struct OfWeights;

impl Teller for OfWeights {
    fn told(alloc: Global, text: &str) -> Result<String, AllocError> {
        format!(in alloc; "{:?}", read_server(text))
    }
}

// Names, and the address in each.
fn names() -> &'static str {
    "h:1 => h:1
h:1#2 => h:1
h:1#02 => h:1#02
h#2:1 => h#2:1
h:1#2#3 => h:1#2"
}

struct OfNames;

impl Teller for OfNames {
    fn told(alloc: Global, text: &str) -> Result<String, AllocError> {
        String::from_str(alloc, address_in(text))
    }
}

// The bytes of a weight are none of the address.
fn long_weights() -> &'static str {
    "«253 h»:1:16 => true
«254 h»:1:16 => false"
}

struct OfLongWeights;

impl Teller for OfLongWeights {
    fn told(alloc: Global, text: &str) -> Result<String, AllocError> {
        read_server(text).is_some().to_string(alloc)
    }
}

// A new set, and one of two addresses, in this order: `b:1` and `a:1`; of epochs: `b:1#2`, `a:1` and `b:1#3`.
fn numbers() -> &'static str {
    r#"new => empty
length => 2
get 0 => Some("b:1")
get 1 => Some("a:1")
get 2 => None
find a:1 => Some(1)
find c:1 => None
epochs => true
over 0 => true
over 1 => false
over 2 => false
over 3 => false"#
}

fn of_epochs(alloc: Global) -> Result<Servers, AllocError> {
    let mut servers = Servers::new(alloc);
    servers.push(alloc, "b:1#2")?;
    servers.push(alloc, "a:1")?;
    servers.push(alloc, "b:1#3")?;
    Ok(servers)
}

fn two(alloc: Global) -> Result<Servers, AllocError> {
    let mut servers = Servers::new(alloc);
    servers.push(alloc, "b:1")?;
    servers.push(alloc, "a:1")?;
    Ok(servers)
}

struct OfNumbers;

impl Teller for OfNumbers {
    fn told(alloc: Global, example: &str) -> Result<String, AllocError> {
        let servers = two(alloc)?.copy(alloc)?;
        told_of(alloc, &servers, example)
    }
}

fn emptiness(servers: &Servers) -> &'static str {
    if servers.is_empty() { "empty" } else { "full" }
}

fn told_of(alloc: Global, servers: &Servers, example: &str) -> Result<String, AllocError> {
    let (question, text) = halves(example, " ");
    match question {
        "new" => emptiness(&Servers::new(alloc)).to_string(alloc),
        "length" => servers.len().to_string(alloc),
        "epochs" => of_epochs(alloc)?.have_epochs().to_string(alloc),
        "over" => {
            let number = text.parse::<u32>().unwrap_or(9);
            of_epochs(alloc)?
                .is_over(ServerId::new(number))
                .to_string(alloc)
        }
        "get" => {
            let number = text.parse::<u32>().unwrap_or(9);
            format!(in alloc; "{:?}", servers.get(ServerId::new(number)))
        }
        _ => {
            let found = servers.find(text).map(|server| server.number());
            format!(in alloc; "{found:?}")
        }
    }
}

#[test]
fn texts_of_addresses(rt: HostRuntime) -> Result<(), Fail> {
    all_told::<OfAddresses>(rt.alloc(), addresses())
}

#[test]
fn weight_texts(rt: HostRuntime) -> Result<(), Fail> {
    all_told::<OfWeights>(rt.alloc(), weights())?;
    all_told::<OfLongWeights>(rt.alloc(), long_weights())?;
    all_told::<OfNames>(rt.alloc(), names())?;
    Ok(())
}

#[test]
fn numbers_of_servers(rt: HostRuntime) -> Result<(), Fail> {
    all_told::<OfNumbers>(rt.alloc(), numbers())
}
