//! Hashes, hash parts and slots that are known from outside.

use examples_tables::tellers::{Teller, all_told, halves};
use mc_types::Key;
use route_tree::{fnv1a_32, hash_part, key_hash};
use std::alloc::{AllocError, Global};
use std::test::Fail;

fn table() -> &'static str {
    r#"# Values of the published test vectors, of a pool of servers that other proxies know (`apple`), and of one with a tag.
hash of "" => 811c9dc5
hash of "a" => e40c292c
hash of "b" => e70c2de5
hash of "c" => e60c2c52
hash of "foobar" => bf9cf968
hash of "k6" => 993d8254
hash in decimal of "apple" => 280767167
# Nothing between the braces: the whole key.
slot among 2 of "x{}y" => 0
# No closing brace: the whole key.
slot among 2 of "x{a" => 1
# As `b`.
slot among 2 of "{b}{a}" => 1
# As `a`.
slot among 2 of "x{a}y" => 0
hash part of "user:{42}:name" => 42"#
}

struct OfHashes;

impl Teller for OfHashes {
    fn told(alloc: Global, example: &str) -> Result<String, AllocError> {
        let (question, quoted) = halves(example, " of ");
        let text = quoted.trim_matches('"');
        match question {
            "hash" => format!(in alloc; "{:x}", fnv1a_32(text.as_bytes())),
            "hash in decimal" => fnv1a_32(text.as_bytes()).to_string(alloc),
            _ => told_of_key(alloc, question, text.as_bytes()),
        }
    }
}

fn told_of_key(alloc: Global, question: &str, text: &[u8]) -> Result<String, AllocError> {
    match (question, Key::read(text)) {
        ("slot among 2", Ok(key)) => (key_hash(&key) % 2).to_string(alloc),
        ("hash part", Ok(key)) => str::from_utf8(hash_part(&key))
            .unwrap_or("?")
            .to_string(alloc),
        _ => "no question or no key".to_string(alloc),
    }
}

#[test]
fn hashes(rt: HostRuntime) -> Result<(), Fail> {
    all_told::<OfHashes>(rt.alloc(), table())
}
