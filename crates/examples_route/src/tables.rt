//! Worked tables of slots: what becomes of them when a server is added or taken out, and of short lists.

use examples_tables::tellers::{Teller, halves, wrong};
use gate_plan::slots::{ServerChange, rewritten, table_of};
use mc_types::ServerId;
use std::alloc::{AllocError, Global};
use std::test::Fail;

// A change of the slots that a word's letters say, after earlier ones, and the slots after it.
fn changes() -> &'static str {
    r#"# The first slots of those that have the most.
add c: abab => cbab
add d: abcabcabcabc => dddabcabcabc
add c: aaaaab => ccaaab
add b: aaa => baa
# Less than one each.
add c: ab => ab
# What a server had by a list of the same or of another length.
add c: abab after cbcb => acab
add c: abab after ca => acab
add c: abab after ac => cbab
add c: ababab after cab => accbab
add c: ababab after cabb => acacab
add c: abab after cc => none
add c: abab after cbbb bcbb => abcb
# What is taken out goes to those that have the fewest.
remove c: abcb => abab
remove c: cccccc over ab => ababab
remove c: abcb after abab => abbb
remove c: abcb after ba => abab
remove c: abcb after abab bbbb => none
remove c: abcb after abba => abab
remove a: aaa => none"#
}

// Short lists, and how many slots their tables have.
fn lists() -> &'static str {
    r#"a => 1024 in turn
abc => 1023 in turn
abcdefghij => 1020 in turn
«512 a»b => 513 in turn
«300 ab»a => 601 in turn
«1500 a» => 1500 in turn"#
}

fn server_of(letter: char) -> ServerId {
    ServerId::new(letter as u32)
}

fn slots_of(alloc: Global, word: &str) -> Result<Vec<ServerId>, AllocError> {
    let mut slots = Vec::new(alloc);
    for letter in word.chars() {
        slots.push(server_of(letter))?;
    }
    Ok(slots)
}

fn has(servers: &[ServerId], server: ServerId) -> bool {
    servers.iter().any(|other| *other == server)
}

// The servers of a word but for one.
fn others_of(alloc: Global, word: &str, left_out: ServerId) -> Result<Vec<ServerId>, AllocError> {
    let mut others = Vec::new(alloc);
    for letter in word.chars() {
        let server = server_of(letter);
        if server != left_out && !has(&others, server) {
            others.push(server)?;
        }
    }
    Ok(others)
}

fn lists_of(alloc: Global, words: &str) -> Result<Vec<Vec<ServerId>>, AllocError> {
    let mut lists = Vec::new(alloc);
    for word in words.split(' ') {
        if !word.is_empty() {
            lists.push(slots_of(alloc, word)?)?;
        }
    }
    Ok(lists)
}

fn word_of(alloc: Global, slots: &[ServerId]) -> Result<String, AllocError> {
    let mut word = String::new(alloc);
    for slot in slots {
        word.push(char::from_u32(slot.number()).unwrap_or('?'))?;
    }
    Ok(word)
}

fn changed(
    alloc: Global,
    change: ServerChange,
    others: &[ServerId],
    earlier: &str,
    slots: &[ServerId],
) -> Result<String, AllocError> {
    let earlier = lists_of(alloc, earlier)?;
    match rewritten(alloc, &change, others, &earlier, slots)? {
        Some(new) => word_of(alloc, &new),
        None => "none".to_string(alloc),
    }
}

fn change_of(text: &str) -> ServerChange {
    let (kind, letter) = halves(text, " ");
    let server = server_of(letter.chars().next().unwrap_or('?'));
    match kind {
        "add" => ServerChange::Add(server),
        _ => ServerChange::Remove(server),
    }
}

struct OfChanges;

impl Teller for OfChanges {
    fn told(alloc: Global, example: &str) -> Result<String, AllocError> {
        let (change, rest) = halves(example, ": ");
        let (rest, earlier) = halves(rest, " after ");
        let (word, over) = halves(rest, " over ");
        let change = change_of(change);
        let (ServerChange::Add(server) | ServerChange::Remove(server)) = change;
        let listed = if over.is_empty() { word } else { over };
        let others = others_of(alloc, listed, server)?;
        let slots = slots_of(alloc, word)?;
        changed(alloc, change, &others, earlier, &slots)
    }
}

fn are_in_turn(slots: &[ServerId], table: &[ServerId]) -> bool {
    table.iter().enumerate().all(|(at, holder)| slots.get(at.checked_rem(slots.len()).unwrap_or(0))
        == Some(holder))
}

struct OfLists;

impl Teller for OfLists {
    fn told(alloc: Global, word: &str) -> Result<String, AllocError> {
        let slots = slots_of(alloc, word)?;
        if slots.is_empty() {
            return "none".to_string(alloc);
        }
        let table = table_of(alloc, &slots)?;
        let turn = if are_in_turn(&slots, &table) {
            ""
        } else {
            "not "
        };
        format!(in alloc; "{} {turn}in turn", table.len())
    }
}

#[test]
fn lists_as_tables(rt: HostRuntime) -> Result<(), Fail> {
    assert_eq!(rt; wrong::<OfLists>(rt.alloc(), lists())?.as_str(), "");
    Ok(())
}

#[test]
fn changes_of_slots(rt: HostRuntime) -> Result<(), Fail> {
    assert_eq!(rt; wrong::<OfChanges>(rt.alloc(), changes())?.as_str(), "");
    Ok(())
}
