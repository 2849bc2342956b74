//! Texts in byte order, each once.

ghost use Rattle.std.specs.Prelude.{◌≡◌, ◌≤◌, length, IfOk, IfSome};
ghost use Rattle.gate_check.specs.Texts.{place_in, with_text, ordered};

use mc_types::Key;
use std::alloc::{AllocError, Global};
use std::cmp::Ordering;

// Where the text goes in, unless it is there.
fn place_in(texts: &[Key], text: &Key) -> Option<usize>
    ensures place { result ≡ place_in texts.now text.now }
    ensures within { IfSome result (λ i. i ≤ length texts.now) }
{
    match texts {
        [] => Some(0),
        [first, rest @ ..] => match text.cmp(first) {
            Ordering::Less => Some(0),
            Ordering::Equal => None,
            Ordering::Greater => match place_in(rest, text) {
                None => None,
                Some(index) => Some(index + 1),
            },
        },
    }
}

// Puts the text in its place, unless it is there.
fn put_in(texts: &mut Vec<Key>, text: &Key) -> Result<(), AllocError>
    ensures { IfOk result (λ _. texts.new.items ≡ with_text texts.old.items text.now) }
{
    match place_in(texts, text) {
        None => Ok(()),
        Some(index) => {
            texts.insert(index, *text)?;
            Ok(())
        }
    }
}

/// Each of the texts once, in byte order. The only error is that memory was refused.
pub fn ordered(alloc: Global, list: &[Key]) -> Result<Vec<Key>, AllocError>
    ensures { IfOk result (λ texts. texts.items ≡ ordered list.now) }
{
    match list {
        [] => Ok(Vec::new(alloc)),
        [first, rest @ ..] => {
            let mut texts = ordered(alloc, rest)?;
            put_in(&mut texts, first)?;
            Ok(texts)
        }
    }
}
