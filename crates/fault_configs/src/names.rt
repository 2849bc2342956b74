//! The name that was likely meant.

ghost use Rattle.std.specs.Prelude.{IfOk, IfSome};
ghost use Rattle.std.specs.List.{IsAmong};

use std::alloc::{AllocError, Global};
use strsim::levenshtein;

/// Words above so many bytes have no name near them.
pub const LONGEST_WORD: usize = 64;

// The edits that lead from a word to a name, if they are few: at most one for each three bytes of the longer of the two, and fewer than
// either has; or one where the word is the front of the name.
fn few_edits(alloc: Global, word: &str, name: &str) -> Result<Option<usize>, AllocError> {
    if word.len() > LONGEST_WORD || name.len() > LONGEST_WORD {
        return Ok(None);
    }
    if word.len() > 2 && name.starts_with(word) {
        return Ok(Some(1));
    }
    let edits = levenshtein(alloc, word, name)?;
    let longer = word.len().max(name.len());
    if edits <= longer.saturating_add(2) / 3 && edits < word.len().min(name.len()) {
        Ok(Some(edits))
    } else {
        Ok(None)
    }
}

/// The name of these that is nearest to a word, the first of those that are equally near; `None` where none is near. The only error is
/// running out of memory.
pub fn nearest<'a>(
    alloc: Global,
    word: &str,
    names: &[&'a str],
) -> Result<Option<&'a str>, AllocError>
    ensures { IfOk result (λ near. IfSome near (IsAmong names.now)) }
{
    let mut found = None;
    let mut fewest = LONGEST_WORD;
    for name in names {
        if let Some(edits) = few_edits(alloc, word, name)? {
            if edits < fewest {
                fewest = edits;
                found = Some(*name);
            }
        }
    }
    Ok(found)
}
