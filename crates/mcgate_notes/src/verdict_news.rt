//! What is told of a new text of the file, by keys.

use crate::events::{Field, LogEvent, Subject};
use crate::lines::Lines;

// Whether these are words `key=value`.
fn are_keys(words: &str) -> bool {
    words.split(' ').next().unwrap_or("").find('=').is_some()
}

// Of what was printed of a text behind `reload `: the verdict, and what follows on it.
fn verdict_in(said: &str) -> (&str, &str) {
    let (verdict, more) = said.split_once(' ').unwrap_or((said, ""));
    (verdict.trim_end_matches(':'), more)
}

// Tells this verdict, and the text of the line or these words behind it.
fn tell_with<R: Eprint>(
    rt: &R,
    lines: &mut Lines,
    is_used: bool,
    verdict: &str,
    more: &str,
    said: &str,
) {
    let fields = [Field::text("verdict", verdict)];
    let event = if is_used {
        LogEvent::info(Subject::Reload, &fields)
    } else {
        LogEvent::warn(Subject::Reload, &fields)
    };
    if are_keys(more) {
        lines.tell(rt, event.with_words(more), said);
    } else {
        lines.tell(rt, event.with_text(), said);
    }
}

/// Tells what was printed of a text, whether the configuration in use is that of the text or not.
pub fn tell_verdict<R: Eprint>(rt: &R, lines: &mut Lines, is_used: bool, said: &str) {
    match said.strip_prefix("reload ") {
        Some(rest) => {
            let (verdict, more) = verdict_in(rest);
            tell_with(rt, lines, is_used, verdict, more, said)
        }
        None => tell_with(rt, lines, is_used, "refused", "", said),
    }
}
