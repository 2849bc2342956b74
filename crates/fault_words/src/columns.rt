//! In which column of a script's bad line the part stands that is wrong.

use crate::script::Wrong;
use crate::script::misfit::Misfit;
use crate::script::trouble::{Number, Trouble};

// Where the word stands that follows so many spaces; else the line's end.
fn after_spaces(line: &[u8], spaces: usize) -> usize {
    let mut left = spaces;
    for (at, byte) in line.iter().enumerate() {
        if left == 0 {
            return at;
        }
        if *byte == b' ' {
            left = left.saturating_sub(1);
        }
    }
    line.len()
}

fn is_at(line: &[u8]) -> bool {
    line.starts_with(b"at ".as_slice())
}

// Whether after a backslash these bytes begin an escape.
fn is_escape(rest: &[u8]) -> bool {
    match rest {
        [b'r' | b'n' | b'\\', ..] => true,
        [b'x', first, second, ..] => first.is_ascii_hexdigit() && second.is_ascii_hexdigit(),
        _ => false,
    }
}

// Where the first backslash stands that begins no escape; else the line's end.
fn bad_escape(line: &[u8]) -> usize {
    let mut skip = false;
    for (at, byte) in line.iter().enumerate() {
        if skip || *byte != b'\\' {
            skip = false;
            continue;
        }
        let rest = line.get(at.saturating_add(1)..).unwrap_or(&[]);
        if !is_escape(rest) {
            return at;
        }
        skip = true;
    }
    line.len()
}

fn number_place(line: &[u8], number: Number) -> usize {
    match number {
        Number::Client | Number::Turn | Number::Moment => after_spaces(line, 1),
        Number::Server if is_at(line) => after_spaces(line, 3),
        Number::Server => after_spaces(line, 1),
        Number::Count => after_spaces(line, 3),
    }
}

fn trouble_place(line: &[u8], trouble: Trouble<'_>) -> usize {
    match trouble {
        Trouble::NoEvent(_) => 0,
        Trouble::Wants(_) | Trouble::WantsCount => line.len(),
        Trouble::NoNumber(number, _) => number_place(line, number),
        Trouble::NoEscape => bad_escape(line),
        Trouble::NoKey(_) if is_at(line) => after_spaces(line, 4),
        Trouble::NoKey(_) | Trouble::NoManner(_) | Trouble::NoLoss(_) => after_spaces(line, 2),
        Trouble::NoConfiguration => after_spaces(line, 1),
    }
}

fn misfit_place(line: &[u8], misfit: Misfit) -> usize {
    match misfit {
        Misfit::NoServer(_) if is_at(line) => after_spaces(line, 3),
        Misfit::NoServer(_) | Misfit::NoClient(_) | Misfit::TurnZero | Misfit::BeforeZero => {
            after_spaces(line, 1)
        }
        Misfit::TooMuch | Misfit::AddsTooMuch | Misfit::TooLong => after_spaces(line, 2),
        Misfit::TooLate => 0,
    }
}

/// The byte of a bad line where the part begins that is wrong, or the line's end where something is missing there.
pub fn bad_part(line: &[u8], wrong: Wrong<'_>) -> usize {
    match wrong {
        Wrong::Pool => after_spaces(line, 1),
        Wrong::Unread(trouble) => trouble_place(line, trouble),
        Wrong::Unfit(misfit) => misfit_place(line, misfit),
    }
}
