//! All words of a plain tree for an ask, each as what it comes to.

ghost use Rattle.route_tree.specs.Form.{plans_of, plan_policies_of};

use mc_types::{Op, ServerId};
use route_tree::{Plain, PlainForm};
use std::alloc::{AllocError, Global};

/// An ask: its operation, whether it is a get that a warm side's answer is good enough for, and whether it is of the meta
/// dialect, where a delete can find another cas number.
#[derive(Clone, Copy)]
pub struct Asked {
    pub op: Op,
    pub is_plain: bool,
    pub is_meta: bool,
}

/// What a word comes to. Sets of servers are bits, one for each of at most eight.
#[derive(Clone, Copy, PartialEq, Eq)]
pub struct Outline {
    /// How bad the reply is: 0 done, 1 not there, 2 another cas number, 3 an error line, 4 an error of a server or a call.
    pub rank: u8,
    /// The server whose item the reply shows.
    pub shown: u8,
    /// The servers whose items are copied.
    pub copied: u8,
    /// The servers that answered that the key is gone.
    pub gone: u8,
    /// Whether a server is asked.
    pub asks: bool,
}

/// The bit of a server.
pub fn bit_of(server: ServerId) -> u8 {
    match server.number() {
        0 => 1,
        1 => 2,
        2 => 4,
        _ => 8,
    }
}

/// Whether the operation's answers can show an item.
fn can_show(op: Op) -> bool {
    matches!(op, Op::Get | Op::Gat | Op::Incr | Op::Decr)
}

fn no_call(rank: u8) -> Outline {
    Outline {
        rank,
        shown: 0,
        copied: 0,
        gone: 0,
        asks: false,
    }
}

// One after the other; the reply is the second's.
fn joined(first: Outline, second: Outline) -> Outline {
    Outline {
        rank: second.rank,
        shown: second.shown,
        copied: first.copied | second.copied,
        gone: first.gone | second.gone,
        asks: first.asks || second.asks,
    }
}

// One after the other; the reply is the first's.
fn led(first: Outline, second: Outline) -> Outline {
    let both = joined(first, second);
    Outline {
        rank: first.rank,
        shown: first.shown,
        copied: both.copied,
        gone: both.gone,
        asks: both.asks,
    }
}

// Puts the outline after the others, unless it is among them.
fn put(outlines: &mut Vec<Outline>, outline: Outline) -> Result<(), AllocError> {
    for other in outlines.as_slice() {
        if *other == outline {
            return Ok(());
        }
    }
    outlines.push(outline)?;
    Ok(())
}

// What one call of the server can come to.
fn call_words(alloc: Global, server: ServerId, asked: Asked) -> Result<Vec<Outline>, AllocError> {
    let bit = bit_of(server);
    let is_delete = matches!(asked.op, Op::Delete);
    let mut outlines = Vec::new(alloc);
    for rank in [0, 1, 2, 3, 4] {
        let outline = Outline {
            rank,
            shown: if rank == 0 && can_show(asked.op) {
                bit
            } else {
                0
            },
            copied: 0,
            gone: if rank <= 1 && is_delete { bit } else { 0 },
            asks: true,
        };
        let can_be = rank != 2 || (!can_show(asked.op) && (asked.is_meta || !is_delete));
        if can_be {
            put(&mut outlines, outline)?;
        }
    }
    Ok(outlines)
}

/// The words of the plain tree for the ask.
#[cycle(words)]
pub fn words(alloc: Global, plain: &Plain, asked: Asked) -> Result<Vec<Outline>, AllocError> {
    match plain.form() {
        PlainForm::Server(server) => call_words(alloc, *server, asked),
        PlainForm::Null => alone(alloc, no_call(1)),
        PlainForm::Error => alone(alloc, no_call(4)),
        PlainForm::AllSync(children) => words_of_all(alloc, children, asked),
        PlainForm::Failover(children) => words_of_first(alloc, children, asked, 4),
        PlainForm::MissFailover(children) => {
            if matches!(asked.op, Op::Get) {
                words_of_first(alloc, children, asked, 1)
            } else {
                words_of_head(alloc, children, asked)
            }
        }
        PlainForm::WarmUp { cold, warm, .. } => {
            if matches!(asked.op, Op::Get) {
                let get = Asked {
                    op: Op::Get,
                    is_plain: true,
                    is_meta: false,
                };
                let add = Asked {
                    op: Op::Add,
                    is_plain: false,
                    is_meta: false,
                };
                let first = words(alloc, cold, asked)?;
                let second = words(alloc, warm, get)?;
                let third = words(alloc, cold, add)?;
                warmed(alloc, asked, &first, &second, &third)
            } else {
                words(alloc, cold, asked)
            }
        }
        PlainForm::ByOperation { policies, default } => {
            words_of_policy(alloc, policies, default, asked)
        }
    }
}

fn alone(alloc: Global, outline: Outline) -> Result<Vec<Outline>, AllocError> {
    let mut outlines = Vec::new(alloc);
    outlines.push(outline)?;
    Ok(outlines)
}

// The cold side; where it isn't done, the warm side; a hit of which is added to the cold one, and answered or asked again.
fn warmed(
    alloc: Global,
    asked: Asked,
    cold: &[Outline],
    warm: &[Outline],
    add: &[Outline],
) -> Result<Vec<Outline>, AllocError> {
    let mut outlines = Vec::new(alloc);
    for first in cold {
        if first.rank == 0 {
            put(&mut outlines, *first)?;
        } else {
            for second in warm {
                if second.rank == 0 {
                    put_refilled(&mut outlines, asked, *first, *second, cold, add)?;
                } else {
                    put(&mut outlines, led(*first, *second))?;
                }
            }
        }
    }
    Ok(outlines)
}

// What the warm side shows is added to the cold side: copied, where that asks a server.
fn put_refilled(
    outlines: &mut Vec<Outline>,
    asked: Asked,
    first: Outline,
    second: Outline,
    cold: &[Outline],
    add: &[Outline],
) -> Result<(), AllocError> {
    for third in add {
        let copies = if third.asks { second.shown } else { 0 };
        let made = joined(first, led(second, *third));
        let refilled = Outline {
            rank: made.rank,
            shown: made.shown,
            copied: made.copied | copies,
            gone: made.gone,
            asks: made.asks,
        };
        if asked.is_plain {
            put(outlines, refilled)?;
        } else {
            for again in cold {
                put(outlines, joined(refilled, *again))?;
            }
        }
    }
    Ok(())
}

// All children; the first reply of the greatest rank.
#[cycle(words)]
fn words_of_all(
    alloc: Global,
    children: &[Plain],
    asked: Asked,
) -> Result<Vec<Outline>, AllocError> {
    match children {
        [] => Ok(Vec::new(alloc)),
        [only] => words(alloc, only, asked),
        [first, rest @ ..] => {
            let firsts = words(alloc, first, asked)?;
            let rests = words_of_all(alloc, rest, asked)?;
            worst_of(alloc, &firsts, &rests)
        }
    }
}

// Of equal ranks the first.
fn worst_of(
    alloc: Global,
    firsts: &[Outline],
    rests: &[Outline],
) -> Result<Vec<Outline>, AllocError> {
    let mut outlines = Vec::new(alloc);
    for first in firsts {
        for rest in rests {
            let worst = if first.rank < rest.rank {
                joined(*first, *rest)
            } else {
                led(*first, *rest)
            };
            put(&mut outlines, worst)?;
        }
    }
    Ok(outlines)
}

// The children up to the first reply below the limit, else the last one.
#[cycle(words)]
fn words_of_first(
    alloc: Global,
    children: &[Plain],
    asked: Asked,
    limit: u8,
) -> Result<Vec<Outline>, AllocError> {
    match children {
        [] => Ok(Vec::new(alloc)),
        [only] => words(alloc, only, asked),
        [first, rest @ ..] => {
            let firsts = words(alloc, first, asked)?;
            let rests = words_of_first(alloc, rest, asked, limit)?;
            below_or(alloc, &firsts, &rests, limit)
        }
    }
}

fn below_or(
    alloc: Global,
    firsts: &[Outline],
    rests: &[Outline],
    limit: u8,
) -> Result<Vec<Outline>, AllocError> {
    let mut outlines = Vec::new(alloc);
    for first in firsts {
        if first.rank < limit {
            put(&mut outlines, *first)?;
        } else {
            for rest in rests {
                put(&mut outlines, joined(*first, *rest))?;
            }
        }
    }
    Ok(outlines)
}

// The first child alone.
#[cycle(words)]
fn words_of_head(
    alloc: Global,
    children: &[Plain],
    asked: Asked,
) -> Result<Vec<Outline>, AllocError> {
    match children {
        [] => Ok(Vec::new(alloc)),
        [first, ..] => words(alloc, first, asked),
    }
}

// The first policy of the operation, else the default.
#[cycle(words)]
fn words_of_policy(
    alloc: Global,
    policies: &[(Op, Plain)],
    default: &Plain,
    asked: Asked,
) -> Result<Vec<Outline>, AllocError> {
    match policies {
        [] => words(alloc, default, asked),
        [(own, child), rest @ ..] => {
            if *own as u8 == asked.op as u8 {
                words(alloc, child, asked)
            } else {
                words_of_policy(alloc, rest, default, asked)
            }
        }
    }
}
