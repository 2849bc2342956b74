//! A command goes from route to route until a call is next or the whole has its reply.
ghost use Rattle.std.specs.Prelude.{◌≡◌, ◌+◌, ◌≤◌, ℕ, List, [], ◌∷◌, ◌++◌, IfOk};
ghost use Rattle.route_job.specs.Rest.{ask_in, origin_in, ask_under, origin_under};
ghost use Rattle.route_job.specs.Settling.{put_down, FramesLead, IsAtRest, frames_work, pending_work};
ghost use Rattle.route_job.specs.declared.frame.Pending.TheVariants.{Enter, Back};

use crate::done::Done;
use crate::entering::enter;
use crate::frame::{Advance, Frame, Pending};
use crate::returning::back;
use mc_types::{Origin, SharedAsk};
use route_tree::Tree;
use std::alloc::{AllocError, Global};

// What is asked within the frame.
fn ask_in<'b>(frame: &'b Frame, ask: &'b SharedAsk) -> &'b SharedAsk
    ensures { result.now ≡ ask_in frame.now ask.now }
{
    match frame {
        Frame::Warm { get, .. } => &get.ask,
        Frame::Refill { add, .. } => &add.ask,
        _ => ask,
    }
}

/// What is asked within the frames.
pub fn ask_under<'b>(frames: &'b [Frame], ask: &'b SharedAsk) -> &'b SharedAsk
    ensures { result.now ≡ ask_under frames.now ask.now }
{
    match frames {
        [] => ask,
        [frame, rest @ ..] => ask_under(rest, ask_in(frame, ask)),
    }
}

// Whose data an ask within the frame carries.
fn origin_in(frame: &Frame, origin: Origin) -> Origin
    ensures { result ≡ origin_in frame.now origin }
{
    match frame {
        Frame::Refill { from, .. } => Origin::CopyOf(*from),
        _ => origin,
    }
}

/// Whose data an ask within the frames carries.
pub fn origin_under(frames: &[Frame], origin: Origin) -> Origin
    ensures { result ≡ origin_under frames.now origin }
{
    match frames {
        [] => origin,
        [frame, rest @ ..] => origin_under(rest, origin_in(frame, origin)),
    }
}

// Puts down the frame, if there is one.
fn put_down(frames: &mut Vec<Frame>, frame: Option<Frame>) -> Result<(), AllocError>
    ensures { IfOk result (λ _. frames.new.items ≡ put_down frames.old.items frame) }
{
    if let Some(frame) = frame {
        frames.push(frame)?;
    }
    Ok(())
}

// A tree is entered within the frames.
fn go_in(
    hash: u32,
    ask: &SharedAsk,
    frames: &mut Vec<Frame>,
    tree: Tree,
) -> Result<Pending, AllocError>
    ensures leads { IfOk result (λ pending. (b : ℕ) → FramesLead hash ask.now.key b ask.now frames.old.items (Enter tree) frames.new.items pending) }
    ensures less { IfOk result (λ pending. frames_work hash ask.now.key frames.new.items + pending_work hash ask.now.key pending + 1 ≤ frames_work hash ask.now.key frames.old.items + pending_work hash ask.now.key (Enter tree)) }
{
    let advance = enter(
        hash,
        ask.key().as_bytes(),
        ask_under(frames.as_slice(), ask).get(),
        &tree,
    )?;
    let Advance { frame, pending } = advance;
    put_down(frames, frame)?;
    Ok(pending)
}

// The reply is given to this frame, which was the inmost.
fn go_back(
    alloc: Global,
    ask: &SharedAsk,
    frames: &mut Vec<Frame>,
    frame: Frame,
    done: Done,
) -> Result<Pending, AllocError>
    ensures leads { IfOk result (λ pending. (hash : ℕ) (text : List ℕ) (b : ℕ) → FramesLead hash text b ask.now (frames.old.items ++ frame ∷ []) (Back done) frames.new.items pending) }
    ensures less { IfOk result (λ pending. (hash : ℕ) (text : List ℕ) → frames_work hash text frames.new.items + pending_work hash text pending + 1 ≤ frames_work hash text (frames.old.items ++ frame ∷ []) + pending_work hash text (Back done)) }
{
    let advance = back(alloc, ask_under(frames.as_slice(), ask).get(), frame, done)?;
    let Advance { frame, pending } = advance;
    put_down(frames, frame)?;
    Ok(pending)
}

/// On to the next call, or to the reply of the whole. The trees are seen by the key of the ask, which has this hash.
pub fn settle(
    alloc: Global,
    hash: u32,
    ask: &SharedAsk,
    frames: &mut Vec<Frame>,
    pending: Pending,
) -> Result<Pending, AllocError>
    ensures leads { IfOk result (λ next. (b : ℕ) → FramesLead hash ask.now.key b ask.now frames.old.items pending frames.new.items next) }
    ensures rests { IfOk result (λ next. IsAtRest frames.new.items next) }
    ensures less { IfOk result (λ next. frames_work hash ask.now.key frames.new.items + pending_work hash ask.now.key next ≤ frames_work hash ask.now.key frames.old.items + pending_work hash ask.now.key pending) }
{
    match pending {
        Pending::Call(server) => Ok(Pending::Call(server)),
        Pending::Enter(tree) => {
            let next = go_in(hash, ask, frames, tree)?;
            settle(alloc, hash, ask, frames, next)
        }
        Pending::Back(done) => match frames.pop() {
            None => Ok(Pending::Back(done)),
            Some(frame) => {
                let next = go_back(alloc, ask, frames, frame, done)?;
                settle(alloc, hash, ask, frames, next)
            }
        },
    }
}
