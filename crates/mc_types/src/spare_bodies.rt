//! Memory of data that were handed out, for others.

ghost use Rattle.std.specs.Prelude.{◌≡◌, IfOk};

use crate::body::Body;
use bytes::Bytes;
use std::alloc::{AllocError, Global};
use std::collections::VecDeque;

// So many bodies of a kind are kept at most: more than replies of one server wait for others mostly.
const SPARES: usize = 64;

// A body with more data of its own isn't kept.
const SPARE_DATA: usize = 8_192;

/// Bodies that were handed out, whose memory is used again once nobody else holds them. Contracts see nothing of it.
#[derive(Drop)]
pub struct SpareBodies {
    // Those with memory of their own. The one that was handed out first is in front, here and below.
    own: VecDeque<Body>,
    // Those that share the buffer that they came in.
    cut: VecDeque<Body>,
}

// A drop that is a call keeps the proof of a caller short.
fn drop_body(_body: Body) {}

// It is kept, where not many are. Where memory was refused it isn't.
fn keep(bodies: &mut VecDeque<Body>, body: Body) {
    if bodies.len() >= SPARES {
        drop_body(body);
        return;
    }
    if let Err(refused) = bodies.push_back(body) {
        drop_body(refused.value);
    }
}

// A body for other data: one that nobody else holds, if that which was handed out first is such a one.
fn free_one(bodies: &mut VecDeque<Body>) -> Body {
    match bodies.pop_front() {
        None => Body::empty(),
        Some(body) => {
            if body.is_alone() {
                return body;
            }
            keep(bodies, body);
            Body::empty()
        }
    }
}

impl SpareBodies {
    /// None. It takes no memory.
    pub fn new(alloc: Global) -> SpareBodies {
        SpareBodies {
            own: VecDeque::new(alloc),
            cut: VecDeque::new(alloc),
        }
    }

    /// A copy of the bytes, in the memory of a body that nobody else holds any more, where one is kept. The only error is running out of
    /// memory.
    pub fn copy_of(&mut self, alloc: Global, bytes: &[u8]) -> Result<Body, AllocError>
        ensures { IfOk result (λ body. body ≡ bytes.now) }
    {
        if bytes.is_empty() || bytes.len() > SPARE_DATA {
            return Body::from_slice(alloc, bytes);
        }
        let mut body = free_one(&mut self.own);
        body.set(alloc, bytes)?;
        if let Ok(copy) = body.copy() {
            keep(&mut self.own, copy);
        }
        Ok(body)
    }

    /// These bytes, which are shared with the buffer that they came in: that lasts until nobody else holds the body and [`SpareBodies::let_go`] is
    /// called, or until the body is used again. The only error is running out of memory.
    pub fn cut_of(&mut self, alloc: Global, bytes: Bytes) -> Result<Body, AllocError>
        ensures { IfOk result (λ body. body ≡ bytes) }
    {
        let mut body = free_one(&mut self.cut);
        body.set_cut(alloc, bytes)?;
        if let Ok(copy) = body.copy() {
            keep(&mut self.cut, copy);
        }
        Ok(body)
    }

    /// Buffers that only bodies share that nobody else holds any more are let go.
    pub fn let_go(&mut self) {
        for i in 0..self.cut.len() {
            if let Some(body) = self.cut.get_mut(i) {
                body.let_go();
            }
        }
    }
}
