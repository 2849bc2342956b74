//! An item's data: shared bytes that never change.

ghost use Rattle.std.specs.Prelude.{◌≡◌, [], IfOk, OnOk, length};
ghost use Rattle.mc_types.specs.Bodies.{bytes_in};

use bytes::Bytes;
use std::alloc::{AllocError, Global};
use std::marker::Model;
use std::rc::Rc;

// Where the bytes are.
#[derive(Drop)]
enum Held {
    // In memory of their own.
    Own(Vec<u8>),
    // In the buffer that they came in, which lasts as long as they do.
    Cut(Bytes),
}

/// The data of an item: bytes that are shared and never changed.
///
/// An empty body takes no memory, and a copy shares the bytes of its source. A body is a word, as it goes through many hands.
#[derive(Drop)]
pub struct Body {
    held: Option<Rc<Held>>,
}

// Other bytes in the place of these.
fn refill(held: &mut Vec<u8>, bytes: &[u8]) -> Result<(), AllocError>
    ensures { OnOk result (held.new.items ≡ bytes.now) }
{
    held.clear();
    held.extend_from_slice(bytes)
}

impl Held {
    // It becomes a copy of the bytes, in its own memory where it has some. The only error is running out of memory.
    fn fill(&mut self, alloc: Global, bytes: &[u8]) -> Result<(), AllocError>
        ensures { OnOk result (bytes_in self.new ≡ bytes.now) }
    {
        if let Held::Own(held) = self {
            return refill(held, bytes);
        }
        *self = Held::Own(Vec::from_slice(alloc, bytes)?);
        Ok(())
    }
}

// A body of what is held so.
fn held_body(alloc: Global, held: Held) -> Result<Body, AllocError>
    ensures { IfOk result (λ body. body ≡ bytes_in held) }
{
    let held = Rc::new(alloc, held)?;
    Ok(Body { held: Some(held) })
}

impl Model for Body {
    ghost use Rattle.std.specs.Prelude.{List, ℕ, option_map};
    ghost use Rattle.mc_types.specs.Bodies.{bytes_held};

    ghost Value = { List ℕ };

    ghost view = { λ b. bytes_held (option_map (λ held. held.value) b.held) };
}

impl Body {
    /// The body without bytes. It takes no memory.
    pub fn empty() -> Body
        ensures { result ≡ [] }
    {
        Body { held: None }
    }

    /// A copy of the bytes. The only error is running out of memory, never for an empty slice.
    pub fn from_slice(alloc: Global, bytes: &[u8]) -> Result<Body, AllocError>
        ensures { IfOk result (λ body. body ≡ bytes.now) }
    {
        if bytes.is_empty() {
            return Ok(Body::empty());
        }
        Body::from_vec(Vec::from_slice(alloc, bytes)?)
    }

    /// The bytes of the vector, which it takes over. The only error is running out of memory.
    pub fn from_vec(bytes: Vec<u8>) -> Result<Body, AllocError>
        ensures { IfOk result (λ body. body ≡ bytes.items) }
    {
        let alloc = *bytes.allocator();
        held_body(alloc, Held::Own(bytes))
    }

    /// These bytes, which are shared with the buffer that they came in: all of it lasts as long as the body does. The only error is running
    /// out of memory.
    pub fn cut(alloc: Global, bytes: Bytes) -> Result<Body, AllocError>
        ensures { IfOk result (λ body. body ≡ bytes) }
    {
        held_body(alloc, Held::Cut(bytes))
    }

    // Whether it has memory that nobody else holds.
    pub(crate) fn is_alone(&self) -> bool {
        match &self.held {
            None => false,
            Some(held) => Rc::strong_count(held) == 1,
        }
    }

    // It becomes a copy of the bytes, in its own memory where nobody else holds that. The only error is running out of memory.
    pub(crate) fn set(&mut self, alloc: Global, bytes: &[u8]) -> Result<(), AllocError>
        ensures { OnOk result (self.new ≡ bytes.now) }
    {
        if let Some(held) = &mut self.held {
            if let Some(held) = Rc::get_mut(held) {
                return held.fill(alloc, bytes);
            }
        }
        *self = Body::from_slice(alloc, bytes)?;
        Ok(())
    }

    // It becomes these bytes, which are shared with the buffer that they came in, and keeps the memory for the count of sharers where nobody else
    // holds that. The only error is running out of memory.
    pub(crate) fn set_cut(&mut self, alloc: Global, bytes: Bytes) -> Result<(), AllocError>
        ensures { OnOk result (self.new ≡ bytes) }
    {
        if let Some(held) = &mut self.held {
            if let Some(held) = Rc::get_mut(held) {
                *held = Held::Cut(bytes);
                return Ok(());
            }
        }
        *self = Body::cut(alloc, bytes)?;
        Ok(())
    }

    // Where nobody else holds it, it becomes empty and keeps the memory of its count. A buffer that it shared is let go.
    pub(crate) fn let_go(&mut self) {
        if let Some(held) = &mut self.held {
            if let Some(held) = Rc::get_mut(held) {
                *held = Held::Cut(Bytes::new());
            }
        }
    }

    /// The bytes.
    pub fn as_slice(&self) -> &[u8]
        ensures { result.now ≡ self.now }
    {
        match &self.held {
            None => b"".as_slice(),
            Some(held) => match held.as_ref() {
                Held::Own(bytes) => bytes.as_slice(),
                Held::Cut(bytes) => bytes.as_slice(),
            },
        }
    }

    /// How many bytes there are.
    pub fn len(&self) -> usize
        ensures { result ≡ length self.now }
    {
        self.as_slice().len()
    }

    /// These bytes once more, shared: it takes no memory, and is refused only where the count of sharers is full.
    pub fn copy(&self) -> Result<Body, AllocError>
        ensures { IfOk result (λ body. body ≡ self.now) }
    {
        let held = match &self.held {
            None => None,
            Some(held) => Some(held.clone()?),
        };
        Ok(Body { held })
    }
}
