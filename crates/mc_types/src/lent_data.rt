//! Data that are still where they were read.

ghost use Rattle.std.specs.Prelude.{◌≡◌, [], IfOk, OnOk};

use crate::body::Body;
use std::alloc::{AllocError, Global};
use std::marker::Model;

// Where the bytes are.
#[derive(Drop)]
enum Lent<'a> {
    // There, to be copied from there.
    Copied(&'a [u8]),
    // In a body that shares them with what they came in.
    Shared(Body),
}

/// Data of an ask that aren't copied yet, or are shared with the buffer that they came in. Contracts see the bytes.
#[derive(Drop)]
pub struct LentData<'a> {
    lent: Lent<'a>,
}

impl<'a> Model for LentData<'a> {
    ghost use Rattle.std.specs.Prelude.{List, ℕ};
    ghost use Rattle.mc_types.specs.LentBytes.{bytes_lent};

    ghost Value = { List ℕ };

    ghost view = { λ d. bytes_lent d.lent };
}

impl<'a> LentData<'a> {
    /// No data.
    pub fn empty() -> LentData<'a>
        ensures { result ≡ [] }
    {
        LentData::copied(b"".as_slice())
    }

    /// These bytes, which are copied where an ask takes them.
    pub fn copied(bytes: &'a [u8]) -> LentData<'a>
        ensures { result ≡ bytes.now }
    {
        LentData {
            lent: Lent::Copied(bytes),
        }
    }

    /// This body, which an ask takes as it is.
    pub fn shared(body: Body) -> LentData<'a>
        ensures { result ≡ body }
    {
        LentData {
            lent: Lent::Shared(body),
        }
    }

    /// A body of these bytes. The only error is running out of memory.
    pub fn into_body(self, alloc: Global) -> Result<Body, AllocError>
        ensures { IfOk result (λ body. body ≡ self.entry) }
    {
        match self.lent {
            Lent::Copied(bytes) => Body::from_slice(alloc, bytes),
            Lent::Shared(body) => Ok(body),
        }
    }

    // The body becomes one of these bytes, in its own memory where nobody else holds that and the bytes are copied. The only error is running
    // out of memory.
    pub(crate) fn put_into(self, alloc: Global, body: &mut Body) -> Result<(), AllocError>
        ensures { OnOk result (body.new ≡ self.entry) }
    {
        match self.lent {
            Lent::Copied(bytes) => body.set(alloc, bytes),
            Lent::Shared(shared) => {
                *body = shared;
                Ok(())
            }
        }
    }
}
