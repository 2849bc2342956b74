//! The commands of a refusal run.
ghost use Rattle.std.specs.Prelude.{◌≡◌, ◌++◌, IfOk};
ghost use Rattle.mcgate_check.specs.Commands as texts;
ghost use Rattle.mcgate_check.specs.Commands.{delete_text, read_text};

use mc_types::{Key, Op};
use std::alloc::{AllocError, Global};

// What stands before the key in the line of a read.
fn before_key(op: Op) -> &'static [u8]
    ensures { result.now ≡ texts.before_key op }
{
    match op {
        Op::Gat => b"gat 0 ".as_slice(),
        Op::Incr => b"incr ".as_slice(),
        Op::Decr => b"decr ".as_slice(),
        _ => b"get ".as_slice(),
    }
}

// What stands after it.
fn after_key(op: Op) -> &'static [u8]
    ensures { result.now ≡ texts.after_key op }
{
    match op {
        Op::Incr | Op::Decr => b" 1\r\n".as_slice(),
        _ => b"\r\n".as_slice(),
    }
}

fn joined(alloc: Global, front: &[u8], key: &[u8], back: &[u8]) -> Result<Vec<u8>, AllocError>
    ensures { IfOk result (λ text. text.items ≡ front.now ++ key.now ++ back.now) }
{
    let mut text = Vec::from_slice(alloc, front)?;
    text.extend_from_slice(key)?;
    text.extend_from_slice(back)?;
    Ok(text)
}

/// `delete K`, as a line. The only error is running out of memory.
pub fn delete_line(alloc: Global, key: &Key) -> Result<Vec<u8>, AllocError>
    ensures { IfOk result (λ text. text.items ≡ delete_text key.now) }
{
    joined(alloc, b"delete ", key.as_bytes(), b"\r\n")
}

/// `get K`, `gat 0 K`, `incr K 1` or `decr K 1`, as a line. The only error is running out of memory.
pub fn read_line(alloc: Global, op: Op, key: &Key) -> Result<Vec<u8>, AllocError>
    ensures { IfOk result (λ text. text.items ≡ read_text op key.now) }
{
    joined(alloc, before_key(op), key.as_bytes(), after_key(op))
}
