//! The lines of refusals.

use examples_tables::tables::same_bytes;
use std::alloc::{AllocError, Global};
use std::test::Fail;
use wire_parts::RefusalReason;

fn reasons() -> [RefusalReason; 8] {
    [
        RefusalReason::Unknown,
        RefusalReason::BadKey,
        RefusalReason::BadNumber,
        RefusalReason::FlagNotServed,
        RefusalReason::FlagTwice,
        RefusalReason::BadToken,
        RefusalReason::TooLarge,
        RefusalReason::BadChunk,
    ]
}

fn wanted() -> &'static [u8] {
    b"ERROR
CLIENT_ERROR bad key
CLIENT_ERROR bad number
CLIENT_ERROR flag not served
CLIENT_ERROR flag twice
CLIENT_ERROR bad token
SERVER_ERROR object too large for cache
CLIENT_ERROR bad data chunk
"
}

fn lines(alloc: Global) -> Result<Vec<u8>, AllocError> {
    let mut out = Vec::new(alloc);
    for why in reasons() {
        out.extend_from_slice(why.line())?;
        out.push(b'\n')?;
    }
    Ok(out)
}

#[test]
fn refusal_lines(rt: HostRuntime) -> Result<(), Fail> {
    let got = lines(rt.alloc())?;
    same_bytes("refusals", got.as_slice(), wanted())
}
