//! Tests: bytes as they are printed.

use std::test::Fail;
use text_words::escapes::{Escaped, EscapedByte};

#[test]
fn printed_bytes(rt: HostRuntime) -> Result<(), Fail> {
    let bytes = b"a~ \r\n\\\t\x00\x7f\xe9\xff".as_slice();
    let text = format!(in rt.alloc(); "{}", Escaped(bytes))?;
    assert_eq!(rt; text.as_str(), "a~ \\r\\n\\\\\\x09\\x00\\x7f\\xe9\\xff");
    let byte = format!(in rt.alloc(); "{}", EscapedByte(31))?;
    assert_eq!(rt; byte.as_str(), "\\x1f");
    Ok(())
}
