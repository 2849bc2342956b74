//! Classic requests: each refusal, cuts, and the one spelling.

use crate::reads::OfRequests;
use examples_tables::tellers::all_told;
use std::alloc::Global;
use std::test::Fail;

// Bytes, and how they are read; `cut` at any place, they want more.
fn reads() -> &'static str {
    r"# What follows the wrong end is passed over through the next line end, so that what comes then is read.
read: set a 0 0 1\r\nxyz\r\nget a\r\n => CLIENT_ERROR bad data chunk, 14 used, a line skipped
read: set a 0 0 1\r\nx\r\r\n => CLIENT_ERROR bad data chunk, 14 used, a line skipped
read: set a 0 0 1\r\nx\n => CLIENT_ERROR bad data chunk, 14 used, a line skipped
read: set a 0 0 1\r\nx\r => more
read: set a 0 0 1\r\nx\r\n => served
# Unknown words and `noreply`.
read:  \r\n => ERROR
read: foo\r\n => ERROR
read: GET a\r\n => ERROR
read: get\r\n => ERROR
# Words of the other dialect.
read: mn\r\n => noop
read: ms a 1\r\n => more
# More words than a command has.
read: version 1\r\n => ERROR
read: delete a 1\r\n => ERROR
read: delete a noreply 0\r\n => ERROR
read: set a 0 0 1 no\r\n => ERROR, 3 skipped
read: delete a 0\r\n => served
read: delete a noreply\r\n => served quietly
read: delete a 0 noreply\r\n => served quietly
read: touch a 1 noreply\n => served quietly
read: cas a 0 0 0 1 noreply\r\n\r\n => served quietly
read:   get  a   noreply \r\n => served
# Key, then numbers, then the length's limit: the first test that fails decides.
read: set \x7f x 0 4294967295\r\n => CLIENT_ERROR bad key, 4294967297 skipped
read: set a x 0 4294967295\r\n => CLIENT_ERROR bad number, 4294967297 skipped
read: set a 0 0 4294967295\r\n => SERVER_ERROR object too large for cache, 4294967297 skipped
read: set a 0 0 4294967296\r\n => CLIENT_ERROR bad number
read: set a 0 0 1048577\r\n => SERVER_ERROR object too large for cache, 1048579 skipped
read: set a 4294967296 0 1\r\n => CLIENT_ERROR bad number, 3 skipped
read: cas a 0 0 1 x\r\n => CLIENT_ERROR bad number, 3 skipped
read: cas a 0 0 1\r\n => ERROR, 3 skipped
read: gat x \x7f\r\n => CLIENT_ERROR bad key
read: gat x a\r\n => CLIENT_ERROR bad number
read: incr a 18446744073709551616\r\n => CLIENT_ERROR bad number
read: touch a 9223372036854775808\r\n => CLIENT_ERROR bad number
read: set a 0 0 1048576\r\n => more
# Lengths and bytes of keys.
read: get «250 k»\r\n => served
read: get «251 k»\r\n => CLIENT_ERROR bad key
read: get \x80\xff\r\n => served
read: get a \x7f\r\n => CLIENT_ERROR bad key
read: get a\tb\r\n => CLIENT_ERROR bad key
cut: set a 1 2 3 noreply\r\nxyz\r\n => served quietly
# What is asked of the proxy itself.
read: version\r\n => version
read: quit\r\n => quit"
}

// Bytes, and what they ask, each in its one spelling. Spaces, leading zeros, the sign of -0, `noreply` and the 0 of `delete` aren't kept.
fn spellings() -> &'static str {
    r"asks: gets  a\n => gets a\r\n
asks: gat 007 a\r\n => gat 7 a\r\n
asks: set a 01 -0 3 noreply\r\nx\r\n\r\n => set a 1 0 3\r\nx\r\n\r\n
asks: add a 0 -1 0\r\n\r\n => add a 0 -1 0\r\n\r\n
asks: replace a 4294967295 0 1\nx\r\n => replace a 4294967295 0 1\r\nx\r\n
asks: append a 0 0 1\r\nx\r\n => append a 0 0 1\r\nx\r\n
asks: prepend a 0 0 1\r\nx\r\n => prepend a 0 0 1\r\nx\r\n
asks: cas a 0 0 1 18446744073709551615\r\nx\r\n => cas a 0 0 1 18446744073709551615\r\nx\r\n
asks: delete a 0 noreply\r\n => delete a\r\n
asks: incr a 018446744073709551615\r\n => nothing
asks: incr a 05\r\n => incr a 5\r\n
asks: decr a 18446744073709551615\r\n => decr a 18446744073709551615\r\n
asks: touch a -9223372036854775808\r\n => touch a -9223372036854775808\r\n
asks: version\r\n => nothing
asks: quit\r\n => nothing
# Each key of a line is an ask.
asks: gats 5 a  bc d\r\n => gats 5 a\r\ngats 5 bc\r\ngats 5 d\r\n"
}

#[test]
fn requests(rt: HostRuntime) -> Result<(), Fail> {
    all_told::<OfRequests>(rt.alloc(), reads())?;
    all_told::<OfRequests>(rt.alloc(), spellings())?;
    Ok(())
}
