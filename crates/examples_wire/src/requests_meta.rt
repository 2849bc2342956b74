//! Meta requests: refusals by the table, cuts, and the one spelling.

use crate::reads::OfRequests;
use examples_tables::tellers::all_told;
use std::alloc::Global;
use std::test::Fail;

// Bytes, and how they are read; `cut` at any place, they want more.
fn reads() -> &'static str {
    r"# Flags that aren't served.
read: mg a b\r\n => CLIENT_ERROR flag not served
read: mg a q v b\r\n => CLIENT_ERROR flag not served
read: mg a C1\r\n => CLIENT_ERROR flag not served
read: ms a 1 v\r\n => CLIENT_ERROR flag not served, 3 skipped
read: ms a 1 D1\r\n => CLIENT_ERROR flag not served, 3 skipped
read: md a c\r\n => CLIENT_ERROR flag not served
read: md a T1\r\n => CLIENT_ERROR flag not served
read: ma a s\r\n => CLIENT_ERROR flag not served
read: ma a F1\r\n => CLIENT_ERROR flag not served
read: ms a 1 C1 ME\r\n => CLIENT_ERROR flag not served, 3 skipped
read: ms a 1 Ma C1\r\n => CLIENT_ERROR flag not served, 3 skipped
read: ms a 1 C1 Ms\r\n => more
read: ms a 1 C1\r\n => more
# For one flag its letter, its having come before and its value are tested together before the next flag.
read:  \r\n => ERROR
read: MG a\r\n => ERROR
read: me a\r\n => ERROR
read: get a\r\n => served
read: mg\r\n => ERROR
read: md\r\n => ERROR
read: ma\r\n => ERROR
read: ms a\r\n => ERROR
read: mn 1\r\n => ERROR
read: mg \x7f z\r\n => CLIENT_ERROR bad key
read: md \x7f z\r\n => CLIENT_ERROR bad key
read: ma \x7f z\r\n => CLIENT_ERROR bad key
read: ms \x7f x z\r\n => CLIENT_ERROR bad key
read: ms a x z\r\n => CLIENT_ERROR bad number
read: ms a 4294967296 z\r\n => CLIENT_ERROR bad number
read: mg a vx z\r\n => CLIENT_ERROR bad token
read: mg a v v z\r\n => CLIENT_ERROR flag twice
read: mg a v vx\r\n => CLIENT_ERROR flag twice
read: mg a z vx v v\r\n => CLIENT_ERROR flag not served
read: mg a Tx\r\n => CLIENT_ERROR bad token
read: mg a T9223372036854775808\r\n => CLIENT_ERROR bad token
read: mg a O\r\n => CLIENT_ERROR bad token
read: md a q q\r\n => CLIENT_ERROR flag twice
read: md a C18446744073709551616\r\n => CLIENT_ERROR bad token
read: md a C\r\n => CLIENT_ERROR bad token
read: ma a D1 D1\r\n => CLIENT_ERROR flag twice
read: ma a D-1\r\n => CLIENT_ERROR bad token
read: ma a MS\r\n => CLIENT_ERROR bad token
read: ma a MII\r\n => CLIENT_ERROR bad token
read: ms a 1 c c\r\n => CLIENT_ERROR flag twice, 3 skipped
read: ms a 1 F4294967296\r\n => CLIENT_ERROR bad token, 3 skipped
read: ms a 1 MI\r\n => CLIENT_ERROR bad token, 3 skipped
read: ms a 1 C1 MA Fx\r\n => CLIENT_ERROR bad token, 3 skipped
read: ms \x7f 1\r\n => CLIENT_ERROR bad key, 3 skipped
read: ms a 1048577 C1 MA\r\n => CLIENT_ERROR flag not served, 1048579 skipped
read: ms a 1048577\r\n => SERVER_ERROR object too large for cache, 1048579 skipped
read: ms a 4294967295\r\n => SERVER_ERROR object too large for cache, 4294967297 skipped
read: ms a 1048576\r\n => more
read: ms a 1\r\nxyz\r\n => CLIENT_ERROR bad data chunk, 9 used, a line skipped
# Opaque texts of 32 and 33 bytes.
read: mg a O«32 ~»\r\n => served
read: mg a O«33 ~»\r\n => CLIENT_ERROR bad token
read: mg a O\x80\r\n => CLIENT_ERROR bad token
cut: mg a c f k q s t v Oxyz T30\r\n => served quietly
cut: ms a 3 c k q C1 F2 Oxyz T-1 MS\r\nxyz\r\n => served quietly
cut: md a k C1 Oxyz\r\n => served
cut: ma a c k q t v C1 D2 Oxyz T30 M-\r\n => served quietly
cut: mn\r\n => noop
# What is asked of the proxy itself.
read: mn\r\nmg a\r\n => noop, 4 used"
}

// Bytes, and what they ask in its one spelling: `T`, if it has one, the ask's return flags and `O` in their order, then those of `C D F M` that
// it has; `q` and what is left out aren't kept.
fn spellings() -> &'static str {
    r"ask: mg a\r\n => mg a\r\n
ask: mg  a v Oxyz q T030 t s k f c\n => mg a T30 v Oxyz t s k f c\r\n
ask: ms a 1\r\nx\r\n => ms a 1 T0 F0 MS\r\nx\r\n
ask: ms a 01 T-0 Mr q k F7 Ox c\r\nx\r\n => ms a 1 T0 k Ox c F7 MR\r\nx\r\n
ask: ms a 0 Ms C5\r\n\r\n => ms a 0 T0 C5 F0 MS\r\n\r\n
ask: ms a 2 ME\r\n\r\n\r\n => ms a 2 T0 F0 ME\r\n\r\n\r\n
ask: ms a 1 Ma\nx\r\n => ms a 1 T0 F0 MA\r\nx\r\n
ask: ms a 1 Mp\nx\r\n => ms a 1 T0 F0 MP\r\nx\r\n
ask: md a q Ox C9 k\r\n => md a Ox k C9\r\n
ask: ma a\r\n => ma a D1 MI\r\n
ask: ma a T60 M- D9 v C3 t\r\n => ma a T60 v t C3 D9 MD\r\n
ask: ma a M+\r\n => ma a D1 MI\r\n
ask: ma a Md k\r\n => ma a k D1 MD\r\n
ask: mn\r\nmg a\r\n => 0 asks"
}

#[test]
fn requests(rt: HostRuntime) -> Result<(), Fail> {
    all_told::<OfRequests>(rt.alloc(), reads())?;
    all_told::<OfRequests>(rt.alloc(), spellings())?;
    Ok(())
}
