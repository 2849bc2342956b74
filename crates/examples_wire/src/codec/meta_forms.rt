//! Classic gets that a server is asked in the meta dialect, and what its answers say to them.

ghost use Rattle.mc_types.specs.Asks.{IsAsk};

use crate::codec::OfAsks;
use crate::codec::answers::told_of_read;
use crate::escapes::spelled;
use bytes::BytesMut;
use examples_tables::tables::same_bytes;
use examples_tables::tellers::all_told;
use mc_types::{Ask, Dialect, SpareBodies};
use std::alloc::{AllocError, Global};
use std::test::Fail;
use wire_stream::Received;
use wire_stream::meta_gets::{
    DialectRead, MetaForms, read_dialect, read_in_meta, write_in_meta, write_noop,
};

// Requests, and the form in which a server is asked; and what its answers are read as.
fn table() -> &'static str {
    r"form: get a\r\n => mg a k f v\r\n
form: gets a\r\n => mg a k f v c\r\n
form: gat 60 a\r\n => mg a T60 k f v\r\n
form: gats -1 a\r\n => mg a T-1 k f v c\r\n
# A server that takes flags in their order sets the expiry before it tells the time to live.
form: mg k t T100\r\n => mg k T100 t\r\n
form: ma k t T100 v\r\n => ma k T100 t v D1 MI\r\n
form: ms k 1 c T100 k\r\nx\r\n => ms k 1 T100 c k F0 MS\r\nx\r\n
# All else as it is.
form: set a 1 2 1\r\nx\r\n => set a 1 2 1\r\nx\r\n
form: delete a\r\n => delete a\r\n
form: touch a 60\r\n => touch a 60\r\n
form: mg a s v\r\n => mg a s v\r\n
# Answers as classic ones.
in meta: get a\r\n | VA 3 ka f5\r\nxyz\r\n => VALUE a 5 3\r\nxyz\r\nEND\r\n
in meta: gets a\r\n | VA 1 ka f0 c7\r\nx\r\n => VALUE a 0 1 7\r\nx\r\nEND\r\n
in meta: get a\r\n | EN\r\n => END\r\n
in meta: get a\r\n | EN ka\r\n => END\r\n
in meta: get a\r\n | SERVER_ERROR busy\r\n => SERVER_ERROR busy\r\n
in meta: get a\r\n | VA 3 ka f5\r\nxy => more
# Of another key, without flags or the cas number, without data, and of the classic dialect.
in meta: gets a\r\n | VA 1 kb f5 c1\r\nx\r\n => foreign
in meta: gets a\r\n | VA 1 ka c1\r\nx\r\n => foreign
in meta: gets a\r\n | VA 1 ka f5\r\nx\r\n => foreign
in meta: gets a\r\n | HD ka f5 c1\r\n => foreign
in meta: gets a\r\n | END\r\n => foreign"
}

pub fn form_told(alloc: Global, ask: &Ask) -> Result<String, AllocError>
    requires { IsAsk ask.now }
{
    let mut out = BytesMut::new(alloc);
    write_in_meta(alloc, &mut MetaForms::new(), ask, &mut out)?;
    spelled(alloc, out.as_slice())
}

pub fn in_meta_told(alloc: Global, ask: &Ask, bytes: &[u8]) -> Result<String, AllocError>
    requires { IsAsk ask.now }
{
    let read = read_in_meta(
        alloc,
        &mut MetaForms::new(),
        &mut SpareBodies::new(alloc),
        ask,
        &Received::copied(bytes),
    )?;
    told_of_read(alloc, ask, &read)
}

#[test]
fn gets_in_the_meta_dialect(rt: HostRuntime) -> Result<(), Fail> {
    all_told::<OfAsks>(rt.alloc(), table())
}

// How many bytes tell that a server speaks this dialect.
fn told_by(bytes: &[u8], dialect: Dialect) -> Option<usize> {
    match read_dialect(bytes) {
        DialectRead::Told(told, used) if told == dialect => Some(used),
        _ => None,
    }
}

fn noop_is_mn(alloc: Global) -> Result<(), Fail> {
    let mut out = BytesMut::new(alloc);
    write_noop(&mut out)?;
    same_bytes("noop", out.as_slice(), b"mn\r\n")
}

#[test]
fn what_a_server_speaks(rt: HostRuntime) -> Result<(), Fail> {
    noop_is_mn(rt.alloc())?;
    assert!(rt; told_by(b"MN\r\nEN\r\n", Dialect::Meta) == Some(4));
    assert!(rt; told_by(b"ERROR\r\n", Dialect::Classic) == Some(7));
    assert!(rt; matches!(read_dialect(b"MN\r"), DialectRead::More));
    assert!(rt; matches!(read_dialect(b"EN\r\n"), DialectRead::Neither));
    Ok(())
}
