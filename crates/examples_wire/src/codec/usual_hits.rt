//! The hits of gets that are found by themselves, and how such gets are written.

use crate::codec::OfAsks;
use crate::codec::answers::told_of_read;
use crate::escapes::spelled;
use bytes::BytesMut;
use examples_tables::tellers::all_told;
use mc_types::{Ask, SpareBodies};
use std::alloc::{AllocError, Global};
use std::test::Fail;
use wire_stream::Received;
use wire_stream::meta_gets::{is_plain_get, read_hit, usual_hit, write_get};

// Hits as servers spell them.
fn table() -> &'static str {
    r"usual hit: get abc\r\n | VA 3 kabc f5\r\nxyz\r\n => VALUE abc 5 3\r\nxyz\r\nEND\r\n
usual hit: get abc\r\n | VA 0 kabc f4294967295\r\n\r\nEN\r\n => VALUE abc 4294967295 0\r\n\r\nEND\r\n
usual hit: get abc\r\n | VA 2 kabc f0\r\n\r\n\r\nVA => VALUE abc 0 2\r\n\r\n\r\nEND\r\n
usual hit: gat 60 abc\r\n | VA 1 kabc f0\r\nx\r\n => VALUE abc 0 1\r\nx\r\nEND\r\n
# Nothing, a miss, another key, a longer and a shorter one.
usual hit: get abc\r\n => none
usual hit: get abc\r\n | EN\r\n => none
usual hit: get abc\r\n | VA 1 kabd f0\r\nx\r\n => none
usual hit: get abc\r\n | VA 1 kabcd f0\r\nx\r\n => none
usual hit: get abc\r\n | VA 1 kab f0\r\nx\r\n => none
# A hit that isn't whole, or spelled otherwise.
usual hit: get abc\r\n | VA 1 kabc f0\r\n => none
usual hit: get abc\r\n | VA 1 kabc f0\r\nx\r => none
usual hit: get abc\r\n | VA 1 kabc f0\r\nxyz => none
usual hit: get abc\r\n | VA  1 kabc f0\r\nx\r\n => none
usual hit: get abc\r\n | VA 1 f0 kabc\r\nx\r\n => none
usual hit: get abc\r\n | VA 1 kabc f0 c1\r\nx\r\n => none
usual hit: get abc\r\n | VA 1 kabc f0\nx\r\n => none
# Numbers out of their ranges.
usual hit: get abc\r\n | VA 1 kabc f\r\nx\r\n => none
usual hit: get abc\r\n | VA 1 kabc f4294967296\r\nx\r\n => none
usual hit: get abc\r\n | VA 1048577 kabc f0\r\nx\r\n => none
# Another ask.
usual hit: gets abc\r\n | VA 1 kabc f0\r\nx\r\n => none
usual hit: mg abc k f v\r\n | VA 1 kabc f0\r\nx\r\n => none
plain get: get abc\r\n => mg abc k f v\r\n
plain get: gets abc\r\n => mg abc k f v c\r\n
plain get: gat 60 abc\r\n => nothing
plain get: delete abc\r\n => nothing"
}

pub fn hit_told(alloc: Global, ask: &Ask, bytes: &[u8]) -> Result<String, AllocError> {
    let Some(hit) = usual_hit(ask, bytes) else {
        return "none".to_string(alloc);
    };
    let received = Received::copied(bytes);
    let read = read_hit(alloc, &mut SpareBodies::new(alloc), ask, hit, &received)?;
    told_of_read(alloc, ask, &read)
}

pub fn get_told(alloc: Global, ask: &Ask) -> Result<String, AllocError> {
    let mut out = BytesMut::new(alloc);
    if is_plain_get(ask) {
        write_get(ask, &mut out)?;
    }
    spelled(alloc, out.as_slice())
}

#[test]
fn hits_and_plain_gets(rt: HostRuntime) -> Result<(), Fail> {
    all_told::<OfAsks>(rt.alloc(), table())
}
