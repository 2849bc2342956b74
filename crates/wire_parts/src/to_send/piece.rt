//! A piece of what is to be sent.

ghost use Rattle.std.specs.Prelude.{◌≡◌, ◌≤◌, length, drop};
ghost use Rattle.wire_parts.specs.Sending.{sending_bytes};

use bytes::BytesMut;
use mc_types::Body;

/// What stands before the text at the end of a [`SendBuffer`](crate::to_send::SendBuffer).
#[derive(Drop)]
pub enum Piece {
    /// Text that was copied in.
    Text(BytesMut),
    /// Data that are shared with their item. The first `sent` bytes of them are gone.
    Data { body: Body, sent: usize },
}

impl Piece {
    /// What of the piece is still to be sent.
    pub fn as_slice(&self) -> &[u8]
        ensures { result.now ≡ sending_bytes self.now }
    {
        match self {
            Piece::Text(text) => text.as_slice(),
            Piece::Data { body, sent } => after(body.as_slice(), *sent),
        }
    }

    /// How many bytes of the piece are still to be sent.
    pub fn len(&self) -> usize
        ensures { result ≡ length (sending_bytes self.now) }
    {
        self.as_slice().len()
    }

    // The piece once so many bytes more are gone.
    pub(crate) fn sent_on(self, count: usize) -> Piece
        requires { count ≤ length (sending_bytes self) }
        ensures { sending_bytes result ≡ drop count (sending_bytes self) }
    {
        match self {
            Piece::Text(mut text) => {
                text.advance(count);
                Piece::Text(text)
            }
            Piece::Data { body, sent } => {
                // (so the sum is a length, or what it was)
                let _len = body.len();
                Piece::Data {
                    body,
                    sent: sent + count,
                }
            }
        }
    }
}

fn after(bytes: &[u8], count: usize) -> &[u8]
    ensures { result.now ≡ drop count bytes.now }
{
    if count < bytes.len() {
        &bytes[count..]
    } else {
        &[]
    }
}
