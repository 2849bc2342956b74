//! Pieces, and then text.

ghost use Rattle.std.specs.Prelude.{◌≡◌, ◌+◌, ◌<◌, ◌≤◌, ◌==◌, ◌++◌, [], length, drop, min, OnOk, OnErr, IfOk};
ghost use Rattle.std.specs.VecDeque.{deque_len, deque_capacity};
ghost use Rattle.bytes.specs.Unread.{IsChunkOf};
ghost use Rattle.std.specs.Io.Slices.{io_slices_bytes};
ghost use Rattle.wire_parts.specs.Sending.{bytes_of, part_at, BeginsWithBytes};

use crate::to_send::piece::Piece;
use bytes::BytesMut;
use mc_types::Body;
use std::alloc::{AllocError, Global};
use std::collections::VecDeque;
use std::io::IoSlice;
use std::mem;

// Pieces for which room is kept where nothing is to be sent.
const KEPT_PIECES: usize = 64;

/// What is to be sent: pieces, and then text that grows at its end.
///
/// Writers of text append to `text`. Data go in by [`SendBuffer::push_data`], which copies none of their bytes.
#[derive(Drop)]
pub struct SendBuffer {
    pub pieces: VecDeque<Piece>,
    pub text: BytesMut,
    alloc: Global,
}

impl SendBuffer {
    /// Nothing is to be sent. It takes no memory.
    pub fn new(alloc: Global) -> SendBuffer
        ensures { bytes_of result ≡ [] }
    {
        SendBuffer {
            pieces: VecDeque::new(alloc),
            text: BytesMut::new(alloc),
            alloc,
        }
    }

    /// Whether nothing is to be sent.
    pub fn is_empty(&self) -> bool
        ensures { result ≡ (length (bytes_of self.now) == 0) }
    {
        self.front().is_empty()
    }

    /// How many bytes are to be sent, or `usize::MAX` where they are more than that, as shared data may be. It looks at each piece.
    pub fn len(&self) -> usize
        ensures { result ≡ min (length (bytes_of self.now)) usize.MAX }
    {
        let mut len = self.text.len();
        for i in 0..self.pieces.len() {
            len = len.saturating_add(self.pieces[i].len());
        }
        len
    }

    /// Nothing is to be sent any more. The room of the text stays.
    pub fn clear(&mut self)
        ensures { bytes_of self.new ≡ [] }
    {
        self.pieces.clear();
        self.text.clear();
    }

    // The text so far becomes a piece, where there is some, in the room that was made for it.
    fn end_text(&mut self)
        requires { deque_len self.old.pieces < deque_capacity self.old.pieces }
        ensures bytes { bytes_of self.new ≡ bytes_of self.old }
        ensures text { self.new.text.items ≡ [] }
        ensures len { deque_len self.new.pieces ≤ deque_len self.old.pieces + 1 }
        ensures room { deque_capacity self.new.pieces ≡ deque_capacity self.old.pieces }
    {
        let text = mem::replace(&mut self.text, BytesMut::new(self.alloc));
        if !text.is_empty() {
            self.pieces.push_back_reserved(Piece::Text(text));
        }
    }

    /// An empty text, which takes no memory.
    pub fn new_text(&self) -> BytesMut
        ensures { result.items ≡ [] }
    {
        BytesMut::new(self.alloc)
    }

    /// Data after all that is to be sent, and this text after them, which goes on growing: no byte of the data is copied, and they last until
    /// they are sent.
    ///
    /// The only error is running out of memory for the pieces; then what is to be sent is as it was.
    ///
    /// Source: mcgate's own.
    pub fn push_data(&mut self, body: &Body, after: BytesMut) -> Result<(), AllocError>
        ensures ok { OnOk result (bytes_of self.new ≡ bytes_of self.old ++ body.now ++ after.items) }
        ensures err { OnErr result ((self.new.pieces.items ≡ self.old.pieces.items) × (self.new.text ≡ self.old.text)) }
    {
        let body = body.copy()?;
        self.pieces.reserve(2)?;
        self.end_text();
        self.pieces
            .push_back_reserved(Piece::Data { body, sent: 0 });
        self.text = after;
        Ok(())
    }

    /// All that is to be sent here goes after what is to be sent there. No byte is copied, unless it is text alone here and something is to
    /// be sent there. Where nothing is, the two are swapped, so that the room of the other text is used here.
    ///
    /// The only error is running out of memory; then there is the same to be sent there, and here all is as it was.
    ///
    /// Source: mcgate's own.
    pub fn move_to(&mut self, out: &mut SendBuffer) -> Result<(), AllocError>
        ensures ok { OnOk result ((bytes_of out.new ≡ bytes_of out.old ++ bytes_of self.old) × (bytes_of self.new ≡ [])) }
        ensures err { OnErr result ((bytes_of out.new ≡ bytes_of out.old) × (self.new ≡ self.old)) }
    {
        if out.is_empty() {
            mem::swap(self, out);
            return Ok(());
        }
        if self.pieces.is_empty() {
            out.text.extend_from_slice(self.text.as_slice())?;
            self.text.clear();
            return Ok(());
        }
        out.pieces.reserve(self.pieces.len().saturating_add(1))?;
        out.end_text();
        let Ok(()) = out.pieces.append(&mut self.pieces) else {
            unreachable!();
        };
        mem::swap(&mut self.text, &mut out.text);
        Ok(())
    }

    /// A copy of all that is to be sent. The only error is running out of memory.
    pub fn to_vec(&self, alloc: Global) -> Result<Vec<u8>, AllocError>
        ensures { IfOk result (λ bytes. bytes.items ≡ bytes_of self.now) }
    {
        let mut bytes = Vec::new(alloc);
        for i in 0..self.pieces.len() {
            bytes.extend_from_slice(self.pieces[i].as_slice())?;
        }
        bytes.extend_from_slice(self.text.as_slice())?;
        Ok(bytes)
    }

    /// The first bytes that are to be sent, as many as lie together. They are none only where nothing is to be sent.
    pub fn front(&self) -> &[u8]
        ensures { IsChunkOf result.now (bytes_of self.now) }
    {
        for i in 0..self.pieces.len() {
            let bytes = self.pieces[i].as_slice();
            if !bytes.is_empty() {
                return bytes;
            }
        }
        self.text.as_slice()
    }

    // What stands at this place: a piece, the text after all pieces, or nothing.
    #[tactic(auto, using(crate::proofs::ToSendParts::text_at, crate::proofs::ToSendParts::past_all))]
    fn part(&self, at: usize) -> &[u8]
        ensures { result.now ≡ part_at at self.now.pieces.items self.now.text.items }
    {
        if let Some(piece) = self.pieces.get(at) {
            return piece.as_slice();
        }
        if at == self.pieces.len() {
            self.text.as_slice()
        } else {
            b"".as_slice()
        }
    }

    /// The first pieces that are to be sent, as many as one write takes. They may be empty only where a piece is.
    pub fn parts(&self) -> [IoSlice<'_>; 4]
        ensures { BeginsWithBytes (io_slices_bytes result) (bytes_of self.now) }
    {
        [
            IoSlice::new(self.part(0)),
            IoSlice::new(self.part(1)),
            IoSlice::new(self.part(2)),
            IoSlice::new(self.part(3)),
        ]
    }

    /// So many of the first bytes are sent. A piece that is used up goes, and text that is used up is room again.
    ///
    /// Source: mcgate's own.
    pub fn advance(&mut self, count: usize)
        requires { count ≤ length (bytes_of self.old) }
        ensures { bytes_of self.new ≡ drop count (bytes_of self.old) }
    {
        let mut left = count;
        while let Some(piece) = self.pieces.pop_front() {
            let len = piece.len();
            if left < len {
                self.pieces.push_front_reserved(piece.sent_on(left));
                return;
            }
            drop(piece);
            left -= len;
        }
        self.text.advance(left);
        if self.text.is_empty() {
            self.text.clear();
        }
    }

    /// Where nothing is to be sent, the room of the text goes back if it is more than so many bytes, and that of the pieces if it is for
    /// more than 64.
    pub fn give_back(&mut self, kept: usize)
        ensures { bytes_of self.new ≡ bytes_of self.old }
    {
        if !self.is_empty() {
            return;
        }
        if self.text.capacity() > kept {
            self.text = BytesMut::new(self.alloc);
        }
        if self.pieces.capacity() > KEPT_PIECES {
            self.pieces = VecDeque::new(self.alloc);
        }
    }

    /// Whether there is more room for text than so many bytes, or for more than 64 pieces.
    pub fn has_room_above(&self, kept: usize) -> bool {
        self.text.capacity() > kept || self.pieces.capacity() > KEPT_PIECES
    }
}
