//! Laws of a stream: pieces are one, and a message ends with its last key.

ghost use Rattle.wire_stream.specs.TextProtocol.{TextIsReader, TextEndsWithLast};

/// What a client's bytes say doesn't depend on the pieces that they come in.
pub fn is_reader()
    ensures { TextIsReader }
{}

/// A message ends with the reply to its last key, at the latest.
pub fn ends_with_last()
    ensures { TextEndsWithLast }
{}
