//! Laws of the serving of a connection. Each is a function without a body, whose contract is the law.

ghost use Rattle.cache_theory.specs.Laws.{PiecesAreOne, ClosesAfterLast, NothingAfterEnd, FeedIsDetermined, StepsAreMessages, GoesOnAsAtOnce};

/// What a client sends in two pieces at one moment is answered as if it came in one: the texts of both, joined.
pub fn pieces_are_one()
    ensures { PiecesAreOne }
{}

/// A connection is closed by `quit` and by a line that is too long, and by no other message.
pub fn closes_after_last()
    ensures { ClosesAfterLast }
{}

/// After the end of a connection nothing is served, and nothing is given.
pub fn nothing_after_end()
    ensures { NothingAfterEnd }
{}

/// Where no reply says that memory ran out, the definition leaves no choice: what is given, where the stream stands then,
/// and what the cache holds follow from what came and what it held.
pub fn feed_is_determined()
    ensures { FeedIsDetermined }
{}

/// Asks that are answered one after another serve their messages: from the front of one to that of another each message between is
/// served whole, by the text of its replies.
pub fn steps_are_messages()
    ensures { StepsAreMessages }
{}

/// A message that is answered in two goes is answered as at once, where nothing changed between.
pub fn goes_on_as_at_once()
    ensures { GoesOnAsAtOnce }
{}
