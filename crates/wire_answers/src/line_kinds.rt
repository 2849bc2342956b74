//! What a first line may say: the whole answer, or a hit whose data follow.

use crate::meta::ValueLine;
use mc_types::Answer;

/// What the first line of a hit says.
#[derive(Clone, Copy)]
pub struct HitLine {
    pub flags: u32,
    /// How many bytes of data follow.
    pub len: usize,
    /// The cas number, where the ask wants it.
    pub cas: Option<u64>,
}

/// What the first line of an answer says to an ask.
#[derive(Drop)]
pub enum FirstLine {
    /// The line is the whole answer.
    Whole(Answer),
    /// A hit: its data and the line `END` follow.
    Hit(HitLine),
    /// A meta answer with data, which follow.
    Value(ValueLine),
    /// No answer to the ask begins with this line.
    NoAnswer,
}
