//! How this program was built.

/// Whether it was proved: a program that `rt` makes is proved before it is built. dev/quick, which builds without proofs, compiles `false`
/// here. (`rt try` compiles what stands here, though it proves nothing)
pub const IS_PROVED: bool = true;
