//! The limits of keys, data, opaque texts, error lines and scripts, stated once for all crates.

/// The most bytes of a key.
///
/// Source: memcached's protocol.txt, "Keys".
pub const KEY_LIMIT: usize = 250;

/// The most bytes of an item's data: 1 MiB, as memcached's default `-I 1m` has for a whole item.
pub const DATA_LIMIT: u32 = 1_048_576;

/// The most bytes of an opaque text.
///
/// Source: memcached's protocol.txt, "Meta Commands", the flag `O`.
pub const OPAQUE_LIMIT: usize = 32;

/// The most bytes in the text of an error line. mcgate's own.
pub const ERROR_TEXT_LIMIT: usize = 1_024;

/// How many clients a script has: 0 to 63. mcgate's own.
pub const SCRIPT_CLIENTS: usize = 64;
