//! Files that can't be a configuration that is served: folders, pipes and devices.

use std::alloc::{AllocError, Global};
use std::fs::metadata;
use std::rt::Files;

/// Whether there is something of this name that is no regular file. It would give its text once, or keep the program waiting for it.
pub fn is_special<R: Files>(rt: &R, file: &str) -> bool {
    match metadata(rt, file) {
        Ok(found) => !found.is_file(),
        Err(_) => false,
    }
}

/// What is said of it.
pub fn special_line(alloc: Global, file: &str) -> Result<String, AllocError> {
    format!(in alloc;
        "mcgate: cannot serve {file}: it is no regular file, and is read again while it is served"
    )
}
