//! The folders of paths, and what can be known of a path without making or changing a file.

use libc::{EADDRINUSE, ENOENT, ENOTDIR};
use std::fs::{metadata, symlink_metadata};
use std::io;
use std::io::ErrorKind;
use std::os::unix::fs::FileTypeExt;
use std::rt::Files;

/// The folder of a file.
pub fn folder_of(path: &str) -> &str {
    match path.rsplit_once('/') {
        None => ".",
        Some(("", _)) => "/",
        Some((folder, _)) => folder,
    }
}

// Whether the folder is there in which a file of this path would be made.
fn look_at_folder<R: Files>(rt: &R, path: &str) -> io::Result<()> {
    if path.is_empty() {
        return Err(io::Error::from_raw_os_error(ENOENT));
    }
    if metadata(rt, folder_of(path))?.is_dir() {
        Ok(())
    } else {
        Err(io::Error::from_raw_os_error(ENOTDIR))
    }
}

/// An error comes where there is no file of this path, and none can be made as its folder isn't there.
pub fn look_for_file<R: Files>(rt: &R, path: &str) -> io::Result<()> {
    match metadata(rt, path) {
        Ok(_) => Ok(()),
        Err(error) if error.kind() == ErrorKind::NotFound => look_at_folder(rt, path),
        Err(error) => Err(error),
    }
}

/// An error comes where no socket can stand at this path, as what has that name is none, or its folder isn't there.
pub fn look_for_socket<R: Files>(rt: &R, path: &str) -> io::Result<()> {
    match symlink_metadata(rt, path) {
        Ok(found) if found.file_type().is_socket() => Ok(()),
        Ok(_) => Err(io::Error::from_raw_os_error(EADDRINUSE)),
        Err(error) if error.kind() == ErrorKind::NotFound => look_at_folder(rt, path),
        Err(error) => Err(error),
    }
}
