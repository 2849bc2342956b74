//! Sockets that stand at a path of the machine.

use mio::net::UnixListener;
use std::fs::{Permissions, remove_file, set_permissions, symlink_metadata};
use std::io;
use std::io::ErrorKind;
use std::net::Net;
use std::os::unix::fs::{FileTypeExt, PermissionsExt};
use std::os::unix::net::UnixStream;
use std::rt::Files;

// Whether a socket stands there on which nobody listens: who left it has ended.
fn is_left_behind<R: Files + Net>(rt: &R, path: &str) -> bool {
    match symlink_metadata(rt, path) {
        Ok(found) if found.file_type().is_socket() => match UnixStream::connect(rt, path) {
            Ok(_) => false,
            Err(error) => error.kind() == ErrorKind::ConnectionRefused,
        },
        _ => false,
    }
}

/// A listener at this path, whose file has this mode. A socket that was left behind there is replaced; where another process listens, or
/// something else has that name, an error comes and all stays as it is.
pub fn listen_at<R: Files + Net>(rt: &R, path: &str, mode: u32) -> io::Result<UnixListener> {
    if is_left_behind(rt, path) {
        remove_file(rt, path)?;
    }
    let listener = UnixListener::bind(rt, path)?;
    set_permissions(rt, path, Permissions::from_mode(mode))?;
    Ok(listener)
}
