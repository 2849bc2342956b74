//! Why a text is no address where one can listen.

use std::fmt;
use std::fmt::Display;
use text_words::escapes::Escaped;
use text_words::number::u32_number;

/// What is wrong with the text of an address.
#[derive(Clone, Copy)]
pub enum AddressTrouble<'a> {
    /// No colon stands in it.
    NoPort,
    /// What stands before the last colon is empty.
    NoHost,
    /// What stands after the last colon isn't a number of 1 to 5 digits.
    NoNumber(&'a str),
    /// The port is above 65535.
    TooHigh(u32),
    /// The host has colons and no brackets.
    NoBrackets(&'a str),
    /// What stands behind `unix:` is no path from the root on, or one that is too long.
    NoPath(&'a str),
}

// What is wrong with the text of a port.
fn port_trouble(text: &str) -> Option<AddressTrouble<'_>> {
    match u32_number(text.as_bytes()) {
        Some(number) if number > 65_535 => Some(AddressTrouble::TooHigh(number)),
        Some(_) if text.len() <= 5 => None,
        _ => Some(AddressTrouble::NoNumber(text)),
    }
}

fn host_trouble(host: &str) -> Option<AddressTrouble<'_>> {
    if host.is_empty() {
        Some(AddressTrouble::NoHost)
    } else if host.split_once(':').is_some() && !host.starts_with("[") {
        Some(AddressTrouble::NoBrackets(host))
    } else {
        None
    }
}

// What is wrong with a path behind `unix:`.
fn path_trouble(path: &str) -> Option<AddressTrouble<'_>> {
    if path.starts_with("/") && path.len() > 1 && path.len() <= 107 {
        None
    } else {
        Some(AddressTrouble::NoPath(path))
    }
}

/// What is wrong with the form of an address, `HOST:PORT` or `unix:PATH`; `None` where its form is right, and then the system knows no
/// such host, or refuses the address for a cause of its own.
pub fn address_trouble(text: &str) -> Option<AddressTrouble<'_>> {
    match text.rsplit_once(':') {
        None => Some(AddressTrouble::NoPort),
        Some((host, path)) if host == "unix" => path_trouble(path),
        Some((host, port)) => match port_trouble(port) {
            Some(trouble) => Some(trouble),
            None => host_trouble(host),
        },
    }
}

impl Display for AddressTrouble<'_> {
    fn fmt<W: fmt::Write>(&self, f: &mut fmt::Formatter<W>) -> fmt::Result {
        match self {
            AddressTrouble::NoPort => f.write_str("no port: expected HOST:PORT"),
            AddressTrouble::NoHost => f.write_str("no host: expected HOST:PORT"),
            AddressTrouble::NoNumber(text) => {
                write!(
                    f,
                    "{} is no port: expected 0 to 65535",
                    Escaped(text.as_bytes())
                )
            }
            AddressTrouble::TooHigh(number) => { write!(f, "port {number} is above 65535") }
            AddressTrouble::NoBrackets(host) => {
                write!(
                    f,
                    "a host with colons stands in brackets: [{}]",
                    Escaped(host.as_bytes())
                )
            }
            AddressTrouble::NoPath(path) => {
                write!(
                    f,
                    "{} is no path: expected / and more behind unix:, at most 107 bytes",
                    Escaped(path.as_bytes())
                )
            }
        }
    }
}
