//! Addresses of servers: a host and a port, or a path.

ghost use Rattle.std.specs.Prelude.{◌≡◌, option_map};
ghost use Rattle.std.specs.List.{list_all};
ghost use Rattle.route_json.specs.Addresses.{is_printable, around_colon, is_host_and_port, is_path, is_port, is_address};

use text_words::number::u32_number;

/// What stands before the last colon and what stands after it, where there is a colon.
pub(crate) fn around_colon(text: &str) -> Option<(&str, &str)>
    ensures { option_map (λ p. (p.0.now, p.1.now)) result ≡ around_colon text.now }
{
    text.rsplit_once(':')
}

fn is_printable_text(text: &[u8]) -> bool
    ensures { result ≡ list_all is_printable text.now }
{
    text.iter().all(|b| 32 < *b && *b < 127)
}

fn is_port(digits: &[u8]) -> bool
    ensures { result ≡ is_port digits.now }
{
    if digits.len() > 5 {
        return false;
    }
    match u32_number(digits) {
        Some(number) => 0 < number && number < 65536,
        None => false,
    }
}

fn has_port(text: &str) -> bool
    ensures { result ≡ is_host_and_port (around_colon text.now) }
{
    match around_colon(text) {
        Some((host, digits)) => !host.is_empty() && is_port(digits.as_bytes()),
        None => false,
    }
}

fn has_path(text: &str) -> bool
    ensures { result ≡ is_path (around_colon text.now) }
{
    match around_colon(text) {
        Some((host, path)) => {
            host == "unix" && path.starts_with("/") && 1 < path.len() && path.len() <= 107
        }
        None => false,
    }
}

/// Whether the text is an address: 3 to 255 bytes, each 33..=126, whose last `:` has something before it and a port in
/// 1..=65535 of 1 to 5 digits after it; or `unix` before it, and after it a path that begins with `/`, of 2 to 107 bytes: a
/// socket of this machine, as unix(7) says.
///
/// Source: mcgate's own.
pub fn is_address(text: &str) -> bool
    ensures { result ≡ is_address text.now }
{
    let is_short = 3 <= text.len() && text.len() <= 255;
    is_short && is_printable_text(text.as_bytes()) && (has_port(text) || has_path(text))
}
