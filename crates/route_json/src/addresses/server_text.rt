//! Texts of servers: a name, and the weight that may follow it.

ghost use Rattle.std.specs.Prelude.{◌≡◌, ◌<◌, ◌≤◌, IfSome, option_map};
ghost use Rattle.std.specs.List.{list_any};
ghost use Rattle.route_json.specs.ServerTexts.{is_colon, is_without_colons, is_in_brackets, is_host, weighted_parts, weight_of, with_weight, server_in};

use crate::addresses::address::around_colon;
use crate::addresses::name::is_server_name;
use text_words::number::u32_number;

/// The greatest weight of a server.
pub const MAX_WEIGHT: u32 = 16;

fn has_colon(text: &[u8]) -> bool
    ensures { result ≡ list_any is_colon text.now }
{
    text.iter().any(|b| *b == b':')
}

fn is_without_colons(host: &str) -> bool
    ensures { result ≡ is_without_colons host.now }
{
    !host.is_empty() && !has_colon(host.as_bytes())
}

fn is_in_brackets(host: &str) -> bool
    ensures { result ≡ is_in_brackets host.now }
{
    host.starts_with("[") && host.ends_with("]")
}

fn is_host(host: &str) -> bool
    ensures { result ≡ is_host host.now }
{
    is_without_colons(host) || is_in_brackets(host)
}

// `H:P` and `W` of a text `H:P:W`.
fn weighted_parts(text: &str) -> Option<(&str, &str)>
    ensures { option_map (λ p. (p.0.now, p.1.now)) result ≡ weighted_parts text.now }
{
    let (address, weight) = around_colon(text)?;
    let (host, _) = around_colon(address)?;
    if is_host(host) {
        Some((address, weight))
    } else {
        None
    }
}

fn weight_of(digits: &[u8]) -> Option<u32>
    ensures weight { result ≡ weight_of digits.now }
    ensures within { IfSome result (λ w. (0 < w) × (w ≤ MAX_WEIGHT)) }
{
    if digits.len() > 2 {
        return None;
    }
    u32_number(digits).filter(|weight| 0 < *weight && *weight <= MAX_WEIGHT)
}

fn with_weight(name: &str, weight: Option<u32>) -> Option<(&str, u32)>
    requires { IfSome weight (λ w. (0 < w) × (w ≤ MAX_WEIGHT)) }
    ensures server { option_map (λ s. (s.0.now, s.1)) result ≡ with_weight name.now weight }
    ensures within { IfSome result (λ s. (0 < s.1) × (s.1 ≤ MAX_WEIGHT)) }
{
    match weight {
        Some(weight) if is_server_name(name) => Some((name, weight)),
        _ => None,
    }
}

/// The name and the weight that a server's text says, or none where it says no server.
///
/// In a text `H:P:W`, where `P` and `W` have no `:`, and `H` isn't empty and has no `:` or begins with `[` and ends with
/// `]`, the name is `H:P`, and `W` is a weight in 1..=[`MAX_WEIGHT`] of 1 or 2 digits. Every other text is a name of weight 1.
/// In a name `P` may end in an epoch, as [`is_server_name`] says.
///
/// Source: mcgate's own, in the form of twemproxy's `host:port:weight`.
pub fn read_server(text: &str) -> Option<(&str, u32)>
    ensures server { option_map (λ s. (s.0.now, s.1)) result ≡ server_in text.now }
    ensures within { IfSome result (λ s. (0 < s.1) × (s.1 ≤ MAX_WEIGHT)) }
{
    match weighted_parts(text) {
        Some((name, weight)) => with_weight(name, weight_of(weight.as_bytes())),
        None => with_weight(text, Some(1)),
    }
}
