//! Names of servers: an address, and the epoch that may follow it.

ghost use Rattle.std.specs.Prelude.{◌≡◌, option_map};
ghost use Rattle.route_json.specs.NumberedServers.{texts};
ghost use Rattle.route_json.specs.Addresses.{around};
ghost use Rattle.route_json.specs.ServerNames.{address_in, has_epoch, have_epochs, is_epoch, is_named, is_server_name};

use crate::addresses::address::is_address;
use text_words::number::u32_number;

fn around_epoch(name: &str) -> Option<(&str, &str)>
    ensures { option_map (λ p. (p.0.now, p.1.now)) result ≡ around 35 name.now }
{
    name.rsplit_once('#')
}

fn is_epoch(digits: &str) -> bool
    ensures { result ≡ is_epoch digits.now }
{
    digits.len() <= 9 && !digits.starts_with("0") && u32_number(digits.as_bytes()).is_some()
}

/// The address in a server's name: what stands before `#` and an epoch, which is a number of 1 to 9 digits that doesn't
/// begin with 0; or all of it.
///
/// Source: mcgate's own.
pub fn address_in(name: &str) -> &str
    ensures { result.now ≡ address_in name.now }
{
    match around_epoch(name) {
        Some((address, epoch)) if is_epoch(epoch) => address,
        _ => name,
    }
}

/// Whether the text is the name of a server: an address, behind which `#` and an epoch may stand. A server that was
/// emptied on purpose is another one: it keeps its address and takes another epoch.
///
/// Source: mcgate's own.
pub fn is_server_name(text: &str) -> bool
    ensures { result ≡ is_server_name text.now }
{
    is_address(address_in(text))
}

/// Whether one of these names has the address.
pub(crate) fn is_named(address: &str, names: &[String]) -> bool
    ensures { result ≡ is_named address.now (texts names.now) }
{
    for name in names {
        if address == address_in(name.as_str()) {
            return true;
        }
    }
    false
}

// Whether the name has an epoch.
fn has_epoch(name: &str) -> bool
    ensures { result ≡ has_epoch name.now }
{
    match around_epoch(name) {
        Some((_, epoch)) => is_epoch(epoch),
        None => false,
    }
}

/// Whether one of these names has one.
pub(crate) fn are_some_in_epochs(names: &[String]) -> bool
    ensures { result ≡ have_epochs (texts names.now) }
{
    for name in names {
        if has_epoch(name.as_str()) {
            return true;
        }
    }
    false
}
