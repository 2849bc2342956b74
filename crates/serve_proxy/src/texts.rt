//! The texts that name the addresses of servers.

ghost use Rattle.std.specs.Prelude.{◌≡◌, Some, None, IfSome, slice_get};
ghost use Rattle.route_json.specs.ServerNames.{epoch_is_over};
ghost use Rattle.serve_proxy.specs.Epochs.{share_address};

use mc_types::ServerId;
use route_json::addresses::{Servers, address_in};

/// The text of the server of this number, if there is one.
pub fn text_at(servers: &Servers, at: usize) -> Option<&str>
    ensures some { IfSome result (λ text. slice_get servers.now at ≡ Some text.now) }
    ensures none { result ≡ None → slice_get servers.now at ≡ None }
{
    if at >= servers.len() {
        return None;
    }
    servers.get(ServerId::new(at as u32))
}

/// Whether the epoch of the server of this number is over.
pub fn is_over(servers: &Servers, at: usize) -> bool
    ensures { result ≡ epoch_is_over servers.now at }
{
    if at >= servers.len() {
        return false;
    }
    servers.is_over(ServerId::new(at as u32))
}

/// Whether two servers have one address.
pub fn share_address(servers: &Servers, one: usize, other: usize) -> bool
    ensures { result ≡ share_address servers.now one other }
{
    match (text_at(servers, one), text_at(servers, other)) {
        (Some(one), Some(other)) => address_in(one) == address_in(other),
        _ => false,
    }
}
