//! How long a server is waited for, by what its pools say.

ghost use Rattle.std.specs.Prelude.{◌≡◌};
ghost use Rattle.serde_json.specs.View.{view};
ghost use Rattle.serve_proxy.specs.Limiting.{limit_or, own_limits, value_limits, limited_by};

use route_json::limits::{ServerLimits, limits_of};
use serde_json::Value;
use serve_links::{Link, LinkLimits};

// The limit that is said, or the usual one.
fn limit_or(usual: u64, said: Option<u32>) -> u64
    ensures { result ≡ limit_or usual said }
{
    match said {
        Some(limit) => u64::from(limit),
        None => usual,
    }
}

// The limits of a server whose pools say these: what they don't say is as usual.
fn own_limits(usual: LinkLimits, said: ServerLimits) -> LinkLimits
    ensures { result ≡ own_limits usual said }
{
    LinkLimits {
        call_ms: limit_or(usual.call_ms, said.call_ms),
        connect_ms: limit_or(usual.connect_ms, said.connect_ms),
        fail_limit: said.fail_limit.unwrap_or(usual.fail_limit),
        retry_ms: limit_or(usual.retry_ms, said.retry_ms),
        stores_wait: usual.stores_wait,
    }
}

// The link's server has the limits that the value of a configuration says of it, and the usual ones where it says none, from now on.
fn limit_link(link: &mut Link, usual: LinkLimits, said: &Value)
    ensures { link.new ≡ record link.old { limits = value_limits usual (view said.now) link.old.text.items } }
{
    let limits = own_limits(usual, limits_of(said, link.text.as_slice()));
    link.limit(limits);
}

/// The server of each of these links has the limits that the value of a configuration says of it, and the usual ones where it says none, from now on.
pub fn limit_links(links: &mut Vec<Link>, usual: LinkLimits, said: &Value)
    ensures { links.new.items ≡ limited_by (value_limits usual (view said.now)) links.old.items }
{
    for link in links.iter_mut() {
        limit_link(link, usual, said);
    }
}
