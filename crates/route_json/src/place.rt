//! Where routes stand: how deep they may be nested, how often each counts, and how many were counted.

ghost use Rattle.route_tree.specs.declared.limits.TheConstants.{ROUTE_LIMIT, DEPTH_LIMIT};
ghost use Rattle.std.specs.Prelude.{◌≡◌, ◌+◌, ◌*◌, ◌<◌, ◌≤◌, IfOk};
ghost use Rattle.route_json.specs.Fault.{GivesReading};
ghost use Rattle.route_json.specs.Routes.{counts_route};

use crate::fault::ConfigFault;
use route_tree::ROUTE_LIMIT;

/// How many routes were counted, each with its weight: at most [`ROUTE_LIMIT`].
#[derive(Drop)]
pub struct RouteCount {
    pub routes: u32,
    ghost few: { routes ≤ ROUTE_LIMIT },
}

/// Where a route is read: how many levels it may have, itself counted, and how often it counts.
#[derive(Clone, Copy)]
pub struct RoutePlace {
    pub levels: u32,
    pub weight: u32,
    ghost shallow: { levels ≤ DEPTH_LIMIT },
    ghost weighs: { 0 < weight },
    ghost light: { weight ≤ 3 * ROUTE_LIMIT },
}

/// What may stand below a route that was counted: so many levels, and its children count so often, a cold one aside.
#[derive(Clone, Copy)]
pub struct Below {
    pub levels: u32,
    pub weight: u32,
    ghost shallow: { levels < DEPTH_LIMIT },
    ghost weighs: { 0 < weight },
    ghost light: { weight ≤ ROUTE_LIMIT },
}

impl RouteCount {
    /// Counts one route more; `TooManyNodes` above [`ROUTE_LIMIT`].
    pub fn add(&mut self, weight: u32) -> Result<(), ConfigFault>
        ensures gives { GivesReading (λ u. (u, self.new.routes)) result (counts_route weight self.old.routes) }
        ensures more { IfOk result (λ _. self.new.routes ≡ self.old.routes + weight) }
    {
        if weight > ROUTE_LIMIT - self.routes {
            return Err(ConfigFault::TooManyNodes);
        }
        self.routes += weight;
        Ok(())
    }
}
