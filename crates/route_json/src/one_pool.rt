//! The configuration of one pool.

ghost use Rattle.std.specs.Prelude.{◌≡◌, ◌<◌, ◌≤◌, IfOk};
ghost use Rattle.route_json.specs.PoolConfiguration.{pool_configuration};
ghost use Rattle.route_tree.specs.declared.limits.TheConstants.{POOL_LIMIT};

use crate::addresses::Servers;
use crate::config::Config;
use route_tree::{Tree, TreeForm};
use std::alloc::{AllocError, Global};

impl Config {
    /// The configuration of one pool of so many servers, at least one and at most [`route_tree::POOL_LIMIT`]: its addresses are `s0:1`, `s1:1`
    /// and so on. So a script's line `pool N` is meant. The only error is running out of memory.
    pub fn of_pool(alloc: Global, servers: u32) -> Result<Config, AllocError>
        requires some { 0 < servers }
        requires few { servers ≤ POOL_LIMIT }
        ensures { IfOk result (λ config. config ≡ pool_configuration servers) }
    {
        let mut addresses = Servers::new(alloc);
        let mut pool = Vec::new(alloc);
        for number in 0..servers {
            let address = format!(in alloc; "s{number}:1")?;
            pool.push(addresses.push(alloc, &address)?)?;
        }
        let tree = Tree::new(alloc, TreeForm::Pool(pool))?;
        Ok(Config::new(tree, addresses))
    }
}
