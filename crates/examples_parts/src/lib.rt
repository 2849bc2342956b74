//! Worked examples of what a proxy's end and a server's end stand on. Of the proxy's core: its clients, what `poll` answers, results of
//! calls, calls that are answered at once, and a core on accepted configurations. Of servers: what a run's item holds, the table of a
//! server's operations, row by row, its connections, and the servers of scripts. They stand above the crates that they show, so that a
//! change of an example proves the example alone.
#![tactic(auto)]

#[cfg(test)]
mod agree;
#[cfg(test)]
mod answering;
#[cfg(test)]
mod at_once;
#[cfg(test)]
mod cache_connections;
#[cfg(test)]
mod cache_turns;
mod calls;
#[cfg(test)]
mod clients;
#[cfg(test)]
mod far_ends;
#[cfg(test)]
mod fresh_cores;
#[cfg(test)]
mod held_items;
#[cfg(test)]
mod holding;
mod marks;
#[cfg(test)]
mod polls;
#[cfg(test)]
mod reading;
#[cfg(test)]
mod results;
#[cfg(test)]
mod slow_clients;
#[cfg(test)]
mod stage;
#[cfg(test)]
mod stepped_calls;
#[cfg(test)]
mod table;
