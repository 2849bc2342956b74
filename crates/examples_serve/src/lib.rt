//! Worked examples over TCP on 127.0.0.1: a proxy's end, cache servers' ends and a client, turned in one thread.
#![tactic(auto)]

#[cfg(test)]
mod caches;
#[cfg(test)]
mod dialects;
#[cfg(test)]
mod ends;
#[cfg(test)]
mod events;
#[cfg(test)]
mod fleets;
#[cfg(test)]
mod heard;
#[cfg(test)]
mod link_news;
#[cfg(test)]
mod loops;
#[cfg(test)]
mod names;
#[cfg(test)]
mod proxies;
#[cfg(test)]
mod rerun_wire;
#[cfg(test)]
mod scripts;
#[cfg(test)]
mod served;
#[cfg(test)]
mod watched;
