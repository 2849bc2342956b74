//! One connection of a memcached cache server: what a client sends, in any pieces, is answered by a cache.

mod reply;
mod serve;
pub mod served;
pub mod uses;

pub use cache_server::Cache;
pub use served::Served;
