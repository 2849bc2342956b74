//! Laws of the serving of a cache's connections that are proved for their own sake: no code calls one, and no proof of the
//! program cites one.
#![tactic(auto)]

pub mod connection_laws;
pub mod meta_laws;
