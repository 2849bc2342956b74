//! The gate's verdict on the configurations of a fleet: by each of them proxies run at the same time.

pub mod arguments;
pub mod checking;

pub use arguments::FleetJob;
pub use checking::{FleetEnd, run_fleet};
