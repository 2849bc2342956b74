//! Whether refusal runs leak: some hundred configurations are judged, and the run of each refused one is driven.

mod driving;
mod growing;

pub use driving::{DrivenCounts, drive_all};
