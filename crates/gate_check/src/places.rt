//! The places of trees, as a table, and certificates: for each place the servers that reads take and deletes clear.

pub mod collecting;
pub mod laws;
pub mod lookup;
pub mod making;
pub mod multiples;
pub mod proposing;
pub mod rows;
pub mod table;
pub mod texts;

pub use making::{places, places_of_two};
pub use table::{Certificate, Class, ClassRows, PLACE_LIMIT, PlaceFault, PlaceTable, Run};
