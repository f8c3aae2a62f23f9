//! The tables of an open pool: its devices, how it stands, and what a walk finds.
//!
//! A list and a status say what the account says, and the lines of a mapping where the units of a removed device went. An
//! audit does not believe the account: it walks over all blocks that the pool leads to, as its open group has them, and
//! counts the units that they have.
#![tactic(auto)]

mod audits;
mod lists;
mod live;
mod live_units;
mod maps;
mod metadata;
mod stand;

pub use audits::audit;
pub use lists::list;
pub use live::live_addresses;
pub use live_units::live_units_are_led_to;
pub use maps::map_lines;
pub use metadata::metadata_addresses;
pub use stand::status;
