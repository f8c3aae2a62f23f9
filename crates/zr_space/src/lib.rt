//! The space core: one account of every unit of every device.
//!
//! It knows what each unit is used for, without a device in sight: all allocations and frees are decided here. Each
//! unit has one role, and an event is a map of roles (zr_rules). What is free stands with the allocator, what is used
//! in the sets of each device, and the two add up to the device's units at every moment.
#![tactic(auto)]

mod ckpt;
mod condense;
mod copy;
mod copying;
mod device;
mod each;
mod free;
mod freeable;
mod images;
mod laws;
mod leave;
mod live;
mod moves;
mod open;
mod reads;
mod records;
mod remap;
mod removal;
mod resume;
mod room;
mod saved;
mod service;
mod space;
mod upgrade;
mod visits;
mod whole;

pub use copy::Plan;
pub use copying::Copying;
pub use laws::plan_and_entry;
pub use records::SetKind;
pub use space::{Space, SpaceErr};
pub use whole::Whole;
pub use zr_units::FreedSets;
