//! Which root is the newest of its pool on the disks.
//!
//! What an import takes for the current root it finds by what all slots show. While a pool is open nothing is looked for
//! again: units are written, and roots are put into the rings of its devices. So it is enough to know of the disks, from
//! one step to the next, that the pool's last root stands there above all others of that pool, and that its devices are
//! where their labels say. Whatever else the slots show, an import that finds a pool behind that finds this root.
#![tactic(auto)]

mod laws;

pub use laws::{
    a_slot_is_prepared, current_is_newest, later_is_above, newest_is_current, newest_stays,
    prepared_is_beside, prepared_joins, published_is_newest, same_devices_stay,
};
