//! The row of a device in the table of an open pool.
ghost use Rattle.std.specs.Prelude.{◌≡◌, ◌<◌, ◌↔◌, IsTrue};
ghost use Rattle.zr_removal.specs.Rows.{ArePast, with_row, without_slot};

use zr_base::DevRow;
use zr_sync::Table;

/// Gives a device another row.
pub fn set_row(table: &mut Table, dev: u32, row: DevRow)
    requires { dev < 32 }
    ensures { table.new ≡ with_row table.old dev row }
{
    table.rows[dev as usize] = row;
}

/// A device has no disk any more.
pub fn forget_slot(table: &mut Table, dev: u32)
    requires { dev < 32 }
    ensures { table.new ≡ without_slot table.old dev }
{
    table.slots[dev as usize] = None;
}

/// Whether each of these devices came before this group, and went before it if it is gone.
pub fn are_past(rows: &[DevRow], txg: u64) -> bool
    ensures { IsTrue result ↔ ArePast txg rows.now }
{
    let mut rest = rows;
    while let Some((first, tail)) = rest.split_first() {
        if first.added >= txg || first.gone >= txg {
            return false;
        }
        rest = tail;
    }
    true
}
