//! What a line adds to the counts from which the room is computed.
ghost use Rattle.std.specs.Prelude.{◌≡◌, ◌+◌, ◌*◌, ◌^◌, ◌≤◌, All, length};
ghost use Rattle.zr_bptr.specs.Spelling.{IsPointer};
ghost use Rattle.zr_rules.specs.Equation.{devices_in};
ghost use Rattle.zr_lines.specs.Counts.{new_object, pieces_in};

use zr_bptr::Bptr;
use zr_sync::OpenPool;

/// How many more changed objects the open group has after a change of this one: 1 where it has not changed it yet, and else
/// none. Logarithmic in the objects of the group.
pub fn new_objects(pool: &OpenPool, id: u32) -> u64
    ensures new { result ≡ new_object pool.now.group id }
    ensures few { result ≤ 1 }
{
    u64::from(pool.group.object(id).is_none())
}

/// How many pieces a free of these blocks touches, wherever they lead: of a block that is where its pointer says it is one.
/// It costs what `Space::touch` does for each block.
pub fn pieces_of(pool: &OpenPool, blocks: &[Bptr]) -> u64
    requires lawful { All IsPointer blocks.now }
    requires count { length blocks.now ≤ 2 ^ 25 + 2 ^ 21 }
    ensures pieces { result ≡ pieces_in (devices_in pool.now.space) blocks.now }
    ensures few { result ≤ 1056 * length blocks.now }
{
    let mut pieces = 0;
    for b in blocks {
        pieces += pool.space.touch(b.at);
    }
    pieces
}
