//! Roots of a version that this program does not know.
//!
//! Of such a root only the mark, the version, the group and the pool are understood. It is not read as a root, but a
//! pool whose newest root is of such a version must not be taken for older than it is.
ghost use Rattle.std.specs.Prelude.{◌≡◌, ◌++◌, ◌∷◌, [], codes};
ghost use Rattle.zr_base.specs.Readers.{Reads};
ghost use Rattle.zr_base.specs.Words.{words};
ghost use Rattle.zr_label.specs.Blocks.{SpellsNewer};

use crate::root::Newer;
use byteorder::{ByteOrder, LittleEndian};
use zr_bptr::{sum_of, word_at};

/// The bytes with which a root begins.
fn front(version: u64, txg: u64, guid: u64) -> [u8; 32]
    ensures { result ≡ codes "zr-uber1" ++ words (version ∷ txg ∷ guid ∷ []) }
{
    let mut bytes = [0; 32];
    bytes[..8].copy_from_slice(b"zr-uber1");
    LittleEndian::write_u64_into(&[version, txg, guid], &mut bytes[8..]);
    bytes
}

/// The version and the group of a root of the pool whose version is neither 1 nor 2, None exactly where the block is no
/// such root. It takes no memory, and computes a sum only where the block begins as such a root.
pub fn newer_of(block: &[u8; 4096], guid: u64) -> Option<Newer>
    ensures { Reads (λ n. SpellsNewer block.now guid n.version n.txg) result }
{
    let version = word_at(block, 8);
    let txg = word_at(block, 16);
    if version == 1 {
        return None;
    }
    if version == 2 {
        return None;
    }
    let begin = front(version, txg, guid);
    if begin[..] != block[..32] {
        return None;
    }
    let sum = sum_of(&block[..4064]);
    if sum[..] != block[4064..] {
        return None;
    }
    Some(Newer { version, txg })
}
