//! An object in memory.
//!
//! Only bytes that are not 0 are kept, in a map by offset. So a byte is found in the logarithm of the bytes stored.
ghost use Rattle.std.specs.Prelude.{◌≡◌, ◌+◌, ◌^◌, ◌<◌, ◌≤◌, IsTrue, IfOk, OnOk, length};
ghost use Rattle.std.specs.FinMap as map;
ghost use Rattle.zr_model.specs.Objects.{blank, byte_at, bytes_at, put_byte, put_bytes, with_bytes, is_within};

use std::alloc::Global;
use std::collections::BTreeMap;
use std::marker::Model;
use zr_base::{NoMemory, UNIT};

/// The most blocks of an object.
const MAX_BLOCKS: u64 = 1 << 25;

/// An object: how many units a block has, and its bytes that are not 0, by offset.
#[derive(Drop)]
pub struct StoredObject {
    units: u64,
    stored: BTreeMap<u64, u8>,
}

impl Model for StoredObject {
    ghost use Rattle.std.specs.Prelude.{◌≤◌};
    ghost use Rattle.std.specs.FinMap as map;
    ghost use Rattle.std.specs.FinSet as set;
    ghost use Rattle.zr_model.specs.Objects.{Object, object_code};

    ghost Value = { Object };

    ghost coded = { object_code };

    ghost view = { λ o. record { units = o.units; bytes = map.from_entries o.stored.entries; lost = set.empty } };

    ghost invariant = { λ o. o.units ≤ 32 };
}

impl StoredObject {
    pub fn new(alloc: Global, units: u64) -> StoredObject
        requires { units ≤ 32 }
        ensures { result ≡ blank units }
    {
        StoredObject {
            units,
            stored: BTreeMap::new(alloc),
        }
    }

    /// Whether the range is within the object's blocks, and not empty.
    pub fn covers(&self, off: u64, len: u64) -> bool
        ensures within { result ≡ is_within self.now.units off len }
        ensures fits { IsTrue result → off + len < 2 ^ 64 }
    {
        let size = MAX_BLOCKS * (UNIT * self.units);
        len > 0 && off <= size && len <= size - off
    }

    #[tactic(auto, using(crate::proofs::Maps::none_lost))]
    /// Puts bytes at an offset. Where memory runs out, some of them may have been put.
    pub fn write(&mut self, off: u64, bytes: &[u8]) -> Result<(), NoMemory>
        requires { off + length bytes.now < 2 ^ 64 }
        ensures { OnOk result (self.new ≡ with_bytes self.old off bytes.now) }
    {
        put_all(&mut self.stored, off, bytes)
    }

    fn byte(&self, at: u64) -> u8
        ensures { result ≡ byte_at self.now.bytes at }
    {
        self.stored.get(&at).copied().unwrap_or(0)
    }

    /// The bytes of a range. Its cost is their number times the logarithm of the bytes stored.
    pub fn read(&self, alloc: Global, off: u64, len: u64) -> Result<Vec<u8>, NoMemory>
        requires { off + len < 2 ^ 64 }
        ensures { IfOk result (λ bytes. bytes.items ≡ bytes_at self.now.bytes off len) }
    {
        let bytes = (off..off + len).map(|at| self.byte(at)).collect(alloc)?;
        Ok(bytes)
    }
}

fn put(stored: &mut BTreeMap<u64, u8>, at: u64, byte: u8) -> Result<(), NoMemory>
    ensures { OnOk result (map.from_entries stored.new.entries ≡ put_byte (map.from_entries stored.old.entries) at byte) }
{
    if byte == 0 {
        stored.remove(&at);
    } else {
        stored.insert(at, byte)?;
    }
    Ok(())
}

fn put_all(stored: &mut BTreeMap<u64, u8>, off: u64, bytes: &[u8]) -> Result<(), NoMemory>
    requires { off + length bytes.now < 2 ^ 64 }
    ensures { OnOk result (map.from_entries stored.new.entries ≡ put_bytes (map.from_entries stored.old.entries) off bytes.now) }
{
    let mut at = off;
    for byte in bytes {
        put(stored, at, *byte)?;
        at += 1;
    }
    Ok(())
}
