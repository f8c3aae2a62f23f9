//! How the store in memory puts, gets and frees.
ghost use Rattle.std.specs.Prelude.{◌≡◌, ◌+◌, ◌*◌, ◌-◌, ◌/◌, ◌<◌, ◌≤◌, ◌||◌, List, [], ◌∷◌, ℕ, length, IfOk, IfSome, MatchOption, IsTrue, true, false, if◌then◌else◌};
ghost use Rattle.std.specs.List.{HoldsAt};
ghost use Rattle.zr_base.specs.Blocks.{is_block_size};
ghost use Rattle.zr_bptr.specs.Spelling.{SpellsTreeBlock};
ghost use Rattle.zr_bptr.specs.declared.Ptr.{Ptr};
ghost use Rattle.zr_store.specs.Store.{one_at, is_size};
ghost use Rattle.zr_store.specs.Memory.{bytes_at, is_kept, is_within, stored_of, IsHeld, account_of, held_once, held_resolved};

use crate::memory::{Kept, MemBlocks};
use crate::{Blocks, StoreErr};
use std::alloc::{AllocError, Global};
use zr_base::{Dva, NoMemory};
use zr_bptr::{Bptr, leaves_in, sum_of};

fn is_at(k: &Kept, at: &Dva) -> bool
    ensures { (if result then 1 else 0) ≡ one_at at.now k.now.at }
{
    at.dev == k.at.at.dev && (at.start == k.at.at.start && at.len == k.at.at.len)
}

fn find(kept: &[Kept], at: &Dva) -> Option<usize>
    ensures found { MatchOption result (is_kept at.now kept.now ≡ false) (λ i. i < length kept.now) }
    ensures there { IfSome result (λ i. HoldsAt (λ k. one_at at.now k.at ≡ 1) kept.now i) }
{
    for (i, k) in kept.iter().enumerate() {
        if is_at(k, at) {
            return Some(i);
        }
    }
    None
}

fn units_of(size: usize) -> u32
    requires { is_size size ≡ true }
    ensures length { IsTrue (is_block_size result) }
    ensures units { 4096 * result ≡ size }
    ensures some { 0 < result }
    ensures small { result ≤ 32 }
{
    (size / 4096) as u32
}

// The leaves of a block: one of a leaf.
fn leaves_of_bytes(alloc: Global, bytes: &[u8], level: u8) -> Result<u64, NoMemory>
    requires size { 0 < level → length bytes.now ≡ 4096 }
    ensures leaf { level ≡ 0 → IfOk result (λ leaves. leaves ≡ 1) }
    ensures leaves { IfOk result (λ leaves. (fill : ℕ) (pointers : List Ptr) → 0 < level → SpellsTreeBlock bytes.now (level - 1) fill pointers → leaves ≡ fill) }
{
    if level == 0 {
        return Ok(1);
    }
    let leaves = leaves_in(alloc, level - 1, bytes)?;
    Ok(leaves)
}

// Whether the address lies within the one device.
fn resolves(at: &Dva, units: u32) -> bool
    ensures { result ≡ is_within units at.now }
{
    let units = units as u64;
    let len = at.len as u64;
    at.dev == 0 && len <= units && at.start <= units - len
}

// The bytes at the address, none where no block is kept there.
fn copy_at(alloc: Global, kept: &[Kept], b: &Bptr) -> Result<Vec<u8>, AllocError>
    ensures { IfOk result (λ bytes. bytes.items ≡ bytes_at kept.now b.now) }
{
    for k in kept.iter() {
        if is_at(k, &b.at) {
            return Vec::from_slice(alloc, k.bytes.as_slice());
        }
    }
    Ok(Vec::new(alloc))
}

impl MemBlocks {
    /// A store of so many units that holds no block.
    pub fn new(alloc: Global, units: u32) -> Self
        ensures holds { IsHeld result.units result.next result.kept.items (stored_of []) }
        ensures empty { result.kept.items ≡ [] }
        ensures units { result.units ≡ units }
        ensures unused { result.next ≡ 0 }
    {
        MemBlocks {
            kept: Vec::new(alloc),
            next: 0,
            units,
        }
    }
}

impl Blocks for MemBlocks {
    ghost account = { λ m. account_of m.units m.next m.kept.items };

    ghost holds = { λ m s. IsHeld m.units m.next m.kept.items s };

    ghost follows = { λ start now. now.units ≡ start.units };

    ghost adds = { λ start now. now.units ≡ start.units };

    ghost once = { λ m s held. held_once m.units m.next m.kept.items s held };

    ghost resolved = { λ m s held. held_resolved m.units m.next m.kept.items s held };

    fn put(&mut self, alloc: Global, bytes: &[u8], level: u8) -> Result<Bptr, StoreErr> {
        let len = units_of(bytes.len());
        let rest = self.units.saturating_sub(self.next);
        if len > rest {
            return Err(StoreErr::NoRun {
                needed: len as u64,
                longest: rest as u64,
            });
        }
        let fill = leaves_of_bytes(alloc, bytes, level)?;
        let copy = Vec::from_slice(alloc, bytes)?;
        let b = Bptr {
            at: Dva {
                dev: 0,
                start: self.next as u64,
                len,
            },
            level,
            birth: 1,
            fill,
            sum: sum_of(bytes),
        };
        self.kept.push(Kept { at: b, bytes: copy })?;
        self.next += len;
        Ok(b)
    }

    fn get(&mut self, alloc: Global, b: &Bptr) -> Result<Vec<u8>, StoreErr> {
        if !resolves(&b.at, self.units) {
            return Err(StoreErr::Unresolved {
                at: b.at,
                expected: b.sum,
            });
        }
        let bytes = copy_at(alloc, self.kept.as_slice(), b)?;
        let found = sum_of(bytes.as_slice());
        if found != b.sum {
            return Err(StoreErr::Damaged {
                at: b.at,
                expected: b.sum,
                found,
            });
        }
        Ok(bytes)
    }

    fn free(&mut self, _alloc: Global, b: &Bptr) -> Result<(), StoreErr> {
        if let Some(i) = find(self.kept.as_slice(), &b.at) {
            let _ = self.kept.remove(i);
        }
        Ok(())
    }
}
