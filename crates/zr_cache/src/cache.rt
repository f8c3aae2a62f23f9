//! The calls of a cache.
ghost use Rattle.std.specs.Prelude.{◌≡◌, ◌<◌, [], List, ℕ, filter, not, true, IfOk, OnOk, OnErr, IfSome, option_map, find};
ghost use Rattle.std.specs.List.{list_any};
ghost use Rattle.std.specs.Map.{remove_entry};
ghost use Rattle.lru.specs.LruCache.{promoted};
ghost use Rattle.zr_cache.specs.Sums.{Entry};
ghost use Rattle.sha2.specs.Sha256.{sha256};
ghost use Rattle.zr_cache.specs.Entries.{entries, capacity, AreDistinct, is_key, is_recent, bytes_in, with_entry, meets, is_in};

use crate::entry::{Block, Key};
use crate::table::Cache;
use lru::LruCache;
use std::alloc::{AllocError, Global};
use std::num::NonZeroUsize;
use zr_base::NoMemory;
use zr_bptr::Bptr;
use zr_imap::Piece;

// Whether two runs have a unit in common. An empty run counts as its first unit would.
fn meets(p: &Piece, q: &Piece) -> bool
    ensures { result ≡ meets p.now q.now }
{
    if p.dev != q.dev {
        return false;
    }
    if p.at.start <= q.at.start {
        return q.at.start - p.at.start < p.at.len;
    }
    p.at.start - q.at.start < q.at.len
}

fn has_unit_of(block: &Block, run: &Piece) -> bool
    ensures { result ≡ list_any (meets run.now) block.now.runs.items }
{
    block.runs.iter().any(|p| meets(run, p))
}

impl Cache {
    /// An empty cache of so many blocks.
    pub fn new(alloc: Global, blocks: usize) -> Result<Cache, NoMemory>
        requires { 0 < blocks }
        ensures empty { IfOk result (λ cache. entries cache ≡ []) }
        ensures capacity { IfOk result (λ cache. capacity cache ≡ blocks) }
    {
        let Some(capacity) = NonZeroUsize::new(blocks) else {
            unreachable!()
        };
        let blocks = LruCache::new(alloc, capacity)?;
        Ok(Cache { blocks })
    }

    /// A copy of the bytes of a pointer that is cached. Its entry becomes the most recent one.
    pub fn get(&mut self, alloc: Global, b: &Bptr) -> Result<Option<Vec<u8>>, NoMemory>
        ensures bytes { IfOk result (λ found. option_map (λ v. v.items) found ≡ bytes_in self.old b.now) }
        ensures sum { IfOk result (λ found. IfSome found (λ v. sha256 v.items ≡ b.now.sum)) }
        ensures order { entries self.new ≡ promoted (is_key b.now) (entries self.old) }
        ensures recent { IfOk result (λ found. IfSome found (λ v. is_recent self.new b.now ≡ true)) }
        ensures room { capacity self.new ≡ capacity self.old }
    {
        let key = Key { pointer: *b };
        match self.blocks.get(&key) {
            Some(block) => Ok(Some(Vec::from_slice(alloc, block.bytes.as_slice())?)),
            None => Ok(None),
        }
    }

    /// Caches the bytes of a pointer, which have its sum, and the runs to which its address leads. Its entry becomes the most recent one.
    pub fn put(&mut self, b: &Bptr, bytes: Vec<u8>, runs: Vec<Piece>) -> Result<(), NoMemory>
        requires { sha256 bytes.items ≡ b.now.sum }
        ensures entries { OnOk result (entries self.new ≡ with_entry self.old b.now (record { bytes = bytes; runs = runs })) }
        ensures recent { OnOk result (is_recent self.new b.now ≡ true) }
        ensures room { capacity self.new ≡ capacity self.old }
        ensures err { OnErr result (self.new ≡ self.old) }
    {
        self.blocks.put(Key { pointer: *b }, Block { bytes, runs })?;
        Ok(())
    }

    /// Takes a pointer out, if it is cached.
    pub fn forget(&mut self, b: &Bptr)
        ensures entries { entries self.new ≡ remove_entry (is_key b.now) (entries self.old) }
        ensures room { capacity self.new ≡ capacity self.old }
    {
        self.blocks.pop(&Key { pointer: *b });
    }

    /// Takes out each entry that has a unit of the run. It goes over all entries, once more than it takes out.
    pub fn forget_run(&mut self, run: &Piece)
        ensures entries { entries self.new ≡ filter (λ e. not (is_in run.now e)) (entries self.old) }
        ensures room { capacity self.new ≡ capacity self.old }
    {
        while let Some(key) = self.key_in(run) {
            self.forget(&key.pointer);
        }
    }

    /// Takes all entries out.
    pub fn clear(&mut self)
        ensures entries { entries self.new ≡ [] }
        ensures room { capacity self.new ≡ capacity self.old }
    {
        self.blocks.clear();
    }

    // The most recent pointer with a unit of the run. No pointer is cached twice.
    fn key_in(&self, run: &Piece) -> Option<Key>
        ensures first { result ≡ option_map (λ (e : Entry). e.0) (find (is_in run.now) (entries self.now)) }
        ensures distinct { AreDistinct self.now }
    {
        let _blocks = self.blocks.len();
        for (key, block) in self.blocks.iter() {
            if has_unit_of(block, run) {
                return Some(*key);
            }
        }
        None
    }
}
