//! The store of blocks on a shelf.
//!
//! A block is stored where its units are in use. What stands in free units is nothing: a pointer to them reads no bytes,
//! so a put that fails half way changes nothing that can be read. It gives back the units that it took. Where memory runs
//! out before that they are noted as lost, nothing is read there either, and the next put gives them back.
ghost use Rattle.std.specs.Prelude.{◌≡◌, ◌≤◌, ◌↔◌, true, false, IsTrue, OnOk, OnErr, IfOk};
ghost use Rattle.std.specs.List.{list_any};
ghost use Rattle.std.specs.Map.{remove_entry};
ghost use Rattle.zr_cache.specs.Entries.{capacity, entries, is_key};
ghost use Rattle.zr_rules.specs.Equation.{devices_in};
ghost use Rattle.zr_rules.specs.Resolve.{is_resolved};
ghost use Rattle.zr_vdev.specs.Mounts.{AreMounted, HaveDisks};
ghost use Rattle.zr_vdev.specs.Puts.{GivesBack};
ghost use Rattle.zr_vdev.specs.Runs.{account_of};
ghost use Rattle.zr_vdev.specs.Stores.{IsInUse, IsApart, IsStoredAt, HoldsBlocks, Continues, GivesBackLost, GivesNothing, shares};

use crate::cached::{free_block, get_block, put_block};
use crate::kind::{Kind, Mount, Place};
use crate::nothing::read_nothing;
use std::alloc::Global;
use zr_base::{Dva, NoMemory};
use zr_bptr::Bptr;
use zr_cache::Cache;
use zr_chain::{ChainErr, Collected, Visited};
use zr_shelf::Shelf;
use zr_space::Space;
use zr_store::{Blocks, StoreErr};

/// A store of the blocks of one kind on a shelf. A block is where its address leads, over devices that are gone or not, and
/// a free goes that way too. A put that fails gives back what it took. `lost` is the address whose units the last put took
/// and could not write, if memory ran out before it gave them back: they stay taken until the next put does so.
#[derive(Drop)]
pub struct Vdev<'a, S: Shelf, P: Place> {
    pub space: &'a mut Space,
    pub shelf: &'a mut S,
    pub cache: &'a mut Cache,
    pub lost: Option<Dva>,
    pub mount: Mount<'a, P>,
    ghost mounted: { HaveDisks (S.sizes shelf.now) mount.slots.now (devices_in space.now) },
    ghost group: { 1 ≤ mount.txg },
}

// Whether a part is there and has a unit of the address.
fn shares(a: &Dva, v: Visited) -> bool
    ensures { result ≡ shares a.now v }
{
    let Visited::Piece { dev, at, .. } = v else {
        return false;
    };
    let first = a.start.max(at.start);
    a.dev == dev && first - a.start < u64::from(a.len) && first - at.start < at.len
}

// Whether a part that is there has a unit of the address. It looks at each part.
fn meets_any(visits: &[Visited], a: &Dva) -> bool
    ensures { result ≡ list_any (shares a.now) visits.now }
{
    visits.iter().any(|v| shares(a, *v))
}

// Whether the address leads to no unit of the other one. Where there is one it visits the parts of the address.
fn is_apart(alloc: Global, space: &Space, lost: Option<Dva>, at: &Dva) -> Result<bool, NoMemory>
    requires { is_resolved (devices_in space.now) at.now ≡ true }
    ensures { IfOk result (λ answer. IsTrue answer ↔ IsApart (devices_in space.now) lost at.now) }
{
    let Some(taken) = lost else {
        return Ok(true);
    };
    let mut told = Collected::new(alloc);
    match space.remap(*at, &mut told) {
        Ok(()) => {
            let met = meets_any(told.list.as_slice(), &taken);
            Ok(!met)
        }
        Err(ChainErr::NoEntry { .. }) => unreachable!(),
        Err(ChainErr::NoMemory) => Err(NoMemory),
    }
}

// Whether the address may be given back by what is of the kind.
fn is_in_use(space: &Space, kind: Kind, at: &Dva) -> Result<bool, NoMemory>
    ensures { IfOk result (λ answer. IsTrue answer ↔ IsInUse kind space.now at.now) }
{
    match kind {
        Kind::Block => space.is_freeable(*at),
        Kind::Meta => Ok(space.is_meta(*at)),
    }
}

/// Gives back what is in use.
pub(crate) fn give_back(space: &mut Space, kind: Kind, at: Dva, birth: u64) -> Result<(), NoMemory>
    requires { IsInUse kind space.old at }
    ensures ok { OnOk result (GivesBack kind space.old space.new at birth) }
    ensures devices { devices_in space.new ≡ devices_in space.old }
    ensures err { OnErr result (space.new ≡ space.old) }
{
    match kind {
        Kind::Block => space.free(at, birth),
        Kind::Meta => space.drop_meta(at),
    }
}

// Gives back the units that a put took for nothing.
fn give_back_lost(
    space: &mut Space,
    kind: Kind,
    lost: Option<Dva>,
    txg: u64,
) -> Result<(), NoMemory>
    ensures ok { OnOk result (GivesBackLost kind space.old space.new lost txg) }
    ensures devices { devices_in space.new ≡ devices_in space.old }
    ensures err { OnErr result (space.new ≡ space.old) }
{
    let Some(at) = lost else {
        return Ok(());
    };
    let used = is_in_use(space, kind, &at)?;
    if used {
        return give_back(space, kind, at, txg);
    }
    Ok(())
}

impl<'a, S: Shelf, P: Place> Vdev<'a, S, P> {
    /// The store over a space, a shelf and a cache, which are given back with its end.
    pub fn new(
        space: &'a mut Space,
        shelf: &'a mut S,
        cache: &'a mut Cache,
        mount: Mount<'a, P>,
    ) -> Vdev<'a, S, P>
        requires mounted { AreMounted (S.sizes shelf.old) mount.slots.now (devices_in space.old) }
        requires group { 1 ≤ mount.txg }
        ensures space { result.space.now ≡ space.old }
        ensures shelf { result.shelf.now ≡ shelf.old }
        ensures cache { result.cache.now ≡ cache.old }
        ensures lost { result.lost ≡ None }
        ensures mount { result.mount ≡ mount.entry }
        ensures same_space { result.space.ghost_name ≡ space.entry.ghost_name }
        ensures same_shelf { result.shelf.ghost_name ≡ shelf.entry.ghost_name }
        ensures same_cache { result.cache.ghost_name ≡ cache.entry.ghost_name }
    {
        Vdev {
            space,
            shelf,
            cache,
            lost: None,
            mount,
        }
    }

    /// Whether a block is stored at the address. For blocks it costs what `Space::is_freeable` does, and for metadata it is
    /// logarithmic in the extents of the device. While units are lost it visits the parts of the address once more.
    pub fn has(&self, alloc: Global, at: &Dva) -> Result<bool, NoMemory>
        ensures { IfOk result (λ answer. IsTrue answer ↔ IsStoredAt self.now.mount.kind self.now.space.now self.now.lost at.now) }
    {
        let used = is_in_use(self.space, self.mount.kind, at)?;
        if !used {
            return Ok(false);
        }
        is_apart(alloc, self.space, self.lost, at)
    }

    /// Gives back a block if one is stored at its address, and answers whether it did. Where none is nothing changes. Else its
    /// address goes, and its place in the cache. It costs what `has` does, and a free in the space.
    pub fn give(&mut self, alloc: Global, b: &Bptr) -> Result<bool, NoMemory>
        ensures stored { IfOk result (λ given. IsTrue given ↔ IsStoredAt self.old.mount.kind self.old.space.now self.old.lost b.now.at) }
        ensures none { IfOk result (λ given. given ≡ false → (self.new.space.now ≡ self.old.space.now) × (self.new.cache.now ≡ self.old.cache.now)) }
        ensures gives { IfOk result (λ given. given ≡ true → GivesBack self.old.mount.kind self.old.space.now self.new.space.now b.now.at b.now.birth) }
        ensures entries { IfOk result (λ given. given ≡ true → entries self.new.cache.now ≡ remove_entry (is_key b.now) (entries self.old.cache.now)) }
        ensures room { capacity self.new.cache.now ≡ capacity self.old.cache.now }
        ensures shelf { self.new.shelf.now ≡ self.old.shelf.now }
        ensures rest { (self.new.mount ≡ self.old.mount) × (self.new.lost ≡ self.old.lost) }
        ensures names { (self.new.space.ghost_name ≡ self.old.space.ghost_name) × (self.new.shelf.ghost_name ≡ self.old.shelf.ghost_name) × (self.new.cache.ghost_name ≡ self.old.cache.ghost_name) }
        ensures err { OnErr result ((self.new.space.now ≡ self.old.space.now) × (self.new.cache.now ≡ self.old.cache.now)) }
    {
        let stored = self.has(alloc, &b.at)?;
        if stored {
            free_block(self.space, self.cache, self.mount.kind, b)?;
        }
        Ok(stored)
    }
}

impl<S: Shelf, P: Place> Blocks for Vdev<'_, S, P> {
    ghost account = { λ v. account_of (S.counts v.shelf.now).disk v.space.now };

    ghost holds = { λ v s. HoldsBlocks v.mount.kind v.mount.slots.now (S.tells v.shelf.now) (S.world v.shelf.now).now.seen v.space.now v.lost v.cache.now s };

    ghost follows = { λ start now.
        (now.space.ghost_name ≡ start.space.ghost_name) × (now.shelf.ghost_name ≡ start.shelf.ghost_name) × (now.cache.ghost_name ≡ start.cache.ghost_name)
        × (now.mount ≡ start.mount)
        × Continues start.mount.kind start.mount.slots.now (S.sizes start.shelf.now) (S.sizes now.shelf.now) (S.counts start.shelf.now) (S.counts now.shelf.now) (S.tells start.shelf.now) (S.tells now.shelf.now) (S.world start.shelf.now) (S.world now.shelf.now) start.space.now now.space.now start.cache.now now.cache.now };

    ghost adds = { λ start now. GivesNothing start.lost now.lost start.space.now now.space.now };

    ghost once = { λ v s held. held.alone };

    ghost resolved = { λ v s held. held.resolves };

    fn put(&mut self, alloc: Global, bytes: &[u8], level: u8) -> Result<Bptr, StoreErr> {
        give_back_lost(self.space, self.mount.kind, self.lost, self.mount.txg)?;
        self.lost = None;
        match put_block(
            alloc,
            self.space,
            self.shelf,
            self.cache,
            &self.mount,
            bytes,
            level,
        ) {
            Ok(b) => Ok(b),
            Err(failure) => {
                self.lost = failure.taken;
                give_back_lost(self.space, self.mount.kind, failure.taken, self.mount.txg)?;
                self.lost = None;
                Err(failure.error)
            }
        }
    }

    /// The bytes of a block. One that is cached makes no call on a disk.
    fn get(&mut self, alloc: Global, b: &Bptr) -> Result<Vec<u8>, StoreErr> {
        let stored = self.has(alloc, &b.at)?;
        if stored {
            return get_block(
                alloc,
                self.space,
                self.shelf,
                self.cache,
                self.mount.slots,
                b,
            );
        }
        read_nothing(alloc, self.space, b)
    }

    fn free(&mut self, alloc: Global, b: &Bptr) -> Result<(), StoreErr> {
        let _given = self.give(alloc, b)?;
        Ok(())
    }
}
