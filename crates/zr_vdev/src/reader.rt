//! The store of a shelf that is only read, as a root is read before it is known which units are in use.
ghost use Rattle.std.specs.Prelude.{◌≡◌};
ghost use Rattle.zr_rules.specs.Equation.{devices_in};
ghost use Rattle.zr_vdev.specs.Mounts.{AreMounted, HaveDisks};
ghost use Rattle.zr_vdev.specs.Runs.{reader_account};
ghost use Rattle.zr_vdev.specs.Stores.{HoldsRead, GoesOnReading};

use crate::cached::get_block;
use std::alloc::Global;
use zr_bptr::Bptr;
use zr_cache::Cache;
use zr_shelf::Shelf;
use zr_space::Space;
use zr_store::{Blocks, StoreErr};

/// A shelf as a store that is only read. Each pointer has the bytes of its address, also where no unit is in use. There
/// is room for no block, and a free gives back nothing.
#[derive(Drop)]
pub struct Reader<'a, S: Shelf> {
    pub space: &'a Space,
    pub shelf: &'a mut S,
    pub cache: &'a mut Cache,
    pub slots: &'a [Option<u32>],
    ghost mounted: { HaveDisks (S.sizes shelf.now) slots.now (devices_in space.now) },
}

impl<'a, S: Shelf> Reader<'a, S> {
    /// The store over a shelf and a cache, which are given back with its end. The space has the devices, and no more of it
    /// is asked for.
    pub fn new(
        space: &'a Space,
        shelf: &'a mut S,
        cache: &'a mut Cache,
        slots: &'a [Option<u32>],
    ) -> Reader<'a, S>
        requires { AreMounted (S.sizes shelf.old) slots.now (devices_in space.now) }
        ensures space { result.space.now ≡ space.now }
        ensures shelf { result.shelf.now ≡ shelf.old }
        ensures cache { result.cache.now ≡ cache.old }
        ensures slots { result.slots.now ≡ slots.now }
        ensures same_shelf { result.shelf.ghost_name ≡ shelf.entry.ghost_name }
        ensures same_cache { result.cache.ghost_name ≡ cache.entry.ghost_name }
    {
        Reader {
            space,
            shelf,
            cache,
            slots,
        }
    }
}

impl<S: Shelf> Blocks for Reader<'_, S> {
    ghost account = { λ v. reader_account (S.counts v.shelf.now).disk v.space.now };

    ghost holds = { λ v s. HoldsRead v.slots.now (S.tells v.shelf.now) (S.world v.shelf.now).now.seen v.space.now v.cache.now s };

    ghost follows = { λ start now.
        (now.shelf.ghost_name ≡ start.shelf.ghost_name) × (now.cache.ghost_name ≡ start.cache.ghost_name) × (now.space ≡ start.space) × (now.slots ≡ start.slots)
        × GoesOnReading start.slots.now start.space.now (S.sizes start.shelf.now) (S.sizes now.shelf.now) (S.counts start.shelf.now) (S.counts now.shelf.now) (S.tells start.shelf.now) (S.tells now.shelf.now) (S.world start.shelf.now) (S.world now.shelf.now) start.cache.now now.cache.now };

    ghost adds = { λ start now. now.space ≡ start.space };

    ghost once = { λ v s held. held.alone };

    ghost resolved = { λ v s held. held.resolves };

    fn put(&mut self, _alloc: Global, bytes: &[u8], _level: u8) -> Result<Bptr, StoreErr> {
        Err(StoreErr::NoRun {
            needed: (bytes.len() / 4096) as u64,
            longest: 0,
        })
    }

    fn get(&mut self, alloc: Global, b: &Bptr) -> Result<Vec<u8>, StoreErr> {
        get_block(alloc, self.space, self.shelf, self.cache, self.slots, b)
    }

    fn free(&mut self, _alloc: Global, _b: &Bptr) -> Result<(), StoreErr> {
        Ok(())
    }
}
