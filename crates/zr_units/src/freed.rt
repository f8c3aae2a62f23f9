//! What a group has freed.
ghost use Rattle.std.specs.Prelude.{◌≡◌, ◌+◌, ◌<◌, ◌≤◌, ◌^◌, ℕ, [], length};
ghost use Rattle.zr_base.specs.Extents.{has_unit};
ghost use Rattle.zr_metaslab.specs.Devices.{free_at, units_at};
ghost use Rattle.zr_units.specs.Changes.{TakesBack, has_freed};
ghost use Rattle.zr_units.specs.Uses.{none_freed, freed_count};
ghost use Rattle.zr_units.specs.Apart.{AreApart, AreSetsApart, IsWithin};

use crate::parts::let_go;
use std::alloc::Global;
use std::marker::Model;
use zr_metaslab::Slabs;
use zr_paged::UnitSet;

/// Units of blocks and of metadata.
#[derive(Drop)]
pub struct FreedSets {
    pub blocks: UnitSet,
    pub meta: UnitSet,
}

impl Model for FreedSets {
    ghost use Rattle.zr_units.specs.Uses.{Waiting};

    ghost Value = { Waiting };

    ghost view = { λ a. record { sets = record { blocks = a.blocks.extents; meta = a.meta.extents }; spare = a.blocks.spare } };
}

impl FreedSets {
    /// Nothing. It takes no memory.
    pub fn new(alloc: Global) -> FreedSets
        ensures { result.sets ≡ none_freed }
    {
        FreedSets {
            blocks: UnitSet::new(alloc),
            meta: UnitSet::new(alloc),
        }
    }

    /// These units of blocks and of metadata.
    pub fn of_sets(blocks: UnitSet, meta: UnitSet) -> FreedSets
        ensures blocks { result.sets.blocks ≡ blocks.extents }
        ensures meta { result.sets.meta ≡ meta.extents }
    {
        FreedSets { blocks, meta }
    }

    /// The units of blocks.
    pub fn blocks(&self) -> &UnitSet
        ensures { result.now.extents ≡ self.now.sets.blocks }
    {
        &self.blocks
    }

    /// The units of metadata.
    pub fn meta(&self) -> &UnitSet
        ensures { result.now.extents ≡ self.now.sets.meta }
    {
        &self.meta
    }

    /// How many units they are.
    pub fn units(&self) -> u64
        requires { freed_count self.now.sets ≤ 2 ^ 62 }
        ensures { result ≡ freed_count self.now.sets }
    {
        self.blocks.units() + self.meta.units()
    }

    /// Gives all back to the allocator.
    pub fn let_go(&mut self, slabs: &mut Slabs, dev: u32)
        requires device { dev < length slabs.old }
        requires blocks { IsWithin self.old.sets.blocks (units_at slabs.old dev) }
        requires meta { IsWithin self.old.sets.meta (units_at slabs.old dev) }
        requires apart { AreSetsApart self.old.sets.blocks self.old.sets.meta }
        requires blocks_apart { AreApart self.old.sets.blocks (free_at slabs.old dev) }
        requires meta_apart { AreApart self.old.sets.meta (free_at slabs.old dev) }
        ensures none { self.new.sets ≡ none_freed }
        ensures taken { TakesBack slabs.old slabs.new dev (has_freed self.old.sets) (freed_count self.old.sets) }
    {
        let_go(&mut self.blocks, slabs, dev);
        let_go(&mut self.meta, slabs, dev);
    }
}
