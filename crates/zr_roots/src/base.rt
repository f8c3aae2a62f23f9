//! What is read of a root before its directory and its objects: its metadata, and the space that this tells.
ghost use Rattle.std.specs.Prelude.{◌≡◌, All, IfOk, OnOk, IsErrOf};
ghost use Rattle.zr_base.specs.Counts.{HasRisen};
ghost use Rattle.zr_image.specs.Roots.{rows_of};
ghost use Rattle.zr_import.specs.declared.errors.ImportErr.TheVariants.{Failed};
ghost use Rattle.zr_judge.specs.Blank.{blank_parts};
ghost use Rattle.zr_judge.specs.Parts.{HasMapping};
ghost use Rattle.zr_label.specs.Blocks.{IsUber};
ghost use Rattle.zr_meta.specs.Heads.{IsHead};
ghost use Rattle.zr_roots.specs.Causes.{IsUnread, IsSavedUnread, as_saved};
ghost use Rattle.zr_roots.specs.Devices.{HasItsDisks};
ghost use Rattle.zr_roots.specs.Standing.{IsBase, StandsMeta};
ghost use Rattle.zr_shelf.specs.Counts.{NoneFell};
ghost use Rattle.zr_shelf.specs.Moments.{IsStill};

use crate::named::have_rows;
use std::alloc::Global;
use zr_base::NoMemory;
use zr_cache::Cache;
use zr_import::{ImportErr, Meta, read_meta};
use zr_judge::{blank_space, broken_rule};
use zr_label::Uber;
use zr_shelf::Shelf;
use zr_slots::Found;
use zr_space::Space;
use zr_vdev::Reader;

/// How many blocks are cached.
pub(crate) const CACHED: usize = 256;

/// The metadata of a root, and the space that it tells.
#[derive(Drop)]
pub(crate) struct Base {
    pub meta: Meta,
    pub space: Space,
}

// A space of a root's devices of which nothing is known to be used.
fn blank_of(alloc: Global, root: &Uber) -> Result<Space, NoMemory>
    requires { IsUber root.now }
    ensures { IfOk result (λ space. space.parts ≡ blank_parts root.now.version (rows_of root.now)) }
{
    blank_space(alloc, root.version, &root.rows[..root.count as usize])
}

// The metadata of the root that was found.
fn read_metadata<S: Shelf>(alloc: Global, shelf: &mut S, found: &Found) -> Result<Meta, ImportErr>
    requires root { IsUber found.now.root }
    requires disks { HasItsDisks (S.sizes shelf.old) found.now.slots found.now.root }
    ensures sizes { S.sizes shelf.new ≡ S.sizes shelf.old }
    ensures none_fell { NoneFell (S.counts shelf.old) (S.counts shelf.new) }
    ensures told { S.tells shelf.old → S.tells shelf.new }
    ensures still { S.tells shelf.old → IsStill (S.world shelf.old) (S.world shelf.new) }
    ensures fault { IsErrOf result Failed → HasRisen (S.counts shelf.old).disk (S.counts shelf.new).disk }
    ensures head { IfOk result (λ meta. IsHead (rows_of found.now.root) meta.head) }
    ensures stands { S.tells shelf.old → IfOk result (StandsMeta (S.world shelf.old).now.seen found.now.slots found.now.root) }
    ensures unread { IsUnread result }
{
    let space = blank_of(alloc, &found.root)?;
    let mut cache = Cache::new(alloc, CACHED)?;
    let mut store = Reader::new(&space, shelf, &mut cache, &found.slots);
    read_meta(alloc, &mut store, &found.root)
}

// The space that the metadata of a root tells. Rules 3 to 6 are broken by what it records of each device, and rule 7 where no
// space can have that.
fn base_space(alloc: Global, u: &Uber, meta: &Meta) -> Result<Space, ImportErr>
    requires { IsUber u.now }
    ensures base { IfOk result (IsBase u.now meta.now) }
    ensures mapped { OnOk result (All HasMapping meta.now.parts.devs) }
    ensures fault { IsErrOf result Failed → ⊥ }
    ensures unread { IsUnread result }
{
    if meta.parts.version != u.version || !have_rows(&meta.parts, u) {
        return Err(ImportErr::Rule(1));
    }
    if let Some(rule) = broken_rule(alloc, &meta.parts)? {
        return Err(ImportErr::Rule(rule));
    }
    let Some(space) = Space::from_parts(alloc, &meta.parts, meta.at.as_slice(), &[])? else {
        return Err(ImportErr::Rule(7));
    };
    Ok(space)
}

/// The metadata of the root that was found, and the space that it tells. It makes a call on a disk for each run of a block.
pub(crate) fn read_base<S: Shelf>(
    alloc: Global,
    shelf: &mut S,
    found: &Found,
) -> Result<Base, ImportErr>
    requires root { IsUber found.now.root }
    requires disks { HasItsDisks (S.sizes shelf.old) found.now.slots found.now.root }
    ensures sizes { S.sizes shelf.new ≡ S.sizes shelf.old }
    ensures none_fell { NoneFell (S.counts shelf.old) (S.counts shelf.new) }
    ensures told { S.tells shelf.old → S.tells shelf.new }
    ensures still { S.tells shelf.old → IsStill (S.world shelf.old) (S.world shelf.new) }
    ensures fault { IsErrOf result Failed → HasRisen (S.counts shelf.old).disk (S.counts shelf.new).disk }
    ensures head { IfOk result (λ base. IsHead (rows_of found.now.root) base.meta.head) }
    ensures stands { S.tells shelf.old → IfOk result (λ base. StandsMeta (S.world shelf.old).now.seen found.now.slots found.now.root base.meta) }
    ensures base { IfOk result (λ base. IsBase found.now.root base.meta base.space) }
    ensures mapped { IfOk result (λ base. All HasMapping base.meta.parts.devs) }
    ensures unread { IsUnread result }
{
    let meta = read_metadata(alloc, shelf, found)?;
    let space = base_space(alloc, &found.root, &meta)?;
    Ok(Base { meta, space })
}

// What is wrong with a saved root by itself, as what is wrong with the root that saved it.
fn as_saved(error: ImportErr) -> ImportErr
    ensures { result ≡ as_saved error }
{
    match error {
        ImportErr::Rule(_) => ImportErr::Rule(8),
        other => other,
    }
}

/// The same of a saved root, which breaks one rule.
pub(crate) fn read_saved_base<S: Shelf>(
    alloc: Global,
    shelf: &mut S,
    found: &Found,
) -> Result<Base, ImportErr>
    requires root { IsUber found.now.root }
    requires disks { HasItsDisks (S.sizes shelf.old) found.now.slots found.now.root }
    ensures sizes { S.sizes shelf.new ≡ S.sizes shelf.old }
    ensures none_fell { NoneFell (S.counts shelf.old) (S.counts shelf.new) }
    ensures told { S.tells shelf.old → S.tells shelf.new }
    ensures still { S.tells shelf.old → IsStill (S.world shelf.old) (S.world shelf.new) }
    ensures fault { IsErrOf result Failed → HasRisen (S.counts shelf.old).disk (S.counts shelf.new).disk }
    ensures head { IfOk result (λ base. IsHead (rows_of found.now.root) base.meta.head) }
    ensures stands { S.tells shelf.old → IfOk result (λ base. StandsMeta (S.world shelf.old).now.seen found.now.slots found.now.root base.meta) }
    ensures base { IfOk result (λ base. IsBase found.now.root base.meta base.space) }
    ensures mapped { IfOk result (λ base. All HasMapping base.meta.parts.devs) }
    ensures unread { IsSavedUnread result }
{
    match read_base(alloc, shelf, found) {
        Ok(base) => Ok(base),
        Err(error) => Err(as_saved(error)),
    }
}
