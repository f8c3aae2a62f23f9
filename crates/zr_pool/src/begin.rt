//! The lines that make or open a pool.
ghost use Rattle.std.specs.FinMap as map;
ghost use Rattle.std.specs.Prelude.{◌≡◌, ◌<◌, ◌≤◌, ◌⊎◌, ℕ, List, [], true, false, Ok, Err, IfOk, IfSome, IfNone, IsErrOf, OnOk, length};
ghost use Rattle.zr_base.specs.Counts.{HasRisen};
ghost use Rattle.zr_base.specs.declared.refusal.Refusal.{Refusal};
ghost use Rattle.zr_base.specs.declared.space.CkptPart.TheVariants.{Clear};
ghost use Rattle.zr_create.specs.Blank.{IsNamed, IsResetAt, NothingWaits};
ghost use Rattle.zr_create.specs.Devices.{HasDevicesIn};
ghost use Rattle.zr_create.specs.Names.{AreApart};
ghost use Rattle.zr_create.specs.Refusals.{ChecksNew};
ghost use Rattle.zr_label.specs.Blocks.{IsName};
ghost use Rattle.zr_slots.specs.Checks.{AreNamed};
ghost use Rattle.zr_sync.specs.Objects.{HoldsObjects};
ghost use Rattle.zr_sync.specs.Ends.{ComesCommitted};
ghost use Rattle.zr_last.specs.Last.{ShowsLast};
ghost use Rattle.zr_script.specs.Grammar.{IsLine};
ghost use Rattle.zr_script.specs.declared.command.Command.TheVariants.{Import};
ghost use Rattle.zr_shelf.specs.Counts.{NoneFell};
ghost use Rattle.zr_open.specs.Left.{IsLeftCommitted};
ghost use Rattle.zr_sync.specs.Pools.{IsOpen};
ghost use Rattle.zr_sync.specs.Trees.{HasTrees};
ghost use Rattle.zr_sync.specs.Trees.Stage.{Had};
ghost use Rattle.zr_sync.specs.Writes.{WorksOnDisks};
ghost use Rattle.zr_sync.specs.declared.fault.Fault.TheVariants.{No, Stops};
ghost use Rattle.zr_sync.specs.declared.stop.Stop.TheVariants.{DiskFault};
ghost use Rattle.zr_sync.specs.States.{HoldsState};
ghost use Rattle.zr_open.specs.Flushed.{FlushesOnly};
ghost use Rattle.zr_pool.specs.Behind.{StopsInCreate, StopsInOpening, is_create, is_import};
ghost use Rattle.zr_pool.specs.Plain.{IsMade, IsOpeningCause, shelf_of};
ghost use Rattle.zr_pool.specs.Accounts.{Begins, BeginsNone};
ghost use Rattle.zr_pool.specs.Turns.{IsServed, IsClosedRefusal, is_opener};

use crate::lines::{is_on_objects, is_on_pool};
use crate::names::name_of;
use crate::removals::is_of_removal;
use crate::tables::is_table;
use std::alloc::Global;
use zr_base::{Blob, Refusal};
use zr_choose::Chooser;
use zr_create::{create, slots_named};
use zr_label::Name;
use zr_open::{go_back, import, rewind, settle};
use zr_script::Command;
use zr_shelf::Shelf;
use zr_sync::{Fault, OpenPool};

/// The version of a pool that is made.
const VERSION: u64 = 2;

/// The version of one that is made with `-1`.
const FIRST: u64 = 1;

// Makes a pool on these slots. All that was written before is made durable first, as an import does: what the slots show then
// is what a crash leaves of them.
fn make<S: Shelf>(
    alloc: Global,
    shelf: &mut S,
    pick: &Chooser,
    name: Name,
    guid: u64,
    named: &[u32],
    version: u64,
) -> Result<OpenPool, Fault>
    requires name { IsName name }
    requires guid { 0 < guid }
    requires version { (version ≡ 1) ⊎ (version ≡ 2) }
    requires some { 1 ≤ length named.now }
    requires few { length named.now ≤ 32 }
    requires named { AreNamed (length (S.sizes shelf.old)) named.now }
    requires apart { AreApart named.now }
    requires slots { length (S.sizes shelf.old) ≤ 32 }
    ensures sizes { S.sizes shelf.new ≡ S.sizes shelf.old }
    ensures none_fell { NoneFell (S.counts shelf.old) (S.counts shelf.new) }
    ensures told { S.tells shelf.old → S.tells shelf.new }
    ensures disks { S.tells shelf.old → WorksOnDisks (S.world shelf.old) (S.world shelf.new) }
    ensures fault { IsErrOf result (Stops DiskFault) → HasRisen (S.counts shelf.old).disk (S.counts shelf.new).disk }
    ensures pool { IfOk result (IsOpen (S.sizes shelf.new)) }
    ensures named { IfOk result (IsNamed name guid version) }
    ensures clear { IfOk result (λ pool. pool.space.parts.ckpt ≡ Clear) }
    ensures devices { IfOk result (HasDevicesIn (S.sizes shelf.old) 1 named.now) }
    ensures txg { IfOk result (λ pool. pool.group.txg ≡ 2) }
    ensures empty { IfOk result (λ pool. pool.group.objects ≡ []) }
    ensures root { IfOk result (λ pool. IsResetAt 1 pool.last) }
    ensures settled { IfOk result (λ pool. NothingWaits pool.space) }
    ensures last { S.tells shelf.old → IfOk result (ShowsLast (S.world shelf.new).now.seen) }
    ensures ends { S.tells shelf.old → IfOk result (λ pool. ComesCommitted (S.sizes shelf.new) pool map.empty (S.world shelf.new)) }
    ensures stops { S.tells shelf.old → StopsInCreate (S.sizes shelf.old) (S.world shelf.old) (S.world shelf.new) }
    ensures objects { S.tells shelf.old → IfOk result (λ pool. HoldsObjects (S.tells shelf.new) (S.world shelf.new).now.seen pool map.empty) }
    ensures trees { S.tells shelf.old → IfOk result (λ pool. HasTrees Had (S.tells shelf.new) (S.world shelf.new).now.seen pool) }
    ensures refused { S.tells shelf.old → (r : Refusal) → IsErrOf result (No r) → ChecksNew (S.sizes shelf.old) (S.tells shelf.old) (S.world shelf.old).now.seen version guid named.now (Err r) }
    ensures allowed { S.tells shelf.old → OnOk result (ChecksNew (S.sizes shelf.old) (S.tells shelf.old) (S.world shelf.old).now.seen version guid named.now (Ok tt)) }
    ensures unwritten { S.tells shelf.old → (r : Refusal) → IsErrOf result (No r) → FlushesOnly (S.world shelf.old) (S.world shelf.new) }
    ensures untouched { S.tells shelf.old → (r : Refusal) → IsErrOf result (No r) → (S.world shelf.new).now.seen ≡ (S.world shelf.old).now.seen }
{
    settle(shelf)?;
    create(alloc, shelf, pick, name, guid, named, version)
}

/// Does a command where no pool is open, and answers the pool that it makes or opens. None where the command is not served.
pub fn begin<S: Shelf>(
    alloc: Global,
    paths: &[Blob],
    shelf: &mut S,
    pick: &Chooser,
    command: &Command,
) -> Result<Option<OpenPool>, Fault>
    requires slots { length (S.sizes shelf.old) ≡ length paths.now }
    requires few { length paths.now ≤ 32 }
    requires grammar { (line : List ℕ) × IsLine line command.now }
    ensures sizes { S.sizes shelf.new ≡ S.sizes shelf.old }
    ensures none_fell { NoneFell (S.counts shelf.old) (S.counts shelf.new) }
    ensures told { S.tells shelf.old → S.tells shelf.new }
    ensures disks { S.tells shelf.old → WorksOnDisks (S.world shelf.old) (S.world shelf.new) }
    ensures fault { IsErrOf result (Stops DiskFault) → HasRisen (S.counts shelf.old).disk (S.counts shelf.new).disk }
    ensures pool { IfOk result (λ found. IfSome found (IsOpen (S.sizes shelf.new))) }
    ensures made { S.tells shelf.old → IfOk result (λ found. IfSome found (λ pool. IsMade (shelf_of (S.world shelf.old).now) (HoldsState (S.tells shelf.new) (S.world shelf.new).now.seen pool) command.now)) }
    ensures begins { S.tells shelf.old → IfOk result (λ found. IfSome found (Begins paths.now (S.sizes shelf.old) (S.world shelf.old).now.seen command.now)) }
    ensures begins_no { S.tells shelf.old → (r : Refusal) → IsErrOf result (No r) → BeginsNone paths.now (S.sizes shelf.old) (S.world shelf.old).now.seen command.now r }
    ensures last { S.tells shelf.old → IfOk result (λ found. IfSome found (ShowsLast (S.world shelf.new).now.seen)) }
    ensures ends { S.tells shelf.old → is_create command.now ≡ true → IfOk result (λ found. IfSome found (λ pool. ComesCommitted (S.sizes shelf.new) pool map.empty (S.world shelf.new))) }
    ensures trees { S.tells shelf.old → IfOk result (λ found. IfSome found (HasTrees Had (S.tells shelf.new) (S.world shelf.new).now.seen)) }
    ensures leaves { S.tells shelf.old → is_import command.now ≡ true → IfOk result (λ found. IfSome found (IsLeftCommitted (S.world shelf.new).now)) }
    ensures unwritten { S.tells shelf.old → (r : Refusal) → IsErrOf result (No r) → FlushesOnly (S.world shelf.old) (S.world shelf.new) }
    ensures stops { S.tells shelf.old → StopsInOpening (S.sizes shelf.old) command.now (S.world shelf.old) (S.world shelf.new) }
    ensures untouched { S.tells shelf.old → (r : Refusal) → IsErrOf result (No r) → (S.world shelf.new).now.seen ≡ (S.world shelf.old).now.seen }
    ensures opens { IfOk result (λ found. IfSome found (λ pool. is_opener command.now ≡ true)) }
    ensures refused { (r : Refusal) → IsErrOf result (No r) → IsClosedRefusal command.now r }
    ensures cause { S.tells shelf.old → (r : Refusal) → IsErrOf result (No r) → IsOpeningCause (shelf_of (S.world shelf.old).now) command.now r }
    ensures none { IfOk result (λ found. IfNone found (IsServed command.now → ⊥)) }
{
    match command {
        Command::Create { name, guid, devs } => {
            let named = slots_named(alloc, paths, devs.as_slice())?;
            let name = name_of(name.as_slice());
            let made = make(alloc, shelf, pick, name, *guid, named.as_slice(), VERSION)?;
            Ok(Some(made))
        }
        Command::CreateOld { name, guid, devs } => {
            let named = slots_named(alloc, paths, devs.as_slice())?;
            let name = name_of(name.as_slice());
            let made = make(alloc, shelf, pick, name, *guid, named.as_slice(), FIRST)?;
            Ok(Some(made))
        }
        Command::Import => Ok(Some(import(alloc, shelf)?)),
        Command::ImportRewind => Ok(Some(rewind(alloc, shelf)?)),
        Command::ImportTxg { txg } => Ok(Some(go_back(alloc, shelf, *txg)?)),
        _
            if is_on_objects(command)
                || is_on_pool(command)
                || is_table(command)
                || is_of_removal(command) => { Err(Fault::No(Refusal::NoPoolOpen)) }
        _ => Ok(None),
    }
}
