//! A step of condensing the mapping of a device that is gone.
//!
//! The first step counts the fresh obsolete units, and the last puts the new mapping in place of the old one: then the next
//! commit has to write what changed of the mapping's streams anew: the counts behind the first step, and both where the last
//! one left entries out. In between the mapping stays, and what was kept so far
//! has streams of its own: the last root has them until the commit behind the last step, which gives them back.
//!
//! The pool holds the objects that it held: what pointers pass leads through the new mapping where it led through the old
//! one. What is cached may be of a block that was given back, and its address leads nowhere once the entry on its way is left
//! out. So the last step empties the cache.
ghost use Rattle.std.specs.Prelude.{◌≡◌, ◌<◌, ℕ, List, [], Some, true, IsErrOf, IfErr, IfOk, OnOk, if◌then◌else◌, length, slice_index_or, slice_set};
ghost use Rattle.zr_base.specs.declared.refusal.Refusal.{Refusal};
ghost use Rattle.zr_cache.specs.Entries.{capacity, entries};
ghost use Rattle.zr_model.specs.Objects.{Objects};
ghost use Rattle.zr_rules.specs.Places.{part_of};
ghost use Rattle.zr_rules.specs.Space.{role_at};
ghost use Rattle.zr_rules.specs.Steps.{due_device, has_condensing};
ghost use Rattle.zr_sync.specs.Copies.{HasCopies};
ghost use Rattle.zr_sync.specs.Objects.{HoldsObjects};
ghost use Rattle.zr_sync.specs.Pools.{IsOpen};
ghost use Rattle.zr_sync.specs.declared.fault.Fault.TheVariants.{No, Stops};
ghost use Rattle.zr_sync.specs.declared.stop.Stop.TheVariants.{DiskFault};
ghost use Rattle.zr_removal.specs.Condensing.{CondensesPool, CondensesMapping, cond_behind, condensed_next, is_done, is_first, leaves_out, none_turned, turned_by};
ghost use Rattle.zr_removal.specs.Refusals.{IsCondenseRefusal};

use zr_base::{Condensed, DevState, NoMemory, Refusal};
use zr_cache::Cache;
use zr_space::Space;
use zr_sync::{CondStreams, Fault, OpenPool, Turned};

// The lowest removed device whose mapping is due.
fn due(space: &Space) -> Option<u32>
    ensures { result ≡ due_device space.now }
{
    for dev in 0..space.devices() {
        if space.state(dev) == DevState::Gone && space.moves(dev).is_due() {
            return Some(dev);
        }
    }
    None
}

// The device whose mapping a step works on, if there is work.
fn condensed_next(space: &Space) -> Option<u32>
    ensures { result ≡ condensed_next space.now.parts.cond (due_device space.now) }
{
    match space.condensing() {
        Some(cond) => Some(cond.dev()),
        None => due(space),
    }
}

// The device to be condensed next. It is refused where there is no work.
fn demand_to_condense(pool: &OpenPool) -> Result<u32, Refusal>
    ensures next { IfOk result (λ d. condensed_next pool.now.space.parts.cond (due_device pool.now.space) ≡ Some d) }
    ensures due { OnOk result (has_condensing pool.now.space ≡ true) }
    ensures refused { IfErr result (IsCondenseRefusal pool.now.space) }
{
    match condensed_next(&pool.space) {
        Some(dev) => Ok(dev),
        None => Err(Refusal::NothingToDo),
    }
}

// Which streams of a mapping are to be written anew behind a step.
fn turned_by(turned: Turned, first: bool, fewer: bool) -> Turned
    ensures { result ≡ turned_by turned first fewer }
{
    Turned {
        entries: turned.entries || fewer,
        counts: turned.counts || first || fewer,
    }
}

// Notes which streams of a device's mapping are to be written anew behind a step.
fn note_turned(turned: &mut [Turned], dev: u32, first: bool, fewer: bool)
    ensures length { length turned.new ≡ length turned.old }
    ensures noted { dev < length turned.old → turned.new ≡ slice_set turned.old dev (turned_by (slice_index_or turned.old dev none_turned) first fewer) }
{
    let index = dev as usize;
    if index >= turned.len() {
        return;
    }
    turned[index] = turned_by(turned[index], first, fewer);
}

// How many entries the mapping of a device has.
fn entry_count(space: &Space, dev: u32) -> usize
    ensures { result ≡ length (part_of space.now.parts.devs dev).entries }
{
    if dev >= space.devices() {
        return 0;
    }
    let moves = space.moves(dev);
    moves.lawful();
    match moves.map() {
        None => 0,
        Some(map) => map.len(),
    }
}

// Whether no condensing goes on.
fn is_first(space: &Space) -> bool
    ensures { result ≡ is_first space.now.parts.cond }
{
    match space.condensing() {
        Some(_) => false,
        None => true,
    }
}

// Notes whether the streams of the condensing are to be given back behind a step.
fn note_done(cond: &mut CondStreams, outcome: Condensed)
    ensures { cond.new ≡ cond_behind cond.old outcome }
{
    if matches!(outcome, Condensed::Done) {
        cond.done = true;
    }
}

// Empties the cache behind the last step: what is cached knows the places to which its address led through the old mapping.
fn forget_places(cache: &mut Cache, outcome: Condensed)
    ensures entries { entries cache.new ≡ (if is_done outcome then [] else entries cache.old) }
    ensures room { capacity cache.new ≡ capacity cache.old }
{
    if matches!(outcome, Condensed::Done) {
        cache.clear();
    }
}

// Works through the next entries of a mapping, and notes what the next commit has to do with its streams and with those of
// the condensing.
fn condense_mapping(pool: &mut OpenPool, dev: u32) -> Result<Condensed, NoMemory>
    requires pool { (sizes : List ℕ) × IsOpen sizes pool.old }
    ensures condenses { IfOk result (CondensesMapping pool.old pool.new dev) }
    ensures pool { (sizes : List ℕ) → IsOpen sizes pool.old → OnOk result (IsOpen sizes pool.new) }
    ensures roles { OnOk result ((d u : ℕ) → role_at pool.new.space d u ≡ role_at pool.old.space d u) }
    ensures objects { (disks : List (List ℕ)) (objects : Objects) → HoldsObjects (Unit {0}) disks pool.old objects → OnOk result (HoldsObjects (Unit {0}) disks pool.new objects) }
    ensures copies { (disks : List (List ℕ)) → HasCopies disks pool.old → OnOk result (HasCopies disks pool.new) }
{
    let first = is_first(&pool.space);
    let before = entry_count(&pool.space, dev);
    pool.space.condenses_in_order();
    let outcome = pool.space.condense_step()?;
    let fewer = entry_count(&pool.space, dev) < before;
    note_turned(&mut pool.turned, dev, first, fewer);
    note_done(&mut pool.cond, outcome);
    forget_places(&mut pool.cache, outcome);
    Ok(outcome)
}

/// Works through 64 entries of the mapping that is condensed, or of the lowest removed device whose mapping is due. It
/// answers how many of them it kept, or that these were the last. No device is touched, and the pool holds the objects that
/// it held. It costs a step for each entry; the first counts all fresh obsolete units of the mapping, and the last empties
/// the cache.
pub fn step_condense(pool: &mut OpenPool) -> Result<Condensed, Fault>
    requires pool { (sizes : List ℕ) × IsOpen sizes pool.old }
    ensures pool { (sizes : List ℕ) → IsOpen sizes pool.old → OnOk result (IsOpen sizes pool.new) }
    ensures due { OnOk result (has_condensing pool.old.space ≡ true) }
    ensures condenses { IfOk result (CondensesPool pool.old pool.new) }
    ensures roles { OnOk result ((d u : ℕ) → role_at pool.new.space d u ≡ role_at pool.old.space d u) }
    ensures objects { (disks : List (List ℕ)) (objects : Objects) → HoldsObjects (Unit {0}) disks pool.old objects → OnOk result (HoldsObjects (Unit {0}) disks pool.new objects) }
    ensures copies { (disks : List (List ℕ)) → HasCopies disks pool.old → OnOk result (HasCopies disks pool.new) }
    ensures fault { IsErrOf result (Stops DiskFault) → ⊥ }
    ensures refused { (r : Refusal) → IsErrOf result (No r) → IsCondenseRefusal pool.old.space r }
    ensures unchanged { (r : Refusal) → IsErrOf result (No r) → pool.new ≡ pool.old }
{
    let dev = demand_to_condense(pool)?;
    Ok(condense_mapping(pool, dev)?)
}
