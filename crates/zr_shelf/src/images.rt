//! What a crash may leave of the disks in memory.
//!
//! The calls up to a moment are made again on two copies: one reads as the disks do, and of the other each write that no
//! flush followed comes as the choice says.
ghost use Rattle.std.specs.Prelude.{◌≡◌, ◌+◌, ◌<◌, ◌≤◌, List, ℕ, length, OnOk, IfOk, [], ◌∷◌, ◌++◌, take, drop, if◌then◌else◌, map, string_bytes, position, nat_lt, slice_index, ◌^◌, ◌-◌};
ghost use Rattle.zr_shelf.specs.Disks.{Stand, IsSameOutside, MayLeave};
ghost use Rattle.zr_shelf.specs.Memory.{bytes_of, paths_of, after_write, as_pending, stand_after, start, run, stand_at, calls_until, FitsIn, IsLawful, IsImage};
ghost use Rattle.zr_shelf.specs.Choices.{came, front_of, chosen, AreOthers, IsCopy, IsShown};
ghost use Rattle.zr_shelf.specs.declared.memory.Deed.TheVariants.{Wrote};

use crate::memory::{Asked, Call, Deed, DiskFile, History, find, put};
use std::alloc::{AllocError, Global};

/// How much of a write came: nothing (0), all (1), or its first half (2).
fn come(choice: &[u8], place: usize, len: usize) -> usize
    ensures within { result ≤ len }
    ensures number { result ≡ came (slice_index choice.now place) len }
{
    match choice.get(place) {
        Some(1) => len,
        Some(2) => len / 2,
        _ => 0,
    }
}

fn copied_file(alloc: Global, file: &DiskFile) -> Result<DiskFile, AllocError>
    ensures { IfOk result (IsCopy file.now) }
{
    let path = String::from_str(alloc, file.path.as_str())?;
    let bytes = file.bytes.to_vec(alloc)?;
    Ok(DiskFile { path, bytes })
}

fn copied(alloc: Global, files: &[DiskFile]) -> Result<Vec<DiskFile>, AllocError>
    ensures paths { IfOk result (λ v. paths_of v.items ≡ paths_of files.now) }
    ensures bytes { IfOk result (λ v. bytes_of v.items ≡ bytes_of files.now) }
{
    let mut all = Vec::new(alloc);
    for file in files {
        all.push(copied_file(alloc, file)?)?;
    }
    Ok(all)
}

/// What the disks read as after a write that was asked for.
fn write_seen(seen: &mut Vec<DiskFile>, asked: &Asked)
    requires { FitsIn (bytes_of seen.old.items) (Wrote asked.now) }
    ensures bytes { bytes_of seen.new.items ≡ (if asked.now.done then after_write (bytes_of seen.old.items) (as_pending asked.now) else bytes_of seen.old.items) }
    ensures paths { paths_of seen.new.items ≡ paths_of seen.old.items }
{
    if asked.done {
        put(seen, asked.slot as usize, asked.at as usize, &asked.bytes);
    }
}

/// What a crash leaves of such a write.
fn write_image(image: &mut Vec<DiskFile>, asked: &Asked, len: usize)
    requires fits { FitsIn (bytes_of image.old.items) (Wrote asked.now) }
    requires within { len ≤ length asked.now.bytes.items }
    ensures bytes { bytes_of image.new.items ≡ after_write (bytes_of image.old.items) (front_of (as_pending asked.now) len) }
    ensures outside { IsSameOutside (as_pending asked.now ∷ []) (bytes_of image.old.items) (bytes_of image.new.items) }
    ensures paths { paths_of image.new.items ≡ paths_of image.old.items }
{
    let at = asked.at as usize;
    put(image, asked.slot as usize, at, &asked.bytes[..len]);
}

/// A disk more on both.
fn attach_both(
    alloc: Global,
    seen: &mut Vec<DiskFile>,
    image: &mut Vec<DiskFile>,
    file: &DiskFile,
) -> Result<(), AllocError>
    ensures seen { OnOk result (bytes_of seen.new.items ≡ bytes_of seen.old.items ++ file.now.bytes.items ∷ []) }
    ensures seen_paths { OnOk result (paths_of seen.new.items ≡ paths_of seen.old.items ++ string_bytes file.now.path ∷ []) }
    ensures image { OnOk result (bytes_of image.new.items ≡ bytes_of image.old.items ++ file.now.bytes.items ∷ []) }
    ensures image_paths { OnOk result (paths_of image.new.items ≡ paths_of image.old.items ++ string_bytes file.now.path ∷ []) }
{
    seen.push(copied_file(alloc, file)?)?;
    image.push(copied_file(alloc, file)?)?;
    Ok(())
}

/// One call more: what the disks read as, and one of their images.
fn step(
    alloc: Global,
    seen: &mut Vec<DiskFile>,
    image: &mut Vec<DiskFile>,
    deed: &Deed,
    place: &mut usize,
    choice: &[u8],
) -> Result<(), AllocError>
    requires sizes { map length (bytes_of image.old.items) ≡ map length (bytes_of seen.old.items) }
    requires fits { FitsIn (bytes_of seen.old.items) deed.now }
    requires room { place.old < 2 ^ 64 - 1 }
    ensures place { place.new ≤ place.old + 1 }
    ensures shown { OnOk result ((s : Stand) → IsShown choice.now s seen.old.items image.old.items place.old → IsShown choice.now (stand_after s deed.now) seen.new.items image.new.items place.new) }
{
    match deed {
        Deed::Attached(file, _make) => attach_both(alloc, seen, image, file),
        Deed::Wrote(asked) => {
            let len = come(choice, *place, asked.bytes.len());
            write_image(image, asked, len);
            write_seen(seen, asked);
            *place += 1;
            Ok(())
        }
        Deed::Flushed => {
            *image = copied(alloc, seen)?;
            *place = 0;
            Ok(())
        }
        Deed::Sent(_) => Ok(()),
    }
}

/// The place of the first call after a moment.
fn first_after(calls: &[Call], moment: u64) -> Option<usize>
    ensures { result ≡ position (λ c. nat_lt moment c.moment) calls.now }
{
    calls.iter().position(|call| moment < call.moment)
}

/// The calls up to a moment.
fn calls_until(calls: &[Call], moment: u64) -> &[Call]
    ensures { result.now ≡ calls_until moment calls.now }
{
    match first_after(calls, moment) {
        Some(end) => &calls[..end],
        None => calls,
    }
}

/// An image of the disks that were attached by that moment.
pub(crate) fn image_after(
    alloc: Global,
    history: &History,
    moment: u64,
    choice: &[u8],
) -> Result<Vec<DiskFile>, AllocError>
    requires { IsLawful (start history.now.input.items) history.now.calls.items }
    ensures paths { IfOk result (λ image. paths_of image.items ≡ (stand_at history.now moment).paths) }
    ensures leaves { IfOk result (λ image. MayLeave (stand_at history.now moment) (bytes_of image.items)) }
    ensures chosen { IfOk result (λ image. bytes_of image.items ≡ chosen choice.now (stand_at history.now moment).writes (stand_at history.now moment).durable) }
{
    let calls = calls_until(&history.calls, moment);
    let mut seen = Vec::new(alloc);
    let mut image = Vec::new(alloc);
    let mut place = 0;
    for call in calls {
        step(alloc, &mut seen, &mut image, &call.deed, &mut place, choice)?;
    }
    Ok(image)
}

/// Adds the files of the folder whose path no disk has.
pub(crate) fn add_others(
    alloc: Global,
    image: &mut Vec<DiskFile>,
    folder: &[DiskFile],
) -> Result<(), AllocError>
    ensures front { take (length image.old.items) image.new.items ≡ image.old.items }
    ensures others { OnOk result (AreOthers image.old.items folder.now (drop (length image.old.items) image.new.items)) }
{
    let disks = image.len();
    for file in folder {
        if find(&image[..disks], file.path.as_str()).is_none() {
            image.push(copied_file(alloc, file)?)?;
        }
    }
    Ok(())
}
