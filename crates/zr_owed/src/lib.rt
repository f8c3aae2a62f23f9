//! How much room the commits to come may take.
//!
//! No commit may find the pool full: a state that was acknowledged and can't be written is lost. So a command is taken
//! only where the free units still cover what is owed: the tree blocks of the open group, the units that a removal has
//! yet to copy, and the metadata of the next commits, less the metadata units that come back. All of it is computed
//! from a few counts (`Sizes`), which are kept as they change; nothing here depends on the size of the pool.
#![tactic(auto)]

ghost use Rattle.std.specs.Prelude.{◌≡◌, ℕ, ◌*◌, ◌^◌, ◌<◌, ◌≤◌};
ghost use Rattle.zr_base.specs.Trees.{IsHeight, tree_units};
ghost use Rattle.zr_rules.specs.Owed.{AreSmall, owed, metadata_units, stream_units, words_to_come, tree_blocks, head_units, slop};

mod laws;

pub use laws::{
    commits_keep_room, devices_take_little, fewer_words_take_less, late_sets_fit, logs_take_little,
    metadata_fits, streams_take_little, trees_are_small, trees_grow,
};
pub use zr_base::Sizes;

/// The least height of a tree of `n` leaves, where a block has 32 pointers. It takes as many steps as its answer.
pub fn height(n: u64) -> u32
    requires { n ≤ 2 ^ 40 }
    ensures height { IsHeight n result }
    ensures low { result ≤ 8 }
{
    let mut height = 0;
    let mut reach: u64 = 1;
    while reach < n {
        reach *= 32;
        height += 1;
    }
    height
}

/// The leaves and blocks of a tree of `n` leaves, each of one unit. It takes one step a level.
pub fn tree_units(n: u64) -> u64
    requires some { 1 ≤ n }
    requires small { n ≤ 2 ^ 40 }
    ensures units { result ≡ tree_units n }
    ensures bound { result < 2 * n }
{
    if n == 1 {
        1
    } else {
        n + tree_units(n.div_ceil(32))
    }
}

/// The tree blocks that the open group's changes write at most.
fn tree_blocks(sizes: &Sizes) -> u64
    requires { AreSmall sizes.now }
    ensures blocks { result ≡ tree_blocks sizes.now }
    ensures bound { result ≤ 15 * 2 ^ 20 }
{
    5 * sizes.blocks + 10 * sizes.objects
}

/// The words of the next streams at most.
fn words_to_come(sizes: &Sizes) -> u64
    requires { AreSmall sizes.now }
    ensures words { result ≡ words_to_come sizes.now }
    ensures bound { result < 2 ^ 44 }
{
    let hops = if sizes.snaps { 12 } else { 4 };
    sizes.words + 2 * (sizes.gone + hops) * tree_blocks(sizes) + 10 * sizes.uncopied + 64
}

/// The units of the head.
fn head_units(sizes: &Sizes) -> u64
    requires { AreSmall sizes.now }
    ensures units { result ≡ head_units sizes.now }
    ensures bound { result < 2 ^ 37 }
{
    tree_units((535 + 17 * sizes.streams).div_ceil(512))
}

/// The units of the head and of the streams at most, the metadata in their late sets left out.
fn stream_units(sizes: &Sizes) -> u64
    requires { AreSmall sizes.now }
    ensures units { result ≡ stream_units sizes.now }
    ensures bound { result < 2 ^ 43 }
{
    head_units(sizes) + 4 * sizes.streams + 2 + words_to_come(sizes).div_ceil(128)
}

/// The units that the next metadata takes at most.
pub fn metadata_units(sizes: &Sizes) -> u64
    requires { AreSmall sizes.now }
    ensures units { result ≡ metadata_units sizes.now }
    ensures past { sizes.now.past ≤ result }
    ensures bound { result < 2 ^ 44 }
{
    let streams = stream_units(sizes);
    sizes.past.max(streams + streams.div_ceil(63))
}

/// The units that the commits to come may take.
pub fn owed(sizes: &Sizes) -> u64
    requires { AreSmall sizes.now }
    ensures owed { result ≡ owed sizes.now }
    ensures bound { result < 2 ^ 47 }
{
    tree_blocks(sizes) + sizes.uncopied + 6 * metadata_units(sizes) - sizes.turning
}

/// The units that new blocks leave free, of so many units in service.
pub fn slop(units: u64) -> u64
    ensures { result ≡ slop units }
{
    (units / 32).max(64)
}

#[cfg(test)]
mod tests {
    use super::*;
    use std::test::Fail;

    const SMALL: Sizes = Sizes {
        blocks: 2,
        objects: 1,
        words: 100,
        streams: 6,
        gone: 0,
        uncopied: 0,
        turning: 1,
        past: 1,
        snaps: false,
    };

    const LARGE: Sizes = Sizes {
        blocks: 64,
        objects: 64,
        words: 5000,
        streams: 23,
        gone: 2,
        uncopied: 300,
        turning: 11,
        past: 11,
        snaps: false,
    };

    #[test]
    fn what_is_owed(rt: HostRuntime) -> Result<(), Fail> {
        assert_eq!(rt; owed(&SMALL), 217);
        assert_eq!(rt; owed(&LARGE), 2773);
        assert_eq!(rt; slop(896), 64);
        assert_eq!(rt; slop(15232), 476);
        Ok(())
    }

    #[test]
    fn trees(rt: HostRuntime) -> Result<(), Fail> {
        assert_eq!(rt; height(1), 0);
        assert_eq!(rt; height(33), 2);
        assert_eq!(rt; height(33554432), 5);
        assert_eq!(rt; tree_units(33), 36);
        Ok(())
    }
}
