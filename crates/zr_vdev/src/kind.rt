//! What is put, and where.
ghost use Rattle.std.specs.Prelude.{◌≡◌, ◌<◌, ◌≤◌, ℕ, OnErr, IfOk, IfErr};
ghost use Rattle.zr_base.specs.declared.space.Policy.{Policy};
ghost use Rattle.zr_rules.specs.Frees.{Allocates, AllocatesMeta};
ghost use Rattle.zr_space.specs.Causes.{HasCause};
ghost use Rattle.zr_space.specs.Drops.{IsMeta};
ghost use Rattle.zr_space.specs.Live.{IsLive};

use zr_base::Dva;
use zr_choose::Chooser;
use zr_space::{Space, SpaceErr};

/// What blocks are for.
#[derive(Clone, Copy, Debug, PartialEq, Eq)]
pub enum Kind {
    /// Blocks of objects, trees and directories, which are freed.
    Block,
    /// Metadata, which no space map has. It is given back as such, and never freed.
    Meta,
}

/// What takes units of a space: a chooser.
pub trait Place {
    /// How it picks a run.
    ghost policy: { Self → Policy };

    /// Takes units for a block of the open group.
    fn take(&self, space: &mut Space, want: u64) -> Result<Dva, SpaceErr>
        requires some { 0 < want }
        requires few { want ≤ 256 }
        ensures ok { IfOk result (Allocates (policy self.now) want space.old space.new) }
        ensures live { IfOk result (IsLive space.new) }
        ensures cause { IfErr result (HasCause space.old want) }
        ensures err { OnErr result (space.new ≡ space.old) };

    /// Takes units for metadata.
    fn take_meta(&self, space: &mut Space, want: u64) -> Result<Dva, SpaceErr>
        requires some { 0 < want }
        requires few { want ≤ 256 }
        ensures ok { IfOk result (AllocatesMeta (policy self.now) want space.old space.new) }
        ensures meta { IfOk result (IsMeta space.new) }
        ensures cause { IfErr result (HasCause space.old want) }
        ensures err { OnErr result (space.new ≡ space.old) };
}

impl Place for Chooser {
    ghost policy = { λ chooser. chooser.policy };

    fn take(&self, space: &mut Space, want: u64) -> Result<Dva, SpaceErr> {
        space.alloc(want, self)
    }

    fn take_meta(&self, space: &mut Space, want: u64) -> Result<Dva, SpaceErr> {
        space.alloc_meta(want, self)
    }
}

/// Where and how blocks are put.
pub struct Mount<'a, P: Place> {
    /// The slot of each device.
    pub slots: &'a [Option<u32>],
    pub pick: &'a P,
    /// The open group, at least 1.
    pub txg: u64,
    pub kind: Kind,
}

impl<P: Place> Drop for Mount<'_, P> {
    fn drop(self) {
        let Mount {
            slots: _,
            pick: _,
            txg: _,
            kind: _,
        } = self;
    }
}
