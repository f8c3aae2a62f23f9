//! Frees of blocks.
//!
//! What the open group allocated is free at once. The rest is deferred, so that the current root stays readable until two
//! commits are done, or kept where the root of a checkpoint may have it. An address may lead over devices that are gone: the
//! units that it passes there are obsolete from then on. On a device that is leaving the copies of its units go with them.
ghost use Rattle.std.specs.Prelude.{◌≡◌, [], IfOk, OnOk, OnErr};
ghost use Rattle.zr_chain.specs.Visits.{Visits};
ghost use Rattle.zr_rules.specs.Frees.{Frees, keeps};
ghost use Rattle.zr_rules.specs.Equation.{devices_in};
ghost use Rattle.zr_space.specs.FreeVisits.{CanFree};
ghost use Rattle.zr_space.specs.Live.{IsFreeable};

use crate::each::make_room;
use crate::space::Space;
use crate::visits::{all_units, free_visits};
use zr_base::{CkptPart, Dva, NoMemory};
use zr_chain::{ChainErr, Collected};

impl Space {
    /// Frees a block that was born in this transaction group. What the open group allocated is free at once. The rest is
    /// kept where a checkpoint is held that may have the block, and else deferred. What the address passes on devices that
    /// are gone is marked obsolete, and on a device that is leaving what was copied is marked and its copies are freed too.
    /// Memory is taken first, with a look at each device. It visits the parts of the address, and for each it is logarithmic
    /// in the extents of its device, for each run of it that the open group has or has not allocated.
    pub fn free(&mut self, a: Dva, birth: u64) -> Result<(), NoMemory>
        requires freeable { IsFreeable self.old a }
        ensures ok { OnOk result (Frees self.old self.new a birth) }
        ensures err { OnErr result (self.new ≡ self.old) }
    {
        let told = self.visits(a)?;
        let visits = told.list.as_slice();
        let kept = self.keeps(birth);
        make_room(&mut self.devs, all_units(visits)?)?;
        free_visits(&self.whole, &mut self.devs, &mut self.slabs, visits, kept);
        Ok(())
    }

    // Whether the units of a block that was born in this transaction group are kept when it is freed.
    fn keeps(&self, birth: u64) -> bool
        ensures { result ≡ keeps self.now.parts.ckpt birth }
    {
        match self.whole.ckpt {
            CkptPart::Held(txg) => birth <= txg,
            CkptPart::Clear | CkptPart::Discarding => false,
        }
    }

    // The visits of an address that may be freed.
    fn visits(&self, a: Dva) -> Result<Collected, NoMemory>
        requires { IsFreeable self.now a }
        ensures visits { IfOk result (λ told. Visits (devices_in self.now) a [] told.list.items) }
        ensures can { IfOk result (λ told. CanFree self.now told.list.items) }
    {
        self.lawful();
        let mut told = Collected::new(self.alloc);
        match self.remap(a, &mut told) {
            Ok(()) => Ok(told),
            Err(ChainErr::NoEntry { .. }) => unreachable!(),
            Err(ChainErr::NoMemory) => Err(NoMemory),
        }
    }
}
