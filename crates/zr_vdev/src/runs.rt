//! From an address to the runs of its units.
ghost use Rattle.std.specs.Prelude.{◌≡◌, IfOk, IfErr};
ghost use Rattle.zr_chain.specs.Visits.{pieces_of};
ghost use Rattle.zr_rules.specs.Equation.{devices_in};
ghost use Rattle.zr_space.specs.Paths.{LeadsNowhere};
ghost use Rattle.zr_vdev.specs.Runs.{AreRunsOf};

use std::alloc::Global;
use zr_base::{Dva, Extent, NoMemory};
use zr_chain::{ChainErr, Visit, Visited};
use zr_imap::Piece;
use zr_space::Space;

/// Keeps all that it is told.
#[derive(Drop)]
struct Told {
    visits: Vec<Visited>,
}

impl Visit for Told {
    ghost visited = { λ t. t.visits.items };

    fn hop(&mut self, dev: u32, e: Extent) -> Result<(), NoMemory> {
        self.visits.push(Visited::Hop { dev, at: e })?;
        Ok(())
    }

    fn piece(&mut self, split: u64, dev: u32, e: Extent) -> Result<(), NoMemory> {
        self.visits.push(Visited::Piece { split, dev, at: e })?;
        Ok(())
    }
}

// The parts that are there.
fn pieces_of(alloc: Global, visits: Vec<Visited>) -> Result<Vec<Piece>, NoMemory>
    ensures { IfOk result (λ pieces. pieces.items ≡ pieces_of visits.items) }
{
    let mut pieces = Vec::new(alloc);
    for visit in visits {
        match visit {
            Visited::Hop { .. } => {}
            Visited::Piece { split, dev, at } => pieces.push(Piece { split, dev, at })?,
        }
    }
    Ok(pieces)
}

/// Where the units of an address stand, in their order. It costs what the walk over removed devices costs.
pub fn resolve(alloc: Global, space: &Space, at: Dva) -> Result<Vec<Piece>, ChainErr>
    ensures runs { IfOk result (λ runs. AreRunsOf (devices_in space.now) at runs.items) }
    ensures nowhere { IfErr result (LeadsNowhere (devices_in space.now) at) }
{
    let mut told = Told {
        visits: Vec::new(alloc),
    };
    space.remap(at, &mut told)?;
    let runs = pieces_of(alloc, told.visits)?;
    Ok(runs)
}
