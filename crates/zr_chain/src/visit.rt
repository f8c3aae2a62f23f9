//! Who is told of the parts of an address, and why a part has none.
ghost use Rattle.std.specs.Prelude.{◌≡◌, ◌++◌, ◌∷◌, [], List, OnOk, OnErr};
ghost use Rattle.zr_chain.specs.declared.visit.ChainErr.TheVariants.{NoMemory};
ghost use Rattle.zr_chain.specs.declared.visit.Visited.{Visited};
ghost use Rattle.zr_chain.specs.declared.visit.Visited.TheVariants.{Hop, Piece};

use std::alloc::{AllocError, Global};
use zr_base::{Extent, NoMemory};

/// What is told of a part of an address: units of a removed device are on the way, or units stand on a device that is
/// there, with `split` units of the address before them.
#[derive(Clone, Copy, Debug, PartialEq, Eq)]
pub enum Visited {
    Hop { dev: u32, at: Extent },
    Piece { split: u64, dev: u32, at: Extent },
}

/// Is told of each part of an address.
pub trait Visit {
    /// What was told, in order.
    ghost visited: { Self → List Visited };

    /// Units of a removed device are on the way.
    fn hop(&mut self, dev: u32, e: Extent) -> Result<(), NoMemory>
        ensures ok { OnOk result (visited self.new ≡ visited self.old ++ Hop dev e ∷ []) }
        ensures err { OnErr result (visited self.new ≡ visited self.old) };

    /// Units stand on a device that is there. `split` units of the address are before them.
    fn piece(&mut self, split: u64, dev: u32, e: Extent) -> Result<(), NoMemory>
        ensures ok { OnOk result (visited self.new ≡ visited self.old ++ Piece split dev e ∷ []) }
        ensures err { OnErr result (visited self.new ≡ visited self.old) };
}

/// Keeps what it is told, in order.
#[derive(Drop)]
pub struct Collected {
    pub list: Vec<Visited>,
}

impl Collected {
    /// Nothing yet. It takes no memory.
    pub fn new(alloc: Global) -> Collected
        ensures { result.list.items ≡ [] }
    {
        Collected {
            list: Vec::new(alloc),
        }
    }
}

impl Visit for Collected {
    ghost visited = { λ c. c.list.items };

    fn hop(&mut self, dev: u32, at: Extent) -> Result<(), NoMemory> {
        self.list.push(Visited::Hop { dev, at })?;
        Ok(())
    }

    fn piece(&mut self, split: u64, dev: u32, at: Extent) -> Result<(), NoMemory> {
        self.list.push(Visited::Piece { split, dev, at })?;
        Ok(())
    }
}

/// Why an address was not followed to its end.
#[derive(Clone, Copy, Debug, PartialEq, Eq)]
pub enum ChainErr {
    /// A unit on the way is not in the mapping of its device.
    NoEntry { dev: u32, unit: u64 },
    /// Memory ran out.
    NoMemory,
}

impl From<NoMemory> for ChainErr {
    ghost from_gives = { λ _ e. e ≡ NoMemory };

    fn from(_: NoMemory) -> Self {
        ChainErr::NoMemory
    }
}
