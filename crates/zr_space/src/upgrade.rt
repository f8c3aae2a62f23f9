//! The version of the format, by which the words of a root are counted.
ghost use Rattle.std.specs.Prelude.{◌≡◌};

use crate::space::Space;

impl Space {
    /// Counts words as the second version spells them from now on. All else of the space stays. It takes no memory.
    pub fn upgrade(&mut self)
        ensures { self.new ≡ record self.old { parts = record self.old.parts { version = 2 } } }
    {
        self.whole.version = 2;
    }
}
