//! One changed object, and the search in what is kept by rising key.
//!
//! Changed objects and changed blocks are sorted arrays, so a look-up halves them, and a change moves at most what is
//! above it.
ghost use Rattle.std.specs.Prelude.{◌≡◌, ℕ, [], length, is_some, not, if◌then◌else◌, IfOk, IfErr, OnOk, OnErr, Some};
ghost use Rattle.zr_txg.specs.Tables.{IsRising, value_at, put_value, HasKeyAt, LacksKeyAt};
ghost use Rattle.zr_txg.specs.Changes.{ObjectChange, with_block, with_record};

use std::alloc::Global;
use std::marker::Model;
use zr_base::NoMemory;
use zr_bptr::{ObjRec, Ptr};

/// The last record of an object, None where it was dropped, and the last change of each changed block by index.
#[derive(Drop)]
pub struct Changed {
    object: Option<ObjRec>,
    blocks: Vec<(u64, Ptr)>,
}

impl Model for Changed {
    ghost use Rattle.zr_txg.specs.Changes.{ObjectChange};

    ghost Value = { ObjectChange };

    ghost view = { λ c. record { object = c.object; blocks = c.blocks.items } };
}

impl Changed {
    /// Without changed blocks. It takes no memory.
    pub fn new(alloc: Global, object: Option<ObjRec>) -> Changed
        ensures object { result.object ≡ object }
        ensures blocks { result.blocks ≡ [] }
    {
        Changed {
            object,
            blocks: Vec::new(alloc),
        }
    }

    pub fn object(&self) -> Option<ObjRec>
        ensures { result ≡ self.now.object }
    {
        self.object
    }

    pub fn blocks(&self) -> &[(u64, Ptr)]
        ensures { result.now ≡ self.now.blocks }
    {
        self.blocks.as_slice()
    }

    /// Puts the change of a block, and tells whether the block had none.
    pub fn put(&mut self, index: u64, p: Ptr) -> Result<bool, NoMemory>
        requires { IsRising self.old.blocks }
        ensures put { OnOk result (self.new ≡ with_block self.old index p) }
        ensures added { IfOk result (λ added. added ≡ not (is_some (value_at self.old.blocks index))) }
        ensures err { OnErr result (self.new ≡ self.old) }
    {
        match place_of_block(self.blocks.as_slice(), index) {
            Ok(i) => {
                self.blocks[i] = (index, p);
                Ok(false)
            }
            Err(i) => {
                self.blocks.insert(i, (index, p))?;
                Ok(true)
            }
        }
    }

    /// Puts a record, and takes out the changed blocks where the object is dropped. It tells how many came out.
    pub fn set_object(&mut self, object: Option<ObjRec>) -> u64
        ensures set { self.new ≡ with_record (Some self.old) object }
        ensures taken { result ≡ (if is_some object then 0 else length self.old.blocks) }
    {
        self.object = object;
        if object.is_some() {
            return 0;
        }
        let taken = self.blocks.len() as u64;
        self.blocks.clear();
        taken
    }
}

/// Where the change of a block is, or else where it would be. Logarithmic in the changes.
pub fn place_of_block(blocks: &[(u64, Ptr)], index: u64) -> Result<usize, usize>
    requires { IsRising blocks.now }
    ensures found { IfOk result (λ i. HasKeyAt blocks.now index i) }
    ensures missing { IfErr result (λ i. LacksKeyAt blocks.now index i) }
{
    blocks.binary_search_by_key(&index, |e| e.0)
}

/// Where a changed object is, or else where it would be. Logarithmic in the objects.
pub fn place_of_object(objects: &[(u32, Changed)], id: u32) -> Result<usize, usize>
    requires { IsRising objects.now }
    ensures found { IfOk result (λ i. HasKeyAt objects.now id i) }
    ensures missing { IfErr result (λ i. LacksKeyAt objects.now id i) }
{
    objects.binary_search_by_key(&id, |e| e.0)
}
