//! What a cache holds.
ghost use Rattle.zr_cache.specs.Sums.{HaveSums};

use crate::entry::{Block, Key};
use lru::LruCache;

/// A cache of blocks. A full one forgets the block that was asked for least recently. What is cached has the sum of its
/// pointer.
#[derive(Drop)]
pub struct Cache {
    pub(crate) blocks: LruCache<Key, Block>,
    ghost sums: { HaveSums blocks.entries },
}
