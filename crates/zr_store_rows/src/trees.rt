//! Trees in memory: a tree that grows to its full height, changes beside a table, and roots that lead nowhere.
ghost use Rattle.std.specs.Prelude.{◌<◌, ◌^◌, IfOk, length};
ghost use Rattle.zr_bptr.specs.Spelling.{IsTree};
ghost use Rattle.zr_tree.specs.Blocks.{FitsAt};

use std::alloc::{AllocError, Global};
use std::collections::BTreeMap;
use std::test::Fail;
use zr_base::Dva;
use zr_bptr::{Bptr, Ptr, Tree, is_pointer, is_tree};
use zr_store::{Blocks, MemBlocks, StoreErr};
use zr_tree::{Mark, frame, get, set_all, walk, walk_marked};

const NO_TREE: Tree = Tree {
    root: Ptr::Hole,
    height: 0,
};

// Lets so many pointers be marked.
#[derive(Drop)]
struct Some32 {
    marked: Vec<Bptr>,
    refused: Vec<Bptr>,
    most: usize,
}

impl Mark for Some32 {
    ghost marked = { λ m. m.marked.items };

    ghost refused = { λ m. length m.refused.items };

    fn mark(&mut self, p: &Bptr) -> Result<bool, AllocError> {
        if self.marked.len() >= self.most {
            self.refused.push(*p)?;
            return Ok(false);
        }
        self.marked.push(*p)?;
        Ok(true)
    }
}

#[test]
fn grows_to_its_full_height(rt: HostRuntime) -> Result<(), Fail> {
    let alloc = rt.alloc();
    let mut store = MemBlocks::new(alloc, 64);
    let a = store.put(alloc, &[1; 4096], 0)?;
    let b = store.put(alloc, &[2; 4096], 0)?;
    let t = Tree {
        root: Ptr::At(a),
        height: 0,
    };
    let u = set_all(alloc, &mut store, &t, &[(33554431, Ptr::At(b))])?;
    assert_eq!(rt; u.height, 5);
    assert_eq!(rt; (store.next, store.kept.len()), (11, 11));
    assert_eq!(rt; get(alloc, &mut store, &u, 0)?, Ptr::At(a));
    assert_eq!(rt; get(alloc, &mut store, &u, 33554431)?, Ptr::At(b));
    assert_eq!(rt; get(alloc, &mut store, &u, 1)?, Ptr::Hole);
    let all = walk(alloc, &mut store, &u)?;
    assert_eq!(rt; all.len(), 11);
    let mut m = Some32 {
        marked: Vec::new(alloc),
        refused: Vec::new(alloc),
        most: 11,
    };
    assert!(rt; walk_marked(alloc, &mut store, &u, &mut m)?);
    assert_eq!(rt; m.marked.as_slice(), all.as_slice());
    let mut few = Some32 {
        marked: Vec::new(alloc),
        refused: Vec::new(alloc),
        most: 7,
    };
    assert!(rt; !walk_marked(alloc, &mut store, &u, &mut few)?);
    assert_eq!(rt; (few.marked.len(), few.refused.len()), (7, 1));
    assert!(rt; all.as_slice().starts_with(few.marked.as_slice()));
    Ok(())
}

#[test]
fn changes_as_a_table_does(rt: HostRuntime) -> Result<(), Fail> {
    let alloc = rt.alloc();
    let mut store = MemBlocks::new(alloc, 64);
    let a = Ptr::At(store.put(alloc, &[1; 4096], 0)?);
    let b = Ptr::At(store.put(alloc, &[2; 4096], 0)?);
    let none = Tree {
        root: Ptr::Hole,
        height: 0,
    };
    let one = set_all(alloc, &mut store, &none, &[(0, a), (31, b)])?;
    assert_eq!(rt; (one.height, store.kept.len()), (1, 3));
    let two = set_all(alloc, &mut store, &one, &[(31, a), (32, b), (1023, b)])?;
    assert_eq!(rt; (two.height, store.kept.len()), (2, 6));
    let three = set_all(
        alloc,
        &mut store,
        &two,
        &[(0, Ptr::Hole), (32, a), (1023, Ptr::Hole)],
    )?;
    assert_eq!(rt; (three.height, store.kept.len()), (2, 5));
    for (index, leaf) in [
        (0, Ptr::Hole),
        (1, Ptr::Hole),
        (31, a),
        (32, a),
        (1023, Ptr::Hole),
        (1024, Ptr::Hole),
    ] {
        assert_eq!(rt; get(alloc, &mut store, &three, index)?, leaf, "at {index}");
    }
    let gone = set_all(
        alloc,
        &mut store,
        &three,
        &[(31, Ptr::Hole), (32, Ptr::Hole)],
    )?;
    assert_eq!(rt; (gone.root, store.kept.len()), (Ptr::Hole, 2));
    Ok(())
}

fn root(at: Dva, sum: [u8; 32]) -> Bptr {
    Bptr {
        at,
        level: 1,
        birth: 1,
        fill: 1,
        sum,
    }
}

#[test]
fn tells_of_a_bad_root(rt: HostRuntime) -> Result<(), Fail> {
    let alloc = rt.alloc();
    let mut store = MemBlocks::new(alloc, 1);
    let zeros = store.put(alloc, &[0; 4096], 0)?;
    let at = zeros.at;
    let sum = zeros.sum;
    let other = [7; 32];
    let past = Dva { start: 1, ..at };
    for (root, error) in [
        (root(at, sum), StoreErr::Malformed { at, expected: sum }),
        (
            root(at, other),
            StoreErr::Damaged {
                at,
                expected: other,
                found: sum,
            },
        ),
        (
            root(past, sum),
            StoreErr::Unresolved {
                at: past,
                expected: sum,
            },
        ),
    ] {
        let t = Tree {
            root: Ptr::At(root),
            height: 1,
        };
        assert!(rt; is_tree(&t));
        assert_eq!(rt; get(alloc, &mut store, &t, 0).err(), Some(error));
        assert_eq!(rt; walk(alloc, &mut store, &t).err(), Some(error));
        let mut m = Some32 {
            marked: Vec::new(alloc),
            refused: Vec::new(alloc),
            most: 1,
        };
        assert_eq!(rt;
            walk_marked(alloc, &mut store, &t, &mut m).err(),
            Some(error)
        );
        assert_eq!(rt; m.marked.len(), 1);
        let changed = set_all(alloc, &mut store, &t, &[(0, Ptr::Hole)]);
        assert_eq!(rt; changed.err(), Some(error));
    }
    let holes = Tree {
        root: Ptr::Hole,
        height: 0,
    };
    let full = set_all(alloc, &mut store, &holes, &[(1, Ptr::At(zeros))]);
    assert_eq!(rt;
        full.err(),
        Some(StoreErr::NoRun {
            needed: 1,
            longest: 0
        })
    );
    frame();
    Ok(())
}

// A hole, or one of two leaves.
fn one_of(n: u64, a: Ptr, b: Ptr) -> Ptr
    requires first { FitsAt 0 a }
    requires second { FitsAt 0 b }
    ensures { FitsAt 0 result }
{
    match n % 3 {
        0 => Ptr::Hole,
        1 => a,
        _ => b,
    }
}

// Three rising indices, of which the last is often past the end of a lower tree.
fn three(n: u64) -> (u64, u64, u64)
    ensures low { result.0 < result.1 }
    ensures high { result.1 < result.2 }
    ensures most { result.2 < 2 ^ 25 }
{
    let low = n % 40;
    let mid = low + 1 + n / 40 % 1200;
    let high = mid + 1 + n / 48000 % 40000;
    (low, mid, high)
}

// The leaf that a map has at an index.
fn leaf_in(map: &BTreeMap<u64, Ptr>, index: u64) -> Ptr {
    match map.get(&index) {
        Some(leaf) => *leaf,
        None => Ptr::Hole,
    }
}

// Three changes of the tree, and the same of the map; the indices and some beside them then have the same leaves.
fn round(
    alloc: Global,
    store: &mut MemBlocks,
    map: &mut BTreeMap<u64, Ptr>,
    t: &Tree,
    n: u64,
    leaves: (Ptr, Ptr),
) -> Result<Tree, Fail>
    requires tree { IsTree t.now }
    requires first { FitsAt 0 leaves.0 }
    requires second { FitsAt 0 leaves.1 }
    ensures { IfOk result IsTree }
{
    let (a, b) = leaves;
    let (low, mid, high) = three(n);
    let changes = [
        (low, one_of(n / 7, a, b)),
        (mid, one_of(n / 11, a, b)),
        (high, one_of(n / 13, a, b)),
    ];
    let u = set_all(alloc, store, t, &changes)?;
    for (index, leaf) in &changes {
        map.insert(*index, *leaf)?;
    }
    for index in [low, low + 1, mid, mid + 32, high, high + 1024] {
        let leaf = get(alloc, store, &u, index)?;
        if leaf != leaf_in(map, index) {
            return Err(Fail::new("another leaf than the map's"));
        }
    }
    Ok(u)
}

// The leaves of a tree, by rising index.
fn leaves_of(alloc: Global, store: &mut MemBlocks, t: &Tree) -> Result<Vec<Ptr>, StoreErr>
    requires { IsTree t.now }
{
    let mut leaves = Vec::new(alloc);
    for b in &walk(alloc, store, t)? {
        if b.level == 0 {
            leaves.push(Ptr::At(*b))?;
        }
    }
    Ok(leaves)
}

// The tree without the leaves of the map, taken out one after the other.
fn emptied(
    alloc: Global,
    store: &mut MemBlocks,
    map: &BTreeMap<u64, Ptr>,
    t: &Tree,
) -> Result<Tree, StoreErr>
    requires { IsTree t.now }
    ensures { IfOk result IsTree }
{
    let mut u = *t;
    for (index, _) in map {
        if *index < 33554432 {
            u = set_all(alloc, store, &u, &[(*index, Ptr::Hole)])?;
        }
    }
    Ok(u)
}

#[test]
fn changes_as_a_map_does(rt: HostRuntime) -> Result<(), Fail> {
    let alloc = rt.alloc();
    let mut store = MemBlocks::new(alloc, 4000);
    let a = Ptr::At(store.put(alloc, &[1; 4096], 0)?);
    let b = Ptr::At(store.put(alloc, &[2; 4096], 0)?);
    let mut map = BTreeMap::new(alloc);
    let mut t = NO_TREE;
    let mut seed: u64 = 1;
    for _ in 0..36 {
        seed = seed
            .wrapping_mul(6364136223846793005)
            .wrapping_add(1442695040888963407);
        t = round(alloc, &mut store, &mut map, &t, seed / 2048, (a, b))?;
    }
    assert_eq!(rt; t.height, 4);
    let mut wanted = Vec::new(alloc);
    for (_, leaf) in &map {
        if *leaf != Ptr::Hole {
            wanted.push(*leaf)?;
        }
    }
    let found = leaves_of(alloc, &mut store, &t)?;
    assert_eq!(rt; found.as_slice(), wanted.as_slice());
    let none = emptied(alloc, &mut store, &map, &t)?;
    assert_eq!(rt;
        (none, store.kept.len()),
        (
            Tree {
                root: Ptr::Hole,
                height: 4
            },
            2
        )
    );
    Ok(())
}

#[test]
fn holes_past_the_end_change_nothing(rt: HostRuntime) -> Result<(), Fail> {
    let alloc = rt.alloc();
    let mut store = MemBlocks::new(alloc, 64);
    let a = Ptr::At(store.put(alloc, &[1; 4096], 0)?);
    let t = Tree { root: a, height: 0 };
    let same = set_all(alloc, &mut store, &t, &[(40, Ptr::Hole)])?;
    assert_eq!(rt; (same, store.next), (t, 1));
    let grown = set_all(alloc, &mut store, &t, &[(1, a), (40, Ptr::Hole)])?;
    assert_eq!(rt; (grown.height, store.next), (1, 2));
    Ok(())
}

// The first units of the tree blocks, each before those below it.
fn places_of(alloc: Global, store: &mut MemBlocks, t: &Tree) -> Result<Vec<u64>, StoreErr>
    requires { IsTree t.now }
{
    let mut places = Vec::new(alloc);
    for b in &walk(alloc, store, t)? {
        if b.level > 0 {
            places.push(b.at.start)?;
        }
    }
    Ok(places)
}

// The tree blocks of a change take rising units: first those of level 1 by rising index, then those of level 2, at last the
// root. The old ones are given back after that.
#[test]
fn puts_level_by_level(rt: HostRuntime) -> Result<(), Fail> {
    let alloc = rt.alloc();
    let mut store = MemBlocks::new(alloc, 64);
    let a = Ptr::At(store.put(alloc, &[1; 4096], 0)?);
    let first = set_all(
        alloc,
        &mut store,
        &NO_TREE,
        &[(0, a), (33, a), (1024, a), (32767, a)],
    )?;
    assert_eq!(rt; first.height, 3);
    let places = places_of(alloc, &mut store, &first)?;
    assert_eq!(rt; places.as_slice(), [8, 5, 1, 2, 6, 3, 7, 4].as_slice());
    let second = set_all(alloc, &mut store, &first, &[(1, a), (1025, a)])?;
    let places = places_of(alloc, &mut store, &second)?;
    assert_eq!(rt; places.as_slice(), [13, 11, 9, 2, 12, 10, 7, 4].as_slice());
    assert_eq!(rt; (store.next, store.kept.len()), (14, 9));
    let taller = set_all(
        alloc,
        &mut store,
        &second,
        &[(0, Ptr::Hole), (32768, a), (33792, a)],
    )?;
    assert_eq!(rt; taller.height, 4);
    let places = places_of(alloc, &mut store, &taller)?;
    assert_eq!(rt;
        places.as_slice(),
        [22, 20, 17, 14, 2, 12, 10, 7, 4, 21, 18, 15, 19, 16].as_slice()
    );
    assert_eq!(rt; (store.next, store.kept.len()), (23, 15));
    Ok(())
}

#[test]
fn puts_the_row_of_the_old_root(rt: HostRuntime) -> Result<(), Fail> {
    let alloc = rt.alloc();
    let mut store = MemBlocks::new(alloc, 64);
    let a = Ptr::At(store.put(alloc, &[1; 4096], 0)?);
    let t = Tree { root: a, height: 0 };
    let u = set_all(alloc, &mut store, &t, &[(1023, a)])?;
    let places = places_of(alloc, &mut store, &u)?;
    assert_eq!(rt; places.as_slice(), [3, 1, 2].as_slice());
    Ok(())
}
