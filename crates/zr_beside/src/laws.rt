//! The laws, as calls that do nothing: a caller learns them by their contracts.
ghost use Rattle.std.specs.Prelude.{◌≡◌, ◌≢◌, ◌<◌, ℕ, List, [], ◌∷◌, ◌++◌, All};
ghost use Rattle.zr_bptr.specs.declared.Bptr.{Bptr};
ghost use Rattle.zr_bptr.specs.declared.Tree.{Tree};
ghost use Rattle.zr_store.specs.Store.{Stored, AreStored, IsOnce, Swaps, hits};
ghost use Rattle.zr_tree.specs.Trees.{tree_reach};
ghost use Rattle.zr_meta.specs.declared.Stream.{Stream};
ghost use Rattle.zr_root.specs.Streams.{HasBytes, StoresBytes, StoresWords};
ghost use Rattle.zr_commit.specs.Logs.{Rewrites};
ghost use Rattle.zr_beside.specs.Beside.{Standing, StandBeside, StandIn, Stands, blocks_of, of_stream, of_tree, rows_of};

/// Of trees beside each other the blocks of each one are stored, and its bytes stand in it.
pub fn one_stands()
    ensures stored { (s : Stored) (front back : List Standing) (w : Standing) → StandBeside s (front ++ w ∷ back) → AreStored (tree_reach s w.tree) s }
    ensures stands { (s : Stored) (front back : List Standing) (w : Standing) → StandBeside s (front ++ w ∷ back) → HasBytes s w.tree w.bytes }
{}

/// Where the blocks of some trees left the store and those of other trees with their bytes came, each tree beside them has
/// its bytes still.
pub fn others_stay()
    ensures { (s n : Stored) (front gone came back : List Standing) → StandBeside s (front ++ (gone ++ back)) → IsOnce n → Swaps s n (blocks_of s gone) (blocks_of n came) → All (Stands n) came → StandBeside n (front ++ (came ++ back)) }
{}

/// One tree stands in the place of another, and beside it stand those that stood there.
pub fn a_tree_is_replaced()
    ensures { (s n : Stored) (front back : List Standing) (w : Standing) (t : Tree) (bytes : List ℕ) → StandBeside s (front ++ w ∷ back) → IsOnce n → Swaps s n (tree_reach s w.tree) (tree_reach n t) → HasBytes n t bytes → StandBeside n (front ++ of_tree t bytes ∷ back) }
{}

/// Where the blocks of some trees were given back, the others stand still.
pub fn trees_are_given_back()
    ensures { (s n : Stored) (front gone back : List Standing) → StandBeside s (front ++ (gone ++ back)) → IsOnce n → Swaps s n (blocks_of s gone) [] → StandBeside n (front ++ back) }
{}

/// A tree that came stands beside those that stood there.
pub fn a_tree_comes()
    ensures { (s n : Stored) (front back : List Standing) (t : Tree) (bytes : List ℕ) → StandBeside s (front ++ back) → IsOnce n → StoresBytes s n t bytes → StandBeside n (front ++ of_tree t bytes ∷ back) }
{}

/// Where the same pointers are stored and have their bytes still, all trees stand as they stood.
pub fn they_stay()
    ensures { (s n : Stored) (all : List Standing) → StandBeside s all → n.pointers ≡ s.pointers → ((b : Bptr) → 0 < hits s.pointers b.at → n.bytes b ≡ s.bytes b) → StandBeside n all }
{}

/// The blocks of trees that stay are the same blocks, in the same order: beside trees whose blocks left the store, and where all
/// bytes stay.
pub fn their_blocks_stay()
    ensures beside { (s n : Stored) (front gone back : List Standing) (into : List Bptr) → StandIn s (front ++ (gone ++ back)) → Swaps s n (blocks_of s gone) into → blocks_of n (front ++ back) ≡ blocks_of s (front ++ back) }
    ensures all { (s n : Stored) (all : List Standing) → StandBeside s all → ((b : Bptr) → 0 < hits s.pointers b.at → n.bytes b ≡ s.bytes b) → blocks_of n all ≡ blocks_of s all }
{}

/// A stream that is rewritten has its new words, and the trees beside it stand as they stood.
pub fn a_stream_is_rewritten()
    ensures { (s n : Stored) (front back : List Standing) (was now : Stream) (ns ms : List ℕ) → StandBeside s (front ++ of_stream was ns ∷ back) → IsOnce n → Rewrites s n was now ms → StandBeside n (front ++ of_stream now ms ∷ back) }
{}

/// A stream that came has its words, and stands beside the trees that stood there.
pub fn a_stream_comes()
    ensures { (s n : Stored) (front back : List Standing) (stream : Stream) (ns : List ℕ) → StandBeside s (front ++ back) → IsOnce n → StoresWords s n stream ns → StandBeside n (front ++ of_stream stream ns ∷ back) }
{}

/// In which order the trees are told does not matter: some may change places with those that follow them.
pub fn another_order()
    ensures { (s : Stored) (front a b back : List Standing) → StandBeside s (front ++ (a ++ (b ++ back))) → StandBeside s (front ++ (b ++ (a ++ back))) }
{}

/// Of trees in rows one row may change: trees of it come in the place of others, and all other trees stand as they stood.
pub fn a_row_changes()
    ensures { (s n : Stored) (f g : ℕ → List Standing) (count d : ℕ) (first gone came last rest : List Standing) → d < count → ((i : ℕ) → i ≢ d → g i ≡ f i) → f d ≡ first ++ (gone ++ last) → g d ≡ first ++ (came ++ last)
        → StandBeside s (rows_of f count ++ rest) → IsOnce n → Swaps s n (blocks_of s gone) (blocks_of n came) → All (Stands n) came → StandBeside n (rows_of g count ++ rest) }
{}

/// The blocks of each tree of a row are stored, and its bytes stand in it.
pub fn one_of_a_row_stands()
    ensures { (s : Stored) (f : ℕ → List Standing) (count d : ℕ) (first last rest : List Standing) (w : Standing) → d < count → f d ≡ first ++ w ∷ last → StandBeside s (rows_of f count ++ rest) → AreStored (tree_reach s w.tree) s × HasBytes s w.tree w.bytes }
{}
