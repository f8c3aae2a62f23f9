//! What holds of every set that is written anew: it replays to itself, and how many words it has more when it changes.
ghost use Rattle.zr_smap.specs.Laws.{AnewReplays, CanBeAnew, AddedWords, ShortWords, RemovedWords};

/// Read back, a set that was written anew is that set.
pub fn a_set_written_anew_replays()
    ensures { AnewReplays }
{}

/// A set that the version can spell can be written anew, with as many words as are reckoned.
pub fn a_set_can_be_written_anew()
    ensures { CanBeAnew }
{}

/// How the number of words of a set changes with an extent more or less: at most one word more for an extent of at most
/// 32,768 units that is put in, and for one that is taken out at most one in version 1 and two in version 2.
pub fn words_of_a_changed_set()
    ensures added { AddedWords }
    ensures short { ShortWords }
    ensures removed_1 { RemovedWords 1 1 }
    ensures removed_2 { RemovedWords 2 2 }
{}
