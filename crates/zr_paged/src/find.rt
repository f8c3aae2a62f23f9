//! The first units of a tree of pages from a unit on, the extent that has a unit, and all extents in order.
ghost use Rattle.std.specs.Prelude.{◌≡◌, ◌++◌, ◌<◌, ◌≤◌, OnOk, IfSome, IfNone, Some};
ghost use Rattle.zr_base.specs.Extents.{IsMaximal, HasAll, HasNoneFrom, IsFirstPart, end_of};
ghost use Rattle.zr_ranges.specs.Words.{run_of};
ghost use Rattle.zr_paged.specs.Pages.{all_of, pages_in, ArePages};

use crate::page::append_page;
use crate::tree::Tree;
use zr_base::{Extent, NoMemory};
use zr_ranges::RangeSet;

/// The part at or above a unit of the lowest extent that ends above it.
pub fn part_from(tree: &Tree, u: u64) -> Option<Extent>
    requires { ArePages (pages_in tree.now) }
    ensures some { IfSome result (IsFirstPart (all_of (pages_in tree.now)) u) }
    ensures none { IfNone result (HasNoneFrom (all_of (pages_in tree.now)) u) }
{
    match tree {
        Tree::Empty => None,
        Tree::Fork(node) => {
            if u < node.page.start() {
                if let Some(part) = part_from(&node.low, u) {
                    return Some(part);
                }
                return Some(node.page.first());
            }
            if u < node.page.stop() {
                return node.page.first_from(u);
            }
            part_from(&node.high, u)
        }
    }
}

// The extent that has a unit.
fn run_with(tree: &Tree, u: u64) -> Option<Extent>
    requires { ArePages (pages_in tree.now) }
    ensures { result ≡ run_of u (all_of (pages_in tree.now)) }
{
    match tree {
        Tree::Empty => None,
        Tree::Fork(node) => {
            if u < node.page.start() {
                return run_with(&node.low, u);
            }
            if u < node.page.stop() {
                return node.page.run_with(u);
            }
            run_with(&node.high, u)
        }
    }
}

/// The extent that has all units of another, which is covered.
pub fn run_around(tree: &Tree, e: Extent) -> Extent
    requires pages { ArePages (pages_in tree.now) }
    requires not_empty { 0 < e.len }
    requires covered { HasAll (all_of (pages_in tree.now)) e }
    ensures around { run_of e.start (all_of (pages_in tree.now)) ≡ Some result }
    ensures inside { end_of e ≤ end_of result }
{
    match run_with(tree, e.start) {
        Some(run) => run,
        None => unreachable!(),
    }
}

/// Adds all extents of a tree to a set, above all that it has.
pub fn append_tree(tree: &Tree, set: &mut RangeSet) -> Result<(), NoMemory>
    requires { IsMaximal (set.old.extents ++ all_of (pages_in tree.now)) }
    ensures { OnOk result (set.new.extents ≡ set.old.extents ++ all_of (pages_in tree.now)) }
{
    match tree {
        Tree::Empty => Ok(()),
        Tree::Fork(node) => {
            append_tree(&node.low, set)?;
            append_page(&node.page, set)?;
            append_tree(&node.high, set)
        }
    }
}
