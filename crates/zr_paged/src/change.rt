//! An extent is added to a tree of pages, or taken out.
//!
//! A change goes down one way from the top, to the page that has the extent's units or its lower neighbour. The upper
//! neighbour of a new extent may be the first extent of another page: that one is taken out before, and both go in as one.
ghost use Rattle.std.specs.Prelude.{◌≡◌, ℕ, ◌+◌, ◌^◌, ◌<◌, ◌≤◌, ◌∷◌, ◌++◌, [], false, length, vec_len, ◌⊎◌, IsTrue, IsFalse, IfSome, IfNone};
ghost use Rattle.zr_base.specs.Extents.{IsMaximal, HasAll, HasNone, AddsUnits, RemovesUnits, has_unit};
ghost use Rattle.zr_paged.specs.Runs.{start_of, stop_of};
ghost use Rattle.zr_paged.specs.Pages.{all_of, pages_in, pages_of, AreFit, IsOpen, IsHollow, ArePages, IsClear, TakesNext};

use crate::page::{PAGE, Page};
use crate::tree::{Node, Tree, balance_high, balance_low, height_of, is_empty, join, push_lowest};
use std::mem;
use zr_base::Extent;

/// Puts in the units of an extent that has none in the pages, of which none starts at its end.
pub fn add(tree: &mut Tree, ready: &mut Vec<Box<Node>>, e: Extent)
    requires not_empty { 0 < e.len }
    requires in_range { e.start + e.len ≤ 2 ^ 62 }
    requires some { 0 < length (pages_in tree.old) }
    requires pages { ArePages (pages_in tree.old) }
    requires apart { HasNone (all_of (pages_in tree.old)) e }
    requires clear { IsClear (pages_in tree.old) (e.start + e.len) }
    requires room { 0 < vec_len ready.old }
    ensures added { AddsUnits (all_of (pages_in tree.old)) (all_of (pages_in tree.new)) e }
    ensures fit { AreFit (pages_in tree.new) }
    ensures spare { vec_len ready.old ≤ vec_len ready.new + 1 }
{
    match tree {
        Tree::Empty => unreachable!(),
        Tree::Fork(node) => {
            if goes_low(node, e.start) {
                let before = height_of(&node.low);
                add(&mut node.low, ready, e);
                balance_low(node, before);
                return;
            }
            if goes_high(node, e.start) {
                let before = height_of(&node.high);
                add(&mut node.high, ready, e);
                balance_high(node, before);
                return;
            }
            let before = height_of(&node.high);
            add_here(node, ready, e);
            balance_high(node, before);
        }
    }
}

// Whether what starts at a unit goes to the low side of a node.
#[tactic(auto, using(crate::proofs::Trees::some_pages))]
fn goes_low(node: &Node, u: u64) -> bool
    ensures low { IsTrue result → u < start_of node.now.page }
    ensures some { IsTrue result → 0 < length (pages_in node.now.low) }
    ensures none { IsFalse result → start_of node.now.page ≤ u ⊎ pages_in node.now.low ≡ [] }
{
    u < node.page.start() && !is_empty(&node.low)
}

/// Whether it goes to the high side.
#[tactic(auto, using(crate::proofs::Trees::some_pages))]
pub fn goes_high(node: &Node, u: u64) -> bool
    ensures high { IsTrue result → stop_of node.now.page < u }
    ensures some { IsTrue result → 0 < length (pages_in node.now.high) }
    ensures none { IsFalse result → u ≤ stop_of node.now.page ⊎ pages_in node.now.high ≡ [] }
{
    node.page.stop() < u && !is_empty(&node.high)
}

/// Puts in the units of an extent that belongs to the page of a node.
pub fn add_here(node: &mut Node, ready: &mut Vec<Box<Node>>, e: Extent)
    requires not_empty { 0 < e.len }
    requires in_range { e.start + e.len ≤ 2 ^ 62 }
    requires pages { ArePages (pages_of node.old) }
    requires apart { HasNone (all_of (pages_of node.old)) e }
    requires clear { IsClear (pages_of node.old) (e.start + e.len) }
    requires from { start_of node.old.page ≤ e.start ⊎ pages_in node.old.low ≡ [] }
    requires to { e.start ≤ stop_of node.old.page ⊎ pages_in node.old.high ≡ [] }
    requires room { 0 < vec_len ready.old }
    ensures low { node.new.low ≡ node.old.low }
    ensures added { AddsUnits (all_of (pages_of node.old)) (all_of (pages_of node.new)) e }
    ensures fit { AreFit (pages_of node.new) }
    ensures spare { vec_len ready.old ≤ vec_len ready.new + 1 }
{
    node.page.add(e);
    cut(node, ready);
}

/// Takes out the units of an extent that has all in the pages.
pub fn remove(tree: &mut Tree, ready: &mut Vec<Box<Node>>, e: Extent)
    requires not_empty { 0 < e.len }
    requires pages { ArePages (pages_in tree.old) }
    requires covered { HasAll (all_of (pages_in tree.old)) e }
    requires room { 0 < vec_len ready.old }
    ensures removed { RemovesUnits (all_of (pages_in tree.old)) (all_of (pages_in tree.new)) e }
    ensures fit { AreFit (pages_in tree.new) }
    ensures spare { vec_len ready.old ≤ vec_len ready.new + 1 }
{
    match tree {
        Tree::Empty => unreachable!(),
        Tree::Fork(node) => {
            if e.start < node.page.start() {
                let before = height_of(&node.low);
                remove(&mut node.low, ready, e);
                balance_low(node, before);
                return;
            }
            if node.page.stop() <= e.start {
                let before = height_of(&node.high);
                remove(&mut node.high, ready, e);
                balance_high(node, before);
                return;
            }
            node.page.remove(e);
        }
    }
    settle(tree, ready);
}

/// Takes the first extent of the page that starts at the unit, if one does.
pub fn take_next(tree: &mut Tree, u: u64) -> Option<Extent>
    requires { ArePages (pages_in tree.old) }
    ensures some { IfSome result (TakesNext (all_of (pages_in tree.old)) (all_of (pages_in tree.new)) u) }
    ensures none { IfNone result (IsClear (pages_in tree.new) u) }
    ensures same { IfNone result (pages_in tree.new ≡ pages_in tree.old) }
    ensures fit { AreFit (pages_in tree.new) }
{
    let taken;
    match tree {
        Tree::Empty => return None,
        Tree::Fork(node) => {
            if u < node.page.start() {
                let before = height_of(&node.low);
                let taken = take_next(&mut node.low, u);
                balance_low(node, before);
                return taken;
            }
            if node.page.start() < u {
                let before = height_of(&node.high);
                let taken = take_next(&mut node.high, u);
                balance_high(node, before);
                return taken;
            }
            taken = node.page.take_first();
            if node.page.len() > 0 {
                return Some(taken);
            }
        }
    }
    drop_top(tree);
    Some(taken)
}

// After a change of the page on top: takes it out where it is empty, and else cuts it where it is too long.
fn settle(tree: &mut Tree, ready: &mut Vec<Box<Node>>)
    requires open { IsOpen tree.old }
    requires room { 0 < vec_len ready.old }
    ensures all { all_of (pages_in tree.new) ≡ all_of (pages_in tree.old) }
    ensures fit { AreFit (pages_in tree.new) }
    ensures spare { vec_len ready.old ≤ vec_len ready.new + 1 }
{
    match tree {
        Tree::Empty => return,
        Tree::Fork(node) => {
            if node.page.len() > 0 {
                let before = height_of(&node.high);
                cut(node, ready);
                balance_high(node, before);
                return;
            }
        }
    }
    drop_top(tree);
}

// Takes the top node out, whose page is empty.
fn drop_top(tree: &mut Tree)
    requires { IsHollow tree.old }
    ensures all { all_of (pages_in tree.new) ≡ all_of (pages_in tree.old) }
    ensures fit { AreFit (pages_in tree.new) }
{
    let Tree::Fork(mut node) = mem::replace(tree, Tree::Empty) else {
        return;
    };
    let low = mem::replace(&mut node.low, Tree::Empty);
    let high = mem::replace(&mut node.high, Tree::Empty);
    *tree = join(low, high);
}

/// Cuts the page of a node in half where it is too long. The upper half goes to a node that stands ready.
pub fn cut(node: &mut Node, ready: &mut Vec<Box<Node>>)
    requires short { length node.old.page ≤ 65 }
    requires maximal { IsMaximal node.old.page }
    requires room { 0 < vec_len ready.old }
    ensures low { node.new.low ≡ node.old.low }
    ensures page { 0 < length node.old.page → 0 < length node.new.page }
    ensures short { length node.new.page ≤ 64 }
    ensures all { node.new.page ++ all_of (pages_in node.new.high) ≡ node.old.page ++ all_of (pages_in node.old.high) }
    ensures fit { AreFit (pages_in node.old.high) → AreFit (pages_in node.new.high) }
    ensures spare { vec_len ready.old ≤ vec_len ready.new + 1 }
{
    if node.page.len() <= PAGE {
        return;
    }
    let Some(mut fresh) = ready.pop() else {
        unreachable!();
    };
    fresh.low = Tree::Empty;
    fresh.high = Tree::Empty;
    fresh.page.clear();
    move_half(&mut node.page, &mut fresh.page);
    mem::swap(&mut node.page, &mut fresh.page);
    push_lowest(&mut node.high, fresh);
}

// Moves the first 32 extents of a page to an empty one.
fn move_half(page: &mut Page, low: &mut Page)
    requires maximal { IsMaximal page.old }
    requires long { length page.old ≡ 65 }
    requires empty { low.old ≡ [] }
    ensures all { low.new ++ page.new ≡ page.old }
    ensures low { length low.new ≡ 32 }
    ensures high { length page.new ≡ 33 }
{
    while low.len() < PAGE / 2 {
        let first = page.take_first();
        low.push_last(first);
    }
}
