//! The tree of a set, whose top node has the lowest page.
//!
//! A set is often emptied from its lowest unit up. So its lowest page stands on top, with nothing on its low side, and all
//! others in a balanced tree on its high side: to take out the lowest units needs no way down. Where that page is empty,
//! the lowest page of the others comes in its place.
ghost use Rattle.std.specs.Prelude.{◌≡◌, ℕ, ◌+◌, ◌^◌, ◌<◌, ◌≤◌, ◌∷◌, [], length, vec_len, min, IsOk, IfOk, IfSome, IfNone, OnOk, OnErr};
ghost use Rattle.zr_base.specs.Extents.{IsMaximal, HasAll, HasNone, AddsUnits, RemovesUnits, extent_at};
ghost use Rattle.zr_paged.specs.Pages.{all_of, pages_in, AreFit, ArePages, IsClear, IsFront, IsHollow, TakesNext};
ghost use Rattle.zr_paged.specs.declared.tree.Tree.{Empty};

use crate::change::{add, add_here, cut, goes_high, remove, take_next};
use crate::page::{PAGE, Page};
use crate::tree::{Node, Tree, is_empty, pop_lowest, push_lowest};
use std::alloc::Global;
use std::mem;
use zr_base::{Extent, NoMemory};

/// The first extent of the lowest page.
pub fn lowest(front: &Tree) -> Option<Extent>
    requires front { IsFront front.now }
    requires fit { AreFit (pages_in front.now) }
    ensures some { IfSome result (λ e. (0 < length (all_of (pages_in front.now))) × (e ≡ extent_at (all_of (pages_in front.now)) 0)) }
    ensures not_empty { IfSome result (λ e. 0 < e.len) }
    ensures in_range { IfSome result (λ e. e.start + e.len ≤ 2 ^ 62) }
    ensures none { IfNone result (all_of (pages_in front.now) ≡ []) }
{
    match front {
        Tree::Empty => None,
        Tree::Fork(node) => Some(node.page.first()),
    }
}

/// Takes out the lowest units of the lowest page.
pub fn take_in(front: &mut Tree, n: u64) -> Extent
    requires some { 0 < length (all_of (pages_in front.old)) }
    requires units { 0 < n }
    requires front { IsFront front.old }
    requires pages { ArePages (pages_in front.old) }
    ensures start { result.start ≡ (extent_at (all_of (pages_in front.old)) 0).start }
    ensures len { result.len ≡ min n (extent_at (all_of (pages_in front.old)) 0).len }
    ensures not_empty { 0 < result.len }
    ensures in_range { result.start + result.len ≤ 2 ^ 62 }
    ensures covered { HasAll (all_of (pages_in front.old)) result }
    ensures removed { RemovesUnits (all_of (pages_in front.old)) (all_of (pages_in front.new)) result }
    ensures fit { AreFit (pages_in front.new) }
    ensures front { IsFront front.new }
{
    let taken;
    match front {
        Tree::Empty => unreachable!(),
        Tree::Fork(node) => {
            taken = node.page.take_front(n);
            if node.page.len() > 0 {
                return taken;
            }
        }
    }
    refill(front);
    taken
}

/// Puts in the units of an extent that has none in the pages.
pub fn add_in(front: &mut Tree, ready: &mut Vec<Box<Node>>, e: Extent)
    requires not_empty { 0 < e.len }
    requires in_range { e.start + e.len ≤ 2 ^ 62 }
    requires front { IsFront front.old }
    requires pages { ArePages (pages_in front.old) }
    requires apart { HasNone (all_of (pages_in front.old)) e }
    requires room { 0 < vec_len ready.old }
    ensures added { AddsUnits (all_of (pages_in front.old)) (all_of (pages_in front.new)) e }
    ensures fit { AreFit (pages_in front.new) }
    ensures front { IsFront front.new }
    ensures spare { vec_len ready.old ≤ vec_len ready.new + 1 }
{
    if let Some(next) = take_next_in(front, e.start + e.len) {
        let whole = Extent {
            start: e.start,
            len: e.len + next.len,
        };
        add_clear(front, ready, whole);
        return;
    }
    add_clear(front, ready, e);
}

// The same where no page starts at the end of the extent.
fn add_clear(front: &mut Tree, ready: &mut Vec<Box<Node>>, e: Extent)
    requires not_empty { 0 < e.len }
    requires in_range { e.start + e.len ≤ 2 ^ 62 }
    requires front { IsFront front.old }
    requires pages { ArePages (pages_in front.old) }
    requires apart { HasNone (all_of (pages_in front.old)) e }
    requires clear { IsClear (pages_in front.old) (e.start + e.len) }
    requires room { 0 < vec_len ready.old }
    ensures added { AddsUnits (all_of (pages_in front.old)) (all_of (pages_in front.new)) e }
    ensures fit { AreFit (pages_in front.new) }
    ensures front { IsFront front.new }
    ensures spare { vec_len ready.old ≤ vec_len ready.new + 1 }
{
    match front {
        Tree::Empty => push_only(front, ready, e),
        Tree::Fork(node) => {
            if goes_high(node, e.start) {
                add(&mut node.high, ready, e);
                return;
            }
            add_here(node, ready, e);
        }
    }
}

// Puts in the first page, with one extent.
fn push_only(front: &mut Tree, ready: &mut Vec<Box<Node>>, e: Extent)
    requires not_empty { 0 < e.len }
    requires in_range { e.start + e.len ≤ 2 ^ 62 }
    requires room { 0 < vec_len ready.old }
    ensures all { all_of (pages_in front.new) ≡ e ∷ [] }
    ensures fit { AreFit (pages_in front.new) }
    ensures front { IsFront front.new }
    ensures spare { vec_len ready.old ≤ vec_len ready.new + 1 }
{
    let Some(mut fresh) = ready.pop() else {
        unreachable!();
    };
    fresh.low = Tree::Empty;
    fresh.high = Tree::Empty;
    fresh.page.clear();
    fresh.page.push_first(e);
    *front = Tree::Fork(fresh);
}

// Takes the first extent of the page that starts at the unit, if one does.
fn take_next_in(front: &mut Tree, u: u64) -> Option<Extent>
    requires front { IsFront front.old }
    requires pages { ArePages (pages_in front.old) }
    ensures some { IfSome result (TakesNext (all_of (pages_in front.old)) (all_of (pages_in front.new)) u) }
    ensures none { IfNone result (IsClear (pages_in front.new) u) }
    ensures same { IfNone result (pages_in front.new ≡ pages_in front.old) }
    ensures fit { AreFit (pages_in front.new) }
    ensures front { IsFront front.new }
{
    let taken;
    match front {
        Tree::Empty => return None,
        Tree::Fork(node) => {
            if u < node.page.start() {
                return None;
            }
            if node.page.start() < u {
                return take_next(&mut node.high, u);
            }
            taken = node.page.take_first();
            if node.page.len() > 0 {
                return Some(taken);
            }
        }
    }
    refill(front);
    Some(taken)
}

/// Takes out the units of an extent that has all in the pages.
pub fn remove_in(front: &mut Tree, ready: &mut Vec<Box<Node>>, e: Extent)
    requires not_empty { 0 < e.len }
    requires front { IsFront front.old }
    requires pages { ArePages (pages_in front.old) }
    requires covered { HasAll (all_of (pages_in front.old)) e }
    requires room { 0 < vec_len ready.old }
    ensures removed { RemovesUnits (all_of (pages_in front.old)) (all_of (pages_in front.new)) e }
    ensures fit { AreFit (pages_in front.new) }
    ensures front { IsFront front.new }
    ensures spare { vec_len ready.old ≤ vec_len ready.new + 1 }
{
    match front {
        Tree::Empty => unreachable!(),
        Tree::Fork(node) => {
            if node.page.stop() <= e.start {
                remove(&mut node.high, ready, e);
                return;
            }
            node.page.remove(e);
            if node.page.len() > 0 {
                cut(node, ready);
                return;
            }
        }
    }
    refill(front);
}

// Takes the top node out, whose page is empty, and puts that with the lowest page in its place.
#[tactic(auto, using(crate::proofs::Trees::some_pages))]
fn refill(front: &mut Tree)
    requires front { IsFront front.old }
    requires hollow { IsHollow front.old }
    ensures all { all_of (pages_in front.new) ≡ all_of (pages_in front.old) }
    ensures fit { AreFit (pages_in front.new) }
    ensures front { IsFront front.new }
{
    let Tree::Fork(mut node) = mem::replace(front, Tree::Empty) else {
        return;
    };
    if is_empty(&node.high) {
        return;
    }
    let mut least = pop_lowest(&mut node.high);
    least.low = Tree::Empty;
    least.high = mem::replace(&mut node.high, Tree::Empty);
    *front = Tree::Fork(least);
}

/// Adds an extent below all others: to the lowest page, or to a new one where that is full.
pub fn push_in(alloc: Global, front: &mut Tree, e: Extent) -> Result<(), NoMemory>
    requires front { IsFront front.old }
    requires fit { AreFit (pages_in front.old) }
    requires maximal { IsMaximal (e ∷ all_of (pages_in front.old)) }
    ensures ok { OnOk result (all_of (pages_in front.new) ≡ e ∷ all_of (pages_in front.old)) }
    ensures err { OnErr result (all_of (pages_in front.new) ≡ all_of (pages_in front.old)) }
    ensures fit { AreFit (pages_in front.new) }
    ensures front { IsFront front.new }
{
    if let Tree::Fork(node) = front {
        if node.page.len() < PAGE {
            node.page.push_first(e);
            return Ok(());
        }
    }
    let mut fresh = new_node(alloc)?;
    fresh.page.push_first(e);
    push_front(front, fresh);
    Ok(())
}

// Puts a page below all others.
fn push_front(front: &mut Tree, mut fresh: Box<Node>)
    requires front { IsFront front.old }
    requires low { fresh.value.low ≡ Empty }
    requires high { fresh.value.high ≡ Empty }
    ensures pages { pages_in front.new ≡ fresh.value.page ∷ pages_in front.old }
    ensures front { IsFront front.new }
{
    if let Tree::Fork(mut old) = mem::replace(front, Tree::Empty) {
        let mut high = mem::replace(&mut old.high, Tree::Empty);
        push_lowest(&mut high, old);
        fresh.high = high;
    }
    *front = Tree::Fork(fresh);
}

// A node with an empty page.
fn new_node(alloc: Global) -> Result<Box<Node>, NoMemory>
    ensures low { IfOk result (λ node. node.value.low ≡ Empty) }
    ensures high { IfOk result (λ node. node.value.high ≡ Empty) }
    ensures page { IfOk result (λ node. node.value.page ≡ []) }
{
    let page = Page::new(alloc)?;
    Ok(Box::new(
        alloc,
        Node {
            low: Tree::Empty,
            page,
            height: 1,
            high: Tree::Empty,
        },
    )?)
}

/// Makes nodes with empty pages, until so many stand ready.
pub fn make_ready(alloc: Global, ready: &mut Vec<Box<Node>>, wanted: usize) -> Result<(), NoMemory>
    ensures ok { OnOk result (wanted ≤ vec_len ready.new) }
    ensures room { wanted ≤ vec_len ready.old → IsOk result }
    ensures more { vec_len ready.old ≤ vec_len ready.new }
{
    while ready.len() < wanted {
        let node = new_node(alloc)?;
        ready.push(node)?;
    }
    Ok(())
}
