//! The pages as a balanced tree.
//!
//! Each node has a page, a side of lower pages and a side of higher ones, and the heights of its sides differ by at most
//! one. So a way from the top to a page is logarithmic in their number. A change goes down one such way, and on the way
//! back each node is balanced again by moving a few links. No page moves.
ghost use Rattle.std.specs.Prelude.{◌≡◌, ◌<◌, ◌∷◌, ◌++◌, length, IsTrue, ◌↔◌};
ghost use Rattle.zr_paged.specs.Pages.{pages_in, pages_of};
ghost use Rattle.zr_paged.specs.declared.tree.Tree.{Empty};

use crate::page::Page;
use std::mem;

/// Pages in order.
#[cycle(tree)]
#[derive(Drop)]
pub enum Tree {
    Empty,
    Fork(Box<Node>),
}

/// A page with those below it and those above it.
#[cycle(tree)]
#[derive(Drop)]
pub struct Node {
    pub low: Tree,
    pub page: Page,
    pub height: u64,
    pub high: Tree,
}

/// Whether a tree has no page.
pub fn is_empty(tree: &Tree) -> bool
    ensures { IsTrue result ↔ (tree.now ≡ Empty) }
{
    match tree {
        Tree::Empty => true,
        Tree::Fork(_) => false,
    }
}

/// How many nodes the longest way down a tree has.
pub fn height_of(tree: &Tree) -> u64 {
    match tree {
        Tree::Empty => 0,
        Tree::Fork(node) => node.height,
    }
}

/// Balances a node again after a change of its low side, where that has another height than before. Where it has not, the
/// other side is not looked at.
pub fn balance_low(node: &mut Node, before: u64)
    ensures { pages_of node.new ≡ pages_of node.old }
{
    if height_of(&node.low) != before {
        balance(node);
    }
}

/// The same after a change of its high side.
pub fn balance_high(node: &mut Node, before: u64)
    ensures { pages_of node.new ≡ pages_of node.old }
{
    if height_of(&node.high) != before {
        balance(node);
    }
}

/// Balances a node of which a side has grown or shrunk by one.
pub fn balance(node: &mut Node)
    ensures { pages_of node.new ≡ pages_of node.old }
{
    let low = height_of(&node.low);
    let high = height_of(&node.high);
    if low > high.saturating_add(1) {
        lean_low(node);
        return;
    }
    if high > low.saturating_add(1) {
        lean_high(node);
        return;
    }
    node.height = low.max(high).saturating_add(1);
}

// The low side is two levels higher: its top comes up.
fn lean_low(node: &mut Node)
    ensures { pages_of node.new ≡ pages_of node.old }
{
    let Tree::Fork(low) = &mut node.low else {
        return;
    };
    if height_of(&low.low) < height_of(&low.high) {
        lift_high(low);
    }
    lift_low(node);
}

// The high side is two levels higher.
fn lean_high(node: &mut Node)
    ensures { pages_of node.new ≡ pages_of node.old }
{
    let Tree::Fork(high) = &mut node.high else {
        return;
    };
    if height_of(&high.high) < height_of(&high.low) {
        lift_low(high);
    }
    lift_high(node);
}

// Puts the top of the low side in the place of the node, which goes below it on the high side.
fn lift_low(node: &mut Node)
    ensures { pages_of node.new ≡ pages_of node.old }
{
    let Tree::Fork(mut low) = mem::replace(&mut node.low, Tree::Empty) else {
        return;
    };
    node.low = mem::replace(&mut low.high, Tree::Empty);
    measure(node);
    mem::swap(node, &mut *low);
    node.high = Tree::Fork(low);
    measure(node);
}

// Puts the top of the high side in the place of the node, which goes below it on the low side.
fn lift_high(node: &mut Node)
    ensures { pages_of node.new ≡ pages_of node.old }
{
    let Tree::Fork(mut high) = mem::replace(&mut node.high, Tree::Empty) else {
        return;
    };
    node.high = mem::replace(&mut high.low, Tree::Empty);
    measure(node);
    mem::swap(node, &mut *high);
    node.low = Tree::Fork(high);
    measure(node);
}

// Sets the height of a node by those of its sides.
fn measure(node: &mut Node)
    ensures { pages_of node.new ≡ pages_of node.old }
{
    let low = height_of(&node.low);
    let high = height_of(&node.high);
    node.height = low.max(high).saturating_add(1);
}

/// Puts a node with one page below all others.
pub fn push_lowest(tree: &mut Tree, mut fresh: Box<Node>)
    requires low { fresh.value.low ≡ Empty }
    requires high { fresh.value.high ≡ Empty }
    ensures { pages_in tree.new ≡ fresh.value.page ∷ pages_in tree.old }
{
    match tree {
        Tree::Empty => {
            fresh.height = 1;
            *tree = Tree::Fork(fresh);
        }
        Tree::Fork(node) => {
            let before = height_of(&node.low);
            push_lowest(&mut node.low, fresh);
            balance_low(node, before);
        }
    }
}

/// Takes out the node with the lowest page. What stands below it is of no account.
pub fn pop_lowest(tree: &mut Tree) -> Box<Node>
    requires { 0 < length (pages_in tree.old) }
    ensures { pages_in tree.old ≡ result.value.page ∷ pages_in tree.new }
{
    let Tree::Fork(mut node) = mem::replace(tree, Tree::Empty) else {
        unreachable!();
    };
    if is_empty(&node.low) {
        *tree = mem::replace(&mut node.high, Tree::Empty);
        return node;
    }
    let before = height_of(&node.low);
    let least = pop_lowest(&mut node.low);
    balance_low(&mut node, before);
    *tree = Tree::Fork(node);
    least
}

/// All pages of the first tree, and behind them those of the second.
pub fn join(low: Tree, mut high: Tree) -> Tree
    ensures { pages_in result ≡ pages_in low ++ pages_in high }
{
    if is_empty(&high) {
        return low;
    }
    let mut least = pop_lowest(&mut high);
    least.low = low;
    least.high = high;
    balance(&mut least);
    Tree::Fork(least)
}
