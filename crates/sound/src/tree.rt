// Node records: each by itself, its links both ways, the ends of the parent chains and the sum of the window starts.
ghost use Rattle.std.specs.Prelude.{◌≡◌, true, ◌&&◌, ◌≤◌, ◌<◌, eqb};
ghost use Rattle.logic.specs.Pick.{pick};
ghost use Rattle.sound.specs.Tree.{numbers_ok, linked_of, named_ok, below_ok, links_ok, node_ok, nodes_ok, links_to, step_to, chains_end, starts_sum, starts_ok};

use crate::Whole;
use node::Node;
use std::array;

// The numbers of one record, of a node that is there.
fn numbers_ok(n: Node, next: u32) -> bool
    requires { n.kind ≡ 0 → ⊥ }
    ensures { result ≡ numbers_ok n next }
{
    (n.kind <= 3)
        & (n.parent_offset <= n.parent_limit)
        & (u64::from(n.parent_limit) <= u64::from(n.parent_offset) + u64::from(n.size))
        & (n.size <= 64)
        & (n.owner < next)
        & (n.cache_policy <= 3)
}

// A word of the node that a link names; 0 for no node.
#[tactic(auto, unfolding(crate::specs::Tree::linked_of))]
fn linked(nodes: &[u32], link: u32, k: u32) -> u32
    ensures { result ≡ linked_of nodes.now link k }
{
    match link.checked_sub(1) {
        Some(node) => tables::word_at(nodes, node, k),
        None => 0,
    }
}

// A hidden node's two children name it, and another node has none.
fn children_ok(nodes: &[u32], node: u32, n: Node) -> bool
    ensures { result ≡ pick (eqb n.kind 3) (named_ok nodes.now node n) (eqb n.left 0 && eqb n.right 0) }
{
    if n.kind == Node::HIDDEN {
        let me = u64::from(node) + 1;
        (u64::from(linked(nodes, n.left, 1)) == me)
            & (u64::from(linked(nodes, n.right, 1)) == me)
            & (n.left != n.right)
    } else {
        (n.left == Node::NONE) & (n.right == Node::NONE)
    }
}

// A parent is hidden and names the node.
fn parent_ok(whole: Whole, node: u32, n: Node) -> bool
    ensures { result ≡ pick (eqb n.parent 0) true (below_ok whole.entry.nodes.now node n) }
{
    match n.parent.checked_sub(1) {
        Some(parent) => {
            let me = u64::from(node) + 1;
            let p = tables::node_at(whole.nodes, parent);
            (p.kind == Node::HIDDEN) & ((u64::from(p.left) == me) | (u64::from(p.right) == me))
        }
        None => true,
    }
}

fn links_ok(whole: Whole, node: u32, n: Node) -> bool
    ensures { result ≡ links_ok whole.entry.nodes.now node n }
{
    children_ok(whole.nodes, node, n) & parent_ok(whole, node, n)
}

fn node_ok(whole: Whole, node: u32, next: u32) -> bool
    requires { node < 64 }
    ensures { result ≡ node_ok whole.entry.nodes.now next node }
{
    let n = tables::record_at(whole.nodes, node);
    if n.kind == Node::FREE {
        (n == Node::free()) & (1 <= next)
    } else {
        numbers_ok(n, next) & links_ok(whole, node, n)
    }
}

// No early exit, which would be slower.
pub fn nodes_ok(whole: Whole, next: u32) -> bool
    ensures { result ≡ nodes_ok whole.entry.nodes.now next }
{
    (0..64).fold(true, |ok, node| ok & node_ok(whole, node, next))
}

// Place l holds the link to the parent of the node that link l names, so that a link is an index.
fn parents(nodes: &[u32]) -> [u32; 65]
    ensures { result ≡ links_to nodes.now 64 }
{
    array::from_fn(|link| linked(nodes, link as u32, 1))
}

// From the 2^r-th parents to the 2^(r+1)-th.
fn step_up(up: [u32; 65]) -> [u32; 65]
    ensures { result ≡ step_to up 65 }
{
    array::from_fn(|link| tables::at(&up, up[link] as usize))
}

// No node has a 64th parent. Most trees are shallow, so each step looks first whether all are done.
pub fn chains_end(nodes: &[u32]) -> bool
    ensures { result ≡ chains_end nodes.now }
{
    let mut up = parents(nodes);
    for _ in 0..6u32 {
        if up == [0; 65] {
            return true;
        }
        up = step_up(up);
    }
    up == [0; 65]
}

fn starts(nodes: &[u32]) -> u64
    ensures value { result ≡ starts_sum nodes.now }
    ensures small { result ≤ 274877906880 }
{
    (0..64)
        .map(|node| u64::from(tables::word_at(nodes, node, 4)))
        .sum()
}

#[tactic(auto, unfolding(crate::specs::Tree::starts_ok))]
pub fn starts_ok(nodes: &[u32], next: u32) -> bool
    ensures { result ≡ starts_ok nodes.now next }
{
    starts(nodes) + 64 <= 64 * u64::from(next)
}
