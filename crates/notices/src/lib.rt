// Notices to mappings: range_change of an object (paged.rs 646 to 666) and of a mapping (vmar.rs 1010 to 1036), in pages.

#![tactic(auto)]

ghost use Rattle.std.specs.Prelude.{◌≡◌};
ghost use Rattle.outcome.specs.Lent.{SameList, told_at};
ghost use Rattle.notices.specs.Notices.{overlap_of, tell_place, tell_object, child_of, range_change};

use node::Node;
use outcome::{Notice, Notices};
use tables::{Mapping, Tree};

// Pages of a node from lo to hi, and what is due for them: any number, as the calls below answer for all.
#[derive(Clone, Copy)]
pub struct Span {
    pub lo: u64,
    pub hi: u64,
    pub op: u32,
}

// What a mapping shows of the pages.
#[tactic(auto, using(std::proofs::lemmas::Bool::Decides::nat_tests), unfolding(crate::specs::Notices::overlap_of))]
fn overlap(m: Mapping, span: Span) -> Option<Notice>
    ensures { result ≡ overlap_of m span.lo span.hi span.op }
{
    let first = m.first as u64;
    let start = span.lo.max(first);
    let end = (first + m.pages as u64).min(span.hi);
    if m.number == 0 || end <= start {
        return None;
    }
    Some(Notice {
        mapping: m.number - 1,
        first: (start - first) as u32,
        pages: (end - start) as u32,
        op: span.op,
    })
}

// The mapping at a place, if it is the object's.
#[tactic(auto, using(std::proofs::lemmas::Bool::Decides::nat_tests), unfolding(crate::specs::Notices::tell_place))]
fn tell_place(mappings: &[u32], notices: &mut Notices, place: u32, object: u32, span: Span)
    ensures same { SameList notices.old notices.new }
    ensures value { told_at notices.new ≡ tell_place mappings.now (told_at notices.old) place object span.lo span.hi span.op }
{
    let m = tables::mapping_at(mappings, place);
    if m.object != object {
        return;
    }
    if let Some(notice) = overlap(m, span) {
        notices.put(notice);
    }
}

// An object's mappings, in list order; the blank places after the last are passed over.
pub fn tell_object(mappings: &[u32], notices: &mut Notices, object: u32, span: Span)
    ensures same { SameList notices.old notices.new }
    ensures value { told_at notices.new ≡ tell_object mappings.now (told_at notices.old) 64 object span.lo span.hi span.op }
{
    for place in 0..tables::live_places(mappings) {
        tell_place(mappings, notices, place, object, span);
    }
}

// The number that a link names; no table has the number that stands for none.
#[tactic(auto, using(std::proofs::lemmas::Bool::Decides::nat_tests), unfolding(crate::specs::Notices::child_of))]
pub fn child(link: u32) -> u32
    ensures { result ≡ child_of link }
{
    if link == Node::NONE {
        u32::MAX
    } else {
        link - 1
    }
}

// A change of the parent's pages, for everything below the node; `left` levels may still be gone down.
#[tactic(auto, using(std::proofs::lemmas::Bool::Decides::nat_tests), unfolding(crate::specs::Notices::range_change))]
pub fn range_change(tree: Tree, notices: &mut Notices, node: u32, span: Span, left: u32)
    ensures same { SameList notices.old notices.new }
    ensures value { told_at notices.new ≡ range_change left tree.entry.nodes.now tree.entry.mappings.now node span.lo span.hi span.op (told_at notices.old) }
{
    if left == 0 {
        return;
    }
    let n = tables::node_at(tree.nodes, node);
    let offset = n.parent_offset as u64;
    let start = offset.max(span.lo);
    let end = (n.parent_limit as u64).min(span.hi);
    if end <= start {
        return;
    }
    let own = Span {
        lo: start - offset,
        hi: end - offset,
        op: span.op,
    };
    tell_object(tree.mappings, notices, node, own);
    if n.is_hidden() {
        range_change(tree, notices, child(n.left), own, left - 1);
        range_change(tree, notices, child(n.right), own, left - 1);
    }
}
