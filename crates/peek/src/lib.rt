// The call peek: one page's bytes as a read would give them, without a copy and with nothing moved.

#![tactic(auto)]

ghost use Rattle.std.specs.Prelude.{◌≡◌, List, ℕ};
ghost use Rattle.tables.specs.Pool.{pool_of};
ghost use Rattle.tables.specs.Lent.{pool_in};
ghost use Rattle.peek.specs.Peek.{zero_page_of, shown_by, place_at, place, frame_bytes, peek, place_numbers};

use lookup::{End, Place};
use tables::View;

// Where a page's bytes are.
#[derive(Clone, Copy, Debug, PartialEq, Eq)]
pub enum Shown {
    Frame(u32),
    ZeroPage,
    Nowhere,
}

impl Shown {
    // For the export: 0 nowhere, 1 in a frame, 2 in the zero page.
    pub fn code(self) -> u32
        ensures { result ≡ (place_numbers self).code }
    {
        match self {
            Shown::Frame(_) => 1,
            Shown::ZeroPage => 2,
            Shown::Nowhere => 0,
        }
    }

    // The frame's number, else 0.
    pub fn value(self) -> u64
        ensures { result ≡ (place_numbers self).value }
    {
        match self {
            Shown::Frame(f) => f as u64,
            Shown::ZeroPage | Shown::Nowhere => 0,
        }
    }
}

impl From<End> for Shown {
    ghost from_gives = { λ end s. s ≡ shown_by end };

    fn from(end: End) -> Shown {
        match end {
            End::Has(s) => Shown::Frame(s.frame),
            End::Bare => Shown::ZeroPage,
            End::Tired => Shown::Nowhere,
        }
    }
}

// No early exit, so that the compiler tests many bytes at once.
#[tactic(auto, using(std::proofs::lemmas::Bool::Decides::nat_tests), unfolding(crate::specs::Peek::zero_page_of))]
fn is_zero_page(zero: &[u8]) -> bool
    ensures { result ≡ zero_page_of 4096 zero.now }
{
    zero.len() == 4096 && zero.iter().fold(true, |blank, &byte| blank & (byte == 0))
}

// A page that a read may have: the policy is Cached, and the page lies inside.
#[tactic(auto, using(std::proofs::lemmas::Bool::Decides::nat_tests), unfolding(crate::specs::Peek::place_at, ranges::specs::Ranges::against_reading, node::specs::Node::contains_of))]
fn place_at(nodes: &[u32], pages: &[u32], node: u32, page: u64) -> Shown
    ensures { (U M H Y : List ℕ) → result ≡ place_at 4096 (pool_of nodes.now pages.now U M H Y) node page }
{
    let n = tables::node_at(nodes, node);
    if !n.is_cached() {
        return Shown::Nowhere;
    }
    if page < n.size as u64 {
        let place = Place {
            node,
            page,
            asker: node,
        };
        return Shown::from(step_walk::walk(nodes, pages, place).end);
    }
    Shown::Nowhere
}

// Where an object's page is to be read.
#[tactic(auto, unfolding(crate::specs::Peek::place, pool::specs::Calls::on_object, pool::specs::Calls::on_entered))]
pub fn find(pool: View, zero: &[u8], object: u64, page: u64) -> Shown
    ensures { result ≡ place 4096 (pool_in pool.entry) zero.now object page }
{
    if !is_zero_page(zero) {
        return Shown::Nowhere;
    }
    match pool::enter(pool, object) {
        Ok(node) => place_at(pool.nodes, pool.pages, node, page),
        Err(_) => Shown::Nowhere,
    }
}

fn frame_bytes(memory: &[u8], frame: u32) -> &[u8]
    ensures { result.now ≡ frame_bytes 4096 memory.now frame }
{
    let start = frame as usize * 4096;
    memory.get(start..start + 4096).unwrap_or(&memory[..0])
}

// A part of the memory or of the lent zero page; empty exactly when a read would be refused, or the zero page isn't 4,096 zeros.
#[tactic(auto, unfolding(crate::specs::Peek::peek))]
pub fn peek<'a>(pool: View<'_, 'a>, zero: &'a [u8], object: u64, page: u64) -> &'a [u8]
    ensures { result.now ≡ peek 4096 (pool_in pool.entry) zero.now object page }
{
    match find(pool, zero, object, page) {
        Shown::Frame(f) => frame_bytes(pool.memory, f),
        Shown::ZeroPage => zero,
        Shown::Nowhere => &zero[..0],
    }
}
