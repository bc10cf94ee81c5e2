// The lent tables, read and written at any index: past its end a table reads as 0 (or as a free record), and a write there does nothing.

#![tactic(auto, unfolding(crate::specs::Tables::word_of, crate::specs::Tables::free_node_in, crate::specs::Tables::free_node_from, crate::specs::Tables::node_of, crate::specs::Tables::record_of, crate::specs::Tables::entry_of, crate::specs::Tables::slot_at, crate::specs::Tables::with_entry, crate::specs::Tables::with_state, crate::specs::Tables::without_state, crate::specs::Tables::mapping_of, crate::specs::Tables::number_of))]

mod lent;
mod live;
mod rows;

ghost use Rattle.std.specs.Prelude.{◌≡◌, ◌+◌, ◌*◌, ◌^◌, ◌≤◌, ◌<◌, length, get_or, set};
ghost use Rattle.logic.specs.Below.{copied};
ghost use Rattle.tables.specs.Tables.{word_of, with_word, with_five, node_of, with_node, entry_of, slot_at, with_entry, with_state, without_state, mapping_of, number_of, free_node_in, free_node_from};

use entry::PageState;
pub use lent::{Tree, View};
pub use live::live_places;
use node::Node;
pub use rows::move_row;

// A mapping in the order of appending: its number + 1 (0: none), its object, and the object's pages that it shows.
#[derive(Clone, Copy, Debug, PartialEq, Eq)]
pub struct Mapping {
    pub number: u32,
    pub object: u32,
    pub first: u32,
    pub pages: u32,
}

impl Mapping {
    // What a free place holds.
    pub const NONE: Mapping = Mapping {
        number: 0,
        object: 0,
        first: 0,
        pages: 0,
    };
}

pub fn at(s: &[u32], i: usize) -> u32
    ensures { result ≡ get_or s.now i 0 }
{
    s.get(i).copied().unwrap_or(0)
}

pub fn put(s: &mut [u32], i: usize, v: u32)
    ensures { s.new ≡ set s.old i v }
{
    // Of get_mut std doesn't say what the slice ends as.
    if i < s.len() {
        s[i] = v;
    }
}

// The words from place i on are these; what lies past the end is let go.
#[tactic(auto, unfolding(logic::specs::Below::copied))]
pub fn put_all(s: &mut [u32], i: usize, words: &[u32])
    requires { i + length words.now < 2 ^ 64 }
    ensures { s.new ≡ copied s.old i words.now 0 (length words.now) }
{
    for (k, &word) in words.iter().enumerate() {
        put(s, i + k, word);
    }
}

// One word of a node's record.
pub fn word_at(nodes: &[u32], node: u32, k: u32) -> u32
    ensures { result ≡ word_of nodes.now node k }
{
    at(nodes, node as usize * 16 + k as usize)
}

// A record that lies whole in the table, read without a test.
pub fn record_at(nodes: &[u32], node: u32) -> Node
    requires { node * 16 + 16 ≤ length nodes.now }
    ensures { result ≡ node_of nodes.now node }
{
    let a = node as usize * 16;
    Node {
        kind: nodes[a],
        parent: nodes[a + 1],
        left: nodes[a + 2],
        right: nodes[a + 3],
        parent_offset: nodes[a + 4],
        parent_limit: nodes[a + 5],
        size: nodes[a + 6],
        owner: nodes[a + 7],
        cache_policy: nodes[a + 8],
        pin_count: nodes[a + 9],
    }
}

// One test for the whole record.
pub fn node_at(nodes: &[u32], node: u32) -> Node
    ensures { result ≡ node_of nodes.now node }
{
    if node as usize * 16 + 16 <= nodes.len() {
        record_at(nodes, node)
    } else {
        Node::free()
    }
}

#[tactic(auto, unfolding(logic::specs::Below::copied, crate::specs::Tables::with_node, crate::specs::Tables::with_five, crate::specs::Tables::with_word))]
pub fn set_node(nodes: &mut [u32], node: u32, n: Node)
    ensures { nodes.new ≡ with_node nodes.old node n }
{
    let words = [
        n.kind,
        n.parent,
        n.left,
        n.right,
        n.parent_offset,
        n.parent_limit,
        n.size,
        n.owner,
        n.cache_policy,
        n.pin_count,
    ];
    put_all(nodes, node as usize * 16, &words);
}

// The word of a page's entry. A page past the last is absent, so that no row runs into the next.
pub fn entry_at(pages: &[u32], node: u32, page: u64) -> u32
    ensures { result ≡ entry_of pages.now node page }
{
    if page < u64::from(Node::MAX_PAGES) {
        at(pages, node as usize * 64 + page as usize)
    } else {
        0
    }
}

pub fn slot_at(pages: &[u32], node: u32, page: u64) -> Option<PageState>
    ensures { result ≡ slot_at pages.now node page }
{
    PageState::of_word(entry_at(pages, node, page))
}

fn put_entry(pages: &mut [u32], node: u32, page: u64, e: u32)
    ensures { pages.new ≡ with_entry pages.old node page e }
{
    if page < u64::from(Node::MAX_PAGES) {
        put(pages, node as usize * 64 + page as usize, e);
    }
}

pub fn set_state(pages: &mut [u32], node: u32, page: u64, s: PageState)
    ensures { pages.new ≡ with_state pages.old node page s }
{
    put_entry(pages, node, page, u32::from(s));
}

pub fn clear_state(pages: &mut [u32], node: u32, page: u64)
    ensures { pages.new ≡ without_state pages.old node page }
{
    put_entry(pages, node, page, 0);
}

pub fn mapping_at(mappings: &[u32], place: u32) -> Mapping
    ensures { result ≡ mapping_of mappings.now place }
{
    let a = place as usize * 4;
    if a + 4 <= mappings.len() {
        Mapping {
            number: mappings[a],
            object: mappings[a + 1],
            first: mappings[a + 2],
            pages: mappings[a + 3],
        }
    } else {
        Mapping::NONE
    }
}

// The number + 1 of the mapping at a place; 0: none.
pub fn number_at(mappings: &[u32], place: u32) -> u32
    ensures { result ≡ number_of mappings.now place }
{
    mapping_at(mappings, place).number
}

// The lowest free node from k on.
pub fn free_node_from(nodes: &[u32], k: u32) -> Option<u32>
    ensures { result ≡ free_node_from nodes.now k }
{
    (k..64).find(|&i| word_at(nodes, i, 0) == Node::FREE)
}

// The lowest free node of the 64.
pub fn free_node(nodes: &[u32]) -> Option<u32>
    ensures { result ≡ free_node_in nodes.now }
{
    free_node_from(nodes, 0)
}
