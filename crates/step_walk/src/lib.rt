// The walk: who has the page?

#![tactic(auto)]

ghost use Rattle.std.specs.Prelude.{◌≡◌, List, ℕ, ◌+◌, ◌-◌, ◌≤◌};
ghost use Rattle.node.specs.Node.{hidden_of, out_of};
ghost use Rattle.tables.specs.Tables.{node_of};
ghost use Rattle.lookup.specs.declared.Place.{Place};
ghost use Rattle.lookup.specs.declared.Turn.TheVariants.{Climbs};
ghost use Rattle.lookup.specs.Mode.{today, asks_by, up_from, ups};
ghost use Rattle.lookup.specs.Descent.{way, turn, walk, hidden_up};

use lookup::{End, Place, Turn, Walked};
use node::Node;

// The parent is asked: there is one, and the page lies inside.
fn asks(n: Node, page: u64) -> bool
    requires { page ≤ 281474976710656 }
    ensures { result ≡ asks_by n (out_of n page) }
{
    n.parent != Node::NONE && !n.out_of_range(page)
}

// The parent's page, asked for by this node.
pub fn up_from(n: Node, p: Place) -> Place
    requires { p.page ≤ 281474976710656 }
    ensures value { result ≡ up_from n p }
    ensures near { result.page ≤ p.page + 4294967296 }
{
    Place {
        node: n.parent.saturating_sub(1),
        page: u64::from(n.parent_offset) + p.page,
        asker: p.node,
    }
}

#[tactic(auto, unfolding(lookup::specs::Mode::asks))]
fn take_turn(nodes: &[u32], pages: &[u32], p: Place) -> Turn
    requires { p.page ≤ 281474976710656 }
    ensures value { (M : List ℕ) → result ≡ turn (today 4096 nodes.now M) pages.now p }
    ensures near { (q : Place) → result ≡ Climbs q → q.page ≤ p.page + 4294967296 }
{
    if let Some(s) = tables::slot_at(pages, p.node, p.page) {
        return Turn::Ends(End::Has(s));
    }
    let n = tables::node_at(nodes, p.node);
    if asks(n, p.page) {
        return Turn::Climbs(up_from(n, p));
    }
    Turn::Ends(End::Bare)
}

fn is_hidden(nodes: &[u32], node: u32) -> bool
    ensures { result ≡ hidden_of (node_of nodes.now node) }
{
    tables::node_at(nodes, node).is_hidden()
}

// The end of the chain: no more parent may be asked.
fn walk_ends(nodes: &[u32], pages: &[u32], p: Place) -> End
    requires { p.page ≤ 281474976710656 }
    ensures { (M : List ℕ) → way 0 result ≡ walk (today 4096 nodes.now M) 0 pages.now p }
{
    match take_turn(nodes, pages, p) {
        Turn::Ends(end) => end,
        Turn::Climbs(_) => End::Tired,
    }
}

// At most 64 parents are asked, more than a sound pool has above a node.
pub fn walk(nodes: &[u32], pages: &[u32], place: Place) -> Walked
    requires { place.page ≤ 4294967296 }
    ensures value { (M : List ℕ) → way result.levels result.end ≡ walk (today 4096 nodes.now M) 64 pages.now place }
    ensures top { (M : List ℕ) → result.top ≡ ups (today 4096 nodes.now M) result.levels place }
    ensures hidden { (M : List ℕ) → result.hidden ≡ hidden_up (today 4096 nodes.now M) result.levels place }
    ensures low { (result.levels ≤ 64) × (result.top.page ≤ 281474976710656) }
{
    let mut top = place;
    let mut hidden = true;
    for levels in 0..64 {
        match take_turn(nodes, pages, top) {
            Turn::Ends(end) => {
                return Walked {
                    levels,
                    end,
                    top,
                    hidden,
                };
            }
            Turn::Climbs(up) => {
                top = up;
                hidden &= is_hidden(nodes, up.node);
            }
        }
    }
    Walked {
        levels: 64,
        end: walk_ends(nodes, pages, top),
        top,
        hidden,
    }
}
