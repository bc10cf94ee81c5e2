// The child's birth, after the tests (paged.rs 775 to 836).
ghost use Rattle.std.specs.Prelude.{◌≡◌, List, [], ℕ, ◌≤◌, ◌<◌, get_or};
ghost use Rattle.node.specs.Node.{last_owner};
ghost use Rattle.outcome.specs.Outcome.{outcome};
ghost use Rattle.tables.specs.Pool.{pool_of};
ghost use Rattle.child.specs.Child.{relinked, born_nodes, born};

use node::Node;
use notices::Span;
use outcome::{Notices, RangeChangeOp, Reply};

// A child of an object's node, the hidden node above both, and the child's pages: so many from first on. Any numbers, as the rules speak of all.
#[derive(Clone, Copy)]
pub struct Birth {
    pub node: u32,
    pub child: u32,
    pub hidden: u32,
    pub first: u32,
    pub pages: u32,
}

// The parent's link to the old child becomes one to the new, where there is a parent.
#[tactic(auto, using(std::proofs::lemmas::Bool::Decides::nat_tests), unfolding(crate::specs::Child::relinked))]
fn relink(nodes: &mut [u32], parent: u32, old: u32, new: u32)
    requires { (old < 64) × (new < 64) }
    ensures { nodes.new ≡ relinked nodes.old parent old new }
{
    if parent == Node::NONE {
        return;
    }
    let n = tables::node_at(nodes, parent - 1);
    tables::set_node(nodes, parent - 1, n.relinked(old, new));
}

// The four records: the child, the hidden node, its parent and the object.
#[tactic(auto, unfolding(crate::specs::Child::born_nodes))]
fn write_records(nodes: &mut [u32], b: Birth, owner: u32)
    requires { (b.node < 64) × (b.child < 64) × (b.hidden < 64) }
    ensures { nodes.new ≡ born_nodes nodes.old b owner }
{
    let n = tables::node_at(nodes, b.node);
    tables::set_node(
        nodes,
        b.child,
        Node::snapshot(b.hidden, b.first, b.pages, n.size, owner),
    );
    tables::set_node(nodes, b.hidden, n.hidden_above(b.node, b.child));
    relink(nodes, n.parent, b.node, b.hidden);
    tables::set_node(nodes, b.node, n.below(b.hidden));
}

// The records, the object's row, the next owner number, and RemoveWrite to the object's mappings. Lent apart, as create_child is.
#[tactic(auto, unfolding(crate::specs::Child::born))]
pub fn bear(
    nodes: &mut [u32],
    pages: &mut [u32],
    mappings: &[u32],
    head: &mut [u32],
    notices: &mut [u32],
    b: Birth,
) -> Reply
    requires { (b.node < 64) × (b.child < 64) × (b.hidden < 64) × (get_or head.old 0 0 ≤ last_owner) }
    ensures { (used memory : List ℕ) →
        outcome result (pool_of nodes.new pages.new used mappings.now head.new memory) notices.new []
        ≡ born (pool_of nodes.old pages.old used mappings.now head.old memory) notices.old b }
{
    let owner = tables::at(head, 0);
    write_records(nodes, b, owner);
    tables::move_row(pages, b.node, b.hidden);
    tables::put(head, 0, owner + 1);
    let span = Span {
        lo: b.first as u64,
        hi: b.first as u64 + b.pages as u64,
        op: u32::from(RangeChangeOp::RemoveWrite),
    };
    let mut told = Notices::new(notices);
    notices::tell_object(mappings, &mut told, b.node, span);
    Reply {
        count: told.count,
        ..Reply::of(Ok(b.child as u64))
    }
}
