// The call create_child (paged.rs 324 and 761 to 836): a snapshot of an object's pages, and a hidden node above both.

#![tactic(auto)]

mod birth;

ghost use Rattle.std.specs.Prelude.{◌≡◌, [], ◌+◌, ◌≤◌, ◌<◌, get_or, Ok};
ghost use Rattle.node.specs.Node.{byte_limit, last_owner};
ghost use Rattle.outcome.specs.Outcome.{outcome};
ghost use Rattle.tables.specs.Pool.{pool_of};
ghost use Rattle.tables.specs.Lent.{pool_in};
ghost use Rattle.child.specs.declared.birth.Birth.{Birth};
ghost use Rattle.child.specs.Child.{against_child, born_of, number_child, create_child};

use birth::Birth;
use node::Node;
use outcome::{Refusal, Reply};
use tables::View;

// The largest length, in bytes.
const MAX_LEN: u64 = Node::MAX_PAGES as u64 * blocks::PAGE_SIZE;

// The arguments' shape, the object's policy and pins, then the range.
#[tactic(auto, using(std::proofs::lemmas::Bool::Decides::nat_tests), unfolding(crate::specs::Child::against_child))]
fn against_child(n: Node, offset: u64, len: u64) -> Result<(), Refusal>
    ensures value { result ≡ against_child 4096 n offset len }
    ensures fits { result ≡ Ok tt → offset + len < byte_limit }
{
    if !blocks::page_aligned(offset) || !blocks::page_aligned(len) || len > MAX_LEN {
        return Err(Refusal::InvalidArgs);
    }
    if !n.is_cached() || n.pin_count != 0 {
        return Err(Refusal::BadState);
    }
    if !n.contains(offset, len) {
        return Err(Refusal::OutOfRange);
    }
    Ok(())
}

// An owner number, the lowest free node for the child, and the next for the hidden one.
#[tactic(auto, using(std::proofs::lemmas::Bool::Decides::nat_tests, logic::proofs::Laws::first_below), unfolding(crate::specs::Child::number_child, crate::specs::Child::with_child, crate::specs::Child::with_both, tables::specs::Tables::free_node_in, tables::specs::Tables::free_node_from))]
fn number_child(
    pool: View,
    list: &[u32],
    node: u32,
    first: u32,
    pages: u32,
) -> Result<Birth, Refusal>
    requires { node < 64 }
    ensures value { born_of (pool_in pool.entry) list.now result ≡ number_child (pool_in pool.entry) list.now node first pages }
    ensures small { (b : Birth) → result ≡ Ok b →
        (b.node < 64) × (b.child < 64) × (b.hidden < 64) × (get_or pool.entry.head.now 0 0 ≤ last_owner) }
{
    if tables::at(pool.head, 0) > Node::LAST_OWNER {
        return Err(Refusal::NoNode);
    }
    let child = tables::free_node(pool.nodes).ok_or(Refusal::NoNode)?;
    let hidden = tables::free_node_from(pool.nodes, child + 1).ok_or(Refusal::NoNode)?;
    if !outcome::has_room(pool.mappings, list, 1) {
        return Err(Refusal::NoRoom);
    }
    Ok(Birth {
        node,
        child,
        hidden,
        first,
        pages,
    })
}

// All tests; nothing is written.
#[tactic(auto, unfolding(crate::specs::Child::child_at, pool::specs::Calls::on_object, pool::specs::Calls::on_entered))]
fn plan(pool: View, list: &[u32], object: u64, offset: u64, len: u64) -> Result<Birth, Refusal>
    ensures value { born_of (pool_in pool.entry) list.now result ≡ create_child 4096 (pool_in pool.entry) list.now object offset len }
    ensures small { (b : Birth) → result ≡ Ok b →
        (b.node < 64) × (b.child < 64) × (b.hidden < 64) × (get_or pool.entry.head.now 0 0 ≤ last_owner) }
{
    let node = pool::enter(pool, object)?;
    against_child(tables::node_at(pool.nodes, node), offset, len)?;
    number_child(
        pool,
        list,
        node,
        (offset / blocks::PAGE_SIZE) as u32,
        (len / blocks::PAGE_SIZE) as u32,
    )
}

// A child of len bytes from offset on; its object number. The slices stay apart, since three of them are lent for writing.
pub fn create_child(
    nodes: &mut [u32],
    pages: &mut [u32],
    used: &[u8],
    mappings: &[u32],
    head: &mut [u32],
    memory: &[u8],
    notices: &mut [u32],
    object: u64,
    offset: u64,
    len: u64,
) -> Reply
    ensures { outcome result (pool_of nodes.new pages.new used.now mappings.now head.new memory.now) notices.new []
        ≡ create_child 4096 (pool_of nodes.old pages.old used.now mappings.now head.old memory.now) notices.old object offset len }
{
    let pool = View {
        nodes,
        pages,
        used,
        mappings,
        head,
        memory,
    };
    // A `match`, since both arms give a whole reply.
    match plan(pool, notices, object, offset, len) {
        Ok(b) => birth::bear(nodes, pages, mappings, head, notices, b),
        Err(why) => Reply::refused(why),
    }
}
