// The calls append_mapping and remove_mapping.

#![tactic(auto)]

ghost use Rattle.std.specs.Prelude.{◌≡◌, true, List, ℕ, ◌≤◌};
ghost use Rattle.tables.specs.Pool.{pool_of};
ghost use Rattle.pool.specs.Calls.{saying};
ghost use Rattle.mapped.specs.Mapped.{shows_of, append_at, append_mapping, remove_at, remove_mapping};

use node::Node;
use outcome::{Answer, Refusal};
use tables::View;

// At least one page, and none past page 64. (No sum: it could be too large for a number.)
#[tactic(auto, using(std::proofs::lemmas::Bool::Decides::nat_tests), unfolding(crate::specs::Mapped::shows_of))]
fn shows(first: u64, count: u64) -> bool
    ensures value { result ≡ shows_of first count }
    ensures small { result ≡ true → (first ≤ 64) × (count ≤ 64) }
{
    let most = Node::MAX_PAGES as u64;
    first <= most && (1..=most - first).contains(&count)
}

#[tactic(auto, unfolding(crate::specs::Mapped::append_at))]
fn append_at(mappings: &mut [u32], node: u32, first: u64, count: u64) -> Answer
    ensures { (nodes pages used head memory : List ℕ) →
        saying result (pool_of nodes pages used mappings.new head memory)
        ≡ append_at (pool_of nodes pages used mappings.old head memory) node first count }
{
    if !shows(first, count) {
        return Err(Refusal::InvalidArgs);
    }
    let Some(number) = mappings::append(mappings, node, first as u32, count as u32) else {
        return Err(Refusal::NoRoom);
    };
    Ok(number as u64)
}

// A mapping of an object's pages; its number. The slices stay apart, since only the mappings are lent for writing.
#[tactic(auto, unfolding(pool::specs::Calls::on_object, pool::specs::Calls::on_entered))]
pub fn append_mapping(
    nodes: &[u32],
    pages: &[u32],
    used: &[u8],
    mappings: &mut [u32],
    head: &[u32],
    memory: &[u8],
    object: u64,
    first: u64,
    count: u64,
) -> Answer
    ensures { saying result (pool_of nodes.now pages.now used.now mappings.new head.now memory.now)
        ≡ append_mapping 4096 (pool_of nodes.now pages.now used.now mappings.old head.now memory.now) object first count }
{
    let pool = View {
        nodes,
        pages,
        used,
        mappings,
        head,
        memory,
    };
    let node = pool::enter(pool, object)?;
    append_at(mappings, node, first, count)
}

// Mappings are numbered below it.
const MAPPINGS: u64 = 64;

#[tactic(auto, using(std::proofs::lemmas::Bool::Decides::nat_tests), unfolding(crate::specs::Mapped::remove_at))]
fn remove_at(mappings: &mut [u32], node: u32, mapping: u64) -> Answer
    ensures { (nodes pages used head memory : List ℕ) →
        saying result (pool_of nodes pages used mappings.new head memory)
        ≡ remove_at (pool_of nodes pages used mappings.old head memory) node mapping }
{
    if mapping < MAPPINGS {
        mappings::remove(mappings, node, mapping as u32);
    }
    Ok(0)
}

// One that isn't live, or isn't the object's, changes nothing. The slices stay apart, as above.
#[tactic(auto, unfolding(pool::specs::Calls::on_object, pool::specs::Calls::on_entered))]
pub fn remove_mapping(
    nodes: &[u32],
    pages: &[u32],
    used: &[u8],
    mappings: &mut [u32],
    head: &[u32],
    memory: &[u8],
    object: u64,
    mapping: u64,
) -> Answer
    ensures { saying result (pool_of nodes.now pages.now used.now mappings.new head.now memory.now)
        ≡ remove_mapping 4096 (pool_of nodes.now pages.now used.now mappings.old head.now memory.now) object mapping }
{
    let pool = View {
        nodes,
        pages,
        used,
        mappings,
        head,
        memory,
    };
    let node = pool::enter(pool, object)?;
    remove_at(mappings, node, mapping)
}
