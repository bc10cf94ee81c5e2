// The calls. Each tests the pool, the object and the arguments in document 01's order, and then makes one step.

#![tactic(auto)]

mod entering;
mod steps;

ghost use Rattle.std.specs.Prelude.{◌≡◌};
ghost use Rattle.tables.specs.Pool.{pool_of};
ghost use Rattle.tables.specs.Lent.{pool_in};
ghost use Rattle.pool.specs.Calls.{saying, start, new, len};

pub use entering::enter;
use node::Node;
use outcome::{Answer, Refusal};
use tables::View;

// Fills the lent tables as a fresh pool and leaves the memory as it is. The slices stay apart, since five of them are lent for writing.
#[tactic(auto, unfolding(crate::specs::Calls::start, crate::specs::Calls::fresh_pool))]
pub fn start(
    nodes: &mut [u32],
    pages: &mut [u32],
    used: &mut [u8],
    mappings: &mut [u32],
    head: &mut [u32],
    memory: &[u8],
) -> Answer
    ensures { saying result (pool_of nodes.new pages.new used.new mappings.new head.new memory.now)
        ≡ start 4096 (pool_of nodes.old pages.old used.old mappings.old head.old memory.now) }
{
    let pool = View {
        nodes,
        pages,
        used,
        mappings,
        head,
        memory,
    };
    if !sound::lengths_ok(pool) {
        return Err(Refusal::BadPool);
    }
    nodes.fill(0);
    pages.fill(0);
    used.fill(0);
    mappings.fill(0);
    head.fill(0);
    tables::put(head, 0, 1);
    Ok(0)
}

// A fresh object of so many pages; its number. The slices stay apart, since two of them are lent for writing.
#[tactic(auto, using(std::proofs::lemmas::Bool::Decides::nat_tests), unfolding(crate::specs::Calls::new))]
pub fn new(
    nodes: &mut [u32],
    pages: &[u32],
    used: &[u8],
    mappings: &[u32],
    head: &mut [u32],
    memory: &[u8],
    size: u64,
) -> Answer
    ensures { saying result (pool_of nodes.new pages.now used.now mappings.now head.new memory.now)
        ≡ new 4096 (pool_of nodes.old pages.now used.now mappings.now head.old memory.now) size }
{
    let pool = View {
        nodes,
        pages,
        used,
        mappings,
        head,
        memory,
    };
    if !sound::is_sound(pool) {
        return Err(Refusal::BadPool);
    }
    if size <= Node::MAX_PAGES as u64 {
        return steps::new_leaf(nodes, head, size as u32);
    }
    Err(Refusal::InvalidArgs)
}

// An object's length in bytes.
#[tactic(auto, unfolding(crate::specs::Calls::len_of, crate::specs::Calls::on_object, crate::specs::Calls::on_entered))]
pub fn len(pool: View, object: u64) -> Answer
    ensures { saying result (pool_in pool.entry) ≡ len 4096 (pool_in pool.entry) object }
{
    let node = enter(pool, object)?;
    Ok(steps::len_of(pool.nodes, node))
}
