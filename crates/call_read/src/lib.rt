// Reading a range of bytes (paged.rs 225).

#![tactic(auto)]

ghost use Rattle.std.specs.Prelude.{◌≡◌, [], ◌+◌, ◌≤◌, ◌<◌, Ok};
ghost use Rattle.node.specs.Node.{byte_limit};
ghost use Rattle.blocks.specs.Blocks.{count_of};
ghost use Rattle.outcome.specs.Outcome.{outcome, reply_of};
ghost use Rattle.lookup.specs.Lent.{SameStore, pool_with};
ghost use Rattle.page.specs.Each.{part_of, each};
ghost use Rattle.page.specs.Pages.{read_page};
ghost use Rattle.page.specs.Lent.{read_in};
ghost use Rattle.ranges.specs.Ranges.{against_reading, read};

use blocks::BlockIter;
use lookup::Store;
use outcome::{Answer, Refusal};
use tables::Tree;

#[tactic(auto, unfolding(ranges::specs::Ranges::against_reading))]
fn against_reading(nodes: &[u32], node: u32, offset: u64, len: u64) -> Result<(), Refusal>
    ensures value { result ≡ against_reading 4096 nodes.now node offset len }
    ensures fits { result ≡ Ok tt → offset + len < byte_limit }
{
    let n = tables::node_at(nodes, node);
    if !n.is_cached() {
        return Err(Refusal::BadState);
    }
    if n.contains(offset, len) {
        return Ok(());
    }
    Err(Refusal::OutOfRange)
}

// Page by page; on a sound pool none is refused. No generic one with call_write's: what they are lent differs.
fn read_range(
    tree: Tree,
    store: &mut Store,
    node: u32,
    offset: u64,
    buf: &mut [u8],
    it: &mut BlockIter,
) -> Result<(), Refusal>
    requires { (offset ≤ it.old.begin) × (it.old.end ≤ byte_limit) }
    ensures same { SameStore store.old store.new }
    ensures value { part_of result it.new (read_in store.new buf.new)
        ≡ each (read_page 4096 tree.entry.nodes.now tree.entry.mappings.now node offset) (count_of 4096 it.old) it.old (read_in store.old buf.old) }
{
    // Not `for block in it`: the page takes its block when it is done, as the rule says it.
    for _ in 0..it.block_count() {
        page::read_page(tree, store, node, offset, buf, it)?;
    }
    Ok(())
}

// An object's bytes into the buffer.
#[tactic(auto, unfolding(ranges::specs::Ranges::read_range, ranges::specs::Ranges::read_at, ranges::specs::Ranges::filled, pool::specs::Calls::on_object, pool::specs::Calls::on_entered))]
pub fn read(
    tree: Tree,
    head: &[u32],
    store: &mut Store,
    object: u64,
    offset: u64,
    buf: &mut [u8],
) -> Answer
    ensures same { SameStore store.old store.new }
    ensures value { outcome (reply_of result) (pool_with tree.entry head.now store.new) [] buf.new
        ≡ read 4096 (pool_with tree.entry head.now store.old) object offset buf.old }
{
    let len = buf.len() as u64;
    let node = pool::enter(store.view(tree, head), object)?;
    against_reading(tree.nodes, node, offset, len)?;
    let mut it = BlockIter {
        begin: offset,
        end: offset + len,
    };
    read_range(tree, store, node, offset, buf, &mut it)?;
    Ok(0)
}
