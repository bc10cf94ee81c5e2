// Writing a range of bytes (paged.rs 235).

#![tactic(auto)]

ghost use Rattle.std.specs.Prelude.{◌≡◌, List, [], ℕ, ◌+◌, ◌≤◌, ◌<◌, length, Ok};
ghost use Rattle.node.specs.Node.{byte_limit};
ghost use Rattle.blocks.specs.Blocks.{count_of};
ghost use Rattle.outcome.specs.Outcome.{outcome, reply_by};
ghost use Rattle.outcome.specs.Lent.{SameList, told_at};
ghost use Rattle.lookup.specs.Lent.{SameStore, pool_with, work_in};
ghost use Rattle.page.specs.Each.{part_of, each};
ghost use Rattle.page.specs.Pages.{write_page};
ghost use Rattle.ranges.specs.Ranges.{against_writing, write_through, write};

use blocks::BlockIter;
use lookup::Store;
use outcome::{Notices, Refusal, Reply};
use tables::Tree;

#[tactic(auto, using(ranges::proofs::Laws::count_small), unfolding(ranges::specs::Ranges::against_writing))]
fn against_writing(
    tree: Tree,
    notices: &[u32],
    node: u32,
    offset: u64,
    len: u64,
) -> Result<(), Refusal>
    ensures value { result ≡ against_writing 4096 tree.entry.nodes.now tree.entry.mappings.now notices.now node offset len }
    ensures fits { result ≡ Ok tt → offset + len < byte_limit }
{
    let n = tables::node_at(tree.nodes, node);
    let cached = n.is_cached();
    let inside = n.contains(offset, len);
    if !cached {
        return Err(Refusal::BadState);
    }
    if !inside {
        return Err(Refusal::OutOfRange);
    }
    let range = BlockIter {
        begin: offset,
        end: offset + len,
    };
    if outcome::has_room(tree.mappings, notices, range.block_count()) {
        return Ok(());
    }
    Err(Refusal::NoRoom)
}

// Page by page, up to the first refusal. No generic one with call_commit's: what they are lent differs.
fn write_range(
    tree: Tree,
    store: &mut Store,
    notices: &mut Notices,
    node: u32,
    offset: u64,
    bytes: &[u8],
    it: &mut BlockIter,
) -> Result<(), Refusal>
    requires { (offset ≤ it.old.begin) × (it.old.end ≤ byte_limit) }
    ensures store { SameStore store.old store.new }
    ensures list { SameList notices.old notices.new }
    ensures value { part_of result it.new (work_in store.new (told_at notices.new))
        ≡ each (write_page 4096 tree.entry.nodes.now tree.entry.mappings.now node offset bytes.now) (count_of 4096 it.old) it.old (work_in store.old (told_at notices.old)) }
    ensures fits { offset ≤ it.new.begin }
{
    // Not `for block in it`: the page takes its block when it is done, so that `it` says how far a refused call came.
    for _ in 0..it.block_count() {
        page::write_page(tree, store, notices, node, offset, bytes, it)?;
    }
    Ok(())
}

#[tactic(auto, using(ranges::proofs::Laws::and_done), unfolding(ranges::specs::Ranges::write_range, ranges::specs::Ranges::write_through, ranges::specs::Ranges::written, ranges::specs::Ranges::ranged_by))]
fn write_through(
    tree: Tree,
    store: &mut Store,
    notices: &mut [u32],
    node: u32,
    offset: u64,
    bytes: &[u8],
) -> Reply
    requires { offset + length bytes.now ≤ byte_limit }
    ensures same { SameStore store.old store.new }
    ensures value { (head : List ℕ) →
        outcome result (pool_with tree.entry head store.new) notices.new []
        ≡ write_through 4096 (pool_with tree.entry head store.old) notices.old node offset bytes.now }
{
    let free = frames::free_count(store.flags());
    let mut told = Notices::new(notices);
    let mut it = BlockIter {
        begin: offset,
        end: offset + bytes.len() as u64,
    };
    let wrote = write_range(tree, store, &mut told, node, offset, bytes, &mut it);
    let done = it.begin - offset;
    Reply {
        answer: wrote.and(Ok(done)),
        done,
        taken: free.saturating_sub(frames::free_count(store.flags())),
        count: told.count,
    }
}

// Its tests, then the work; commit's have other tests and other loans, so they share no generic one.
#[tactic(auto, unfolding(ranges::specs::Ranges::write_at, pool::specs::Calls::on_object, pool::specs::Calls::on_entered))]
fn try_write(
    tree: Tree,
    head: &[u32],
    store: &mut Store,
    notices: &mut [u32],
    object: u64,
    offset: u64,
    bytes: &[u8],
) -> Result<Reply, Refusal>
    ensures same { SameStore store.old store.new }
    ensures value { outcome (reply_by result) (pool_with tree.entry head.now store.new) notices.new []
        ≡ write 4096 (pool_with tree.entry head.now store.old) notices.old object offset bytes.now }
{
    let node = pool::enter(store.view(tree, head), object)?;
    against_writing(tree, notices, node, offset, bytes.len() as u64)?;
    Ok(write_through(tree, store, notices, node, offset, bytes))
}

// Bytes into an object: those done, up to the first page that is refused.
pub fn write(
    tree: Tree,
    head: &[u32],
    store: &mut Store,
    notices: &mut [u32],
    object: u64,
    offset: u64,
    bytes: &[u8],
) -> Reply
    ensures same { SameStore store.old store.new }
    ensures value { outcome result (pool_with tree.entry head.now store.new) notices.new []
        ≡ write 4096 (pool_with tree.entry head.now store.old) notices.old object offset bytes.now }
{
    Reply::of_work(try_write(tree, head, store, notices, object, offset, bytes))
}
