// Committing a range of pages (paged.rs 301).

#![tactic(auto)]

ghost use Rattle.std.specs.Prelude.{◌≡◌, List, [], ℕ, ◌+◌, ◌≤◌, ◌<◌, Ok};
ghost use Rattle.node.specs.Node.{byte_limit};
ghost use Rattle.outcome.specs.Outcome.{outcome, reply_by};
ghost use Rattle.outcome.specs.Lent.{SameList, told_at};
ghost use Rattle.lookup.specs.Lent.{SameStore, pool_with, work_in};
ghost use Rattle.page.specs.Each.{part_of};
ghost use Rattle.ranges.specs.Ranges.{against_committing, commit_range, commit_through, commit};

use lookup::Store;
use outcome::{Notices, Refusal, Reply};
use tables::Tree;

#[tactic(auto, unfolding(ranges::specs::Ranges::against_committing))]
fn against_committing(
    tree: Tree,
    notices: &[u32],
    node: u32,
    offset: u64,
    len: u64,
) -> Result<(), Refusal>
    ensures value { result ≡ against_committing 4096 tree.entry.nodes.now tree.entry.mappings.now notices.now node offset len }
    ensures fits { result ≡ Ok tt → offset + len < byte_limit }
{
    let n = tables::node_at(tree.nodes, node);
    if !n.contains(offset, len) {
        return Err(Refusal::OutOfRange);
    }
    if outcome::has_room(tree.mappings, notices, len / blocks::PAGE_SIZE) {
        return Ok(());
    }
    Err(Refusal::NoRoom)
}

// Page by page, up to the first refusal. No generic one with call_write's: what they are lent differs.
fn commit_range(
    tree: Tree,
    store: &mut Store,
    notices: &mut Notices,
    node: u32,
    first: u64,
    total: u64,
) -> Result<(), Refusal>
    requires { first + total ≤ 4294967296 }
    ensures store { SameStore store.old store.new }
    ensures list { SameList notices.old notices.new }
    ensures value { (rest : ℕ) × (part_of result rest (work_in store.new (told_at notices.new))
        ≡ commit_range 4096 tree.entry.nodes.now tree.entry.mappings.now node first total (work_in store.old (told_at notices.old))) }
{
    for page in first..first + total {
        page::commit_one(tree, store, notices, node, page)?;
    }
    Ok(())
}

#[tactic(auto, using(ranges::proofs::Laws::and_done), unfolding(ranges::specs::Ranges::commit_through, ranges::specs::Ranges::committed, ranges::specs::Ranges::ranged_by))]
fn commit_through(
    tree: Tree,
    store: &mut Store,
    notices: &mut [u32],
    node: u32,
    offset: u64,
    len: u64,
) -> Reply
    requires { offset + len ≤ byte_limit }
    ensures same { SameStore store.old store.new }
    ensures value { (head : List ℕ) →
        outcome result (pool_with tree.entry head store.new) notices.new []
        ≡ commit_through 4096 (pool_with tree.entry head store.old) notices.old node offset len }
{
    let free = frames::free_count(store.flags());
    let mut told = Notices::new(notices);
    let committed = commit_range(
        tree,
        store,
        &mut told,
        node,
        offset / blocks::PAGE_SIZE,
        len / blocks::PAGE_SIZE,
    );
    Reply {
        answer: committed.and(Ok(0)),
        done: 0,
        taken: free.saturating_sub(frames::free_count(store.flags())),
        count: told.count,
    }
}

// Its tests, then the work; write's and commit_page's have other tests and other loans, so they share no generic one.
#[tactic(auto, unfolding(ranges::specs::Ranges::commit_at, pool::specs::Calls::on_object, pool::specs::Calls::on_entered))]
fn try_commit(
    tree: Tree,
    head: &[u32],
    store: &mut Store,
    notices: &mut [u32],
    object: u64,
    offset: u64,
    len: u64,
) -> Result<Reply, Refusal>
    ensures same { SameStore store.old store.new }
    ensures value { outcome (reply_by result) (pool_with tree.entry head.now store.new) notices.new []
        ≡ commit 4096 (pool_with tree.entry head.now store.old) notices.old object offset len }
{
    let node = pool::enter(store.view(tree, head), object)?;
    against_committing(tree, notices, node, offset, len)?;
    Ok(commit_through(tree, store, notices, node, offset, len))
}

// A frame of its own for each page of an object's range.
pub fn commit(
    tree: Tree,
    head: &[u32],
    store: &mut Store,
    notices: &mut [u32],
    object: u64,
    offset: u64,
    len: u64,
) -> Reply
    ensures same { SameStore store.old store.new }
    ensures value { outcome result (pool_with tree.entry head.now store.new) notices.new []
        ≡ commit 4096 (pool_with tree.entry head.now store.old) notices.old object offset len }
{
    Reply::of_work(try_commit(tree, head, store, notices, object, offset, len))
}
