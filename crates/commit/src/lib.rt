// The call commit_page (paged.rs 520): one page looked up for reading or for writing.

#![tactic(auto)]

ghost use Rattle.std.specs.Prelude.{◌≡◌, [], ◌≤◌, Ok};
ghost use Rattle.outcome.specs.Outcome.{outcome, reply_by};
ghost use Rattle.lookup.specs.Lent.{SameStore, pool_with};
ghost use Rattle.commit.specs.Commit.{committed_answer, page_refusal, commit_page};

use lookup::{Ask, Committed, Store};
use outcome::{Answer, Notices, Refusal, Reply};
use tables::Tree;

// What the shared zero frame is answered as.
const ZERO_FRAME: u64 = 4294967295;

fn committed_answer(committed: Committed) -> Answer
    ensures { result ≡ committed_answer committed }
{
    match committed? {
        Some(f) => Ok(f as u64),
        None => Ok(ZERO_FRAME),
    }
}

// The page lies inside the size; for writing the list has room.
#[tactic(auto, using(std::proofs::lemmas::Bool::Decides::nat_tests), unfolding(crate::specs::Commit::page_refusal))]
fn page_refusal(
    tree: Tree,
    notices: &[u32],
    node: u32,
    page: u64,
    write: bool,
) -> Result<(), Refusal>
    ensures value { result ≡ page_refusal tree.entry.nodes.now tree.entry.mappings.now notices.now node page write }
    ensures fits { result ≡ Ok tt → page ≤ 4294967296 }
{
    let n = tables::node_at(tree.nodes, node);
    if n.size as u64 <= page {
        return Err(Refusal::OutOfRange);
    }
    if write && !outcome::has_room(tree.mappings, notices, 1) {
        return Err(Refusal::NoRoom);
    }
    Ok(())
}

// Its tests, then the work; write's and commit's have other tests and other loans, so they share no generic one.
#[tactic(auto, using(lookup::proofs::Asked::asked_low, lookup::proofs::Asked::asked_leaf), unfolding(crate::specs::Commit::commit_page_at, pool::specs::Calls::on_object, pool::specs::Calls::on_entered))]
fn try_commit_page(
    tree: Tree,
    head: &[u32],
    store: &mut Store,
    notices: &mut [u32],
    object: u64,
    page: u64,
    write: bool,
) -> Result<Reply, Refusal>
    ensures same { SameStore store.old store.new }
    ensures value { outcome (reply_by result) (pool_with tree.entry head.now store.new) notices.new []
        ≡ commit_page 4096 (pool_with tree.entry head.now store.old) notices.old object page write }
{
    let node = pool::enter(store.view(tree, head), object)?;
    page_refusal(tree, notices, node, page, write)?;
    let mut told = Notices::new(notices);
    let ask = Ask::of(node, page, write);
    let committed = step_descent::commit_page(tree, store, &mut told, ask);
    Ok(Reply {
        answer: committed_answer(committed),
        done: 0,
        taken: 0,
        count: told.count,
    })
}

// The frame of an object's page, for reading or for writing.
pub fn commit_page(
    tree: Tree,
    head: &[u32],
    store: &mut Store,
    notices: &mut [u32],
    object: u64,
    page: u64,
    write: bool,
) -> Reply
    ensures same { SameStore store.old store.new }
    ensures value { outcome result (pool_with tree.entry head.now store.new) notices.new []
        ≡ commit_page 4096 (pool_with tree.entry head.now store.old) notices.old object page write }
{
    Reply::of_work(try_commit_page(tree, head, store, notices, object, page, write))
}
