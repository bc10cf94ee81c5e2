// One page of a write and of a commit.
ghost use Rattle.std.specs.Prelude.{◌≡◌, List, ℕ, ◌+◌, ◌≤◌, ◌<◌, Ok, Some};
ghost use Rattle.node.specs.Node.{byte_limit};
ghost use Rattle.outcome.specs.Told.{Told};
ghost use Rattle.outcome.specs.Lent.{SameList, told_at};
ghost use Rattle.lookup.specs.Work.{work_of};
ghost use Rattle.lookup.specs.Lent.{SameStore, work_in};
ghost use Rattle.page.specs.Each.{part_of};
ghost use Rattle.page.specs.Pages.{rest_by, stored_by, write_page, commit_one};

use blocks::{BlockIter, BlockRange};
use lookup::{Ask, Store};
use outcome::{Notices, Refusal};
use tables::Tree;

// The block's bytes, from `from` on, into the page's frame.
#[tactic(auto, unfolding(crate::specs::Pages::stored_by))]
fn put_bytes(memory: &mut [u8], frame: u32, b: BlockRange, bytes: &[u8], from: u64)
    requires { (b.begin ≤ b.end) × (b.end ≤ 4096) × (from ≤ byte_limit) }
    ensures { (P U : List ℕ) (t : Told) → work_of P U memory.new t ≡ stored_by 4096 bytes.now from b (Ok (Some frame)) (work_of P U memory.old t) }
{
    let at = frame as usize * 4096 + b.begin as usize;
    frames::paste(memory, at, bytes, from as usize, b.len() as usize);
}

// The next page; `it` goes on where it isn't refused, and `offset` stands apart, as in read_page.
pub fn write_page(
    tree: Tree,
    store: &mut Store,
    notices: &mut Notices,
    node: u32,
    offset: u64,
    bytes: &[u8],
    it: &mut BlockIter,
) -> Result<(), Refusal>
    requires { (offset ≤ it.old.begin) × (it.old.end ≤ byte_limit) }
    ensures store { SameStore store.old store.new }
    ensures list { SameList notices.old notices.new }
    ensures value { part_of result it.new (work_in store.new (told_at notices.new))
        ≡ write_page 4096 tree.entry.nodes.now tree.entry.mappings.now node offset bytes.now it.old (work_in store.old (told_at notices.old)) }
    ensures fits { (offset ≤ it.new.begin) × (it.new.end ≤ byte_limit) }
{
    let mut rest = *it;
    let Some(b) = rest.next() else {
        return Ok(());
    };
    let ask = Ask::of(node, b.block, true);
    let Some(frame) = step_descent::commit_page(tree, store, notices, ask)? else {
        return Err(Refusal::Stopped);
    };
    put_bytes(store.memory, frame, b, bytes, it.begin - offset);
    *it = rest;
    Ok(())
}

#[tactic(auto, using(lookup::proofs::Asked::asked_leaf), unfolding(crate::specs::Pages::commit_one, crate::specs::Pages::committed_one))]
pub fn commit_one(
    tree: Tree,
    store: &mut Store,
    notices: &mut Notices,
    node: u32,
    page: u64,
) -> Result<(), Refusal>
    requires { page < 4294967296 }
    ensures store { SameStore store.old store.new }
    ensures list { SameList notices.old notices.new }
    ensures value { part_of result (rest_by result page (page + 1)) (work_in store.new (told_at notices.new))
        ≡ commit_one 4096 tree.entry.nodes.now tree.entry.mappings.now node page (work_in store.old (told_at notices.old)) }
{
    let ask = Ask::of(node, page, true);
    match step_descent::commit_page(tree, store, notices, ask)? {
        Some(_) => Ok(()),
        None => Err(Refusal::Stopped),
    }
}
