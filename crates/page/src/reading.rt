// One page of a read.
ghost use Rattle.std.specs.Prelude.{◌≡◌, ◌≤◌, Ok};
ghost use Rattle.node.specs.Node.{byte_limit};
ghost use Rattle.lookup.specs.Lent.{SameStore};
ghost use Rattle.page.specs.Each.{part_of};
ghost use Rattle.page.specs.Pages.{fetched_by, look_read, read_page};
ghost use Rattle.page.specs.Lent.{glance_in, read_in};

use blocks::{BlockIter, BlockRange};
use lookup::{Ask, Committed, Store};
use outcome::{Notices, Refusal};
use tables::Tree;

// The block of the page's frame, or zeros, to its place in the buffer.
#[tactic(auto, unfolding(crate::specs::Pages::fetched_by))]
fn fetch(memory: &[u8], frame: Option<u32>, b: BlockRange, buf: &mut [u8], to: u64)
    requires { (b.begin ≤ b.end) × (b.end ≤ 4096) × (to ≤ byte_limit) }
    ensures { buf.new ≡ fetched_by 4096 to b (Ok frame) memory.now buf.old }
{
    let to = to as usize;
    let len = b.len() as usize;
    match frame {
        Some(f) => frames::paste(buf, to, memory, f as usize * 4096 + b.begin as usize, len),
        None => frames::blank(buf, to, len),
    }
}

// Lookup for reading, which sends no notice.
#[tactic(auto, using(lookup::proofs::Asked::asked_low, lookup::proofs::Asked::asked_leaf), unfolding(crate::specs::Pages::look_read))]
fn find_read(tree: Tree, store: &mut Store, node: u32, page: u64) -> Committed
    requires { page ≤ 4294967296 }
    ensures same { SameStore store.old store.new }
    ensures value { glance_in result store.new
        ≡ look_read 4096 tree.entry.nodes.now tree.entry.mappings.now store.old.pages.now store.old.used.now store.old.memory.now node page }
{
    let mut none: [u32; 0] = [];
    let ask = Ask::of(node, page, false);
    step_descent::commit_page(tree, store, &mut Notices::new(&mut none), ask)
}

// The next page; `it` goes on where it isn't refused. `offset` stands apart: lent for writing with `it`, each contract would have to say that it stays.
pub fn read_page(
    tree: Tree,
    store: &mut Store,
    node: u32,
    offset: u64,
    buf: &mut [u8],
    it: &mut BlockIter,
) -> Result<(), Refusal>
    requires { (offset ≤ it.old.begin) × (it.old.end ≤ byte_limit) }
    ensures same { SameStore store.old store.new }
    ensures value { part_of result it.new (read_in store.new buf.new)
        ≡ read_page 4096 tree.entry.nodes.now tree.entry.mappings.now node offset it.old (read_in store.old buf.old) }
    ensures fits { (offset ≤ it.new.begin) × (it.new.end ≤ byte_limit) }
{
    let mut rest = *it;
    let Some(b) = rest.next() else {
        return Ok(());
    };
    let frame = find_read(tree, store, node, b.block)?;
    fetch(store.bytes(), frame, b, buf, it.begin - offset);
    *it = rest;
    Ok(())
}
