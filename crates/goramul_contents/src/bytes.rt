// Bytes and pages of an object: read, write, commit and peek; slices apart, as C lends them.
ghost use Rattle.std.specs.Prelude.{◌≡◌, []};
ghost use Rattle.tables.specs.Pool.{pool_of};
ghost use Rattle.outcome.specs.Told.{told_of};
ghost use Rattle.outcome.specs.Outcome.{outcome_of, numbers_of, in_numbers};
ghost use Rattle.ranges.specs.Ranges.{read, write, commit};
ghost use Rattle.peek.specs.Peek.{place, place_numbers};

use lookup::Store;
use outcome::Reply;
use tables::{Tree, View};

#[unsafe(no_mangle)]
pub extern "C" fn goramul_read(
    nodes: &[u32],
    pages: &mut [u32],
    used: &mut [u8],
    mappings: &[u32],
    head: &[u32],
    memory: &mut [u8],
    object: u64,
    from: u64,
    buf: &mut [u8],
    value: &mut u64,
) -> u32
    ensures { outcome_of (numbers_of result value.new) (pool_of nodes.now pages.new used.new mappings.now head.now memory.new) (told_of [] 0) 0 0 buf.new
        ≡ in_numbers (read 4096 (pool_of nodes.now pages.old used.old mappings.now head.now memory.old) object from buf.old) }
{
    let tree = Tree { nodes, mappings };
    let mut store = Store {
        pages,
        used,
        memory,
    };
    let filled = Reply::of(call_read::read(tree, head, &mut store, object, from, buf));
    *value = filled.value();
    filled.code()
}

#[unsafe(no_mangle)]
pub extern "C" fn goramul_write(
    nodes: &[u32],
    pages: &mut [u32],
    used: &mut [u8],
    mappings: &[u32],
    head: &[u32],
    memory: &mut [u8],
    notices: &mut [u32],
    object: u64,
    offset: u64,
    bytes: &[u8],
    taken: &mut u64,
    count: &mut u64,
    value: &mut u64,
) -> u32
    ensures { outcome_of (numbers_of result value.new) (pool_of nodes.now pages.new used.new mappings.now head.now memory.new) (told_of notices.new count.new) 0 taken.new []
        ≡ in_numbers (write 4096 (pool_of nodes.now pages.old used.old mappings.now head.now memory.old) notices.old object offset bytes.now) }
{
    let tree = Tree { nodes, mappings };
    let mut store = Store {
        pages,
        used,
        memory,
    };
    let wrote = call_write::write(tree, head, &mut store, notices, object, offset, bytes);
    *taken = wrote.taken as u64;
    *count = wrote.count as u64;
    *value = wrote.value();
    wrote.code()
}

#[unsafe(no_mangle)]
pub extern "C" fn goramul_commit(
    nodes: &[u32],
    pages: &mut [u32],
    used: &mut [u8],
    mappings: &[u32],
    head: &[u32],
    memory: &mut [u8],
    notices: &mut [u32],
    object: u64,
    offset: u64,
    len: u64,
    taken: &mut u64,
    count: &mut u64,
    value: &mut u64,
) -> u32
    ensures { outcome_of (numbers_of result value.new) (pool_of nodes.now pages.new used.new mappings.now head.now memory.new) (told_of notices.new count.new) 0 taken.new []
        ≡ in_numbers (commit 4096 (pool_of nodes.now pages.old used.old mappings.now head.now memory.old) notices.old object offset len) }
{
    let tree = Tree { nodes, mappings };
    let mut store = Store {
        pages,
        used,
        memory,
    };
    let committed = call_commit::commit(tree, head, &mut store, notices, object, offset, len);
    *taken = committed.taken as u64;
    *count = committed.count as u64;
    *value = committed.value();
    committed.code()
}

// An export returns no part of a slice, so it says where the part is.
#[unsafe(no_mangle)]
pub extern "C" fn goramul_peek(
    nodes: &[u32],
    pages: &[u32],
    used: &[u8],
    mappings: &[u32],
    head: &[u32],
    memory: &[u8],
    zero: &[u8],
    object: u64,
    page: u64,
    value: &mut u64,
) -> u32
    ensures { numbers_of result value.new
        ≡ place_numbers (place 4096 (pool_of nodes.now pages.now used.now mappings.now head.now memory.now) zero.now object page) }
{
    let pool = View {
        nodes,
        pages,
        used,
        mappings,
        head,
        memory,
    };
    let place = peek::find(pool, zero, object, page);
    *value = place.value();
    place.code()
}
