// The calls on an object's bytes and pages for C and Rust: each answers document 01's number, the value behind a reference; slices apart, as C lends them.

#![tactic(auto)]

mod bytes;

ghost use Rattle.std.specs.Prelude.{◌≡◌, []};
ghost use Rattle.tables.specs.Pool.{pool_of};
ghost use Rattle.forecast.specs.Forecast.{forecast};
ghost use Rattle.outcome.specs.Told.{told_of};
ghost use Rattle.outcome.specs.Outcome.{outcome_of, numbers_of, in_numbers};
ghost use Rattle.commit.specs.Commit.{commit_page};

pub use bytes::{goramul_commit, goramul_peek, goramul_read, goramul_write};
use lookup::Store;
use outcome::Reply;
use tables::{Tree, View};

#[unsafe(no_mangle)]
pub extern "C" fn goramul_commit_page(
    nodes: &[u32],
    pages: &mut [u32],
    used: &mut [u8],
    mappings: &[u32],
    head: &[u32],
    memory: &mut [u8],
    notices: &mut [u32],
    object: u64,
    page: u64,
    write: bool,
    count: &mut u64,
    value: &mut u64,
) -> u32
    ensures { outcome_of (numbers_of result value.new) (pool_of nodes.now pages.new used.new mappings.now head.now memory.new) (told_of notices.new count.new) 0 0 []
        ≡ in_numbers (commit_page 4096 (pool_of nodes.now pages.old used.old mappings.now head.now memory.old) notices.old object page write) }
{
    let tree = Tree { nodes, mappings };
    let mut store = Store {
        pages,
        used,
        memory,
    };
    let reply = commit::commit_page(tree, head, &mut store, notices, object, page, write);
    *count = reply.count as u64;
    *value = reply.value();
    reply.code()
}

#[unsafe(no_mangle)]
pub extern "C" fn goramul_forecast(
    nodes: &[u32],
    pages: &[u32],
    used: &[u8],
    mappings: &[u32],
    head: &[u32],
    memory: &[u8],
    object: u64,
    offset: u64,
    len: u64,
    value: &mut u64,
) -> u32
    ensures { outcome_of (numbers_of result value.new) (pool_of nodes.now pages.now used.now mappings.now head.now memory.now) (told_of [] 0) 0 0 []
        ≡ in_numbers (forecast 4096 (pool_of nodes.now pages.now used.now mappings.now head.now memory.now) object offset len) }
{
    let pool = View {
        nodes,
        pages,
        used,
        mappings,
        head,
        memory,
    };
    let reply = Reply::of(forecast::forecast(pool, object, offset, len));
    *value = reply.value();
    reply.code()
}
