// The calls on objects and mappings for C and Rust: each answers document 01's number, the value behind a reference; slices apart, as C lends them.

#![tactic(auto)]

mod children;

ghost use Rattle.std.specs.Prelude.{◌≡◌, []};
ghost use Rattle.outcome.specs.Told.{told_of};
ghost use Rattle.outcome.specs.Outcome.{outcome_of, numbers_of, in_numbers};
ghost use Rattle.tables.specs.Pool.{pool_of};
ghost use Rattle.sound.specs.Sound.{sound};
ghost use Rattle.pool.specs.Calls.{start, new, len};
ghost use Rattle.mapped.specs.Mapped.{append_mapping, remove_mapping};

pub use children::goramul_create_child;
use outcome::Reply;
use tables::View;

#[unsafe(no_mangle)]
pub extern "C" fn goramul_start(
    nodes: &mut [u32],
    pages: &mut [u32],
    used: &mut [u8],
    mappings: &mut [u32],
    head: &mut [u32],
    memory: &[u8],
    value: &mut u64,
) -> u32
    ensures { outcome_of (numbers_of result value.new) (pool_of nodes.new pages.new used.new mappings.new head.new memory.now) (told_of [] 0) 0 0 []
        ≡ in_numbers (start 4096 (pool_of nodes.old pages.old used.old mappings.old head.old memory.now)) }
{
    let reply = Reply::of(pool::start(nodes, pages, used, mappings, head, memory));
    *value = reply.value();
    reply.code()
}

#[unsafe(no_mangle)]
pub extern "C" fn goramul_new(
    nodes: &mut [u32],
    pages: &[u32],
    used: &[u8],
    mappings: &[u32],
    head: &mut [u32],
    memory: &[u8],
    size: u64,
    value: &mut u64,
) -> u32
    ensures { outcome_of (numbers_of result value.new) (pool_of nodes.new pages.now used.now mappings.now head.new memory.now) (told_of [] 0) 0 0 []
        ≡ in_numbers (new 4096 (pool_of nodes.old pages.now used.now mappings.now head.old memory.now) size) }
{
    let reply = Reply::of(pool::new(nodes, pages, used, mappings, head, memory, size));
    *value = reply.value();
    reply.code()
}

#[unsafe(no_mangle)]
pub extern "C" fn goramul_len(
    nodes: &[u32],
    pages: &[u32],
    used: &[u8],
    mappings: &[u32],
    head: &[u32],
    memory: &[u8],
    object: u64,
    value: &mut u64,
) -> u32
    ensures { outcome_of (numbers_of result value.new) (pool_of nodes.now pages.now used.now mappings.now head.now memory.now) (told_of [] 0) 0 0 []
        ≡ in_numbers (len 4096 (pool_of nodes.now pages.now used.now mappings.now head.now memory.now) object) }
{
    let pool = View {
        nodes,
        pages,
        used,
        mappings,
        head,
        memory,
    };
    let reply = Reply::of(pool::len(pool, object));
    *value = reply.value();
    reply.code()
}

#[unsafe(no_mangle)]
pub extern "C" fn goramul_append_mapping(
    nodes: &[u32],
    pages: &[u32],
    used: &[u8],
    mappings: &mut [u32],
    head: &[u32],
    memory: &[u8],
    object: u64,
    first: u64,
    count: u64,
    value: &mut u64,
) -> u32
    ensures { outcome_of (numbers_of result value.new) (pool_of nodes.now pages.now used.now mappings.new head.now memory.now) (told_of [] 0) 0 0 []
        ≡ in_numbers (append_mapping 4096 (pool_of nodes.now pages.now used.now mappings.old head.now memory.now) object first count) }
{
    let number = mapped::append_mapping(
        nodes, pages, used, mappings, head, memory, object, first, count,
    );
    let reply = Reply::of(number);
    *value = reply.value();
    reply.code()
}

#[unsafe(no_mangle)]
pub extern "C" fn goramul_remove_mapping(
    nodes: &[u32],
    pages: &[u32],
    used: &[u8],
    mappings: &mut [u32],
    head: &[u32],
    memory: &[u8],
    object: u64,
    mapping: u64,
    value: &mut u64,
) -> u32
    ensures { outcome_of (numbers_of result value.new) (pool_of nodes.now pages.now used.now mappings.new head.now memory.now) (told_of [] 0) 0 0 []
        ≡ in_numbers (remove_mapping 4096 (pool_of nodes.now pages.now used.now mappings.old head.now memory.now) object mapping) }
{
    let done = mapped::remove_mapping(nodes, pages, used, mappings, head, memory, object, mapping);
    let reply = Reply::of(done);
    *value = reply.value();
    reply.code()
}

// The test that heads every call, by itself.
#[unsafe(no_mangle)]
pub extern "C" fn goramul_is_sound(
    nodes: &[u32],
    pages: &[u32],
    used: &[u8],
    mappings: &[u32],
    head: &[u32],
    memory: &[u8],
) -> bool
    ensures { result ≡ sound 4096 (pool_of nodes.now pages.now used.now mappings.now head.now memory.now) }
{
    let pool = View {
        nodes,
        pages,
        used,
        mappings,
        head,
        memory,
    };
    sound::is_sound(pool)
}
