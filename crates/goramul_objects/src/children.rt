// The export of create_child; slices apart, as C lends them.
ghost use Rattle.std.specs.Prelude.{◌≡◌, []};
ghost use Rattle.tables.specs.Pool.{pool_of};
ghost use Rattle.outcome.specs.Told.{told_of};
ghost use Rattle.child.specs.Child.{create_child};
ghost use Rattle.outcome.specs.Outcome.{outcome_of, numbers_of, in_numbers};

#[unsafe(no_mangle)]
pub extern "C" fn goramul_create_child(
    nodes: &mut [u32],
    pages: &mut [u32],
    used: &[u8],
    mappings: &[u32],
    head: &mut [u32],
    memory: &[u8],
    notices: &mut [u32],
    object: u64,
    offset: u64,
    len: u64,
    count: &mut u64,
    value: &mut u64,
) -> u32
    ensures { outcome_of (numbers_of result value.new) (pool_of nodes.new pages.new used.now mappings.now head.new memory.now) (told_of notices.new count.new) 0 0 []
        ≡ in_numbers (create_child 4096 (pool_of nodes.old pages.old used.now mappings.now head.old memory.now) notices.old object offset len) }
{
    let reply = child::create_child(
        nodes, pages, used, mappings, head, memory, notices, object, offset, len,
    );
    *count = reply.count as u64;
    *value = reply.value();
    reply.code()
}
