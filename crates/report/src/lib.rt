// The numbers of an answer line: hashes of the tree, the mappings and the frames in use.

#![tactic(auto)]

// The hash of no number.
const SEED: u32 = 2166136261;

fn mix(h: u32, x: u32) -> u32 {
    h.wrapping_mul(16777619).wrapping_add(x)
}

// Words 0 to 74 of a node in the written tree.
fn block(h: u32, nodes: &[u32], pages: &[u32], node: u32) -> u32 {
    let n = tables::node_at(nodes, node);
    let links = [node, n.kind, n.parent, n.left, n.right];
    let sizes = [n.parent_offset, n.parent_limit, n.size];
    let entries = (0..64).map(|page| tables::entry_at(pages, node, page));
    let rest = [n.owner, n.cache_policy, n.pin_count];
    links
        .into_iter()
        .chain(sizes)
        .chain(entries)
        .chain(rest)
        .fold(h, mix)
}

pub fn tree(nodes: &[u32], pages: &[u32]) -> u32 {
    (0..64).fold(SEED, |h, node| block(h, nodes, pages, node))
}

// The mapping whose number + 1 is so much: three zeros for none.
fn numbered(h: u32, mappings: &[u32], number: u32) -> u32 {
    (0..64)
        .map(|place| tables::mapping_at(mappings, place))
        .find(|m| m.number == number)
        .map_or([0; 3], |m| [m.object % 64 + 1, m.first, m.pages])
        .into_iter()
        .fold(h, mix)
}

// How many mappings the object has, and their numbers in list order.
fn listed(h: u32, mappings: &[u32], object: u32) -> u32 {
    let numbers = || {
        (0..64)
            .map(|place| tables::mapping_at(mappings, place))
            .filter(|m| m.object == object)
            .filter_map(|m| m.number.checked_sub(1))
    };
    numbers().fold(mix(h, numbers().count() as u32), mix)
}

pub fn maps(mappings: &[u32]) -> u32 {
    let by_number = (1..=64).fold(SEED, |h, number| numbered(h, mappings, number));
    (0..64).fold(by_number, |h, object| listed(h, mappings, object))
}

fn with_bytes(h: u32, bytes: &[u8]) -> u32 {
    bytes.iter().fold(h, |h, byte| mix(h, *byte as u32))
}

pub fn bytes(bytes: &[u8]) -> u32 {
    with_bytes(SEED, bytes)
}

// The frames in use, each by its number and its bytes.
pub fn mem(used: &[u8], memory: &[u8]) -> u32 {
    (0u32..64)
        .zip(used)
        .zip(memory.chunks_exact(4096))
        .filter(|((_, used), _)| **used != 0)
        .fold(
            SEED,
            |h, ((number, _), frame)| with_bytes(mix(h, number), frame),
        )
}

pub fn free(used: &[u8]) -> usize {
    used.iter().filter(|used| **used == 0).count()
}
