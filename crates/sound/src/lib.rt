// The sound pool of document 01 as one pass over the lent tables: the lengths, then the tree, the page entries and the mappings.

#![tactic(auto)]

mod maps;
mod rows;
mod tree;

ghost use Rattle.std.specs.Prelude.{◌≡◌, true, length, ◌≤◌};
ghost use Rattle.tables.specs.Lent.{pool_in};
ghost use Rattle.sound.specs.Sound.{lengths_ok, head_ok, tables_ok, sound};

use tables::View;

// The tables that the entries are tested by, where they are as long as they have to be.
#[derive(Clone, Copy)]
struct Whole<'a> {
    nodes: &'a [u32],
    pages: &'a [u32],
    used: &'a [u8],
    ghost records: { length nodes.now ≡ 1024 },
    ghost rows: { length pages.now ≡ 4096 },
    ghost flags: { length used.now ≤ 1024 },
}

// Every table is as long as it has to be, and the memory holds a page for each frame.
pub fn lengths_ok(pool: View) -> bool
    ensures { result ≡ lengths_ok 4096 (pool_in pool.entry) }
{
    let frames = pool.used.len();
    if frames <= 1024 {
        return (pool.nodes.len() == 1024)
            & (pool.pages.len() == 4096)
            & (pool.mappings.len() == 256)
            & (pool.head.len() == 4)
            & (1 <= frames)
            & (pool.memory.len() == frames * 4096);
    }
    false
}

fn head_ok(next: u32) -> bool
    ensures { result ≡ head_ok next }
{
    (1 <= next) & (next <= 16777216)
}

fn tables_ok(pool: View, next: u32) -> bool
    requires { (length pool.nodes.now ≡ 1024) × (length pool.pages.now ≡ 4096) × (length pool.used.now ≤ 1024) × (length pool.mappings.now ≡ 256) }
    ensures { result ≡ tables_ok pool.entry.nodes.now pool.entry.pages.now pool.entry.used.now pool.entry.mappings.now next }
{
    let whole = Whole {
        nodes: pool.nodes,
        pages: pool.pages,
        used: pool.used,
    };
    let mut marks = [0u8; 1025];
    let entries = rows::rows_ok(whole, &mut marks);
    let frames = rows::frames_ok(pool.used, &marks);
    head_ok(next)
        & tree::nodes_ok(whole, next)
        & tree::chains_end(pool.nodes)
        & tree::starts_ok(pool.nodes, next)
        & entries
        & frames
        & maps::mappings_ok(pool.nodes, pool.mappings)
}

pub fn is_sound(pool: View) -> bool
    ensures { result ≡ sound 4096 (pool_in pool.entry) }
{
    if lengths_ok(pool) {
        return tables_ok(pool, tables::at(pool.head, 0));
    }
    false
}
