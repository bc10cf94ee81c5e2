// A node's row of 64 entries.
ghost use Rattle.std.specs.Prelude.{◌≡◌, ◌*◌};
ghost use Rattle.logic.specs.Below.{copied, zeroed};
ghost use Rattle.tables.specs.Tables.{row_moved};

// Word by word, here and below: a row at the end of a short table is written as far as it goes, which copy_from_slice and fill refuse.
fn copy_row(pages: &mut [u32], from: u32, to: u32)
    ensures { pages.new ≡ copied pages.old (to * 64) pages.old (from * 64) 64 }
{
    for k in 0..64 {
        let e = crate::at(pages, from as usize * 64 + k);
        crate::put(pages, to as usize * 64 + k, e);
    }
}

#[tactic(auto, unfolding(logic::specs::Below::zeroed))]
fn clear_row(pages: &mut [u32], node: u32)
    ensures { pages.new ≡ zeroed pages.old (node * 64) 64 }
{
    for k in 0..64 {
        crate::put(pages, node as usize * 64 + k, 0);
    }
}

// A node's row of entries goes to another node.
#[tactic(auto, unfolding(crate::specs::Tables::row_moved))]
pub fn move_row(pages: &mut [u32], from: u32, to: u32)
    ensures { pages.new ≡ row_moved pages.old from to }
{
    copy_row(pages, from, to);
    clear_row(pages, from);
}
