// The call forecast: are there as many free frames as the range has pages that the leaf does not hold?

#![tactic(auto)]

ghost use Rattle.std.specs.Prelude.{◌≡◌, ◌≤◌, ◌<◌};
ghost use Rattle.tables.specs.Lent.{pool_in};
ghost use Rattle.pool.specs.Calls.{saying};
ghost use Rattle.forecast.specs.Forecast.{absent_in, forecast_answer, forecast};

use blocks::BlockIter;
use outcome::{Answer, Refusal};
use tables::View;

// How many of the pages the node holds no frame for.
fn absent_in(pages: &[u32], node: u32, first: u64, count: u64) -> u64
    requires { (first < 4503599627370496) × (count ≤ 4503599627370496) }
    ensures { result ≡ absent_in pages.now node first count }
{
    (first..first + count)
        .filter(|&page| tables::slot_at(pages, node, page).is_none())
        .count() as u64
}

#[tactic(auto, using(std::proofs::lemmas::Bool::Decides::nat_tests), unfolding(blocks::specs::Blocks::count_of, blocks::specs::Blocks::pages_of, crate::specs::Forecast::forecast_answer, crate::specs::Forecast::yes_of))]
fn answer(pool: View, node: u32, offset: u64, len: u64) -> Answer
    ensures { result ≡ forecast_answer 4096 pool.entry.nodes.now pool.entry.pages.now pool.entry.used.now node offset len }
{
    let n = tables::node_at(pool.nodes, node);
    if !n.contains(offset, len) {
        return Err(Refusal::OutOfRange);
    }
    let range = BlockIter {
        begin: offset,
        end: offset + len,
    };
    let needed = absent_in(
        pool.pages,
        node,
        offset / blocks::PAGE_SIZE,
        range.block_count(),
    );
    let enough = needed <= frames::free_count(pool.used) as u64;
    Ok(u64::from(enough))
}

// 1 for yes, 0 for no.
#[tactic(auto, unfolding(pool::specs::Calls::on_object, pool::specs::Calls::on_entered))]
pub fn forecast(pool: View, object: u64, offset: u64, len: u64) -> Answer
    ensures { saying result (pool_in pool.entry) ≡ forecast 4096 (pool_in pool.entry) object offset len }
{
    let node = pool::enter(pool, object)?;
    answer(pool, node, offset, len)
}
