// Mappings: live ones stand first, in the order of appending, each with a number of its own.
ghost use Rattle.std.specs.Prelude.{◌≡◌, ◌≤◌, ◌<◌, length};
ghost use Rattle.logic.specs.Below.{all_below};
ghost use Rattle.tables.specs.Tables.{number_of};
ghost use Rattle.sound.specs.Maps.{mapping_ok, place_ok, mappings_ok};
ghost use Rattle.sound.specs.Rows.{mark_run};

use crate::rows;
use tables::Mapping;

// A mapping shows pages below 64 of a leaf.
#[tactic(auto, unfolding(crate::specs::Maps::mapping_ok))]
fn mapping_ok(nodes: &[u32], m: Mapping) -> bool
    ensures { result ≡ mapping_ok nodes.now m }
{
    (1 <= m.number)
        & (m.number <= 64)
        & tables::node_at(nodes, m.object).is_leaf()
        & (1 <= m.pages)
        & (u64::from(m.first) + u64::from(m.pages) <= 64)
}

// A free place has no mapping after it.
fn place_ok(nodes: &[u32], mappings: &[u32], place: u32) -> bool
    requires { place < 64 }
    ensures { result ≡ place_ok nodes.now mappings.now place }
{
    let m = tables::mapping_at(mappings, place);
    if m == Mapping::NONE {
        tables::number_at(mappings, place + 1) == 0
    } else {
        mapping_ok(nodes, m)
    }
}

// The first places of the list.
fn places_ok(nodes: &[u32], mappings: &[u32], places: u32) -> bool
    requires { places ≤ 64 }
    ensures { result ≡ all_below (place_ok nodes.now mappings.now) places }
{
    (0..places).all(|place| place_ok(nodes, mappings, place))
}

fn mark_numbers(mappings: &[u32], places: u32, marks: &mut [u8])
    ensures { marks.new ≡ mark_run (number_of mappings.now) places marks.old }
{
    for place in 0..places {
        rows::mark_entry(marks, tables::number_at(mappings, place));
    }
}

// Blank places at the end pass both tests, so they are not looked at.
pub fn mappings_ok(nodes: &[u32], mappings: &[u32]) -> bool
    requires { length mappings.now ≡ 256 }
    ensures { result ≡ mappings_ok nodes.now mappings.now }
{
    let places = tables::live_places(mappings);
    let mut marks = [0; 65];
    mark_numbers(mappings, places, &mut marks);
    places_ok(nodes, mappings, places) & marks.iter().all(|mark| *mark <= 1)
}
