// An object's mappings (paged.rs 332 to 344): live ones stand first, in the order of appending; the lowest free number is given.

#![tactic(auto, unfolding(crate::specs::Mappings::free_place, crate::specs::Mappings::unused, crate::specs::Mappings::free_number, crate::specs::Mappings::place_of, crate::specs::Mappings::is_at, crate::specs::Mappings::append, crate::specs::Mappings::append_by, crate::specs::Mappings::removed, crate::specs::Mappings::removed_by, crate::specs::Mappings::with_mapping))]

ghost use Rattle.std.specs.Prelude.{◌≡◌, ◌<◌, IfSome};
ghost use Rattle.mappings.specs.Mappings.{free_place, unused, free_number, with_mapping, listed_of, append, is_at, place_of, closed_up, removed};

use tables::Mapping;

fn free_place(mappings: &[u32]) -> Option<u32>
    ensures { result ≡ free_place mappings.now }
{
    (0..64).find(|&i| tables::number_at(mappings, i) == 0)
}

// No place holds this number.
fn is_unused(mappings: &[u32], number: u32) -> bool
    ensures { result ≡ unused mappings.now number }
{
    (0..64).all(|i| u64::from(tables::number_at(mappings, i)) != u64::from(number) + 1)
}

fn free_number(mappings: &[u32]) -> Option<u32>
    ensures value { result ≡ free_number mappings.now }
    ensures below { IfSome result (λ number. number < 64) }
{
    (0..64).find(|&number| is_unused(mappings, number))
}

#[tactic(auto, unfolding(logic::specs::Below::copied, crate::specs::Mappings::with_mapping))]
fn put_mapping(mappings: &mut [u32], place: u32, m: Mapping)
    ensures { mappings.new ≡ with_mapping mappings.old place m }
{
    let words = [m.number, m.object, m.first, m.pages];
    tables::put_all(mappings, place as usize * 4, &words);
}

// The new mapping's number, or None where all 64 are live.
pub fn append(mappings: &mut [u32], object: u32, first: u32, pages: u32) -> Option<u32>
    ensures { listed_of result mappings.new ≡ append mappings.old object first pages }
{
    let place = free_place(mappings)?;
    let number = free_number(mappings)?;
    let mapping = Mapping {
        number: number + 1,
        object,
        first,
        pages,
    };
    put_mapping(mappings, place, mapping);
    Some(number)
}

// The place of an object's mapping.
fn place_of(mappings: &[u32], object: u32, number: u32) -> Option<u32>
    ensures value { result ≡ place_of mappings.now object number }
    ensures below { IfSome result (λ place. place < 64) }
{
    (0..64).find(|&place| is_at(mappings, object, number, place))
}

fn is_at(mappings: &[u32], object: u32, number: u32, place: u32) -> bool
    ensures { result ≡ is_at mappings.now object number place }
{
    let m = tables::mapping_at(mappings, place);
    u64::from(m.number) == u64::from(number) + 1 && m.object == object
}

// The places after this one move up, and the last becomes free.
fn close_up(mappings: &mut [u32], place: u32)
    requires { place < 64 }
    ensures { mappings.new ≡ closed_up mappings.old place }
{
    let a = place as usize * 4;
    // Not by copy_within: a short table reads as 0 past its end.
    for k in a..252 {
        let word = tables::at(mappings, k + 4);
        tables::put(mappings, k, word);
    }
    put_mapping(mappings, 63, Mapping::NONE);
}

// A mapping that isn't live, or isn't the object's, changes nothing.
pub fn remove(mappings: &mut [u32], object: u32, number: u32)
    ensures { mappings.new ≡ removed mappings.old object number }
{
    if let Some(place) = place_of(mappings, object, number) {
        close_up(mappings, place);
    }
}
