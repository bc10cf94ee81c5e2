// The room that a call asks of the lent list of notices.
ghost use Rattle.std.specs.Prelude.{◌≡◌, ◌≤◌};
ghost use Rattle.node.specs.Node.{byte_limit};
ghost use Rattle.outcome.specs.Room.{live_count, room_of};

fn live_count(mappings: &[u32]) -> u64
    ensures value { result ≡ live_count mappings.now }
    ensures small { result ≤ 64 }
{
    (0..64)
        .filter(|&place| tables::number_at(mappings, place) != 0)
        .count() as u64
}

// The list takes as many notices as the pages touched times the live mappings.
pub fn has_room(mappings: &[u32], notices: &[u32], pages: u64) -> bool
    requires { pages ≤ byte_limit }
    ensures { result ≡ room_of mappings.now notices.now pages }
{
    pages * live_count(mappings) <= (notices.len() / 4) as u64
}
