// How a call on an object is entered: the pool test, then the object.
ghost use Rattle.std.specs.Prelude.{◌≡◌, ℕ, ◌<◌, Ok};
ghost use Rattle.tables.specs.Lent.{pool_in};
ghost use Rattle.pool.specs.Calls.{entered};

use outcome::Refusal;
use tables::View;

// Objects are numbered below it.
const OBJECTS: u64 = 64;

// An object's node, or why the call is refused.
#[tactic(auto, using(std::proofs::lemmas::Bool::Decides::nat_tests), unfolding(crate::specs::Calls::entered))]
pub fn enter(pool: View, object: u64) -> Result<u32, Refusal>
    ensures value { result ≡ entered 4096 (pool_in pool.entry) object }
    ensures small { (n : ℕ) → result ≡ Ok n → n < 64 }
{
    if !sound::is_sound(pool) {
        return Err(Refusal::BadPool);
    }
    if object < OBJECTS {
        let node = object as u32;
        let n = tables::node_at(pool.nodes, node);
        if n.is_leaf() {
            return Ok(node);
        }
    }
    Err(Refusal::NoObject)
}
