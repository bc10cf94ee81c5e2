// The steps of the calls, after their tests.
ghost use Rattle.std.specs.Prelude.{◌≡◌, List, ℕ, ◌*◌};
ghost use Rattle.tables.specs.Pool.{pool_of};
ghost use Rattle.tables.specs.Tables.{node_of};
ghost use Rattle.pool.specs.Calls.{saying, new_leaf};

use node::Node;
use outcome::{Answer, Refusal};

// The lowest free node becomes an origin; its owner number is the next.
#[tactic(auto, using(std::proofs::lemmas::Bool::Decides::nat_tests), unfolding(crate::specs::Calls::new_leaf, crate::specs::Calls::leaf_at))]
pub fn new_leaf(nodes: &mut [u32], head: &mut [u32], size: u32) -> Answer
    ensures { (pages used mappings memory : List ℕ) →
        saying result (pool_of nodes.new pages used mappings head.new memory)
        ≡ new_leaf (pool_of nodes.old pages used mappings head.old memory) size }
{
    let owner = tables::at(head, 0);
    if owner <= Node::LAST_OWNER {
        let Some(i) = tables::free_node(nodes) else {
            return Err(Refusal::NoNode);
        };
        tables::set_node(nodes, i, Node::origin(size, owner));
        tables::put(head, 0, owner + 1);
        return Ok(i as u64);
    }
    Err(Refusal::NoNode)
}

pub fn len_of(nodes: &[u32], node: u32) -> u64
    ensures { result ≡ (node_of nodes.now node).size * 4096 }
{
    let n = tables::node_at(nodes, node);
    n.size as u64 * 4096
}
