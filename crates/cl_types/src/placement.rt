//! Which virtual node has the records of a key. The table's name plays no part.
ghost use Rattle.std.specs.Prelude.{◌≡◌, ◌*◌, ◌<◌};
ghost use Rattle.cl_types.specs.Placement as placement;
ghost use Rattle.cl_types.specs.Placement.{hash_of, fragment_of, virtual_node_of, IsNodeCount, KeysStandOnVirtualNodes};

use crate::Key;

// The offset basis of 32-bit FNV-1a.
const FNV_OFFSET_BASIS: u32 = 2166136261;

// The prime of 32-bit FNV-1a.
const FNV_PRIME: u32 = 16777619;

/// The 32-bit FNV-1a hash of a key.
#[tactic(auto, unfolding(crate::specs::Placement::hash_of))]
pub fn hash(key: &Key) -> u32
    ensures { result ≡ hash_of key.now }
{
    key.bytes().iter().fold(FNV_OFFSET_BASIS, |hash, byte| {
        (hash ^ u32::from(*byte)).wrapping_mul(FNV_PRIME)
    })
}

/// Whether a system may have this number of nodes: 2, 4, 6 or 8.
pub fn is_node_count(nodes: u32) -> bool
    ensures { result ≡ placement.is_node_count nodes }
{
    matches!(nodes, 2 | 4 | 6 | 8)
}

/// The fragment of a key, from 0. There are four fragments for each node.
#[tactic(auto, unfolding(crate::specs::Placement::fragment_of))]
pub fn fragment(key: &Key, nodes: u32) -> u32
    requires { IsNodeCount nodes }
    ensures value { result ≡ fragment_of key.now nodes }
    ensures below { result < 4 * nodes }
{
    hash(key) % (4 * nodes)
}

/// The virtual node of a key, from 0. There are as many virtual nodes as nodes.
#[tactic(auto, unfolding(crate::specs::Placement::virtual_node_of))]
pub fn vnode_of(key: &Key, nodes: u32) -> u32
    requires { IsNodeCount nodes }
    ensures value { result ≡ virtual_node_of key.now nodes }
    ensures below { result < nodes }
{
    fragment(key, nodes) % nodes
}

/// Each key belongs to one of the virtual nodes, whatever the number of nodes.
pub fn placement_law()
    ensures { KeysStandOnVirtualNodes }
{}
