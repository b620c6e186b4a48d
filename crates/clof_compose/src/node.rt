//! The basic lock of a node.
ghost use Rattle.std.specs.Prelude.{◌≡◌, ◌<◌, length, map, slice_get, Some};

/// The basic lock of a node, and a list with room for its passes, which is empty while the lock is in use.
#[derive(Drop)]
pub struct Node<B, L> {
    pub(crate) lock: B,
    pub(crate) list: Vec<L>,
}

/// The basic lock of a node.
pub(crate) fn lock_of<B, L>(nodes: &[Node<B, L>], node: u32) -> &B
    requires { node < length nodes.now }
    ensures { slice_get (map (λ n. n.lock) nodes.now) node ≡ Some result.now }
{
    &nodes[node as usize].lock
}
