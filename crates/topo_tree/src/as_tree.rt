//! What has a tree.
ghost use Rattle.std.specs.Prelude.{◌≡◌};
ghost use Rattle.synth_text.specs.declared.description.Description.{Description as Described};

use crate::topology::Topology;
use crate::tree::Tree;

/// A tree, or what has one: calls that read the sets of few objects take either.
pub trait AsTree {
    /// The description that its contracts speak of.
    ghost described: { Self → Described };

    /// The tree.
    fn as_tree(&self) -> &Tree
        ensures { result.now ≡ described self.now };
}

impl AsTree for Tree {
    ghost described = { λ tree. tree };

    fn as_tree(&self) -> &Tree {
        self
    }
}

impl AsTree for Topology {
    ghost described = { λ topology. topology };

    fn as_tree(&self) -> &Tree {
        self.tree()
    }
}
