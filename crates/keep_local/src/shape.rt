//! The tree of levels that the callers of a lock stand under.

ghost use Rattle.std.specs.Prelude.{◌≡◌, ◌<◌, ◌^◌};
ghost use Rattle.keep_local.specs.Shapes.{top_of, callers_of, node_of};

use sequence::Sequence;

/// The nodes of each caller, from the lowest level up, and how often each level keeps the lock for its own callers.
#[derive(Debug, Drop)]
pub struct Shape {
    /// For each caller its node at each level, the lowest first. The last level is the top, whose one node is 0.
    pub paths: Sequence<Sequence<u32>>,
    /// For each level below the top, how many turns in a row may hand the lock over inside one of its nodes.
    pub keeps: Sequence<u32>,
}

impl Shape {
    /// The top level, which is the number of the levels below it.
    pub(crate) fn top(&self) -> u32
        requires { top_of self.now < 2 ^ 32 }
        ensures { result ≡ top_of self.now }
    {
        self.keeps.as_slice().len() as u32
    }
    /// How many callers there are.
    pub(crate) fn callers(&self) -> usize
        ensures { result ≡ callers_of self.now }
    {
        self.paths.as_slice().len()
    }

    /// The node of a caller at a level, or 0 where the shape has none.
    pub(crate) fn node(&self, caller: usize, level: usize) -> u32
        ensures { result ≡ node_of self.now caller level }
    {
        let Some(path) = self.paths.as_slice().get(caller) else {
            return 0;
        };
        let Some(node) = path.as_slice().get(level) else {
            return 0;
        };
        *node
    }
}
