// The three tests that are asked of each expression, each over all of them before the next.
ghost use Rattle.std.specs.Prelude.{◌≡◌};
ghost use Rattle.trees.specs.Nodes.{test_fault};

use laws::Fault;

#[derive(Clone, Copy, Debug, PartialEq, Eq)]
pub enum NodeTest {
    // Named exactly once, as child or as root body.
    UsedOnce,
    // A let is a statement of a block.
    LetStated,
    // At most 64 deep.
    Shallow,
}

impl NodeTest {
    // The fault of an expression that does not pass.
    pub fn fault(self) -> Fault
        ensures { result ≡ test_fault self }
    {
        match self {
            NodeTest::UsedOnce => Fault::NotUsedOnce,
            NodeTest::LetStated => Fault::StrayLet,
            NodeTest::Shallow => Fault::TooDeep,
        }
    }
}
