//! Nodes that are put together one after the other, parts before wholes.
ghost use Rattle.std.specs.Prelude.{◌≡◌, ◌<◌, ◌++◌, ◌∷◌, [], length, vec_len, IfOk};
ghost use Rattle.std.proofs.Props.{props};
ghost use Rattle.guard_integers.specs.Integers.{integers_set};
ghost use Rattle.guard_tables.specs.TableNodes.{IsBuilt, IsNode, spots_of};

use crate::new_nodes::Node;
use crate::node::{Cold, Hot};
use guard_model::OutOfMemory;
use std::alloc::Global;

/// All nodes of a table; the last of them is the whole.
#[derive(Drop)]
pub struct Nodes {
    pub hots: Vec<Hot>,
    pub colds: Vec<Cold>,
    pub ghost some: { 0 < vec_len hots },
    pub ghost built: { IsBuilt hots.items colds.items } by { Prim.hlevel (props, integers_set) },
}

/// Nodes to which others may be added.
#[derive(Drop)]
pub(crate) struct Builder {
    pub hots: Vec<Hot>,
    pub colds: Vec<Cold>,
    pub ghost built: { IsBuilt hots.items colds.items } by { Prim.hlevel (props, integers_set) },
}

/// Nodes, and one more that stands for the whole and isn't with them yet.
#[derive(Drop)]
pub(crate) struct Assembled {
    pub builder: Builder,
    pub node: Node,
    pub ghost stands: { IsNode node.hot node.cold (spots_of builder.hots.items builder.colds.items)
        (length builder.hots.items) } by { Prim.hlevel (props, integers_set) },
}

impl Builder {
    /// No nodes yet.
    pub fn new(alloc: Global) -> Builder
        ensures hots { result.hots.items ≡ [] }
        ensures colds { result.colds.items ≡ [] }
    {
        Builder {
            hots: Vec::new(alloc),
            colds: Vec::new(alloc),
        }
    }

    /// The nodes with one more at their end. Condition: the parts of the new node are among them.
    pub fn with(self, hot: Hot, cold: Cold) -> Result<Builder, OutOfMemory>
        requires { IsNode hot cold (spots_of self.hots.items self.colds.items) (length self.hots.items) }
        ensures hots { IfOk result (λ b. b.hots.items ≡ self.hots.items ++ hot ∷ []) }
        ensures colds { IfOk result (λ b. b.colds.items ≡ self.colds.items ++ cold ∷ []) }
    {
        let mut hots = self.hots;
        let mut colds = self.colds;
        hots.push(hot)?;
        colds.push(cold)?;
        Ok(Builder { hots, colds })
    }

    /// The nodes of a table, of which the last is the whole. Condition: there is one at least.
    pub fn finish(self) -> Nodes
        requires { 0 < vec_len self.hots }
        ensures hots { result.hots.items ≡ self.hots.items }
        ensures colds { result.colds.items ≡ self.colds.items }
    {
        Nodes {
            hots: self.hots,
            colds: self.colds,
        }
    }
}
