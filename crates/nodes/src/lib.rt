// An expression's tree as a slice of nodes, in the order of the text: each node after its parts.
#![tactic(auto)]

ghost use Rattle.std.specs.Prelude.{◌≡◌, ℕ, ◌≤◌, length};
ghost use Rattle.algebra.specs.Algebra.{Tree, held, bindings};
ghost use Rattle.algebra.specs.Policy as policy;
ghost use Rattle.algebra.specs.Nodes.{parts, Encodes, back};
ghost use Rattle.nodes.specs.Cells.{node_meant, label, HasTree};

use algebra::{Joiner, Scope};

// A node: a table by its number, `+`, `&` or `-`, `o`, a scope, a closure by a rule set, or a template `(t:x.E)(F)`, after E's nodes and then F's.
// Within E x is table 0, and table n + 1 is table n outside.
#[derive(Clone, Copy, PartialEq, Eq, Default)]
pub enum Node {
    Table(u8),
    Join(Joiner),
    Override,
    Scope(Scope),
    Closure(u8),
    #[default]
    Template,
}

impl Node {
    // How many parts a node has.
    fn parts(self) -> usize
        ensures few { result ≤ 3 }
        ensures value { result ≡ parts (node_meant self) }
    {
        match self {
            Node::Table(_) => 0,
            Node::Scope(_) | Node::Closure(_) => 1,
            Node::Join(_) | Node::Template => 2,
            Node::Override => 3,
        }
    }
}

// Where the tree begins whose own node is the last: back over its nodes, until no part is left to pass.
pub fn part_start(nodes: &[Node]) -> usize
    requires { length nodes.now ≤ 193 }
    ensures { result ≡ back (label nodes.now) (length nodes.now) 1 }
{
    let mut left = 1;
    for j in (0..nodes.len()).rev() {
        left = left - 1 + nodes[j].parts();
        if left == 0 {
            return j;
        }
    }
    0
}

// Where a tree begins, how many sets it holds, and how many bindings are in force at once.
#[derive(Clone, Copy)]
pub struct Counted {
    pub start: usize,
    pub sets: usize,
    pub bindings: usize,
}

// The tree whose own node is the last: from the last part to the first, since each begins where the one before it ends.
pub fn sets_held(nodes: &[Node]) -> Counted
    requires { HasTree nodes.now (length nodes.now) }
    ensures { (t : Tree policy.Scope) (lo : ℕ) → Encodes (label nodes.now) t lo (length nodes.now)
        → (result.start ≡ lo) × (result.sets ≡ held t) × (result.bindings ≡ bindings t) }
{
    let own = nodes.len() - 1;
    match nodes[own] {
        Node::Table(_) => Counted {
            start: own,
            sets: 1,
            bindings: 0,
        },
        Node::Join(_) => {
            let r = sets_held(&nodes[..own]);
            let l = sets_held(&nodes[..r.start]);
            Counted {
                start: l.start,
                sets: l.sets.max(1 + r.sets),
                bindings: l.bindings.max(r.bindings),
            }
        }
        Node::Override => {
            let s = sets_held(&nodes[..own]);
            let q = sets_held(&nodes[..s.start]);
            let p = sets_held(&nodes[..q.start]);
            Counted {
                start: p.start,
                sets: p.sets.max((1 + q.sets).max(2 + s.sets)),
                bindings: p.bindings.max(q.bindings.max(s.bindings)),
            }
        }
        Node::Scope(_) | Node::Closure(_) => sets_held(&nodes[..own]),
        Node::Template => {
            let f = sets_held(&nodes[..own]);
            let e = sets_held(&nodes[..f.start]);
            Counted {
                start: e.start,
                sets: f.sets.max(1 + e.sets),
                bindings: f.bindings.max(1 + e.bindings),
            }
        }
    }
}
