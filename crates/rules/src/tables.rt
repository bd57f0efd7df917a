// What is known of the nodes of a checked plan before any of them is rewritten.
ghost use Rattle.std.specs.Prelude.{◌≡◌, ◌<◌, ◌≤◌, ◌&&◌, eqb};
ghost use Rattle.algebra.specs.Columns.{closed, reads_left, shape_at};
ghost use Rattle.plan.specs.Words as spec;
ghost use Rattle.plan.specs.Plan.{widths_of, nodes_of};
ghost use Rattle.plan.specs.Verdict.{width_at};

use crate::reads::ReadSets;
use plan::PerNode;
use plan::operator::Operator;
use plan::words::right;

// The words, and for each node how far it reaches outside it, how wide it is and what it reads.
#[derive(Clone, Copy)]
pub struct Tables<'a> {
    pub words: &'a [u32],
    pub reaches: &'a PerNode,
    pub widths: &'a PerNode,
    pub reads: &'a ReadSets,
}

// An input as it stands among the new nodes: its number there, and its width in the plan.
#[derive(Clone, Copy)]
pub struct Side {
    pub node: u32,
    pub width: u32,
    pub ghost narrow: { width ≤ 64 },
}

impl Tables<'_> {
    ghost use Rattle.rules.specs.Given.{Known};

    // Whether node n reads no row outside it.
    pub fn is_closed(&self, n: u32) -> bool
        requires { Known self.now n }
        ensures { result ≡ closed (shape_at (widths_of self.now.words.now) (nodes_of self.now.words.now) n) }
    {
        self.reaches[n as usize] == 0
    }

    // Whether node n is a dependent join whose right side reads its left row.
    pub fn reads_left(&self, n: u32) -> bool
        requires { Known self.now n }
        ensures { result ≡ (eqb (spec.operator self.now.words.now n) 8
            && reads_left (shape_at (widths_of self.now.words.now) (nodes_of self.now.words.now) (spec.right self.now.words.now n))) }
    {
        match Operator::of(self.words, n) {
            Operator::Dependent => !self.reads[right(self.words, n) as usize][0].is_empty(),
            _ => false,
        }
    }

    // Node n of the plan, which stands as a new node.
    pub fn side(&self, n: u32, node: u32) -> Side
        requires { Known self.now n }
        ensures { (result.node ≡ node) × (result.width ≡ width_at self.now.words.now n) }
    {
        Side {
            node,
            width: self.widths[n as usize],
        }
    }
}
