// Refusal 7: a column that doesn't exist, local or outer.
ghost use Rattle.std.specs.Prelude.{◌≡◌, not, ◌<◌, get_or};
ghost use Rattle.algebra.specs.Lists.{all};
ghost use Rattle.plan.specs.Words as spec;
ghost use Rattle.plan.specs.Items.{conjunct_of};
ghost use Rattle.plan.specs.Terms.{meant};
ghost use Rattle.plan.specs.Verdict.{is_right_side, scope_of, term_there, conjunct_there, columns_right};
ghost use Rattle.plan.specs.Promise.{Formed};
ghost use Rattle.plan.specs.Passes.{Reaches, Joins, InPlan, Placed, entered, first, item_there};

use crate::operator::Operator;
use crate::sorts::{Aggregate, Operation, Sort};
use crate::terms::{Term, first_term, second_term};
use crate::words::{first_item, item_count, left, nodes, position, right, tag};
use crate::{PerNode, Plan};

// For each node the dependent join whose left row is its level 0, where there is one; in bytes, so that check keeps to the stack that the header says.
pub type Joins = [Option<u8>; Plan::NODES as usize];

// Node i is the right side of node p, a dependent join.
fn is_right_side(words: &[u32], p: u32, i: u32) -> bool
    requires { Formed words.now × (p < spec.nodes words.now) }
    ensures { result ≡ is_right_side words.now p i }
{
    Operator::of(words, p) == Operator::Dependent && right(words, p) == i
}

// Gives input i of node p its join, where it is open.
fn enter(words: &[u32], p: u32, i: u32, reaches: &PerNode, joins: &mut Joins)
    requires { Formed words.now × (p < spec.nodes words.now) × (i < 256) }
    ensures { joins.new ≡ entered words.now reaches.now p i joins.old }
{
    if 0 < reaches[i as usize] {
        joins[i as usize] = if is_right_side(words, p, i) {
            Some(p as u8)
        } else {
            joins[p as usize]
        };
    }
}

#[tactic(auto, using(crate::proofs::Laws::Formed::left_in, crate::proofs::Laws::Formed::right_in))]
pub fn work_out_joins(words: &[u32], reaches: &PerNode) -> Joins
    requires { Formed words.now × Reaches words.now reaches.now }
    ensures { Joins words.now result × InPlan words.now result }
{
    let mut joins = [None; Plan::NODES as usize];
    for p in (0..nodes(words)).rev() {
        let operator = Operator::of(words, p);
        if operator.has_left() {
            enter(words, p, left(words, p), reaches, &mut joins);
        }
        if operator.has_right() {
            enter(words, p, right(words, p), reaches, &mut joins);
        }
    }
    joins
}

// What the columns of a formed plan are looked up in: the widths of its nodes and the joins around them.
#[derive(Clone, Copy)]
pub struct Lookup<'a> {
    pub words: &'a [u32],
    pub rows: &'a PerNode,
    pub joins: &'a Joins,
    pub ghost placed: { Placed words.now rows.now joins.now },
}

impl Lookup<'_> {
    // The width of the row at a level around node n, 0 where there is none.
    fn outer_width(&self, n: u32, level: u32) -> u32
        requires { n < spec.nodes self.now.words.now }
        ensures { result ≡ get_or (scope_of self.now.words.now n) level 0 }
    {
        let mut at = self.joins[n as usize];
        for _ in 0..level {
            let Some(p) = at else {
                return 0;
            };
            at = self.joins[p as usize];
        }
        match at {
            Some(p) => self.rows[left(self.words, p as u32) as usize],
            None => 0,
        }
    }

    // A term of node n over a row of width w.
    #[tactic(auto, unfolding(crate::specs::Verdict::term_there))]
    fn term_there(&self, n: u32, term: Term, w: u32) -> bool
        requires { n < spec.nodes self.now.words.now }
        ensures { result ≡ term_there (scope_of self.now.words.now n) w (meant term) }
    {
        match term {
            Term::Local(p) => p < w,
            Term::Outer { level, position } => position < self.outer_width(n, level),
            Term::Constant(_) | Term::Null => true,
        }
    }

    // Both terms of an item of node n.
    fn terms_there(&self, n: u32, j: u32, w: u32) -> bool
        requires { n < spec.nodes self.now.words.now }
        ensures { result ≡ conjunct_there (scope_of self.now.words.now n) w (conjunct_of (spec.item_at self.now.words.now j)) }
    {
        self.term_there(n, first_term(self.words, j), w)
            && self.term_there(n, second_term(self.words, j), w)
    }

    // An item of node n: conjuncts and computations over rows of width w, the other columns over rows of width v.
    fn item_there(&self, n: u32, j: u32, w: u32, v: u32) -> bool
        requires { n < spec.nodes self.now.words.now }
        ensures { result ≡ item_there (scope_of self.now.words.now n) w v (spec.item_at self.now.words.now j) }
    {
        match Sort::try_from(tag(self.words, j)) {
            Ok(Sort::Key | Sort::Output) => position(self.words, j) < v,
            Ok(Sort::Aggregate) => match Aggregate::of(self.words, j) {
                Aggregate::Count => true,
                Aggregate::Sum(p) | Aggregate::Minimum(p) | Aggregate::Maximum(p) => p < v,
            },
            Ok(Sort::Computation) => match Operation::of(self.words, j) {
                Operation::Copy => self.term_there(n, first_term(self.words, j), w),
                Operation::Add | Operation::Subtract => self.terms_there(n, j, w),
            },
            Ok(Sort::Conjunct) | Err(_) => self.terms_there(n, j, w),
        }
    }

    // Every item of node n.
    fn items_there(&self, n: u32, w: u32, v: u32) -> bool
        requires { n < spec.nodes self.now.words.now }
        ensures { result ≡ all (item_there (scope_of self.now.words.now n) w v) (spec.items_of self.now.words.now n) }
    {
        let a = first_item(self.words, n);
        (a..a + item_count(self.words, n)).all(|j| self.item_there(n, j, w, v))
    }

    // The columns of node n.
    #[tactic(auto, using(crate::proofs::Laws::Formed::left_in, crate::proofs::Laws::Formed::right_in))]
    fn columns_right(&self, n: u32) -> bool
        requires { n < spec.nodes self.now.words.now }
        ensures { result ≡ columns_right self.now.words.now n }
    {
        match Operator::of(self.words, n) {
            Operator::Scan => true,
            Operator::Select | Operator::Map | Operator::Project | Operator::Group => {
                let l = self.rows[left(self.words, n) as usize];
                self.items_there(n, l, l)
            }
            Operator::Join | Operator::Groupjoin | Operator::Dependent => {
                let l = self.rows[left(self.words, n) as usize];
                let r = self.rows[right(self.words, n) as usize];
                self.items_there(n, l + r, r)
            }
        }
    }

    // The lowest node with a column that doesn't exist.
    pub fn first_missing(&self) -> Option<u32>
        ensures { result ≡ first (λ n. not (columns_right self.now.words.now n)) (spec.nodes self.now.words.now) }
    {
        (0..nodes(self.words)).find(|&n| !self.columns_right(n))
    }
}
