// The columns that each node reads of the rows outside it: for each node and each level around it one set.
ghost use Rattle.std.specs.Prelude.{◌≡◌, ◌||◌, ℕ, ◌+◌, ◌≤◌, ◌<◌, eqb};
ghost use Rattle.algebra.specs.Lists.{any};
ghost use Rattle.algebra.specs.Columns.{term_reads};
ghost use Rattle.algebra.specs.Domains as algebra;
ghost use Rattle.plan.specs.Words as spec;
ghost use Rattle.plan.specs.Terms.{meant};
ghost use Rattle.plan.specs.Promise.{Accepted};
ghost use Rattle.pages.specs.Sets.{in_set, members};
ghost use Rattle.pages.specs.Domains.{Means};
ghost use Rattle.rules.specs.Given.{PlanNode};
ghost use Rattle.rules.specs.Reads.{reads, Rows, ReadsTable, Added, input_read, input_reads, Filled, KeySet};

use pages::domain::Domain;
use pages::sets::ColumnSet;
use plan::Plan;
use plan::operator::Operator;
use plan::terms::{Term, first_term, second_term};
use plan::words::{first_item, item_count, left, nodes, right};

pub type ReadSets = [[ColumnSet; 8]; Plan::NODES as usize];

// The column of a term, read by node n.
fn add_term(term: Term, n: u32, table: &mut ReadSets)
    requires { (n < 256) × Rows table.old }
    ensures { Added n (reads (term_reads (meant term))) table.old table.new }
{
    let Term::Outer { level, position } = term else {
        return;
    };
    if level < 8 && position < ColumnSet::SIZE {
        let own = n as usize;
        let at = level as usize;
        table[own][at] = table[own][at].with(position);
    }
}

// What input i reads, read by node n; skip is 1 past a dependent join, whose left row is level 0 of its right side.
fn add_input(table: &mut ReadSets, n: u32, i: u32, skip: usize)
    requires { (n < 256) × (i < n) × (skip ≤ 1) × Rows table.old }
    ensures { Added n (input_read table.old i skip) table.old table.new }
{
    let own = n as usize;
    let input = i as usize;
    for l in 0..8 - skip {
        table[own][l] = table[own][l].union(table[input][l + skip]);
    }
}

// What the inputs of node n read.
fn add_inputs(words: &[u32], n: u32, table: &mut ReadSets)
    requires { PlanNode words.now n × Filled words.now n table.old }
    ensures { Added n (reads (input_reads words.now n)) table.old table.new }
{
    match Operator::of(words, n) {
        Operator::Scan => {}
        Operator::Select | Operator::Map | Operator::Project | Operator::Group => {
            add_input(table, n, left(words, n), 0);
        }
        Operator::Join | Operator::Groupjoin => {
            add_input(table, n, left(words, n), 0);
            add_input(table, n, right(words, n), 0);
        }
        Operator::Dependent => {
            add_input(table, n, left(words, n), 0);
            add_input(table, n, right(words, n), 1);
        }
    }
}

// All that node n reads, over what its inputs read.
fn add_node(words: &[u32], n: u32, table: &mut ReadSets)
    requires { PlanNode words.now n × Filled words.now n table.old }
    ensures { Filled words.now (n + 1) table.new }
{
    add_inputs(words, n, table);
    let a = first_item(words, n);
    for i in 0..item_count(words, n) {
        add_term(first_term(words, a + i), n, table);
        add_term(second_term(words, a + i), n, table);
    }
}

pub fn work_out_reads(words: &[u32]) -> ReadSets
    requires { Accepted words.now }
    ensures { ReadsTable words.now (spec.nodes words.now) result }
{
    let mut table = [[ColumnSet::EMPTY; 8]; Plan::NODES as usize];
    for n in 0..nodes(words) {
        add_node(words, n, &mut table);
    }
    table
}

// Where a column that the right side of a dependent join reads stands in the row of the left side under d.
fn spot(d: &Domain, level: u32, position: u32) -> u32
    requires { (level < 8) × (position < 64) }
    ensures { (D : algebra.Domain) → Means d.now D → result ≡ algebra.spot D level position }
{
    if level == 0 {
        return d.width + position;
    }
    d.place(level - 1, position)
}

// The spots of one level's columns, added to set.
fn level_spots(d: &Domain, level: u32, columns: ColumnSet, set: ColumnSet) -> ColumnSet
    requires { level < 8 }
    ensures { (D : algebra.Domain) → Means d.now D → (q : ℕ) → q < 64 → in_set result q ≡ (in_set set q || any (λ p. eqb q (algebra.spot D level p)) (members columns)) }
{
    let mut set = set;
    for p in 0..ColumnSet::SIZE {
        if columns.contains(p) {
            let q = spot(d, level, p);
            if q < ColumnSet::SIZE {
                set = set.with(q);
            }
        }
    }
    set
}

// The keys of a new domain under d: the columns of d and of the left that right side r reads.
pub fn key_set(d: &Domain, reads: &ReadSets, r: u32) -> ColumnSet
    requires { r < 256 }
    ensures { KeySet d.now r reads.now result }
{
    let mut set = ColumnSet::EMPTY;
    for l in 0..8 {
        set = level_spots(d, l, reads[r as usize][l as usize], set);
    }
    set
}
