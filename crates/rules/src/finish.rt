// The nodes that a rule emits once the inputs stand under the domain.
ghost use Rattle.std.specs.Prelude.{◌≡◌, true, [], ◌∷◌, ◌++◌, ◌+◌, ◌≤◌, ◌<◌, ℕ, map};
ghost use Rattle.algebra.specs.Domains as algebra;
ghost use Rattle.algebra.specs.Plan as trees;
ghost use Rattle.plan.specs.Encoding.{position_words};
ghost use Rattle.plan.specs.Words as spec;
ghost use Rattle.plan.specs.Plan.{node_at};
ghost use Rattle.plan.specs.Verdict.{has_right};
ghost use Rattle.pages.specs.Sets.{members};
ghost use Rattle.pages.specs.Domains.{Means};
ghost use Rattle.pages.specs.Items.{shifted_words};
ghost use Rattle.pages.specs.Pages.{Added, Grows, Drops};
ghost use Rattle.rules.specs.Given.{PlanNode, OneInput};
ghost use Rattle.rules.specs.Under.{conjunct_count, over_input, with_copy, with_open, with_inner};

use crate::tables::Side;
use pages::domain::Domain;
use pages::page::{Head, OverLimits, Page};
use pages::sets::ColumnSet;
use pages::shift::Shift;
use plan::kinds::JoinKind;
use plan::operator::Operator;
use plan::sorts::Sort;
use plan::tags::{KEY, OUTPUT, count_of_sort};
use plan::words::{first_item, item_count};

// The number of conjuncts among the items of node n: all of them, but for a groupjoin's aggregates.
fn conjunct_count(words: &[u32], n: u32) -> u32
    requires { PlanNode words.now n }
    ensures { result ≡ conjunct_count words.now n }
{
    let count = item_count(words, n);
    match Operator::of(words, n) {
        Operator::Groupjoin => count_of_sort(words, first_item(words, n), count, Sort::Conjunct),
        _ => count,
    }
}

// The columns of a domain as keys or output columns, then those of items that stood without it.
fn domain_first(
    tag: u32,
    width: u32,
    words: &[u32],
    from: u32,
    count: u32,
    page: &mut Page,
) -> Result<(), OverLimits>
    requires { (from + count ≤ 2000) × (width ≤ 64) × ((i : ℕ) → i < count → spec.item_word words.now (from + i) 3 < 1000) }
    ensures { Added page.old page.new result
        (map (position_words tag) (algebra.span 0 width) ++ map (shifted_words width) (spec.items_from words.now from count)) }
{
    page.push_columns(tag, 0, width)?;
    page.push_shifted(words, from, count, width)
}

// Select, map, project and group over their input. A call of its own: put goes down once for each node, and its frame stays small.
#[inline(never)]
pub fn over_input(
    words: &[u32],
    n: u32,
    d: &Domain,
    input: u32,
    page: &mut Page,
) -> Result<u32, OverLimits>
    requires { PlanNode words.now n × OneInput words.now n }
    ensures { (D : algebra.Domain) → Means d.now D → Grows page.old page.new result (λ out. out ++ (over_input D input (node_at words.now n) ∷ [])) }
{
    let operator = Operator::of(words, n);
    let from = first_item(words, n);
    let count = item_count(words, n);
    let first = page.item_count;
    let width = d.width;
    match operator {
        Operator::Project => {
            domain_first(OUTPUT, width, words, from, count, page)?;
            page.push_node(first, Head::over(Operator::Project, input), 0)
        }
        Operator::Group if count_of_sort(words, from, count, Sort::Key) == 0 => {
            page.push_matches(width, width)?;
            page.push_shifted(words, from, count, width)?;
            page.push_node(first, Head::groupjoin(d.node, input), count)
        }
        Operator::Group => {
            domain_first(KEY, width, words, from, count, page)?;
            page.push_node(first, Head::over(Operator::Group, input), 0)
        }
        _ => {
            let shift = Shift {
                width: 0,
                front: width,
                between: 0,
            };
            page.push_moved(words, from, count, d, shift)?;
            page.push_node(first, Head::over(operator, input), 0)
        }
    }
}

// A join or groupjoin of the left, under d, with the copy of a closed right.
pub fn with_copy(
    words: &[u32],
    n: u32,
    d: &Domain,
    left: u32,
    right: u32,
    page: &mut Page,
) -> Result<u32, OverLimits>
    requires { PlanNode words.now n × (has_right (spec.operator words.now n) ≡ true) }
    ensures { (D : algebra.Domain) → Means d.now D → Grows page.old page.new result (λ out. out ++ (with_copy D left right (node_at words.now n) ∷ [])) }
{
    let from = first_item(words, n);
    let count = item_count(words, n);
    let conjuncts = conjunct_count(words, n);
    let first = page.item_count;
    let shift = Shift {
        width: 0,
        front: d.width,
        between: 0,
    };
    page.push_moved(words, from, conjuncts, d, shift)?;
    match Operator::of(words, n) {
        Operator::Groupjoin => {
            let aggregates = count - conjuncts;
            page.push_copied(words, from + conjuncts, aggregates)?;
            page.push_node(first, Head::groupjoin(left, right), aggregates)
        }
        _ => page.push_node(first, Head::join(JoinKind::of(words, n), left, right), 0),
    }
}

// Behind an inner or outer join: the project that keeps the columns in front and behind, and drops those between.
fn drop_columns(
    kind: JoinKind,
    front: u32,
    between: u32,
    behind: u32,
    join: u32,
    page: &mut Page,
) -> Result<u32, OverLimits>
    requires { (front ≤ 300) × (between ≤ 300) × (behind ≤ 300) }
    ensures { Drops kind front between behind join page.old page.new result }
{
    match kind {
        JoinKind::Semi | JoinKind::Anti => Ok(join),
        JoinKind::Inner | JoinKind::LeftOuter => {
            let first = page.item_count;
            page.push_columns(OUTPUT, 0, front)?;
            page.push_columns(OUTPUT, front + between, behind)?;
            page.push_node(first, Head::over(Operator::Project, join), 0)
        }
    }
}

// A join or groupjoin of the left with an open right, both under d.
pub fn with_open(
    words: &[u32],
    n: u32,
    d: &Domain,
    left: Side,
    right: Side,
    page: &mut Page,
) -> Result<u32, OverLimits>
    requires { PlanNode words.now n × (has_right (spec.operator words.now n) ≡ true) }
    ensures { (D : algebra.Domain) → Means d.now D → Grows page.old page.new result
        (with_open D left.width right.width left.node right.node (node_at words.now n)) }
{
    let from = first_item(words, n);
    let count = item_count(words, n);
    let conjuncts = conjunct_count(words, n);
    let first = page.item_count;
    let width = d.width;
    let shift = Shift {
        width: left.width,
        front: width,
        between: width,
    };
    page.push_matches(width, width + left.width)?;
    page.push_moved(words, from, conjuncts, d, shift)?;
    match Operator::of(words, n) {
        Operator::Groupjoin => {
            let aggregates = count - conjuncts;
            page.push_shifted(words, from + conjuncts, aggregates, width)?;
            page.push_node(first, Head::groupjoin(left.node, right.node), aggregates)
        }
        _ => {
            let kind = JoinKind::of(words, n);
            let join = page.push_node(first, Head::join(kind, left.node, right.node), 0)?;
            drop_columns(kind, width + left.width, width, right.width, join, page)
        }
    }
}

// The domain over the left whose keys are the columns of set.
pub fn push_domain(set: ColumnSet, left: u32, page: &mut Page) -> Result<u32, OverLimits>
    ensures { Grows page.old page.new result (λ out. out ++ (trees.group (members set) [] left ∷ [])) }
{
    let first = page.item_count;
    page.push_set_keys(set)?;
    page.push_node(first, Head::over(Operator::Group, left), 0)
}

// A dependent join of the left with its right under the domain over set.
pub fn with_inner(
    words: &[u32],
    n: u32,
    d: &Domain,
    set: ColumnSet,
    left: Side,
    right: Side,
    page: &mut Page,
) -> Result<u32, OverLimits>
    requires { PlanNode words.now n × (spec.operator words.now n ≡ 8) }
    ensures { (D : algebra.Domain) → Means d.now D → Grows page.old page.new result
        (with_inner D (members set) left.width right.width left.node right.node (node_at words.now n)) }
{
    let width = d.width;
    let keys = set.len();
    let kind = JoinKind::of(words, n);
    let first = page.item_count;
    let shift = Shift {
        width: left.width,
        front: width,
        between: keys,
    };
    page.push_set_matches(set, width + left.width)?;
    page.push_moved(words, first_item(words, n), item_count(words, n), d, shift)?;
    let join = page.push_node(first, Head::join(kind, left.node, right.node), 0)?;
    drop_columns(kind, width + left.width, keys, right.width, join, page)
}
