// A node under a domain: its columns in front of the node's own.
ghost use Rattle.std.specs.Prelude.{cond, eqb};
ghost use Rattle.algebra.specs.Domains as algebra;
ghost use Rattle.plan.specs.Words as spec;
ghost use Rattle.pages.specs.Domains.{Means};
ghost use Rattle.rules.specs.Given.{PlanNode, Known};
ghost use Rattle.rules.specs.Under.{Puts};

use crate::finish::{over_input, push_domain, with_copy, with_inner, with_open};
use crate::reads::key_set;
use crate::tables::Tables;
use pages::domain::Domain;
use pages::page::{Head, OverLimits, Page};
use plan::PerNode;
use plan::kinds::JoinKind;
use plan::operator::Operator;
use plan::words::{left, right};

// The domain that the right side of node n is under, where it is under the same one: past a dependent join one level further in.
// A call of its own, so that put's frame stays small.
#[inline(never)]
fn right_domain(words: &[u32], n: u32, d: &Domain) -> Domain
    requires { PlanNode words.now n }
    ensures { (D : algebra.Domain) → Means d.now D → Means result (cond (eqb (spec.operator words.now n) 8) (algebra.inside D) D) }
{
    match Operator::of(words, n) {
        Operator::Dependent => d.inside(),
        _ => *d,
    }
}

// Node n under d: the number of the last node.
pub fn put(
    tables: &Tables<'_>,
    images: &PerNode,
    n: u32,
    d: &Domain,
    page: &mut Page,
) -> Result<u32, OverLimits>
    requires { Known tables.now n }
    ensures { Puts tables.now.words.now images.now n d.now page.old page.new result }
{
    let words = tables.words;
    if tables.is_closed(n) {
        let first = page.item_count;
        return page.push_node(
            first,
            Head::join(JoinKind::Inner, d.node, images[n as usize]),
            0,
        );
    }
    let left_input = left(words, n);
    let left_node = put(tables, images, left_input, d, page)?;
    if !Operator::of(words, n).has_right() {
        return over_input(words, n, d, left_node, page);
    }
    let right_input = right(words, n);
    if tables.reads_left(n) {
        let set = key_set(d, tables.reads, right_input);
        let domain_node = push_domain(set, left_node, page)?;
        let right_node = put(
            tables,
            images,
            right_input,
            &d.inner(domain_node, set),
            page,
        )?;
        let left_side = tables.side(left_input, left_node);
        let right_side = tables.side(right_input, right_node);
        return with_inner(words, n, d, set, left_side, right_side, page);
    }
    if tables.is_closed(right_input) {
        return with_copy(words, n, d, left_node, images[right_input as usize], page);
    }
    let right_node = put(
        tables,
        images,
        right_input,
        &right_domain(words, n, d),
        page,
    )?;
    let left_side = tables.side(left_input, left_node);
    let right_side = tables.side(right_input, right_node);
    with_open(words, n, d, left_side, right_side, page)
}
