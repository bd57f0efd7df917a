// Closed nodes in number order, each with what it needs under its domain.
ghost use Rattle.std.specs.Prelude.{◌≡◌, true, [], ◌∷◌, ◌++◌, get_or};
ghost use Rattle.algebra.specs.Columns.{closed, shape_at};
ghost use Rattle.plan.specs.Plan.{node_at, widths_of, nodes_of};
ghost use Rattle.rewrite.specs.Answer.{new_plan};
ghost use Rattle.rules.specs.Given.{PlanNode, Right, Known};
ghost use Rattle.pages.specs.Pages.{Holds, GrowsOver, copy_of, Finished};
ghost use Rattle.rewrite.specs.Closing.{Closes};

use pages::domain::Domain;
use pages::page::{Head, OverLimits, Page};
use plan::kinds::JoinKind;
use plan::operator::Operator;
use plan::sorts::Sort;
use plan::tags::count_of_sort;
use plan::words::{first_item, item_count, left, nodes as node_count, right, table_width};
use plan::{PerNode, Plan};
use rules::finish::{push_domain, with_inner};
use rules::put::put;
use rules::reads::key_set;
use rules::tables::Tables;

// A copy of node n with its inputs renumbered; a dependent join becomes the join of its kind.
fn copy_node(words: &[u32], n: u32, images: &PerNode, page: &mut Page) -> Result<u32, OverLimits>
    requires { PlanNode words.now n }
    ensures { GrowsOver (widths_of words.now) page.old page.new result
        (λ out. out ++ (copy_of (λ i. get_or images.now i 0) (node_at words.now n) ∷ [])) }
{
    let operator = Operator::of(words, n);
    let input = left(words, n);
    let from = first_item(words, n);
    let count = item_count(words, n);
    let first = page.item_count;
    page.push_copied(words, from, count)?;
    match operator {
        Operator::Scan => page.push_node(first, Head::scan(input), table_width(words, input)),
        Operator::Select | Operator::Map | Operator::Project | Operator::Group => {
            page.push_node(first, Head::over(operator, images[input as usize]), 0)
        }
        Operator::Join | Operator::Dependent => {
            let other = right(words, n);
            let kind = JoinKind::of(words, n);
            let head = Head::join(kind, images[input as usize], images[other as usize]);
            page.push_node(first, head, 0)
        }
        Operator::Groupjoin => {
            let other = right(words, n);
            let head = Head::groupjoin(images[input as usize], images[other as usize]);
            page.push_node(
                first,
                head,
                count_of_sort(words, from, count, Sort::Aggregate),
            )
        }
    }
}

// A closed node: the number of its last node. What put does alike would be a cycle with it, and no plainer.
fn closed_node(
    tables: &Tables<'_>,
    images: &PerNode,
    n: u32,
    page: &mut Page,
) -> Result<u32, OverLimits>
    requires { Known tables.now n × (closed (shape_at (widths_of tables.now.words.now) (nodes_of tables.now.words.now) n) ≡ true) }
    ensures { Closes tables.now.words.now images.now n page.old page.new result }
{
    let words = tables.words;
    if let Operator::Dependent = Operator::of(words, n) {
        let left_input = left(words, n);
        let right_input = right(words, n);
        if !tables.is_closed(right_input) {
            let left_node = images[left_input as usize];
            let d = Domain::outside();
            let set = key_set(&d, tables.reads, right_input);
            let domain_node = push_domain(set, left_node, page)?;
            let right_node = put(
                tables,
                images,
                right_input,
                &d.inner(domain_node, set),
                page,
            )?;
            let left_side = tables.side(left_input, left_node);
            let right_side = tables.side(right_input, right_node);
            return with_inner(words, n, &d, set, left_side, right_side, page);
        }
    }
    copy_node(words, n, images, page)
}

// All nodes: what is written then is the plan that the rules give.
pub fn rewrite_nodes(tables: &Tables<'_>, page: &mut Page) -> Result<(), OverLimits>
    requires { Right tables.now × Holds (widths_of tables.now.words.now) page.old [] [] }
    ensures { Finished (widths_of tables.now.words.now) (new_plan tables.now.words.now) page.new result }
{
    let mut images = [0; Plan::NODES as usize];
    for n in 0..node_count(tables.words) {
        if tables.is_closed(n) {
            images[n as usize] = closed_node(tables, &images, n, page)?;
        }
    }
    Ok(())
}
