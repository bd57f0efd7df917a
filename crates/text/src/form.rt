// The form of a line: how many numbers it has, and which.
ghost use Rattle.std.specs.Prelude.{◌≡◌, cond, ◌&&◌, ◌||◌, ◌<◌, ◌≤◌, ◌+◌, eqb, get_or};

use plan::Plan;

// T, N and I, within their limits.
#[derive(Clone, Copy)]
pub struct Sizes {
    pub tables: u32,
    pub nodes: u32,
    pub items: u32,
    ghost few_tables: { tables ≤ 16 },
    ghost few_nodes: { nodes ≤ 256 },
    ghost few_items: { items ≤ 2000 },
}

// Numbers from low to high; in an item's line some are constants.
#[derive(Clone, Copy)]
pub struct Form {
    pub count: u32,
    pub low: u32,
    pub high: u32,
    pub item: bool,
}

impl Form {
    const NODE: Form = Form {
        count: 6,
        low: 0,
        high: u32::MAX,
        item: false,
    };

    const ITEM: Form = Form {
        count: 7,
        low: 0,
        high: u32::MAX,
        item: true,
    };
}

impl Sizes {
    ghost use Rattle.text.specs.Reading.{node_form, forms};
    ghost use Rattle.text.specs.Steps.{counts};

    // How many lines are behind the first.
    pub fn line_count(self) -> u32
        ensures { result ≡ 1 + self.nodes + self.items }
    {
        1 + self.nodes + self.items
    }

    // The form of line k behind the first.
    pub fn form_at(self, k: u32) -> Form
        requires { k < 1 + self.nodes + self.items }
        ensures { result ≡ get_or (forms (counts self)) k node_form }
    {
        if k == 0 {
            Form {
                count: self.tables,
                low: 1,
                high: Plan::WIDTH,
                item: false,
            }
        } else if k <= self.nodes {
            Form::NODE
        } else {
            Form::ITEM
        }
    }
}

// Place j of an item's line holds a constant where its term, two places before, starts with 2.
pub fn is_constant(item: bool, j: usize, before: u32) -> bool
    ensures { result ≡ (item && ((eqb j 3 || eqb j 6) && eqb before 2)) }
{
    item && before == 2 && (j == 3 || j == 6)
}

// The byte behind number j of so many: a space, or the newline.
pub fn end_of(j: usize, count: usize) -> u8
    requires { j < count }
    ensures { result ≡ cond (eqb (j + 1) count) 10 32 }
{
    if j + 1 == count { b'\n' } else { b' ' }
}
