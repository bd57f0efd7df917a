// What has been written: nodes, their widths and items, in fixed memory, within the limits.
ghost use Rattle.std.specs.Prelude.{◌≡◌, [], ◌∷◌, List, ℕ, get_or};
ghost use Rattle.plan.specs.Codes.{number_of};
ghost use Rattle.pages.specs.Pages.{Holds, Added, width_by, head_of, kind_number, Pushed};

use plan::kinds::JoinKind;
use plan::operator::Operator;
use plan::{PerNode, Plan};

// The words of all nodes and of all items that there may be, in fixed memory: there is no heap.
pub type NodeWords = [[u32; 6]; Plan::NODES as usize];

pub type ItemWords = [[u32; 7]; Plan::ITEMS as usize];

// The widest row.
const WIDEST: usize = Plan::WIDTH as usize;

// What comes next is over a limit.
#[derive(Clone, Copy, Debug, PartialEq, Eq)]
pub struct OverLimits;

// The three words of a term.
#[derive(Clone, Copy)]
pub struct Three {
    pub code: u32,
    pub level: u32,
    pub value: u32,
}

impl Three {
    // A local column.
    pub fn local(position: u32) -> Three
        ensures { (result.code ≡ 0) × (result.level ≡ 0) × (result.value ≡ position) }
    {
        Three {
            code: 0,
            level: 0,
            value: position,
        }
    }
}

// A node without its items; a join alone has a kind.
#[derive(Clone, Copy)]
pub struct Head {
    pub operator: Operator,
    pub left: u32,
    pub right: u32,
    pub kind: Option<JoinKind>,
}

impl Head {
    ghost use Rattle.std.specs.Prelude.{None, Some};
    ghost use Rattle.plan.specs.declared.operator.Operator.TheVariants.{Scan, Join, Groupjoin};

    pub fn scan(table: u32) -> Head
        ensures { result ≡ head_of Scan table 0 None }
    {
        Head {
            operator: Operator::Scan,
            left: table,
            right: 0,
            kind: None,
        }
    }

    // Select, map, project and group.
    pub fn over(operator: Operator, input: u32) -> Head
        ensures { result ≡ head_of operator input 0 None }
    {
        Head {
            operator,
            left: input,
            right: 0,
            kind: None,
        }
    }

    pub fn join(kind: JoinKind, left: u32, right: u32) -> Head
        ensures { result ≡ head_of Join left right (Some kind) }
    {
        Head {
            operator: Operator::Join,
            left,
            right,
            kind: Some(kind),
        }
    }

    pub fn groupjoin(left: u32, right: u32) -> Head
        ensures { result ≡ head_of Groupjoin left right None }
    {
        Head {
            operator: Operator::Groupjoin,
            left,
            right,
            kind: None,
        }
    }

    // The number of its kind, 0 where it has none.
    fn kind_number(self) -> u32
        ensures { result ≡ kind_number self.kind }
    {
        self.kind.map_or(0, |kind| kind.number())
    }
}

// A copy is 63 KB: it is lent wherever it is passed.
#[derive(Clone, Copy)]
pub struct Page {
    pub nodes: NodeWords,
    pub rows: PerNode,
    pub items: ItemWords,
    pub node_count: u32,
    pub item_count: u32,
}

impl Page {
    // Nothing is written.
    pub fn new() -> Page
        ensures { (widths : List ℕ) → Holds widths result [] [] }
    {
        Page {
            nodes: [[0; 6]; Plan::NODES as usize],
            rows: [0; Plan::NODES as usize],
            items: [[0; 7]; Plan::ITEMS as usize],
            node_count: 0,
            item_count: 0,
        }
    }

    // One item more of the next node.
    pub fn push_item(&mut self, tag: u32, first: Three, second: Three) -> Result<(), OverLimits>
        ensures { Added self.old self.new result
            ((tag ∷ first.code ∷ first.level ∷ first.value ∷ second.code ∷ second.level ∷ second.value ∷ []) ∷ []) }
    {
        let i = self.item_count;
        if Plan::ITEMS <= i {
            return Err(OverLimits);
        }
        self.items[i as usize] = [
            tag,
            first.code,
            first.level,
            first.value,
            second.code,
            second.level,
            second.value,
        ];
        self.item_count = i + 1;
        Ok(())
    }

    // The width of node i, 0 where there is none.
    fn row(&self, i: u32) -> u32
        ensures { result ≡ get_or self.now.rows i 0 }
    {
        self.rows.get(i as usize).copied().unwrap_or(0)
    }

    // The width of a new node with count items; extra is a scan's table width, a groupjoin's number of aggregates.
    #[tactic(auto, unfolding(crate::specs::Pages::width_by))]
    fn new_width(&self, head: Head, count: u32, extra: u32) -> usize
        ensures { result ≡ width_by (λ i. get_or self.now.rows i 0) (number_of head.operator) head.left head.right (kind_number head.kind) count extra }
    {
        let left = self.row(head.left) as usize;
        match head.operator {
            Operator::Scan => extra as usize,
            Operator::Select => left,
            Operator::Map => left + 1,
            Operator::Project | Operator::Group => count as usize,
            Operator::Groupjoin => left + extra as usize,
            Operator::Join | Operator::Dependent => match head.kind {
                Some(JoinKind::Semi | JoinKind::Anti) => left,
                _ => left + self.row(head.right) as usize,
            },
        }
    }

    // One node more, with the items from item first on: its number.
    pub fn push_node(&mut self, first: u32, head: Head, extra: u32) -> Result<u32, OverLimits>
        ensures { Pushed self.old self.new result first head extra }
    {
        let n = self.node_count;
        let count = self.item_count.saturating_sub(first);
        let width = self.new_width(head, count, extra);
        if Plan::NODES <= n {
            return Err(OverLimits);
        }
        if WIDEST < width {
            return Err(OverLimits);
        }
        self.nodes[n as usize] = [
            head.operator.number(),
            head.left,
            head.right,
            head.kind_number(),
            first,
            count,
        ];
        self.rows[n as usize] = width as u32;
        self.node_count = n + 1;
        Ok(n)
    }
}
