// Where the columns of a node stand once others are in front of them.
ghost use Rattle.std.specs.Prelude.{◌≡◌, ◌<◌, ◌≤◌};

// Columns in front of a left row of some width, and more between it and the right row.
#[derive(Clone, Copy)]
pub struct Shift {
    pub width: u32,
    pub front: u32,
    pub between: u32,
    pub ghost short: { (front ≤ 1000) × (between ≤ 1000) },
}

impl Shift {
    ghost use Rattle.pages.specs.Items.{shifted};

    // Where the column at a position of both rows stands.
    pub fn place(self, position: u32) -> u32
        requires { position < 1000 }
        ensures { result ≡ shifted self position }
    {
        if position < self.width {
            self.front + position
        } else {
            self.front + self.between + position
        }
    }
}
