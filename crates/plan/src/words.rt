// Each word of a plan table by its name: the only place that knows where words stand.
ghost use Rattle.std.specs.Prelude.{◌≡◌};
ghost use Rattle.plan.specs.Words as spec;
ghost use Rattle.plan.specs.Verdict.{has_right};

// Word i, 0 past the end.
pub fn word(words: &[u32], i: usize) -> u32
    ensures { result ≡ spec.word words.now i }
{
    words.get(i).copied().unwrap_or(0)
}

pub fn tables(words: &[u32]) -> u32
    ensures { result ≡ spec.tables words.now }
{
    word(words, 1)
}

pub fn nodes(words: &[u32]) -> u32
    ensures { result ≡ spec.nodes words.now }
{
    word(words, 3)
}

pub fn items(words: &[u32]) -> u32
    ensures { result ≡ spec.items words.now }
{
    word(words, 5)
}

pub fn table_width(words: &[u32], t: u32) -> u32
    ensures { result ≡ spec.table_width words.now t }
{
    word(words, 8 + t as usize)
}

// Word k of node n.
fn node_word(words: &[u32], n: u32, k: u32) -> u32
    ensures { result ≡ spec.node_word words.now n k }
{
    word(
        words,
        8 + tables(words) as usize + 6 * n as usize + k as usize,
    )
}

pub fn operator(words: &[u32], n: u32) -> u32
    ensures { result ≡ spec.operator words.now n }
{
    node_word(words, n, 0)
}

pub fn left(words: &[u32], n: u32) -> u32
    ensures { result ≡ spec.left words.now n }
{
    node_word(words, n, 1)
}

pub fn right(words: &[u32], n: u32) -> u32
    ensures { result ≡ spec.right words.now n }
{
    node_word(words, n, 2)
}

pub fn kind(words: &[u32], n: u32) -> u32
    ensures { result ≡ spec.kind words.now n }
{
    node_word(words, n, 3)
}

pub fn first_item(words: &[u32], n: u32) -> u32
    ensures { result ≡ spec.first_item words.now n }
{
    node_word(words, n, 4)
}

pub fn item_count(words: &[u32], n: u32) -> u32
    ensures { result ≡ spec.item_count words.now n }
{
    node_word(words, n, 5)
}

// Word k of item j.
pub fn item_word(words: &[u32], j: u32, k: u32) -> u32
    ensures { result ≡ spec.item_word words.now j k }
{
    word(
        words,
        8 + tables(words) as usize + 6 * nodes(words) as usize + 7 * j as usize + k as usize,
    )
}

pub fn tag(words: &[u32], j: u32) -> u32
    ensures { result ≡ spec.item_word words.now j 0 }
{
    item_word(words, j, 0)
}

// The column of a key, an output column or an aggregate.
pub fn position(words: &[u32], j: u32) -> u32
    ensures { result ≡ spec.item_word words.now j 3 }
{
    item_word(words, j, 3)
}

// Join, groupjoin and dependent join have a right input; a number that no operator has stands for none.
pub fn has_right(o: u32) -> bool
    ensures { result ≡ has_right o }
{
    matches!(o, 5 | 7 | 8)
}
