// A term of an item, decoded.
ghost use Rattle.std.specs.Prelude.{◌≡◌, ◌≤◌};
ghost use Rattle.plan.specs.Words.{three_at};
ghost use Rattle.plan.specs.Items.{term_of, signed};
ghost use Rattle.plan.specs.Terms.{meant};

use crate::words::item_word;

#[derive(Clone, Copy, Debug, PartialEq, Eq)]
pub enum Term {
    Local(u32),
    Outer { level: u32, position: u32 },
    Constant(i64),
    Null,
}

// A word as a signed number of 32 bits.
fn signed_word(w: u32) -> i64
    ensures { result ≡ signed w }
{
    i64::from(w.cast_signed())
}

// The term whose three words begin at word k of item j.
fn decode(words: &[u32], j: u32, k: u32) -> Term
    requires { k ≤ 4 }
    ensures { meant result ≡ term_of (three_at words.now j k) }
{
    let code = item_word(words, j, k);
    let level = item_word(words, j, k + 1);
    let value = item_word(words, j, k + 2);
    match code {
        0 => Term::Local(value),
        1 => Term::Outer {
            level,
            position: value,
        },
        2 => Term::Constant(signed_word(value)),
        _ => Term::Null,
    }
}

pub fn first_term(words: &[u32], j: u32) -> Term
    ensures { meant result ≡ term_of (three_at words.now j 1) }
{
    decode(words, j, 1)
}

pub fn second_term(words: &[u32], j: u32) -> Term
    ensures { meant result ≡ term_of (three_at words.now j 4) }
{
    decode(words, j, 4)
}
