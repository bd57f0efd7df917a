// A number in front of a text, and the byte behind it.
ghost use Rattle.std.specs.Prelude.{◌≡◌, ◌<◌, ◌^◌, drop, Some};
ghost use Rattle.text.specs.Reading.{digits_on, number_in, word_in, constant_in};
ghost use Rattle.text.specs.Steps.{SaysUpTo, NumberRead, FieldRead};

use crate::place::byte;

// A constant is stored modulo 2^32: the words from here on are the negative ones.
pub const NEGATIVE: u32 = 0x8000_0000;

// A word, and the place behind the byte that ends it.
#[derive(Clone, Copy)]
pub struct Field {
    pub word: u32,
    pub next: usize,
}

// What digits say, and the place behind them.
#[derive(Clone, Copy)]
pub struct Digits {
    pub value: u64,
    pub next: usize,
}

// The digits from a place on, behind digits that say first; it stops at a value past high.
fn digits_on(text: &[u8], at: usize, first: u64, high: u64) -> Digits
    requires first_bound { first < 10 }
    requires high_bound { high < 2 ^ 32 }
    ensures { SaysUpTo text.now high result (digits_on first (drop at text.now)) }
{
    let mut value = first;
    for i in at..text.len() {
        let b = text[i];
        if high < value || !b.is_ascii_digit() {
            return Digits { value, next: i };
        }
        value = 10 * value + (b - b'0') as u64;
    }
    Digits {
        value,
        next: text.len(),
    }
}

// The number at a place, if one is there; one past high is not read to its end.
fn number(text: &[u8], at: usize, high: u64) -> Option<Digits>
    requires { high < 2 ^ 32 }
    ensures { NumberRead text.now high (number_in (drop at text.now)) result }
{
    let b = byte(text, at);
    if !b.is_ascii_digit() {
        return None;
    }
    if b == b'0' {
        return Some(Digits {
            value: 0,
            next: at + 1,
        });
    }
    Some(digits_on(text, at + 1, (b - b'0') as u64, high))
}

// A number from low to high, with the byte end behind it.
pub fn word(text: &[u8], at: usize, low: u32, high: u32, end: u8) -> Option<Field>
    ensures { FieldRead text.now (word_in low high end (drop at text.now)) result }
{
    let Digits { value, next } = number(text, at, high as u64)?;
    if value < low as u64 || value > high as u64 {
        return None;
    }
    if text.len() <= next || text[next] != end {
        return None;
    }
    Some(Field {
        word: value as u32,
        next: next + 1,
    })
}

// A constant, with the byte end behind it: stored modulo 2^32.
pub fn constant(text: &[u8], at: usize, end: u8) -> Option<Field>
    ensures { FieldRead text.now (constant_in end (drop at text.now)) result }
{
    if byte(text, at) != b'-' {
        return word(text, at, 0, NEGATIVE - 1, end);
    }
    let f = word(text, at + 1, 1, NEGATIVE, end)?;
    Some(Field {
        word: f.word.wrapping_neg(),
        next: f.next,
    })
}
