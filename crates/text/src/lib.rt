// The text form of a plan table: a writer and a reader.
#![tactic(auto)]

mod form; // how many numbers a line has, and which
mod place; // one place of a lent slice
mod numbers; // a number read, and the byte behind it
mod lines; // a whole text read
mod write; // a whole text written

ghost use Rattle.std.specs.Prelude.{◌≡◌, true, leb, length};
ghost use Rattle.plan.specs.Verdict.{header_right, limits_right};
ghost use Rattle.text.specs.Text.{text_of};
ghost use Rattle.text.specs.Answers.{write_refusal_number, writing, text_after, written_of, read_refusal_number, read_refusal_line, reading, words_after, read_of};

use lines::read_table;
use plan::header::{header_right, limits_right};
use write::write_table;

// The limits of a text.
#[derive(Clone, Copy)]
pub struct Text;

impl Text {
    // No text that is longer is read.
    pub const LIMIT: usize = 262144;

    // No text that is written is longer.
    pub const LONGEST: usize = 170956;
}

// Why words have no text here: refusals 1, 2 and 17.
#[derive(Clone, Copy, Debug, PartialEq, Eq)]
pub enum WriteRefusal {
    Header,
    Limits,
    NoRoom,
}

impl WriteRefusal {
    // The number of refusal.
    pub fn number(self) -> u32
        ensures { result ≡ write_refusal_number self }
    {
        match self {
            WriteRefusal::Header => 1,
            WriteRefusal::Limits => 2,
            WriteRefusal::NoRoom => 17,
        }
    }
}

// Why a text gives no words: refusals 16, with a line, and 17.
#[derive(Clone, Copy, Debug, PartialEq, Eq)]
pub enum ReadRefusal {
    BadLine(u32),
    TooShort,
}

impl ReadRefusal {
    // The number of refusal.
    pub fn number(self) -> u32
        ensures { result ≡ read_refusal_number self }
    {
        match self {
            ReadRefusal::BadLine(_) => 16,
            ReadRefusal::TooShort => 17,
        }
    }

    // The line that it names, 0 where it names none.
    pub fn line(self) -> u32
        ensures { result ≡ read_refusal_line self }
    {
        match self {
            ReadRefusal::BadLine(line) => line,
            ReadRefusal::TooShort => 0,
        }
    }
}

// Whether the text has at most so many bytes: where the longest has more, a writing to nowhere says how many.
fn has_room(words: &[u32], room: usize) -> bool
    requires header { header_right words.now ≡ true }
    requires limits { limits_right words.now ≡ true }
    ensures { result ≡ leb (length (text_of words.now)) room }
{
    if Text::LONGEST <= room {
        return true;
    }
    let length = write_table(words, &mut []);
    length <= room
}

// The text of any words that pass refusals 1 and 2, a plan or not.
pub fn write_text(words: &[u32], text: &mut [u8]) -> Result<u32, WriteRefusal>
    ensures answer { written_of result ≡ writing words.now (length text.old) }
    ensures text_after { text.new ≡ text_after words.now text.old }
{
    if !header_right(words) {
        return Err(WriteRefusal::Header);
    }
    if !limits_right(words) {
        return Err(WriteRefusal::Limits);
    }
    if !has_room(words, text.len()) {
        return Err(WriteRefusal::NoRoom);
    }
    let count = write_table(words, text);
    Ok(count as u32)
}

// The words of a text, judged whole before the first is written.
pub fn read_text(text: &[u8], words: &mut [u32]) -> Result<u32, ReadRefusal>
    ensures answer { read_of result ≡ reading text.now (length words.old) }
    ensures words_after { words.new ≡ words_after text.now words.old }
{
    if Text::LIMIT < text.len() {
        return Err(ReadRefusal::BadLine(0));
    }
    // A first reading, to nowhere, says whether the text is of the form.
    let count = read_table(text, &mut []).map_err(ReadRefusal::BadLine)?;
    if words.len() < count {
        return Err(ReadRefusal::TooShort);
    }
    let _ = read_table(text, words);
    Ok(count as u32)
}
