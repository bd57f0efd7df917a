// Bytes from standard input, and words from bytes, least byte first.
#![tactic(auto)]

ghost use Rattle.std.specs.Prelude.{◌≡◌, ◌+◌, ◌*◌, ◌/◌, ◌≤◌, length, min};
ghost use Rattle.std.specs.Io.KnownBytes.{Consumes};
ghost use Rattle.input.specs.Bytes.{word_at, words_in, Filled};

use std::io::Read;

// Fills room from the front until it is full, the input ends or a read fails, and lends what came.
pub fn read_full<'a, R: Read>(from: &mut R, room: &'a mut [u8]) -> &'a [u8]
    ensures bytes { Consumes (R.remaining from.old) (R.remaining from.new) result.now }
    ensures within { length result.now ≤ length room.old }
{
    let mut count = 0;
    for _ in 0..room.len() {
        if count == room.len() {
            break;
        }
        match from.read(&mut room[count..]) {
            Ok(more) if 0 < more => count += more,
            _ => break,
        }
    }
    &room[..count]
}

// Word k of the bytes.
fn word(bytes: &[u8], k: usize) -> u32
    requires { k * 4 + 4 ≤ length bytes.now }
    ensures { result ≡ word_at bytes.now k }
{
    let i = k * 4;
    u32::from_le_bytes([bytes[i], bytes[i + 1], bytes[i + 2], bytes[i + 3]])
}

// Fills out from the front with the whole words of bytes, as many as it has room for, and answers how many.
pub fn words(bytes: &[u8], out: &mut [u32]) -> usize
    ensures { Filled bytes.now out.old out.new result }
{
    let count = (bytes.len() / 4).min(out.len());
    for k in 0..count {
        out[k] = word(bytes, k);
    }
    count
}

// The same, and lends the words.
pub fn words_from<'a>(bytes: &[u8], room: &'a mut [u32]) -> &'a [u32]
    ensures { result.now ≡ words_in bytes.now (min (length bytes.now / 4) (length room.old)) }
{
    let count = words(bytes, room);
    &room[..count]
}
