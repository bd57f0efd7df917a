// Records of the programs that answer them: a part is a byte count and that many bytes, a number has its least byte first.
#![tactic(auto)]

ghost use Rattle.std.specs.Prelude.{◌++◌, ◌≤◌, codes, decimal, length, Some};

use input::read_full;
use std::io::{Read, Write};
use std::{fmt, io};

// At most so many records are read, so that every input ends.
pub const RECORDS: u32 = 1000;

// The number of refusal and the node, 0 and 0 where a plan is accepted.
#[derive(Clone, Copy, Debug, PartialEq, Eq)]
pub struct Answer {
    pub number: u32,
    pub node: u32,
}

impl Answer {
    pub const ACCEPTED: Answer = Answer { number: 0, node: 0 };
}

impl fmt::Display for Answer {
    ghost output = { λ a. Some (codes ": " ++ (decimal a.number ++ (codes " " ++ decimal a.node))) };

    fn fmt<W: fmt::Write>(&self, f: &mut fmt::Formatter<W>) -> fmt::Result {
        write!(f, ": {} {}", self.number, self.node)
    }
}

// A number of a record, 0 where the input ends.
pub fn read_number<R: Read>(from: &mut R) -> u32 {
    let mut bytes = [0u8; 4];
    read_full(from, &mut bytes);
    u32::from_le_bytes(bytes)
}

// Reads a part of a record to the front of room, as much as it has room for, and lends what came.
pub fn read_part<'a, R: Read>(from: &mut R, room: &'a mut [u8]) -> &'a [u8]
    ensures { length result.now ≤ length room.old }
{
    let count = (read_number(from) as usize).min(room.len());
    read_full(from, &mut room[..count])
}

// Reads a record's name and prints it; false where the input has no more, since every record has a name.
pub fn print_name<R: Read, W: Write>(
    from: &mut R,
    to: &mut W,
    room: &mut [u8],
) -> io::Result<bool> {
    let name = read_part(from, room);
    to.write_all(name)?;
    Ok(!name.is_empty())
}

#[cfg(test)]
mod tests {
    use super::*;

    // The name "abc", then the end of the input.
    const ONE_NAME: [u8; 7] = [3, 0, 0, 0, b'a', b'b', b'c'];

    #[test]
    fn prints_a_name_and_says_where_none_is_left(rt: HostRuntime) {
        let mut from: &[u8] = &ONE_NAME;
        let mut printed = [0u8; 4];
        let mut to: &mut [u8] = &mut printed;
        let mut room = [0u8; 8];
        assert!(rt;
            matches!(print_name(&mut from, &mut to, &mut room), Ok(true)),
            "a name"
        );
        assert!(rt;
            matches!(print_name(&mut from, &mut to, &mut room), Ok(false)),
            "no more"
        );
        assert_eq!(rt; printed, [b'a', b'b', b'c', 0]);
    }

    #[test]
    fn answers_a_name_that_finds_no_room(rt: HostRuntime) {
        let mut from: &[u8] = &ONE_NAME;
        let mut printed = [0u8; 2];
        let mut to: &mut [u8] = &mut printed;
        let mut room = [0u8; 8];
        assert!(rt;
            print_name(&mut from, &mut to, &mut room).is_err(),
            "full output"
        );
    }
}
