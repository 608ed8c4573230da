// The bytes of market.txt, read into room that the caller made.
ghost use Rattle.std.specs.Prelude.{◌≤◌, length, IfOk};

use std::fs::File;
use std::io;
use std::io::{ErrorKind, Read};

/// One byte more than a market file may have, so that a longer file shows.
// Kept: a number of its own, since the program stands on `console` alone and this is room, not a limit of the format.
pub(crate) const MOST_READ: usize = 65_536;

/// Reads until the room is full or the file ends, and says how many bytes were read.
fn fill(file: &mut File, room: &mut [u8]) -> io::Result<usize>
    ensures { IfOk result (λ n. n ≤ length room.old) }
{
    let most = room.len();
    let mut free = room;
    while !free.is_empty() {
        let count = file.read(free)?;
        if count == 0 {
            break;
        }
        free = &mut free[count..];
    }
    Ok(most - free.len())
}

/// The bytes of market.txt, as many as there is room for; a missing file has none.
pub(crate) fn read_market<'a>(rt: &HostRuntime, room: &'a mut [u8]) -> io::Result<&'a [u8]> {
    let length = match File::open(rt, "market.txt") {
        Ok(mut file) => fill(&mut file, room)?,
        Err(error) if error.kind() == ErrorKind::NotFound => 0,
        Err(error) => return Err(error),
    };
    Ok(&room[..length])
}
