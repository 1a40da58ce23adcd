// A program's whole input.
ghost use Rattle.std.specs.Prelude.{◌≤◌, length, IfOk};

use std::io;
use std::io::Read;

// Until the input ends or the room is full; the bytes that were read.
pub fn read_full<'a>(input: &mut impl Read, room: &'a mut [u8]) -> io::Result<&'a [u8]>
    ensures { IfOk result (λ read. length read.now ≤ length room.old) }
{
    let mut n = 0;
    // Kept: no plainer: no count by one, a turn reads as much as there is.
    while n < room.len() {
        let k = input.read(&mut room[n..])?;
        if k == 0 {
            break;
        }
        n += k;
    }
    Ok(&room[..n])
}
