// Reading the front of a file.
ghost use Rattle.std.specs.Prelude.{◌≤◌, IfOk};
ghost use Rattle.std.specs.Vec.{vec_len};

use std::io::{ErrorKind, Read};
use std::{fs, io};

// A file is read up to this many bytes.
const MOST_BYTES: usize = 65536;

// Room for them and one byte more, with which `read_to_end` asks for no memory.
pub(crate) const ROOM: usize = MOST_BYTES + 1;

// The first bytes of a file, read into an empty vector that has `ROOM`. A file that is missing is empty.
pub(crate) fn read_front(rt: &HostRuntime, name: &str, mut room: Vec<u8>) -> io::Result<Vec<u8>>
    ensures { IfOk result (λ bytes. vec_len bytes ≤ MOST_BYTES) }
{
    match fs::open(rt, name) {
        Err(error) if error.kind() == ErrorKind::NotFound => {}
        opened => {
            opened?.take(MOST_BYTES as u64).read_to_end(&mut room)?;
        }
    }
    // Cuts nothing off: `read_to_end` promises nothing of the length.
    room.truncate(MOST_BYTES);
    Ok(room)
}
