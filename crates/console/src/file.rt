// Files. One that cannot be opened, or whose reading fails, counts as empty, and a line on standard error says so.
ghost use Rattle.std.specs.Prelude.{◌≤◌, length, IfOk};

use std::fs::File;
use std::io::Read;
use std::rt::Files;
use std::{fmt, str};

// Why a file counts as empty.
#[derive(Clone, Copy, Debug)]
enum Unread {
    NotOpened,
    ReadingFailed,
}

impl fmt::Display for Unread {
    fn fmt<W: fmt::Write>(&self, f: &mut fmt::Formatter<W>) -> fmt::Result {
        match self {
            Unread::NotOpened => write!(f, " can't be opened, and counts as empty"),
            Unread::ReadingFailed => write!(f, ": reading failed, and it counts as empty"),
        }
    }
}

// Says on standard error what became of a file; its name is a write of its own, since it may be no text. Where that can't be written nothing is
// left to be told, and the run goes on.
fn warn(errors: &impl Print, name: &[u8], reason: Unread) {
    let _ = errors.write_all(b"ccsl: ");
    let _ = errors.write_all(name);
    let _ = errors.println(reason);
}

// Fills the buffer from the start of a file, and answers how many bytes it put there. A name that is no text names no file. It loops by hand: the
// standard library reads a whole file into the heap alone, and `read_exact` tells no count where a file ends early.
fn fill<R: Files>(rt: &R, name: &[u8], buffer: &mut [u8]) -> Result<usize, Unread>
    ensures { IfOk result (λ n. n ≤ length buffer.new) }
{
    let text = str::from_utf8(name).map_err(|_| Unread::NotOpened)?;
    let mut file = File::open(rt, text).map_err(|_| Unread::NotOpened)?;
    let mut n = 0;
    while n < buffer.len() {
        let more = file
            .read(&mut buffer[n..])
            .map_err(|_| Unread::ReadingFailed)?;
        if more == 0 {
            return Ok(n);
        }
        n += more;
    }
    Ok(n)
}

// Fills the buffer from the start of a file, and answers the bytes that it put there.
pub fn read_file<'a, R: Files>(
    rt: &R,
    errors: &impl Print,
    name: &[u8],
    buffer: &'a mut [u8],
) -> &'a [u8]
    ensures { length result.now ≤ length buffer.old }
{
    match fill(rt, name, buffer) {
        Ok(n) => &buffer[..n],
        Err(reason) => {
            warn(errors, name, reason);
            &[]
        }
    }
}
