// The program's arguments, as bytes.
ghost use Rattle.std.specs.Prelude.{◌≤◌, length, MatchOption, ⊤};

use std::env::FillError;
use std::rt::Env;

// Bytes of room for an argument of the programs. What is longer is no path, and counts as empty.
pub const ARGUMENT_ROOM: usize = 4096;

// The argument at a place, from 1 behind the program's name, in the caller's buffer, since there is no heap. One that is longer counts as empty.
pub fn argument<'a>(rt: &impl Env, place: usize, buffer: &'a mut [u8]) -> Option<&'a [u8]>
    ensures { MatchOption result ⊤ (λ bytes. length bytes.now ≤ length buffer.old) }
{
    match rt.arg(place, buffer) {
        Ok(n) => Some(&buffer[..n]),
        Err(FillError::TooLong) => Some(&[]),
        Err(FillError::NotPresent) => None,
    }
}

// How many arguments there are, the program's name among them.
pub fn argument_count(rt: &impl Env) -> usize {
    (0..usize::MAX)
        .find(|place| argument(rt, *place, &mut []).is_none())
        .unwrap_or(usize::MAX)
}
