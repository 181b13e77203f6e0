// Input that may end early, as the programs read it that play a stored list.
#![tactic(auto)]

ghost use Rattle.std.specs.Prelude.{◌≡◌, ◌≢◌, ◌≤◌, length, IsTrue, IfOk, IfErr, IfSome};
ghost use Rattle.reading.specs.Part.{GivesPart};
ghost use Rattle.std.specs.IoError.{error_kind};
ghost use Rattle.std.specs.Io.KnownBytes.{Consumes};

use std::io;
use std::io::{ErrorKind, Read};

// Whether the input has the bytes that fill the room, however few each read gives: an input that ends before is no error.
pub fn came<R: Read>(input: &mut R, room: &mut [u8]) -> io::Result<bool>
    ensures filled { IfOk result (λ all. IsTrue all → Consumes (R.remaining input.old) (R.remaining input.new) room.new) }
    ensures early { IfErr result (λ e. error_kind e ≢ ErrorKind.UnexpectedEof) }
{
    match input.read_exact(room) {
        Ok(()) => Ok(true),
        Err(e) if e.kind() == ErrorKind::UnexpectedEof => Ok(false),
        Err(e) => Err(e),
    }
}

// The next part of a list, its kind and its bytes: a kind, the length of what follows in 4 bytes, and that. The list ends with the last part, with one that is
// cut short, and with one that is too long for the room.
pub fn next<'a, R: Read>(input: &mut R, room: &'a mut [u8]) -> io::Result<Option<(u8, &'a [u8])>>
    ensures part { IfOk result (λ o. IfSome o (λ p. GivesPart (R.remaining input.old) (R.remaining input.new) p.0 p.1.now)) }
    ensures within { IfOk result (λ o. IfSome o (λ p. length p.1.now ≤ length room.old)) }
    ensures early { IfErr result (λ e. error_kind e ≢ ErrorKind.UnexpectedEof) }
{
    let mut opening = [0u8; 5];
    if !came(input, &mut opening)? {
        return Ok(None);
    }
    let size = wire::read4(&opening, 1) as usize;
    if room.len() < size || !came(input, &mut room[..size])? {
        return Ok(None);
    }
    Ok(Some((opening[0], &room[..size])))
}
