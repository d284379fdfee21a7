// What a program reads of its input.
#![tactic(auto)]

ghost use Rattle.std.specs.Prelude.{◌≡◌, ◌≤◌, length, take};
ghost use Rattle.std.specs.Io.KnownBytes.{Consumes};

use std::io::Read;

// Reads until the space is full, the input ends or a read fails: how many bytes it put in front.
pub fn read_full<R: Read>(reader: &mut R, space: &mut [u8]) -> usize
    ensures room { (result ≤ length space.new) × (result ≡ length (take result space.new)) }
    ensures bytes { Consumes (R.remaining reader.old) (R.remaining reader.new) (take result space.new) }
{
    let mut at = 0;
    while at < space.len() {
        match reader.read(&mut space[at..]) {
            Ok(0) => return at,
            Ok(n) => at += n,
            Err(_) => return at,
        }
    }
    at
}
