// A text read from an input up to its end, or a failure.
#![tactic(auto)]

ghost use Rattle.std.specs.Prelude.{◌≡◌, ◌+◌, ◌≤◌, length};
ghost use Rattle.std.specs.Int.{w64};
ghost use Rattle.std.proofs.Common.{Fits};
ghost use Rattle.intake.specs.Gathered.{gives, next_of, Came, Gathered};

use std::io;
use std::io::{Error, ErrorKind, Read};
use std::ops::ControlFlow;
use std::ops::ControlFlow::{Break, Continue};

// What is done after a read: go on with so many bytes, or stop, with the whole of them or with why the read failed.
type Next = ControlFlow<io::Result<usize>, usize>;

// A proved loop has to end, and nothing says that signals do: it counts its reads, up to a number that no run reaches.
const MOST_READS: u64 = u64::MAX;

// What the answer of a read means where n bytes are there: only 0 is the end, and only a signal that came before the first byte is no failure.
fn decide(n: usize, got: io::Result<usize>) -> Next
    requires { Fits w64 (n + gives got) }
    ensures { result ≡ next_of n got }
{
    match got {
        Ok(0) => Break(Ok(n)),
        Ok(count) => Continue(n + count),
        Err(why) if why.kind() == ErrorKind::Interrupted => Continue(n),
        Err(why) => Break(Err(why)),
    }
}

// One read behind the first n bytes of the area, which stay as they are.
fn read_behind<R: Read>(input: &mut R, area: &mut [u8], n: usize) -> Next
    requires { n ≤ length area.old }
    ensures { Came n area.old area.new result }
{
    let got = input.read(&mut area[n..]);
    decide(n, got)
}

// Reads up to the end of the input, or until the area is full; the bytes of the text, at the front of the area.
pub fn read_text<R: Read>(input: &mut R, area: &mut [u8]) -> io::Result<usize>
    ensures { Gathered area.old area.new result }
{
    let mut n = 0;
    for _ in 0..MOST_READS {
        if n == area.len() {
            break;
        }
        match read_behind(input, area, n) {
            Continue(m) => n = m,
            Break(text) => return text,
        }
    }
    if n < area.len() {
        return Err(Error::other("too many reads"));
    }
    Ok(n)
}
