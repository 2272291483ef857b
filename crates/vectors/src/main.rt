// Converts a list of words. Each line of standard input is 12 bytes, `KK WWWWWWWW`: a kind of two
// letters and a word of eight hexadecimal digits. It is written back with the word's answer,
// `KK WWWWWWWW AAAAAAAA`.
#![tactic(auto)]

ghost use Rattle.std.specs.Prelude.{◌≤◌, length, IfOk};

mod convert;
mod reply;

use std::io;
use std::io::Read;

// Reads until the line is full or the input ends, and answers how many bytes it put at the line's
// start, which `read_exact` would not say.
fn read_full(input: &mut impl Read, line: &mut [u8; 12]) -> io::Result<usize>
    ensures { IfOk result (λ n. n ≤ length line.new) }
{
    let mut n = 0;
    while n < 12 {
        let got = input.read(&mut line[n..])?;
        if got == 0 {
            break;
        }
        n += got;
    }
    Ok(n)
}

// Answers the next line, and says whether there may be more. A rest that is shorter than a line has
// no line end, since the array is zeros past it, and so is malformed.
fn answer_next(input: &mut impl Read, out: &impl Print) -> io::Result<bool> {
    let mut line = [0u8; 12];
    let n = read_full(input, &mut line)?;
    if n > 0 {
        reply::reply(out, line)?;
    }
    Ok(n == 12)
}

// A proved loop has to end, and nothing says that the input does. So the turns are counted, up to a
// number that no run uses up.
fn main(rt: HostRuntime) -> io::Result<()> {
    let mut input = rt.stdin();
    for _ in 0..u64::MAX {
        if !answer_next(&mut input, &rt)? {
            break;
        }
    }
    Ok(())
}
