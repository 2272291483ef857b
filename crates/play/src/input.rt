// Standard input in pieces, cut into lines; and standard output, written when its buffer is half
// full or the input has to be waited for.
ghost use Rattle.std.specs.Prelude.{◌≤◌, length, IfOk};

use crate::{answers, calls};
use model::Module;
use script::lines;
use script::lines::{LONGEST_LINE, Parsed};
use script::parameters::Wrong;
use script::print::Text;
use std::io::Read;

// No answer is longer than half the buffer: a line's bytes, and what `store` lends, bound it.
const HALF: usize = 32768;

// The box, the number of lines so far, whether the line that has begun is too long, room for the
// bytes of a call, and the answers that are still to write.
#[derive(Drop)]
pub struct Player<'a> {
    pub after: Module,
    pub line: u64,
    pub long: bool,
    pub space: &'a mut [u8],
    pub out: Text<'a>,
}

// Reads more behind the text that is there, which stays, and answers whether any came. A read that
// fails counts as the input's end.
fn fill(input: &mut impl Read, text: &mut Text) -> bool
    ensures { text.old.len ≤ text.new.len }
{
    let n = input.read(&mut text.bytes[text.len..]).unwrap_or(0);
    text.len += n;
    0 < n
}

impl Player<'_> {
    // A line whose start was too long to be kept is too long, whatever is left of it.
    fn parse(&mut self, line: &[u8]) -> Result<Parsed, Wrong>
        ensures { IfOk result (λ p. p.n ≤ length self.new.space.now) }
    {
        if self.long {
            return Err(Wrong::LineTooLong);
        }
        if self.line == 1 {
            return lines::parse_first(line, self.space);
        }
        lines::parse(line, self.space)
    }

    fn run_line(&mut self, line: &[u8]) {
        // no script reaches the highest number
        self.line = self.line.saturating_add(1);
        match self.parse(line) {
            Ok(parsed) => {
                let bytes = &mut self.space[..parsed.n];
                let answered = calls::perform(self.after, parsed.line, bytes);
                answers::put_answer(&mut self.out, parsed.line, &answered, bytes);
                self.after = answered.after;
            }
            Err(why) => answers::put_error(&mut self.out, self.line, why),
        }
        self.long = false;
    }

    // Where the answers cannot be written it says so, and the script goes on.
    fn write_out(&mut self, rt: &(impl Print + Eprint)) {
        let out = &mut self.out;
        if rt.write_all(&out.bytes[..out.len]).is_err() {
            let _ = rt.eprintln("play: the answers could not be written");
        }
        out.len = 0;
    }

    // Runs the lines of a text that have ended, and answers how many bytes those are.
    fn run_lines(&mut self, rt: &(impl Print + Eprint), text: &[u8]) -> usize
        ensures { result ≤ length text.now }
    {
        let mut rest = text;
        while let Some(end) = rest.iter().position(|b| *b == b'\n') {
            self.run_line(&rest[..end]);
            if HALF <= self.out.len {
                self.write_out(rt);
            }
            rest = &rest[end + 1..];
        }
        text.len() - rest.len()
    }

    // What is left of a text after its last line feed waits at the start, unless it is too long to
    // be a line.
    fn keep_rest(&mut self, text: &mut Text, used: usize)
        requires { used ≤ text.old.len }
    {
        let rest = text.len - used;
        if LONGEST_LINE < rest {
            self.long = true;
            text.len = 0;
            return;
        }
        text.bytes.copy_within(used..text.len, 0);
        text.len = rest;
    }

    // Reads and runs what has come, and answers whether more may come.
    pub(crate) fn take_turn(
        &mut self,
        input: &mut impl Read,
        rt: &(impl Print + Eprint),
        text: &mut Text,
    ) -> bool {
        let more = fill(input, text);
        if more {
            let used = self.run_lines(rt, &text.bytes[..text.len]);
            self.keep_rest(text, used);
        } else {
            // the last line, which no line feed ends
            self.run_line(&text.bytes[..text.len]);
        }
        self.write_out(rt);
        more
    }
}
