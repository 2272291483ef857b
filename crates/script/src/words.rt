// The words of a line.
ghost use Rattle.std.specs.Prelude.{◌≤◌, length};
ghost use Rattle.std.specs.Iterator.{at_most};

use crate::parameters::Wrong;

// A blank, a tab or a carriage return.
fn separates(b: u8) -> bool {
    matches!(b, b' ' | b'\t' | b'\r')
}

// The words of a text, of which it holds what is left.
#[derive(Clone, Copy)]
pub(crate) struct Words<'a>(pub(crate) &'a [u8]);

impl<'a> Iterator for Words<'a> {
    type Item = &'a [u8];

    ghost remaining = { λ s. at_most (length s.0.now) };

    fn next(&mut self) -> Option<&'a [u8]> {
        let start = self.0.iter().position(|b| !separates(*b))?;
        let rest = &self.0[start..];
        // a word has at least one byte
        let more = rest[1..].iter().position(|b| separates(*b));
        let (word, after) = rest.split_at(more.map_or(rest.len(), |n| n + 1));
        self.0 = after;
        Some(word)
    }
}

impl<'a> Words<'a> {
    // How many words are left, or one more than the most that a call takes: of a long line no more
    // is looked at.
    pub(crate) fn count_to(self, most: usize) -> usize {
        self.take(most.saturating_add(1)).count()
    }

    // Whether there are as many words left as a call takes.
    pub(crate) fn exactly(self, many: usize) -> Result<(), Wrong> {
        if self.count_to(many) != many {
            return Err(Wrong::WordCount);
        }
        Ok(())
    }

    // The next word. Each word has a function of its own to read it, so words are not taken as an
    // array; the borrow checker covers no array of references whose length is a parameter.
    pub(crate) fn word(&mut self) -> Result<&'a [u8], Wrong> {
        self.next().ok_or(Wrong::WordCount)
    }
}
