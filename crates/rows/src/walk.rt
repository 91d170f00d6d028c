// The lines of a file, in turn.
ghost use Rattle.std.specs.Prelude.{◌≡◌, ◌-◌, length};
ghost use Rattle.std.specs.Iterator.{at_most};
ghost use Rattle.rows.specs.Lines.{Begins, GivesLine};

use crate::{LineAt, Lines, line_end};

impl<'a> Lines<'a> {
    // Before the first line of a file.
    pub fn new(file: &'a [u8]) -> Lines<'a>
        ensures { Begins file.now result }
    {
        Lines {
            file,
            number: 1,
            start: 0,
        }
    }
}

impl<'a> Iterator for Lines<'a> {
    type Item = LineAt<'a>;

    ghost next_gives = { GivesLine };

    ghost remaining = { λ s. at_most (length s.file.now - s.start) };

    #[inline(always)]
    fn next(&mut self) -> Option<LineAt<'a>> {
        let file = self.file;
        let start = self.start;
        if file.len() <= start {
            return None;
        }
        let end = line_end(file, start);
        let line = LineAt {
            number: self.number,
            start,
            end,
            bytes: &file[start..end],
        };
        self.number += 1;
        self.start = end + 1;
        Some(line)
    }
}
