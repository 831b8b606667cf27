//! The lines of an input one after the other, each with its number.
ghost use Rattle.std.specs.Prelude.{◌≡◌, ◌+◌, ◌<◌, ◌^◌, length, MatchOption};
ghost use Rattle.std.specs.Iterator.{at_most};

use crate::line::cut_line;

/// What is left of an input, and the number of its next line. A line that has no words only counts.
#[derive(Drop)]
pub struct Lines<'a> {
    rest: &'a [u8],
    number: u64,
    ghost countable: { number + length rest.now < 2 ^ 64 },
}

impl<'a> Lines<'a> {
    /// The lines of an input, from number 1.
    pub fn of(input: &'a [u8]) -> Lines<'a>
        ensures rest { result.rest.now ≡ input.now }
        ensures first { result.number ≡ 1 }
    {
        Lines {
            rest: input,
            number: 1,
        }
    }
}

impl<'a> Iterator for Lines<'a> {
    ghost use Rattle.reader.specs.Numbered.{GivesLine, left_over};

    type Item = (u64, &'a [u8]);

    ghost next_gives = { GivesLine };

    ghost remaining = { λ s. at_most (length (left_over s)) };

    fn next(&mut self) -> Option<(u64, &'a [u8])> {
        if self.rest.is_empty() {
            return None;
        }
        let (line, rest) = cut_line(self.rest);
        let number = self.number;
        *self = Lines {
            rest,
            number: number + 1,
        };
        Some((number, line))
    }
}
