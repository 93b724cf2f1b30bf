//! The lines of a file.
ghost use Rattle.std.specs.Prelude.{◌≡◌};
ghost use Rattle.dg_lines.specs.Cuts.{lines};

use crate::cuts::cut;

/// The lines of bytes: what stands before each newline, and what stands after the last one if that is not empty.
#[derive(Drop)]
pub struct Lines<'a> {
    rest: &'a [u8],
}

impl<'a> Lines<'a> {
    /// The lines of the bytes.
    pub fn new(bytes: &'a [u8]) -> Lines<'a>
        ensures { result.rest.now ≡ bytes.now }
    {
        Lines { rest: bytes }
    }
}

impl<'a> Iterator for Lines<'a> {
    ghost use Rattle.std.specs.Iterator.{YieldsFirstRef, item_count};

    type Item = &'a [u8];

    ghost next_gives = { YieldsFirstRef (λ s. lines s.rest.now) };

    ghost remaining = { item_count (λ s. lines s.rest.now) };

    #[tactic(auto, using(crate::proofs::Cutting::lines_none))]
    fn next(&mut self) -> Option<&'a [u8]> {
        if self.rest.is_empty() {
            return None;
        }
        let (line, after) = cut(self.rest, b'\n');
        self.rest = after.unwrap_or(&[]);
        Some(line)
    }
}
