//! What is written pair by pair: a whole number for each vertex.
ghost use Rattle.std.specs.Prelude.{◌≡◌, ◌+◌, ◌<◌, ◌≤◌, ◌++◌, length, drop};
ghost use Rattle.std.specs.Fmt.{signed_decimal};
ghost use Rattle.dg_chips.specs.Vector.{Vector, at};
ghost use Rattle.dg_graph.specs.declared.graph.TheConstants.{MAX_VERTICES};

use crate::digits::{MAX_DIGITS, write_number, write_wide};
use dg_chips::{Divisor, Script, Wide};

/// A whole number for each vertex.
pub(crate) trait Amounts {
    ghost numbers: { Self → Vector };

    /// How many vertices there are.
    fn size(&self) -> usize
        ensures size { result ≡ (numbers self.now).size }
        ensures few { result ≤ MAX_VERTICES };

    /// Writes the number of a vertex so that it ends at `end`, and says where it starts.
    fn write_amount(&self, v: usize, line: &mut [u8], end: usize) -> usize
        requires vertex { v < (numbers self.now).size }
        requires room { MAX_DIGITS ≤ end }
        requires within { end ≤ length line.old }
        ensures start { result ≤ end }
        ensures short { end ≤ result + MAX_DIGITS }
        ensures written { drop result line.new
            ≡ signed_decimal (at (numbers self.now) v) ++ drop end line.old };
}

impl Amounts for Divisor {
    ghost numbers = { λ x. x };

    #[inline(always)]
    fn size(&self) -> usize {
        self.size()
    }

    #[inline(always)]
    fn write_amount(&self, v: usize, line: &mut [u8], end: usize) -> usize {
        write_number(self.get(v), line, end)
    }
}

impl Amounts for Script {
    ghost numbers = { λ x. x };

    #[inline(always)]
    fn size(&self) -> usize {
        self.size()
    }

    #[inline(always)]
    fn write_amount(&self, v: usize, line: &mut [u8], end: usize) -> usize {
        write_number(self.get(v), line, end)
    }
}

impl Amounts for Wide {
    ghost numbers = { λ x. x };

    #[inline(always)]
    fn size(&self) -> usize {
        self.size()
    }

    #[inline(always)]
    fn write_amount(&self, v: usize, line: &mut [u8], end: usize) -> usize {
        write_wide(self.get(v), line, end)
    }
}
