//! Labels: what stands before the amount of a vertex in a reply. Each is made once, when its vertex is named.
ghost use Rattle.std.specs.Prelude.{◌≡◌, ◌+◌, ◌≤◌, ◌++◌, length, drop};
ghost use Rattle.dg_tokens.specs.Labels.{IsLabel, kept_label};

use crate::names::MAX_NAME;
use std::simd::prelude::*;

/// The most bytes of a label: a space, a name and `=`.
pub const MAX_LABEL: usize = MAX_NAME + 2;

/// The label ` name=` of a vertex, at the end of its bytes.
#[derive(Clone, Copy)]
pub(crate) struct Label {
    bytes: [u8; MAX_LABEL],
    start: usize,
}

impl Label {
    /// The label of no vertex.
    pub(crate) fn empty() -> Label {
        Label {
            bytes: [0; MAX_LABEL],
            start: MAX_LABEL,
        }
    }

    /// The label of a name.
    pub(crate) fn new(name: &[u8]) -> Label
        requires { length name.now ≤ MAX_NAME }
        ensures { IsLabel result name.now }
    {
        let start = MAX_NAME - name.len();
        let mut bytes = [0; MAX_LABEL];
        bytes[MAX_LABEL - 1] = b'=';
        bytes[start + 1..MAX_LABEL - 1].copy_from_slice(name);
        bytes[start] = b' ';
        Label { bytes, start }
    }

    /// Writes the label so that it ends at `end`, and says where it starts. What stood before it is lost.
    pub(crate) fn write(&self, line: &mut [u8], end: usize) -> usize
        requires start { self.now.start ≤ MAX_LABEL }
        requires room { MAX_LABEL ≤ end }
        requires within { end ≤ length line.old }
        ensures start { result + MAX_LABEL ≡ end + self.now.start }
        ensures written { drop result line.new ≡ kept_label self.now ++ drop end line.old }
    {
        let from = end - MAX_LABEL;
        u8x2::from_slice(&self.bytes[16..]).copy_to_slice(&mut line[from + 16..]);
        u8x16::from_slice(&self.bytes).copy_to_slice(&mut line[from..]);
        from + self.start
    }
}
