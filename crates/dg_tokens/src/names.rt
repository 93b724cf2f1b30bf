//! The names of a table's vertices.
ghost use Rattle.std.specs.Prelude.{◌≡◌, ◌↔◌, ◌+◌, ◌<◌, ◌≤◌, ◌++◌, [], length, drop, not, Some, IsTrue, IfSome, IfOk, OnErr};
ghost use Rattle.dg_tokens.specs.Names.{IsName, AreNames, names_contain, names_inserted, place_of, name_at, label};

use crate::label::{Label, MAX_LABEL};
use dg_graph::MAX_VERTICES;
use indexmap::IndexSet;
use std::alloc::{AllocError, Global};
use std::marker::Model;
use std::str;

/// The most bytes of a name.
pub const MAX_NAME: usize = 16;

/// Whether the bytes are a name: 1 to 16 of them, each an ASCII letter, an ASCII digit or `_`.
pub fn is_name(bytes: &[u8]) -> bool
    ensures { IsTrue result ↔ IsName bytes.now }
{
    let len = bytes.len();
    1 <= len && len <= MAX_NAME && bytes.iter().all(|byte| is_name_byte(*byte))
}

fn is_name_byte(byte: u8) -> bool
    ensures { result ≡ Rattle.dg_tokens.specs.Names.is_name_byte byte }
{
    byte.is_ascii_alphanumeric() || byte == b'_'
}

/// The names of a table's vertices, in vertex order: at most 16, all different.
#[derive(Drop)]
pub struct Names {
    set: IndexSet<String>,
    // Of the vertices that have no name yet, any.
    labels: [Label; MAX_VERTICES],
}

impl Model for Names {
    ghost use Rattle.std.specs.Prelude.{ℕ, List, map, string_bytes, ◌≤◌};
    ghost use Rattle.indexmap.specs.IndexSet.{index_set_len};
    ghost use Rattle.dg_graph.specs.declared.graph.TheConstants.{MAX_VERTICES};
    ghost use Rattle.dg_tokens.specs.Labels.{AreLabels};
    ghost use Rattle.dg_tokens.specs.Names.{AreNames};

    ghost Value = { List (List ℕ) };

    ghost view = { λ names. map string_bytes names.set.keys };

    ghost invariant = { λ names. (index_set_len names.set ≤ MAX_VERTICES)
        × AreNames (map string_bytes names.set.keys)
        × AreLabels names.labels (map string_bytes names.set.keys) };
}

impl Names {
    /// No names.
    pub fn new(alloc: Global) -> Names
        ensures { result ≡ [] }
    {
        Names {
            set: IndexSet::new(alloc),
            labels: [Label::empty(); MAX_VERTICES],
        }
    }

    /// The number of names.
    pub fn len(&self) -> usize
        ensures len { result ≡ length self.now }
        ensures few { result ≤ MAX_VERTICES }
        ensures names { AreNames self.now }
    {
        self.set.len()
    }

    /// Whether there are no names.
    pub fn is_empty(&self) -> bool
        ensures { IsTrue result ↔ (self.now ≡ []) }
    {
        self.set.is_empty()
    }

    /// Names the next vertex, and says whether it did: a name that a vertex has already changes nothing. The conditions are
    /// that the text is a name, and that there are fewer than 16 names.
    ///
    /// If memory is refused, nothing has changed.
    pub fn insert(&mut self, alloc: Global, name: &str) -> Result<bool, AllocError>
        requires name { IsName name.now }
        requires room { length self.old < MAX_VERTICES }
        ensures added { IfOk result (λ added. added ≡ not (names_contain self.old name.now)) }
        ensures names { IfOk result (λ _. self.new ≡ names_inserted self.old name.now) }
        ensures err { OnErr result (self.new ≡ self.old) }
    {
        let own = String::from_str(alloc, name)?;
        let next = self.set.len();
        self.labels[next] = Label::new(name.as_bytes());
        let is_new = self.set.insert(own)?;
        Ok(is_new)
    }

    /// The vertex of that name, if there is one.
    pub fn place(&self, name: &[u8]) -> Option<u8>
        ensures place { result ≡ place_of self.now name.now }
        ensures vertex { IfSome result (λ v. v < length self.now) }
        ensures named { IfSome result (λ v. name_at self.now v ≡ name.now) }
        ensures few { length self.now ≤ MAX_VERTICES }
    {
        let set = &self.set;
        let Ok(text) = str::from_utf8(name) else {
            return None;
        };
        let place = set.get_index_of(text)?;
        Some(place as u8)
    }

    /// The name of a vertex.
    pub fn name(&self, v: u8) -> &str
        requires { v < length self.now }
        ensures name { result.now ≡ name_at self.now v }
        ensures placed { place_of self.now result.now ≡ Some v }
    {
        self.set[usize::from(v)].as_str()
    }

    /// Writes the label of a vertex, ` name=`, so that it ends at `end`, and says where it starts. The bytes before it are
    /// then any.
    pub fn write_label(&self, v: usize, line: &mut [u8], end: usize) -> usize
        requires vertex { v < length self.now }
        requires room { MAX_LABEL ≤ end }
        requires within { end ≤ length line.old }
        ensures start { result + length (label (name_at self.now v)) ≡ end }
        ensures short { end ≤ result + MAX_LABEL }
        ensures written { drop result line.new ≡ label (name_at self.now v) ++ drop end line.old }
    {
        let labels = &self.labels;
        labels[v].write(line, end)
    }
}
