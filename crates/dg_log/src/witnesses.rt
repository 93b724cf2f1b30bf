//! What many cells hold.
ghost use Rattle.std.specs.Prelude.{◌≡◌, ℕ, ◌<◌, List, [], ◌∷◌, ◌++◌, length, map};
ghost use Rattle.std.specs.List.{slice_get};
ghost use Rattle.std.specs.declared.option.Option.TheVariants.{Some};
ghost use denote.Sharing.{said};
ghost use Rattle.dg_log.specs.Witnesses.{noted_cells, AgreeOnCells};

use crate::witness::Witness;
use std::marker::{Model, PhantomData};

/// The values of cells, in a list that may have a cell more than once. Each item has a number that the caller gives it,
/// the cell's name, and the value.
#[derive(Drop)]
pub struct Witnesses<T> {
    marker: PhantomData<T>,
    pub ghost items: { List (ℕ × ℕ × T) },
}

impl<T> Model for Witnesses<T> {
    ghost also_owns = { λ f. noted_cells T.row f.items };

    ghost also_shares = { λ f _ κ. said (noted_cells T.row f.items) κ };
}

impl<T> Witnesses<T> {
    /// Nothing is known.
    pub fn new() -> Witnesses<T>
        ensures { result.items ≡ [] }
    {
        Witnesses {
            marker: PhantomData,
        }
    }

    /// What was known, and one more value with a number.
    pub fn with(&self, number: u32, known: &Witness<T>) -> Witnesses<T>
        ensures { result.items ≡ self.now.items ++ (number, known.now.cell, known.now.value) ∷ [] }
    {
        Witnesses {
            marker: PhantomData,
        }
    }

    /// A copy: what is known of cells that are set once stays so.
    pub fn copy(&self) -> Witnesses<T>
        ensures { result.items ≡ self.now.items }
    {
        Witnesses {
            marker: PhantomData,
        }
    }

    /// The value of item i. The condition is that there are more than i.
    pub fn at(&self, i: u32) -> Witness<T>
        requires { i < length self.now.items }
        ensures { (slice_get (map (λ x. x.1) self.now.items) i ≡ Some result.cell) ×
            (slice_get (map (λ x. x.2) self.now.items) i ≡ Some result.value) }
    {
        Witness {
            marker: PhantomData,
        }
    }

    /// Wherever both have one cell they have one value of it. It does nothing.
    pub fn agree(&self, other: &Witnesses<T>)
        ensures { AgreeOnCells self.now.items other.now.items }
    {}
}

unsafe impl<T> Send for Witnesses<T> {}

unsafe impl<T> Sync for Witnesses<T> {}
