//! What one cell holds.
ghost use Rattle.std.specs.Prelude.{◌≡◌, ℕ};
ghost use Rattle.std.specs.declared.option.Option.TheVariants.{Some};
ghost use denote.Sharing.{said};
ghost use Rattle.once_cell.specs.Once.{noted};

use once_cell::race::Note;
use std::marker::{Model, PhantomData};

/// The value of one cell: a clause reads the cell's name as `cell`, and the value as `value`.
#[derive(Drop)]
pub struct Witness<T> {
    pub(crate) marker: PhantomData<T>,
    pub ghost cell: { ℕ },
    pub ghost value: { T },
}

impl<T> Model for Witness<T> {
    ghost also_owns = { λ k. noted T.row k.cell (Some k.value) };

    ghost also_shares = { λ k _ κ. said (noted T.row k.cell (Some k.value)) κ };
}

impl<T> Witness<T> {
    /// What a note knows. The condition is that it knows a value.
    pub fn of(note: &mut Note<T>) -> Witness<T>
        requires { (x : T) × (note.old.known ≡ Some x) }
        ensures { (note.new ≡ note.old) × (result.cell ≡ note.old.cell) ×
            (note.old.known ≡ Some result.value) }
    {
        let _ = note;
        Witness {
            marker: PhantomData,
        }
    }

    /// A copy: what is known of a cell that is set once stays so.
    pub fn copy(&self) -> Witness<T>
        ensures { (result.cell ≡ self.now.cell) × (result.value ≡ self.now.value) }
    {
        Witness {
            marker: PhantomData,
        }
    }

    /// Two of one cell know one value. It does nothing.
    pub fn agrees(&self, other: &Witness<T>)
        requires { self.now.cell ≡ other.now.cell }
        ensures { self.now.value ≡ other.now.value }
    {}

    /// Lets a note of the cell know the value.
    pub fn tell(&self, note: &mut Note<T>)
        requires { note.old.cell ≡ self.now.cell }
        ensures { (note.new.cell ≡ note.old.cell) × (note.new.known ≡ Some self.now.value) }
    {}
}

unsafe impl<T> Send for Witness<T> {}

unsafe impl<T> Sync for Witness<T> {}
