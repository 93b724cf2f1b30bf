//! The roll of a table: what its lock and each of its seats know alike.
ghost use Rattle.std.specs.Prelude.{◌≡◌, ℕ, ◌+◌, ◌<◌, List, length};
ghost use Rattle.std.specs.List.{slice_get, slice_set};
ghost use Rattle.std.specs.declared.option.Option.TheVariants.{Some};
ghost use Rattle.dg_log.specs.Rolls.{roll_owns, claim_owns, IsBlankRoll};

use std::marker::{Model, PhantomData};

/// A tally for each seat that a table may have: how many entries the history had after the seat's last call, and how many of
/// them are the seat's. Who has the roll and who has the claim to a tally see the same numbers, and only both together change
/// them. Both exist in the proofs alone.
#[derive(Drop)]
pub struct Roll {
    marker: PhantomData<()>,
    pub ghost names: { List ℕ },
    pub ghost tallies: { List (ℕ × ℕ) },
    pub ghost claimed: { ℕ },
}

impl Model for Roll {
    ghost also_owns = { λ r. roll_owns r.names r.tallies r.claimed };
}

/// The claim to one tally of a roll. There is one for each tally, and it can't be copied.
#[derive(Drop)]
pub struct Claim {
    marker: PhantomData<()>,
    pub ghost names: { List ℕ },
    pub ghost place: { ℕ },
    pub ghost tally: { ℕ × ℕ },
}

impl Model for Claim {
    ghost also_owns = { λ c. claim_owns c.names c.place c.tally };
}

impl Roll {
    /// The roll of seats that made no call; nobody has a claim to a tally. No other roll has tallies of these names.
    pub(crate) fn new() -> Roll
        ensures { IsBlankRoll result.names result.tallies result.claimed }
    {
        Roll {
            marker: PhantomData,
        }
    }

    /// The claim to the next tally, that of a seat that made no call yet. The condition is that one is left.
    pub fn enroll(&mut self) -> Claim
        requires { self.old.claimed < length self.old.names }
        ensures { (self.new.names ≡ self.old.names) × (self.new.tallies ≡ self.old.tallies) ×
            (self.new.claimed ≡ self.old.claimed + 1) × (result.names ≡ self.old.names) ×
            (result.place ≡ self.old.claimed) × (result.tally ≡ (0, 0)) }
    {
        Claim {
            marker: PhantomData,
        }
    }

    /// Shows that the roll has the tally of a claim, and sets it: the history has this many entries now, of which `more` more are
    /// the seat's. The condition is that the claim is to a tally of this roll.
    pub fn sign(&mut self, claim: &mut Claim, found: u32, more: u32)
        requires { claim.old.names ≡ self.old.names }
        ensures { (slice_get self.old.tallies claim.old.place ≡ Some claim.old.tally) × (self.new.names ≡ self.old.names) ×
            (self.new.tallies ≡ slice_set self.old.tallies claim.old.place (found, claim.old.tally.1 + more)) ×
            (self.new.claimed ≡ self.old.claimed) ×
            (claim.new.names ≡ claim.old.names) × (claim.new.place ≡ claim.old.place) ×
            (claim.new.tally ≡ (found, claim.old.tally.1 + more)) }
    {}
}

unsafe impl Send for Roll {}

unsafe impl Send for Claim {}
