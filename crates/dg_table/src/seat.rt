//! Seats: who calls a table, and what they know of its history.
ghost use Rattle.std.specs.Prelude.{ℕ, List, ◌≡◌, ◌+◌, ◌-◌, ◌<◌, ◌≤◌, [], ◌∷◌, ◌++◌, length, slice_get, true, false, None, Some, IfOk, OnErr, IfSome, MatchBool, MatchOption, MatchResult};
ghost use Rattle.dg_chips.specs.Starts.{StartData};
ghost use Rattle.dg_rules.specs.Replies.{Replies};
ghost use Rattle.dg_rules.specs.State.{LeadsTo};
ghost use Rattle.dg_rules.specs.declared.entry.Entry.{Entry as EntryData};
ghost use Rattle.std.specs.Vec.{vec_capacity, vec_len};
ghost use Rattle.dg_table.specs.Faults.{IsFull};
ghost use Rattle.dg_table.specs.Histories.{HasPrefix, IsHistoryOf};
ghost use Rattle.dg_table.specs.Lock.{IsKeptLook, IsRollAfter, IsTallyShown, IsTallySigned};
ghost use Rattle.dg_log.specs.Rolls.{IsBlankRoll};
ghost use Rattle.dg_table.specs.Looks.{IsSizedLook, IsLastLook};
ghost use Rattle.dg_table.specs.Opened.{IsSeatCount, AreFresh};
ghost use Rattle.dg_table.specs.Seats.{HoldsKnown, Keeps, HasMet};

use crate::OutOfMemory;
use dg_log::{Claim, Log, Name, Prefix, Receipt, ReceiptSet, Roll};
use dg_rules::{BLANK, Entry, Game, LookData, Reply};
use std::alloc::Global;
use std::marker::{Model, PhantomData};

/// A seat of the table N: the receipts of its own calls, and of the entries that it was told of, the history as it found it at
/// its last call, and the longest history that it has met. A contract sees its number, these entries with their numbers, these
/// histories, whether it has space for one more call, and whether it has space to be told of one more entry.
#[derive(Drop)]
pub struct Seat<N: Name> {
    number: u8,
    mine: Vec<Receipt<N>>,
    told: Vec<Receipt<N>>,
    prefix: Prefix<N>,
    met: Prefix<N>,
    told_set: ReceiptSet<N>,
    look: Option<LookData>,
    // The lock's roll has the same tally: so the history has just the calls of the seat that it knows.
    claim: Claim,
    of: PhantomData<N>,
}

impl<N: Name> Model for Seat<N> {
    ghost use Rattle.dg_table.specs.Seats.{SeatView};

    ghost Value = { SeatView };

    ghost use Rattle.dg_table.specs.Lock.{seat_view, IsSeatState, IsClaimOf};

    ghost view = { seat_view };

    ghost invariant = { λ x. IsSeatState N.table (seat_view x) x.told_set x.look ×
        IsClaimOf N.names.tallies (seat_view x) x.claim.names x.claim.place x.claim.tally };
}

impl<N: Name> Seat<N> {
    /// The seats 1 to `count`, which know of no entry, each with the claim to its tally, and the roll. The conditions are that
    /// they are those of the table, that there is space for them, which has none, and that the roll is the table's, of which
    /// nobody has claimed a tally.
    pub(crate) fn numbered(
        alloc: Global,
        space: Vec<Seat<N>>,
        count: u8,
        roll: Roll,
    ) -> (Vec<Seat<N>>, Roll)
        requires count { count ≡ N.table.seats }
        requires seats { IsSeatCount count }
        requires empty { space.items ≡ [] }
        requires room { count ≤ vec_capacity space }
        requires roll { (roll.names ≡ N.names.tallies) × IsBlankRoll roll.names roll.tallies roll.claimed }
        ensures seats { AreFresh count result.0.items }
        ensures roll { (result.1.names ≡ N.names.tallies) × IsRollAfter [] result.1.tallies }
    {
        let mut seats = space;
        let mut enrolled = roll;
        for i in 0..count {
            let claim = enrolled.enroll();
            seats.push(Seat::new(alloc, i + 1, claim)).unwrap();
        }
        (seats, enrolled)
    }

    /// The seat with this number, which knows of no entry. The condition is that the claim is to its tally.
    fn new(alloc: Global, number: u8, claim: Claim) -> Seat<N>
        requires number { (1 ≤ number) × (number ≤ N.table.seats) }
        requires claim { (claim.names ≡ N.names.tallies) × (claim.place + 1 ≡ number) × (claim.tally ≡ (0, 0)) }
        ensures number { result.number ≡ number }
        ensures mine { result.mine ≡ [] }
        ensures told { result.told ≡ [] }
        ensures prefix { result.prefix ≡ [] }
        ensures met { result.met ≡ [] }
    {
        Seat {
            number,
            mine: Vec::new(alloc),
            told: Vec::new(alloc),
            prefix: Prefix::new(),
            met: Prefix::new(),
            told_set: ReceiptSet::new(),
            look: None,
            claim,
            of: PhantomData,
        }
    }

    /// The seat's number, from 1.
    pub fn number(&self) -> u8
        ensures { result ≡ self.now.number }
    {
        self.number
    }

    /// The seat's place among all seats, from 0.
    pub(crate) fn place(&self) -> u8
        ensures place { result + 1 ≡ self.now.number }
        ensures most { self.now.number ≤ N.table.seats }
    {
        self.number - 1
    }

    /// How many of the table's entries are the seat's.
    pub fn calls(&self) -> u64
        ensures { result ≡ length self.now.mine }
    {
        self.mine.len() as u64
    }

    /// The history as the seat found it at its last call, with that call at its end; it is empty before the first call. It is a
    /// history of the table, and the seat's entries in it are just those of its own calls.
    pub fn prefix(&self) -> &Prefix<N>
        ensures prefix { result.now ≡ self.now.prefix }
        ensures found { HasPrefix N.table self.now }
    {
        &self.prefix
    }

    /// The longest history that the seat has met: the one that it found, or a longer one, which a refused call met or the seat
    /// was told of. It is a history of the table.
    pub fn met(&self) -> &Prefix<N>
        ensures met { result.now ≡ self.now.met }
        ensures found { HasPrefix N.table self.now }
    {
        &self.met
    }

    /// Tells the seat of a history; each later call then comes after all its entries. It takes no memory. The condition is
    /// that it is a history of the table, as what a seat has met is.
    pub fn meet(&mut self, met: &Prefix<N>)
        requires { IsHistoryOf N.table met.now }
        ensures { HasMet met.now self.old self.new }
    {
        self.met = self.met.longer(met);
    }

    /// Whether the history that the seat has met has as many entries as there may be.
    pub(crate) fn has_met_full(&self, log: &Log<N>) -> bool
        ensures { MatchBool result
            (IsFull N.table self.now.met self.now)
            (length self.now.met < N.table.capacity) }
    {
        let len = self.met.len();
        if len < log.len() {
            return false;
        }
        if self.told_set.all_below(len) {
            self.met.holds(&self.told_set);
        }
        true
    }

    /// The receipt of the seat's last call; `None` before its first.
    pub fn last_call(&self) -> Option<&Receipt<N>>
        ensures last { IfSome result
            (λ r. slice_get self.now.mine (length self.now.mine - 1) ≡ Some r.now) }
        ensures none { result ≡ None → self.now.mine ≡ [] }
    {
        self.mine.last()
    }

    /// What the seat keeps of the last look that it took; `None` if it took none. Its graph has the
    /// vertices of the start, and there is an amount for each.
    pub fn look_data(&self) -> Option<LookData>
        ensures look { IsLastLook self.now.mine result }
        ensures vertices { IfSome result (IsSizedLook N.table.start.graph.size) }
    {
        self.look
    }

    /// `look_data` by reference, for a reader that wants no copy.
    pub fn last_look(&self) -> Option<&LookData>
        ensures { MatchOption result (IsLastLook self.now.mine None)
            (λ x. IsLastLook self.now.mine (Some x.now) × IsSizedLook N.table.start.graph.size x.now) }
    {
        self.look.as_ref()
    }

    /// Tells the seat of an entry; each later call then comes after it in the history.
    ///
    /// Refused if it has no space and there is not enough memory; then it knows what it knew.
    pub fn learn(&mut self, receipt: &Receipt<N>) -> Result<(), OutOfMemory>
        ensures number { self.new.number ≡ self.old.number }
        ensures mine { self.new.mine ≡ self.old.mine }
        ensures told { MatchResult result
            (λ _. self.new.told ≡ self.old.told ++ receipt.now ∷ [])
            (λ _. self.new.told ≡ self.old.told) }
        ensures refused { OnErr result (self.old.hears ≡ false) }
        ensures prefix { self.new.prefix ≡ self.old.prefix }
        ensures met { self.new.met ≡ self.old.met }
    {
        self.told.reserve(1)?;
        self.learn_reserved(receipt);
        Ok(())
    }

    /// `learn` where the space is reserved, so that nothing can be refused. The condition is that it is.
    pub(crate) fn learn_reserved(&mut self, receipt: &Receipt<N>)
        requires { self.old.hears ≡ true }
        ensures number { self.new.number ≡ self.old.number }
        ensures mine { self.new.mine ≡ self.old.mine }
        ensures told { self.new.told ≡ self.old.told ++ receipt.now ∷ [] }
        ensures prefix { self.new.prefix ≡ self.old.prefix }
        ensures met { self.new.met ≡ self.old.met }
    {
        self.told_set = self.told_set.with(receipt);
        self.told.push(receipt.again()).unwrap();
    }

    /// The receipts of the entries that the seat was told of, as a set.
    pub(crate) fn told_set(&self) -> &ReceiptSet<N>
        ensures { result.now ≡ self.now.told }
    {
        &self.told_set
    }

    /// Gives the seat the receipt of its next call, whose entry is the last of a history, and keeps the look that it takes. The
    /// conditions are that the seat has the space, that the roll is the table's, that the history is one of the table, which
    /// before the entry holds what the seat knows, and that the game stands there.
    pub(crate) fn take_receipt(
        &mut self,
        game: &Game,
        history: &Prefix<N>,
        entry: &Entry,
        receipt: &Receipt<N>,
        roll: &mut Roll,
    )
        requires space { self.old.space ≡ true }
        requires roll { roll.old.names ≡ N.names.tallies }
        requires found { IsHistoryOf N.table history.now }
        requires next { (H : List EntryData) × (history.now ≡ H ++ entry.now ∷ []) ×
            (receipt.now ≡ (length H, entry.now)) × (entry.now.seat ≡ self.old.number) × HoldsKnown H self.old ×
            LeadsTo N.table.start H game.now × Replies N.table.start H entry.now.request entry.now.reply }
        ensures number { self.new.number ≡ self.old.number }
        ensures mine { self.new.mine ≡ self.old.mine ++ receipt.now ∷ [] }
        ensures told { self.new.told ≡ self.old.told }
        ensures prefix { self.new.prefix ≡ history.now }
        ensures met { self.new.met ≡ history.now }
        ensures hears { self.new.hears ≡ true }
        ensures roll { roll.new.names ≡ roll.old.names }
        ensures signed { IsTallySigned self.old self.new roll.old.tallies roll.new.tallies }
    {
        roll.sign(&mut self.claim, history.len(), 1);
        keep_look(&mut self.look, game, entry);
        self.prefix = history.copy();
        self.met = history.copy();
        self.mine.push(receipt.again()).unwrap();
    }

    /// Shows that the roll has the seat's tally. It changes nothing. The condition is that the roll is the table's.
    pub(crate) fn show_claim(&mut self, roll: &mut Roll)
        requires { roll.old.names ≡ N.names.tallies }
        ensures seat { self.new ≡ self.old }
        ensures roll { (roll.new.names ≡ roll.old.names) × (roll.new.tallies ≡ roll.old.tallies) }
        ensures shown { IsTallyShown self.old roll.old.tallies }
    {
        roll.sign(&mut self.claim, self.prefix.len(), 0);
    }

    /// Makes space for one more call, and a box for its entry; what is in the box means nothing.
    ///
    /// Refused if there is not enough memory.
    pub fn room(&mut self, alloc: Global) -> Result<Box<Entry>, OutOfMemory>
        ensures kept { Keeps self.old self.new }
        ensures met { self.new.met ≡ self.old.met }
        ensures space { IfOk result (λ _. self.new.space ≡ true) }
    {
        reserve_both(&mut self.mine, &mut self.told)?;
        blank_entry(alloc)
    }
}

/// Keeps the look that an entry after the game's history takes, if it takes one, in place of an older look.
fn keep_look(look: &mut Option<LookData>, game: &Game, entry: &Entry)
    ensures { (o : StartData) (H : List EntryData) (ps : List (ℕ × EntryData)) →
        LeadsTo o H game.now → Replies o H entry.now.request entry.now.reply →
        IsKeptLook o ps look.old → IsKeptLook o (ps ++ (length H, entry.now) ∷ []) look.new }
{
    match &entry.reply {
        Reply::Looked(gifts, position, graph) => {
            *look = Some(LookData {
                gifts: *gifts,
                position: *position,
                graph: *graph,
                ..game.look_data()
            });
        }
        Reply::Moved(_)
        | Reply::Given(..)
        | Reply::Joined(..)
        | Reply::Verdict(_)
        | Reply::Rank(_)
        | Reply::Stale(_)
        | Reply::Won
        | Reply::NotWon
        | Reply::Refused(_) => {}
    }
}

/// Makes space for one more receipt in each list.
fn reserve_both<N: Name>(
    mine: &mut Vec<Receipt<N>>,
    told: &mut Vec<Receipt<N>>,
) -> Result<(), OutOfMemory>
    ensures mine { mine.new.items ≡ mine.old.items }
    ensures told { told.new.items ≡ told.old.items }
    ensures space { IfOk result (λ _. (vec_len mine.new < vec_capacity mine.new) ×
        (vec_len told.new < vec_capacity told.new)) }
{
    mine.reserve(1)?;
    told.reserve(1)
}

/// A box for an entry; what is in it means nothing.
fn blank_entry(alloc: Global) -> Result<Box<Entry>, OutOfMemory> {
    Ok(Box::new(alloc, BLANK)?)
}
