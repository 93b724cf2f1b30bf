//! What the lock of a table holds. It has a contract of its own, because no clause can name what a lock holds.
ghost use Rattle.std.specs.Prelude.{ℕ, List, Some, slice_get, ◌≡◌, ◌<◌, ◌≤◌, ◌↔◌, [], ◌∷◌, ◌++◌, true, false, length, IsTrue, IfOk, IfSome, IfErr, MatchOption, MatchResult, MatchBool, OnErr};
ghost use Rattle.dg_chips.specs.Starts.{StartData};
ghost use Rattle.dg_rules.specs.Legal.{IsSeatNumber, IsLegal};
ghost use Rattle.dg_rules.specs.Look.{IsRightFinding};
ghost use Rattle.dg_rules.specs.Replies.{Replies};
ghost use Rattle.dg_rules.specs.Requests.{call_request};
ghost use Rattle.dg_rules.specs.State.{LeadsTo};
ghost use Rattle.dg_log.specs.Written.{nothing_written, with_entry, after_refusal};
ghost use Rattle.dg_table.specs.Answered.{entering, IsAnsweredAfter};
ghost use Rattle.dg_table.specs.Closing.{AttestsAll, HasSeat, AreAllSeats, HoldsAllSeats, AreAuditTotals, IsMissingSeat, HasInadmissibleSeat, RefusesClose, HaveMet};
ghost use Rattle.dg_table.specs.Faults.{RefusesStep, RefusesSettling};
ghost use Rattle.dg_table.specs.declared.fault.Fault.TheVariants.{Log as LogFault};
ghost use Rattle.dg_rules.specs.declared.entry.Entry.{Entry as EntryData};
ghost use Rattle.dg_table.specs.Histories.{IsHistoryOf};
ghost use Rattle.dg_table.specs.Lock.{IsReady, IsRollAfter};
ghost use Rattle.dg_table.specs.Looks.{IsLookOf};
ghost use Rattle.dg_table.specs.Opened.{IsSeatCount};
ghost use Rattle.dg_table.specs.Seats.{SeatView, HoldsKnown, IsAdmissible, Attests, HasMet};
ghost use Rattle.dg_table.specs.Settled.{IsSettledAfter, IsStaleAfter, IsNotStaleAfter};
ghost use Rattle.dg_table.specs.Turns.{MayBeAsked, asking, IsTurnAfter, IsAskedToEnter};

use crate::audit::Audit;
use crate::fault::Fault;
use crate::seat::Seat;
use dg_chips::{Divisor, Move, Start};
use dg_graph::Graph;
use dg_log::{Log, Name, Pen, Receipt, Roll};
use dg_rules::{Entry, Finding, Game, LookData, Plain, Question};
use std::marker::Model;

/// The game of the table N, the pen that writes its history, how many entries each seat has, and the roll, which shows that each
/// seat knows of its entries. A contract sees what the pen has written; the rest is a function of it. No call of it takes
/// memory: a step uses the box and the space that `Seat::room` made.
#[derive(Drop)]
pub struct Held<N: Name> {
    game: Game,
    pen: Pen<N>,
    counts: [u64; 64],
    seats: u8,
    roll: Roll,
}

impl<N: Name> Model for Held<N> {
    ghost use Rattle.std.specs.Prelude.{◌≡◌};
    ghost use Rattle.dg_log.specs.Written.{Written};
    ghost use Rattle.dg_table.specs.Lock.{IsUnderLock, IsRollAfter};

    ghost Value = { Written };

    ghost view = { λ h. h.pen };

    ghost invariant = { λ h. IsUnderLock N.table.start N.table.seats h.pen.entries h.game h.counts × (h.seats ≡ N.table.seats) ×
        (h.roll.names ≡ N.names.tallies) × IsRollAfter h.pen.entries h.roll.tallies };
}

impl<N: Name> Held<N> {
    /// What the lock of a table holds before its first entry.
    pub(crate) fn new(pen: Pen<N>, start: &Start, seats: u8, roll: Roll) -> Held<N>
        requires pen { pen ≡ nothing_written }
        requires start { start.now ≡ N.table.start }
        requires seats { seats ≡ N.table.seats }
        requires count { IsSeatCount seats }
        requires roll { (roll.names ≡ N.names.tallies) × IsRollAfter [] roll.tallies }
        ensures { result ≡ nothing_written }
    {
        Held {
            game: Game::new(start),
            pen,
            counts: [0; 64],
            seats,
            roll,
        }
    }

    /// Whether the history has as many entries as the one that the seat has met, or more, an entry of each number that it
    /// was told of, and as many entries of the seat as it keeps. Then the history holds what the seat knows.
    pub fn admits(&self, seat: &Seat<N>) -> bool
        ensures admits { IsTrue result ↔ IsAdmissible self.now.entries seat.now }
        ensures holds { IsTrue result → HoldsKnown self.now.entries seat.now }
        ensures number { IsSeatNumber seat.now.number }
    {
        let count = self.counts[usize::from(seat.place())];
        let len = self.pen.len();
        if seat.calls() != count || seat.met().len() > len || !seat.told_set().all_below(len) {
            return false;
        }
        self.pen.began(seat.met());
        self.pen.holds(seat.told_set());
        true
    }

    /// Shows that the history begins with the one that the seat found at its last call, and that the seat's entries in it are
    /// just those of its own calls. It does nothing else.
    pub fn attest(&mut self, seat: &mut Seat<N>)
        ensures same { (self.new ≡ self.old) × (seat.new ≡ seat.old) }
        ensures attested { Attests self.old.entries seat.old }
    {
        seat.show_claim(&mut self.roll);
        self.pen.began(seat.prefix());
    }

    /// Shows the same of each of these seats.
    pub fn attest_all(&mut self, seats: &mut [Seat<N>])
        ensures same { (self.new ≡ self.old) × (seats.new ≡ seats.old) }
        ensures history { IsHistoryOf N.table self.old.entries }
        ensures attested { AttestsAll self.old.entries seats.old }
    {
        let _len = self.pen.len();
        for seat in seats.iter_mut() {
            self.attest(seat);
        }
    }

    /// Tells the seat of the history as it stands.
    fn meet(&self, seat: &mut Seat<N>)
        ensures { HasMet self.now.entries seat.old seat.new }
    {
        let _len = self.pen.len();
        seat.meet(&self.pen.prefix());
    }

    /// Tells each of these seats of the history as it stands.
    pub(crate) fn meet_all(&self, seats: &mut [Seat<N>])
        ensures { HaveMet self.now.entries seats.old seats.new }
    {
        for seat in seats.iter_mut() {
            self.meet(seat);
        }
    }

    /// Whether the history has room for an entry of the seat, and holds what the seat knows; or why not.
    fn ready(&self, log: &Log<N>, seat: &Seat<N>) -> Result<(), Fault>
        ensures stands { MatchResult result
            (λ _. IsReady N.table.capacity self.now.entries seat.now)
            (RefusesStep N.table self.now self.now seat.now) }
        ensures barred { IfErr result
            (λ f. f ≡ LogFault → ¬ IsAdmissible self.now.entries seat.now) }
    {
        let len = self.pen.len();
        if len == log.len() {
            self.pen.began(seat.met());
            if seat.told_set().all_below(len) {
                self.pen.holds(seat.told_set());
            }
            return Err(Fault::Full);
        }
        if self.admits(seat) {
            Ok(())
        } else {
            Err(Fault::Log)
        }
    }

    /// Answers a call of a seat, enters it as the last of the history, and gives the seat its receipt. The condition is
    /// that the seat has the space; the box is used for the entry.
    ///
    /// Refused with `Full` if the history has as many entries as it may have; then with `Log` if the seat is not
    /// admitted, and where the cell refuses the entry. Then the seat has met the history.
    pub fn call(
        &mut self,
        log: &Log<N>,
        slot: Box<Entry>,
        seat: &mut Seat<N>,
        plain: Plain,
    ) -> Result<Receipt<N>, Fault>
        requires { seat.old.space ≡ true }
        ensures entered { IfOk result
            (λ r. IsAnsweredAfter N.table (call_request plain) (entering self.old.entries r seat.old seat.new) ×
            (self.new ≡ with_entry self.old r.1)) }
        ensures refused { IfErr result
            (λ f. (self.new.entries ≡ self.old.entries) × HasMet self.old.entries seat.old seat.new ×
            RefusesStep N.table self.old self.new seat.old f) }
    {
        match self.ready(log, seat) {
            Ok(()) => self.answer_ready(log, slot, seat, &plain),
            Err(fault) => {
                self.meet(seat);
                Err(fault)
            }
        }
    }

    /// Asks for a call at the position found, once: a move, or none, which claims. Answers it, enters it as the last of the
    /// history, and gives the seat its receipt. The conditions are that the seat has the space, and that the choice may be
    /// asked at every position; the box is used for the entry.
    ///
    /// Refused as `call`; only if the cell refuses the entry was the choice asked.
    pub fn turn<F: FnMut(&Graph, &Divisor) -> Option<Move>>(
        &mut self,
        log: &Log<N>,
        slot: Box<Entry>,
        seat: &mut Seat<N>,
        choose: &mut F,
    ) -> Result<Receipt<N>, Fault>
        requires space { seat.old.space ≡ true }
        requires asked { MayBeAsked F.FnMut choose.old }
        ensures entered { IfOk result (λ r.
            IsTurnAfter F.FnMut N.table (asking choose.old choose.new)
            (entering self.old.entries r seat.old seat.new) ×
            (self.new ≡ with_entry self.old r.1)) }
        ensures refused { IfErr result
            (λ f. (self.new.entries ≡ self.old.entries) × HasMet self.old.entries seat.old seat.new ×
            RefusesStep N.table self.old self.new seat.old f) }
        ensures asked { OnErr result
            (IsAskedToEnter F.FnMut N.table self.old.entries seat.old (asking choose.old choose.new)) }
    {
        match self.ready(log, seat) {
            Ok(()) => {
                let chosen = Plain::from_choice(choose(self.game.graph(), self.game.position()));
                self.answer_ready(log, slot, seat, &chosen)
            }
            Err(fault) => {
                self.meet(seat);
                Err(fault)
            }
        }
    }

    /// Answers a call of a seat that is ready, and enters it as the last of the history.
    fn answer_ready(
        &mut self,
        log: &Log<N>,
        slot: Box<Entry>,
        seat: &mut Seat<N>,
        plain: &Plain,
    ) -> Result<Receipt<N>, Fault>
        requires space { seat.old.space ≡ true }
        requires ready { IsReady N.table.capacity self.old.entries seat.old }
        ensures entered { IfOk result
            (λ r. IsAnsweredAfter N.table (call_request plain.now) (entering self.old.entries r seat.old seat.new) ×
            (self.new ≡ with_entry self.old r.1)) }
        ensures refused { IfErr result
            (λ f. (self.new.entries ≡ self.old.entries) × HasMet self.old.entries seat.old seat.new ×
            RefusesStep N.table self.old self.new seat.old f) }
    {
        let mut slot = slot;
        self.game.reply_to_call(seat.number(), plain, &mut *slot);
        self.enter(log, slot, seat)
    }

    /// Enters a finding on a look as the last of the history, gives the seat its receipt, and tells the seat of the
    /// look. The conditions are that the seat has the space, that the data is that of the look, whatever its drift, and
    /// that the finding is right for the look's amounts on the look's graph; the box is used for the entry.
    ///
    /// Refused as `call`; with `Log`, before the cell is tried, if the history has no entry of the look's number.
    pub fn settle(
        &mut self,
        log: &Log<N>,
        slot: Box<Entry>,
        seat: &mut Seat<N>,
        look: &Receipt<N>,
        shown: &LookData,
        finding: &Finding,
    ) -> Result<Receipt<N>, Fault>
        requires space { seat.old.space ≡ true }
        requires look { IsLookOf look.now shown.now }
        requires found { IsRightFinding N.table.start.q shown.now finding.now }
        ensures settled { IfOk result (λ r.
            IsSettledAfter N.table look.now finding.now (entering self.old.entries r seat.old seat.new) ×
            (self.new ≡ with_entry self.old r.1)) }
        ensures refused { IfErr result
            (λ f. (self.new.entries ≡ self.old.entries) × HasMet self.old.entries seat.old seat.new ×
            RefusesSettling N.table self.old self.new look.now.0 seat.old f) }
    {
        match self.ready_on(log, seat, look) {
            Ok(()) => {}
            Err(fault) => {
                self.meet(seat);
                return Err(fault);
            }
        }
        let mut slot = slot;
        self.game
            .reply_to_finding(seat.number(), shown, finding, &mut *slot);
        let receipt = self.enter(log, slot, seat)?;
        seat.learn_reserved(look);
        Ok(receipt)
    }

    /// Enters a question on a look as stale, as `settle` enters each finding on it, if gifts, levies or joins were accepted
    /// since. The conditions are that the seat has the space, and that the data is that of the look, whatever its drift; the box
    /// is used for the entry. `None`, and no entry, if none was accepted; then the seat has met the history.
    ///
    /// Refused as `settle`, also if the look is not stale.
    pub fn settle_stale(
        &mut self,
        log: &Log<N>,
        slot: Box<Entry>,
        seat: &mut Seat<N>,
        taken: &Receipt<N>,
        shown: &LookData,
        asks: &Question,
    ) -> Result<Option<Receipt<N>>, Fault>
        requires space { seat.old.space ≡ true }
        requires look { IsLookOf taken.now shown.now }
        ensures settled { IfOk result (λ found. MatchOption found
            ((self.new ≡ self.old) × IsNotStaleAfter N.table taken.now self.old.entries seat.old seat.new)
            (λ r. IsStaleAfter N.table taken.now asks.now (entering self.old.entries r seat.old seat.new) ×
            (self.new ≡ with_entry self.old r.1))) }
        ensures refused { IfErr result
            (λ f. (self.new.entries ≡ self.old.entries) × HasMet self.old.entries seat.old seat.new ×
            RefusesSettling N.table self.old self.new taken.now.0 seat.old f) }
    {
        match self.ready_on(log, seat, taken) {
            Ok(()) => {}
            Err(fault) => {
                self.meet(seat);
                return Err(fault);
            }
        }
        if self.game.gifts() == shown.gifts {
            self.meet(seat);
            return Ok(None);
        }
        let mut slot = slot;
        self.game
            .reply_stale(seat.number(), shown, asks, &mut *slot);
        let receipt = self.enter(log, slot, seat)?;
        seat.learn_reserved(taken);
        Ok(Some(receipt))
    }

    /// Whether the history has room for an entry of the seat, which knows nothing that the history does not hold, and
    /// has the entry of the receipt; or why not.
    fn ready_on(&self, log: &Log<N>, seat: &Seat<N>, look: &Receipt<N>) -> Result<(), Fault>
        ensures { MatchResult result
            (λ _. IsReady N.table.capacity self.now.entries seat.now ×
            (slice_get self.now.entries look.now.0 ≡ Some look.now.1))
            (RefusesSettling N.table self.now self.now look.now.0 seat.now) }
    {
        self.ready(log, seat)?;
        let number = look.number();
        if number >= self.pen.len() {
            return Err(Fault::Log);
        }
        let known = self.pen.receipt(number);
        look.compare(&known);
        Ok(())
    }

    /// Enters what is in the box as the last entry of the history, which the game follows, and gives the seat its receipt.
    fn enter(
        &mut self,
        log: &Log<N>,
        slot: Box<Entry>,
        seat: &mut Seat<N>,
    ) -> Result<Receipt<N>, Fault>
        requires space { seat.old.space ≡ true }
        requires ready { IsReady N.table.capacity self.old.entries seat.old }
        requires seat { slot.value.seat ≡ seat.old.number }
        requires replies { Replies N.table.start self.old.entries slot.value.request slot.value.reply }
        requires legal { IsLegal N.table.start (self.old.entries ++ slot.value ∷ []) }
        ensures entered { IfOk result (λ r.
            IsAnsweredAfter N.table slot.value.request (entering self.old.entries r seat.old seat.new) ×
            (self.new ≡ with_entry self.old r.1)) }
        ensures reply { IfOk result (λ r. r.1.reply ≡ slot.value.reply) }
        ensures hears { IfOk result (λ _. seat.new.hears ≡ true) }
        ensures refused { IfErr result
            (λ f. (self.new ≡ after_refusal self.old) ×
            HasMet self.old.entries seat.old seat.new ×
            RefusesStep N.table self.old self.new seat.old f) }
    {
        let Ok(receipt) = self.pen.put(log, slot) else {
            self.meet(seat);
            return Err(Fault::Log);
        };
        let place = usize::from(seat.place());
        let entry = log.entry(&receipt);
        seat.take_receipt(
            &self.game,
            &self.pen.prefix(),
            entry,
            &receipt,
            &mut self.roll,
        );
        self.game.follow(entry);
        self.counts[place] += 1;
        Ok(receipt)
    }

    /// `None` if these are all the table's seats, and each is admitted; otherwise the least seat that is missing, or
    /// 0 if none is missing.
    pub fn missing(&self, seats: &[Seat<N>]) -> Option<u8>
        ensures missing { MatchOption result
            (AreAllSeats N.table.seats seats.now × HoldsAllSeats self.now.entries seats.now)
            (RefusesClose self.now.entries N.table.seats seats.now) }
        ensures history { IsHistoryOf N.table self.now.entries }
    {
        let _entries = self.pen.len();
        if let Some(number) = first_missing(seats, self.seats) {
            return Some(number);
        }
        if self.admits_all(seats) {
            None
        } else {
            Some(0)
        }
    }

    /// Whether each of these seats is admitted.
    fn admits_all(&self, seats: &[Seat<N>]) -> bool
        ensures { MatchBool result
            (HoldsAllSeats self.now.entries seats.now)
            (HasInadmissibleSeat self.now.entries seats.now) }
    {
        for seat in seats {
            if !self.admits(seat) {
                return false;
            }
        }
        true
    }

    /// What was counted, with the log and the pen of the history.
    pub(crate) fn audit(self, log: Log<N>) -> Audit<N>
        ensures history { result.pen.entries ≡ self.entries }
        ensures totals { (xs : List SeatView) → HoldsAllSeats self.entries xs →
            AreAuditTotals N.table xs result }
    {
        let Held {
            game,
            pen,
            counts,
            seats: _,
            roll: _,
        } = self;
        Audit {
            entries: game.entries(),
            gifts: game.gifts(),
            graph: *game.graph(),
            position: *game.position(),
            calls: counts,
            log,
            pen,
        }
    }
}

/// The least of the seats 1 to `count` that is not among these.
fn first_missing<N: Name>(seats: &[Seat<N>], count: u8) -> Option<u8>
    ensures { MatchOption result (AreAllSeats count seats.now) (IsMissingSeat count seats.now) }
{
    for i in 0..count {
        if !has_seat(seats, i + 1) {
            return Some(i + 1);
        }
    }
    None
}

/// Whether the seat with this number is among these.
fn has_seat<N: Name>(seats: &[Seat<N>], number: u8) -> bool
    ensures { IsTrue result ↔ HasSeat seats.now number }
{
    for seat in seats {
        if seat.number() == number {
            return true;
        }
    }
    false
}
