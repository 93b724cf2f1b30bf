//! The table that seats call.
ghost use Rattle.std.specs.Prelude.{◌≡◌, ◌≢◌, ◌<◌, List, length, true, IfOk, IfErr, MatchOption, MatchResult};
ghost use Rattle.dg_rules.specs.Look.{IsRightFinding};
ghost use Rattle.dg_rules.specs.Requests.{call_request};
ghost use Rattle.dg_rules.specs.declared.entry.Entry.{Entry as EntryData};
ghost use Rattle.dg_log.specs.Tables.{table_data_of};
ghost use Rattle.dg_table.specs.Answered.{IsAnswered};
ghost use Rattle.dg_table.specs.Closing.{IsClosed, IsAttested, AreAuditTotals, IsCloseRefused};
ghost use Rattle.dg_table.specs.Faults.{RefusesCall, KeepsAfterRefusal};
ghost use Rattle.dg_table.specs.Looks.{IsLookOf};
ghost use Rattle.dg_table.specs.Opened.{AreFresh, RefusesOpening};
ghost use Rattle.dg_table.specs.Seats.{Keeps};
ghost use Rattle.dg_table.specs.Settled.{IsSettled, IsStale, IsNotStale};
ghost use Rattle.dg_table.specs.Turns.{MayBeAsked, asking, IsTurn, RefusesTurn};
ghost use Rattle.dg_table.specs.declared.fault.Fault.TheVariants.{Log as LogFault};

use crate::audit::Audit;
use crate::fault::{Fault, TableFault};
use crate::held::Held;
use crate::seat::Seat;
use dg_chips::{Divisor, Move, Start};
use dg_graph::Graph;
use dg_log::{Log, Name, Receipt, Row};
use dg_reduce::InverseLaplacian;
use dg_rules::{Entry, Finding, LookData, MAX_SEATS, Plain, Question};
use std::alloc::Global;
use std::fmt;
use std::sync::{Mutex, Wait};
use thiserror::Error;

/// The table N: one game, that seats call from any thread, and the history of their calls.
#[derive(Drop)]
pub struct Table<N: Name> {
    held: Mutex<Held<N>>,
    log: Log<N>,
    start: Start,
    inverse: InverseLaplacian,
    ghost started: { start ≡ N.table.start },
}

/// Why a table is not closed. It goes on, and all comes back.
#[derive(Drop, Error)]
#[error("the table is not closed (missing seat: {missing}, 0 for none)")]
pub struct CloseFault<N: Name> {
    /// The least seat that was not handed in, or 0 if all were. Then a history does not admit one of them. It is the one under
    /// the lock, but no clause says so, and so none says why.
    pub missing: u8,
    /// The table.
    pub table: Table<N>,
    /// The seats that were handed in, each of which has met that history.
    pub seats: Vec<Seat<N>>,
}

impl<N: Name> fmt::Debug for CloseFault<N> {
    fn fmt<W: fmt::Write>(&self, f: &mut fmt::Formatter<W>) -> fmt::Result {
        write!(f, "CloseFault {{ missing: {} }}", self.missing)
    }
}

impl<N: Name> Table<N> {
    /// A table with this many seats, 1 to 64, whose history may have as many entries as the row has cells. The seats come
    /// in order, and know of no entry. The condition is that N names the row and this table.
    ///
    /// Refused with `Seats` if there may not be so many, and with `OutOfMemory`; the row comes back.
    pub fn open(
        alloc: Global,
        row: Row,
        start: &Start,
        seats: u8,
    ) -> Result<(Table<N>, Vec<Seat<N>>), (Row, TableFault)>
        requires row { row ≡ N.names }
        requires table { N.table ≡ table_data_of start.now seats (length row.cells) }
        ensures { MatchResult result
            (λ r. AreFresh seats r.1.items)
            (λ e. (e.0 ≡ row) × RefusesOpening seats e.1) }
    {
        if seats < 1 || seats > MAX_SEATS {
            return Err((row, TableFault::Seats));
        }
        let Ok(space) = Vec::with_capacity(alloc, usize::from(seats)) else {
            return Err((row, TableFault::OutOfMemory));
        };
        let (log, pen, roll) = Log::with_roll(row);
        let (all, roll) = Seat::numbered(alloc, space, seats, roll);
        let held = Mutex::new(Held::new(pen, start, seats, roll));
        let table = Table {
            held,
            log,
            start: *start,
            inverse: InverseLaplacian::new(start.graph(), start.q()),
        };
        Ok((table, all))
    }

    /// Makes space for a call of the seat, and a box for its entry. Refused with `OutOfMemory`, then with `Full` if the seat
    /// has met a history of as many entries as there may be.
    fn room(&self, alloc: Global, seat: &mut Seat<N>) -> Result<Box<Entry>, Fault>
        ensures kept { Keeps seat.old seat.new }
        ensures met { seat.new.met ≡ seat.old.met }
        ensures space { IfOk result (λ _. seat.new.space ≡ true) }
        ensures room { IfOk result (λ _. length seat.new.met < N.table.capacity) }
        ensures refused { IfErr result (λ f. (f ≢ LogFault) ×
            RefusesCall N.table seat.new f) }
    {
        let Ok(slot) = seat.room(alloc) else {
            return Err(Fault::OutOfMemory);
        };
        if seat.has_met_full(&self.log) {
            return Err(Fault::Full);
        }
        Ok(slot)
    }

    /// Every call that a seat makes is answered as the one-player dollar game answers it at the call's place in one
    /// legal history, which holds each of the seat's calls once, in order, and every entry it was told of.
    ///
    /// It waits for the lock. Refused with `OutOfMemory`, before it waits; with `Full` if the history has as many
    /// entries as it may have, which the seat has met then; and with `Log`, if it has room, if the seat keeps more than the
    /// history holds, or less of its own, or the cell refuses the entry. A refused call is no entry, and the seat knows what it
    /// knew, and what history it met; after `OutOfMemory` it has met nothing new.
    pub fn call(
        &self,
        rt: &impl Wait,
        alloc: Global,
        seat: &mut Seat<N>,
        plain: Plain,
    ) -> Result<Receipt<N>, Fault>
        ensures answered { IfOk result
            (λ r. IsAnswered N.table (call_request plain) r seat.old seat.new) }
        ensures fault { IfErr result (λ f. KeepsAfterRefusal f seat.old seat.new ×
            RefusesCall N.table seat.new f) }
    {
        let slot = self.room(alloc, seat)?;
        self.held.lock(rt).call(&self.log, slot, seat, plain)
    }

    /// A call of the seat that is chosen at the position which it finds: `choose` is asked once, under the lock, for a move, or
    /// for none, which claims. It is answered as `call` answers it. The condition is that `choose` may be asked at every
    /// position.
    ///
    /// It waits for the lock. Refused as `call`; only if the cell refuses the entry was `choose` asked.
    pub fn turn<F: FnMut(&Graph, &Divisor) -> Option<Move>>(
        &self,
        rt: &impl Wait,
        alloc: Global,
        seat: &mut Seat<N>,
        choose: &mut F,
    ) -> Result<Receipt<N>, Fault>
        requires { MayBeAsked F.FnMut choose.old }
        ensures turned { IfOk result
            (λ r. IsTurn F.FnMut N.table (asking choose.old choose.new) r seat.old seat.new) }
        ensures fault { IfErr result (λ f. KeepsAfterRefusal f seat.old seat.new ×
            RefusesTurn F.FnMut N.table seat.new (asking choose.old choose.new) f) }
    {
        let slot = self.room(alloc, seat)?;
        self.held.lock(rt).turn(&self.log, slot, seat, choose)
    }

    /// Enters what was computed on the look of a receipt: as stale if gifts, levies or joins were accepted since; otherwise
    /// a verdict that is right for the position at its place in the one history, with the reduced divisor and the burning
    /// order that were found, or the answer of the rank test as it was found. The seat is told of the look. The conditions are
    /// that the data is that of the look, whatever its drift, and that the finding is right for the look's amounts on the
    /// look's graph.
    ///
    /// It waits for the lock. Refused as `call`, and with `Log` if the history has no entry of the look's number.
    pub fn settle(
        &self,
        rt: &impl Wait,
        alloc: Global,
        seat: &mut Seat<N>,
        look: &Receipt<N>,
        shown: &LookData,
        finding: &Finding,
    ) -> Result<Receipt<N>, Fault>
        requires look { IsLookOf look.now shown.now }
        requires found { IsRightFinding N.table.start.q shown.now finding.now }
        ensures settled { IfOk result
            (λ r. IsSettled N.table look.now finding.now r seat.old seat.new) }
        ensures fault { IfErr result (λ f. KeepsAfterRefusal f seat.old seat.new ×
            RefusesCall N.table seat.new f) }
    {
        let slot = self.room(alloc, seat)?;
        self.held
            .lock(rt)
            .settle(&self.log, slot, seat, look, shown, finding)
    }

    /// Enters a question on the look of a receipt as stale, as `settle` enters each finding on it, if gifts, levies or joins were
    /// accepted since; so nothing need be computed on a look that is stale. The seat is told of the look. The condition is that
    /// the data is that of the look, whatever its drift. `None` if none was accepted in the history that it finds, which the seat
    /// has met then; that is no event: no cell is set, and the seat knows what it knew.
    ///
    /// It waits for the lock. Refused as `settle`, also if the look is not stale.
    pub fn settle_stale(
        &self,
        rt: &impl Wait,
        alloc: Global,
        seat: &mut Seat<N>,
        look: &Receipt<N>,
        shown: &LookData,
        asks: &Question,
    ) -> Result<Option<Receipt<N>>, Fault>
        requires { IsLookOf look.now shown.now }
        ensures settled { IfOk result (λ found. MatchOption found
            (IsNotStale N.table look.now seat.old seat.new)
            (λ r. IsStale N.table look.now asks.now r seat.old seat.new)) }
        ensures fault { IfErr result (λ f. KeepsAfterRefusal f seat.old seat.new ×
            RefusesCall N.table seat.new f) }
    {
        let slot = self.room(alloc, seat)?;
        self.held
            .lock(rt)
            .settle_stale(&self.log, slot, seat, look, shown, asks)
    }

    /// The start of the game.
    pub fn start(&self) -> &Start
        ensures { result.now ≡ N.table.start }
    {
        &self.start
    }

    /// What serves the verdicts on looks at this table whose graph is that of the start. Nothing is promised of it.
    pub fn inverse(&self) -> &InverseLaplacian {
        &self.inverse
    }

    /// The cells of the history, which anyone may read at any time.
    pub fn log(&self) -> &Log<N> {
        &self.log
    }

    /// Shows that the one history has just the calls of these seats, as far as they are the seats of its entries, each at its
    /// number; at any time, and with no refusal. So if they are all the table's, no entry was made but those that they know. It
    /// waits for the lock.
    pub fn attest(&self, rt: &impl Wait, seats: &mut [Seat<N>])
        ensures same { seats.new ≡ seats.old }
        ensures attested { (H : List EntryData) × IsAttested N.table seats.old H }
    {
        self.held.lock(rt).attest_all(seats)
    }

    /// Ends the game, if all its seats are handed in: each seat's calls are just its entries of the one history. It takes
    /// no memory.
    ///
    /// Refused if a seat is missing, or one is not admitted: it knows what the history does not hold, or the history has
    /// calls of it that it did not make. Then each seat has met the history. That it is the one under the lock no clause says
    /// here (`Held::missing` does), so none says why a table with all its seats is refused.
    pub fn close(self, seats: Vec<Seat<N>>) -> Result<Audit<N>, CloseFault<N>>
        ensures { MatchResult result
            (λ a. IsClosed N.table seats.items a.pen.entries × AreAuditTotals N.table seats.items a)
            (λ f. IsCloseRefused N.table seats.items f.seats.items f.missing) }
    {
        let Table {
            held,
            log,
            start,
            inverse,
        } = self;
        let held = held.into_inner();
        match held.missing(&seats) {
            Some(missing) => {
                let mut seats = seats;
                held.meet_all(&mut seats);
                let held = Mutex::new(held);
                Err(CloseFault {
                    missing,
                    table: Table {
                        held,
                        log,
                        start,
                        inverse,
                    },
                    seats,
                })
            }
            None => Ok(held.audit(log)),
        }
    }
}
