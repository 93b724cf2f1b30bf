//! Turns in a row.
ghost use Rattle.std.specs.Prelude.{◌≡◌, length, IfOk, IfErr, true, IsTrue, ◌↔◌};
ghost use Rattle.dg_table.specs.Faults.{RefusesCall, KeepsAfterRefusal};
ghost use Rattle.dg_rules.specs.declared.entry.Request.TheVariants.{Claim as ClaimRequest};
ghost use Rattle.dg_strategy.specs.Choices.{Chooses, MayCallAnywhere, GivesPlayable, ChoosesBorrowings, GivesClaims};
ghost use Rattle.dg_strategy.specs.Plays.{IsTurnBy, IsStrategyTurn, IsSettlerTurn, Plays};

use crate::settler::Settler;
use crate::strategy::Strategy;
use dg_chips::{Divisor, Move};
use dg_graph::Graph;
use dg_log::{Name, Receipt};
use dg_rules::{Entry, Request};
use dg_table::{Fault, Seat, Table};
use std::alloc::Global;
use std::sync::Wait;

/// How a play ended.
#[derive(Drop)]
pub enum Ended<N: Name> {
    /// With the claim of this receipt.
    Settled(Receipt<N>),
    /// All its turns were used, each for a move.
    Turns,
}

impl<N: Name> Ended<N> {
    /// Whether it ended with a claim.
    pub fn is_settled(&self) -> bool
        ensures { result ≡ Rattle.dg_strategy.specs.Plays.is_settled self.now }
    {
        match self {
            Ended::Settled(_) => true,
            Ended::Turns => false,
        }
    }
}

/// Plays so many turns as the strategy says, or until it claims. Each turn asks at the position found, and is an entry of the
/// seat; its moves are made, or refused if an amount would leave the range, and never change the gift count. Other seats
/// may add edges meanwhile: the choice is asked at the graph found, too. The conditions are those of `Strategy::new`.
///
/// It waits for the lock. Refused as a turn is; the entries made before stay.
pub fn play<N: Name, F: Fn(&Graph, &Divisor) -> Option<Move>>(
    rt: &impl Wait,
    alloc: Global,
    table: &Table<N>,
    seat: &mut Seat<N>,
    strategy: &Strategy<F>,
    turns: u32,
) -> Result<Ended<N>, Fault>
    requires asked { MayCallAnywhere (F.pre strategy.now.choice) }
    requires moves { GivesPlayable (F.post strategy.now.choice) }
    ensures { Plays (IsStrategyTurn (Chooses (F.post strategy.now.choice)) N.table)
        N.table turns seat.old seat.new result }
{
    let _graph = table.start().graph();
    play_turns(rt, alloc, table, seat, &strategy.choice, turns)
}

/// Plays so many turns as the settler says, or until it claims: each move is a borrowing by a vertex in debt, and the claim is
/// won. The conditions are those of `Settler::new`.
///
/// It waits for the lock. Refused as a turn is; the entries made before stay.
pub fn settle_out<N: Name, F: Fn(&Graph, &Divisor) -> Option<Move>>(
    rt: &impl Wait,
    alloc: Global,
    table: &Table<N>,
    seat: &mut Seat<N>,
    settler: &Settler<F>,
    turns: u32,
) -> Result<Ended<N>, Fault>
    requires asked { MayCallAnywhere (F.pre settler.now.choice) }
    requires moves { ChoosesBorrowings (F.post settler.now.choice) }
    requires claims { GivesClaims (F.post settler.now.choice) }
    ensures { Plays (IsSettlerTurn (Chooses (F.post settler.now.choice)) N.table)
        N.table turns seat.old seat.new result }
{
    let _graph = table.start().graph();
    play_turns(rt, alloc, table, seat, &settler.choice, turns)
}

/// So many turns as the choice says, or until it claims.
fn play_turns<N: Name, F: Fn(&Graph, &Divisor) -> Option<Move>>(
    rt: &impl Wait,
    alloc: Global,
    table: &Table<N>,
    seat: &mut Seat<N>,
    choice: &F,
    turns: u32,
) -> Result<Ended<N>, Fault>
    requires { MayCallAnywhere (F.pre choice.now) }
    ensures { Plays (IsTurnBy (Chooses (F.post choice.now)) N.table) N.table turns seat.old seat.new result }
{
    for _ in 0..turns {
        let receipt = play_turn(rt, alloc, table, seat, choice)?;
        if is_claim(table.log().entry(&receipt)) {
            return Ok(Ended::Settled(receipt));
        }
    }
    Ok(Ended::Turns)
}

/// One turn, as the choice says.
fn play_turn<N: Name, F: Fn(&Graph, &Divisor) -> Option<Move>>(
    rt: &impl Wait,
    alloc: Global,
    table: &Table<N>,
    seat: &mut Seat<N>,
    choice: &F,
) -> Result<Receipt<N>, Fault>
    requires { MayCallAnywhere (F.pre choice.now) }
    ensures turn { IfOk result
        (λ r. IsTurnBy (Chooses (F.post choice.now)) N.table seat.old r seat.new) }
    ensures fault { IfErr result
        (λ f. KeepsAfterRefusal f seat.old seat.new × RefusesCall N.table seat.new f) }
{
    let mut choose = |graph: &Graph, position: &Divisor| -> Option<Move>
        requires { F.pre choice.now graph position }
        ensures { F.post choice.entry.now graph.entry position.entry result }
    { choice(graph, position) };
    table.turn(rt, alloc, seat, &mut choose)
}

fn is_claim(entry: &Entry) -> bool
    ensures { IsTrue result ↔ (entry.now.request ≡ ClaimRequest) }
{
    matches!(entry.request, Request::Claim)
}
