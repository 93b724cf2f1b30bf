//! Two seats of a table, and what each does in turn.

use crate::outcomes::{Outcome, done_if, refused, tell, tell_spared};
use dg_analyst::{Look, Reckoned, Tried, commit, commit_rank, look, reckon, try_rank};
use dg_chips::{Divisor, Move};
use dg_graph::Graph;
use dg_log::{Name, Receipt};
use dg_rank::{OpenGate, RankFault};
use dg_rules::Plain;
use dg_table::{Fault, Seat, Table};
use std::alloc::Global;
use std::process::Abort;
use std::sync::Wait;
use std::test::Fail;
use std::thread::Threads;

// What a seat does.
#[derive(Clone, Copy)]
enum Act {
    // Makes room for a call.
    Room,
    // Is told of the first entry.
    Learn,
    Call(Plain),
    // Has a turn, and claims.
    Turn,
    Look,
    // Reckons on the look in hand.
    Reckon,
    Commit,
    // Tries a rank on the look in hand.
    Try,
    CommitRank,
}

// What an analyst has in hand.
#[derive(Drop)]
enum Hand<N: Name> {
    Nothing,
    Look(Look<N>),
    Reckoned(Reckoned<N>),
    Tried(Tried<N>),
}

// The place of a seat, what it does, and the name of the call.
const ACTS: [(usize, Act, &str); 11] = [
    (0, Act::Room, "Seat::room"),
    (0, Act::Look, "look"),
    (1, Act::Learn, "Seat::learn"),
    (1, Act::Call(Plain::Move(Move::Lend(0))), "Table::call"),
    (0, Act::Reckon, "reckon"),
    (0, Act::Commit, "commit"),
    (0, Act::Look, "look"),
    (0, Act::Try, "try_rank"),
    (0, Act::CommitRank, "commit_rank"),
    (1, Act::Turn, "Table::turn"),
    (1, Act::Call(Plain::Gift(1, 1)), "Table::call"),
];

// The seats do what they do. What was refused has left the seat with the calls that it had, and is done once more.
pub(crate) fn act_in_turn<N: Name, R: Threads + Wait + Abort + Print>(
    rt: &R,
    alloc: Global,
    table: &Table<N>,
    seats: &mut [Seat<N>],
) -> Result<(), Fail> {
    let mut hand = Hand::Nothing;
    for (place, act, name) in &ACTS {
        let seat = seats.get_mut(*place).ok_or("a seat")?;
        let calls = seat.calls();
        let (left, outcome) = acted(rt, alloc, table, seat, hand, *act);
        hand = left;
        if let Act::Reckon = act {
            tell_spared(rt, name)?;
        } else {
            tell(rt, name, outcome)?;
        }
        if outcome != Outcome::Done {
            assert_eq!(rt; seat.calls(), calls);
            let (left, outcome) = acted(rt, alloc, table, seat, hand, *act);
            hand = left;
            assert!(rt; outcome == Outcome::Done, "{name}");
        }
    }
    Ok(())
}

// What a seat leaves in hand, and what came of it.
fn acted<N: Name, R: Threads + Wait>(
    rt: &R,
    alloc: Global,
    table: &Table<N>,
    seat: &mut Seat<N>,
    hand: Hand<N>,
    act: Act,
) -> (Hand<N>, Outcome) {
    match (act, hand) {
        (Act::Room, hand) => (hand, of_memory(seat.room(alloc).is_ok())),
        (Act::Learn, hand) => (hand, learns(table, seat)),
        (Act::Call(plain), hand) => (hand, of_call(table.call(rt, alloc, seat, plain))),
        (Act::Turn, hand) => {
            let mut claim = |_: &Graph, _: &Divisor| None;
            (hand, of_call(table.turn(rt, alloc, seat, &mut claim)))
        }
        (Act::Look, _) => match look(table, rt, alloc, seat) {
            Ok(look) => (Hand::Look(look), Outcome::Done),
            Err(fault) => (Hand::Nothing, refused(fault)),
        },
        (Act::Reckon, Hand::Look(look)) => (Hand::Reckoned(reckon(look)), Outcome::Done),
        (Act::Commit, Hand::Reckoned(reckoned)) => {
            match commit(table, rt, alloc, seat, reckoned) {
                Ok(_) => (Hand::Nothing, Outcome::Done),
                Err((reckoned, fault)) => (Hand::Reckoned(reckoned), refused(fault)),
            }
        }
        (act, hand) => tried(rt, alloc, table, seat, hand, act),
    }
}

// The same for a rank test.
fn tried<N: Name, R: Threads + Wait>(
    rt: &R,
    alloc: Global,
    table: &Table<N>,
    seat: &mut Seat<N>,
    hand: Hand<N>,
    act: Act,
) -> (Hand<N>, Outcome) {
    match (act, hand) {
        (Act::Try, Hand::Look(look)) => match try_rank(rt, look, 1, 2, &OpenGate) {
            Ok(tried) => (Hand::Tried(tried), Outcome::Done),
            Err((look, fault)) => (Hand::Look(look), of_rank(fault)),
        },
        (Act::CommitRank, Hand::Tried(tried)) => match commit_rank(table, rt, alloc, seat, tried) {
            Ok(_) => (Hand::Nothing, Outcome::Done),
            Err((tried, fault)) => (Hand::Tried(tried), refused(fault)),
        },
        (_, hand) => (hand, Outcome::Wrong),
    }
}

// What came of a rank test that was refused so.
pub(crate) fn of_rank(fault: RankFault) -> Outcome {
    match fault {
        RankFault::OutOfMemory => Outcome::Memory,
        RankFault::Spawn => Outcome::Thread,
        RankFault::TooMany | RankFault::Workers => Outcome::Wrong,
    }
}

fn of_memory(has_memory: bool) -> Outcome {
    if has_memory {
        Outcome::Done
    } else {
        Outcome::Memory
    }
}

fn of_call<N: Name>(answer: Result<Receipt<N>, Fault>) -> Outcome {
    match answer {
        Ok(_) => Outcome::Done,
        Err(fault) => refused(fault),
    }
}

// The seat is told of the first entry.
fn learns<N: Name>(table: &Table<N>, seat: &mut Seat<N>) -> Outcome {
    match table.log().read(0) {
        Some((receipt, _)) => of_memory(seat.learn(&receipt).is_ok()),
        None => done_if(false),
    }
}
