//! Games of one caller, and schedules.

use crate::tables::{pair, triangle};
use dg_chips::{Divisor, Drift, Move, Script, Start};
use dg_game::{
    Command, Entry, Finding, Game, LookData, Plain, Refusal, RehearseFault, Reply, Request, Step,
    rehearse,
};
use dg_rank::{RankFault, RankVerdict, rank_at_least};
use dg_verdict::{Verdict, judge};
use std::process::Abort;
use std::test::Fail;

#[test]
fn calls_are_answered_in_turn(rt: HostRuntime) -> Result<(), Fail> {
    let start = triangle(&[2, -1, -1])?;
    let even = Divisor::sized(&[0, 0, 0]);
    let owing = Divisor::sized(&[0, -1, 0]);
    let calls = [
        (
            Plain::Look,
            Reply::Looked(0, *start.divisor(), *start.graph()),
        ),
        (Plain::Move(Move::Lend(0)), Reply::Moved(even)),
        (Plain::Claim, Reply::Won),
        (
            Plain::Gift(1, 1),
            Reply::Given(1, Divisor::sized(&[0, 1, 0])),
        ),
        (Plain::Gift(1, -2), Reply::Given(2, owing)),
        (Plain::Claim, Reply::NotWon),
        (Plain::Join(0, 1), Reply::Joined(3, owing)),
        (
            Plain::Move(Move::Borrow(1)),
            Reply::Moved(Divisor::sized(&[-2, 2, -1])),
        ),
    ];
    let mut game = Game::new(&start);
    for (number, (plain, reply)) in calls.iter().enumerate() {
        answers(&rt, &mut game, number as u32, *plain, *reply);
    }
    assert!(rt; *game.position() == Divisor::sized(&[-2, 2, -1]) && game.gifts() == 3);
    assert!(rt; *game.graph() == start.graph().join(0, 1)?);
    Ok(())
}

// Calls on the triangle, and why they are refused.
const REFUSED: [(Plain, Refusal); 9] = [
    (Plain::Move(Move::Borrow(3)), Refusal::NoVertex),
    (Plain::Gift(3, 0), Refusal::NoVertex),
    (Plain::Join(0, 16), Refusal::NoVertex),
    (Plain::Join(3, 3), Refusal::NoVertex),
    (Plain::Move(Move::Fire(0)), Refusal::Empty),
    (Plain::Gift(0, 0), Refusal::Gift),
    (Plain::Gift(0, -1_000_001), Refusal::Gift),
    (Plain::Gift(1, -1_000_000), Refusal::Range),
    (Plain::Join(2, 2), Refusal::Loop),
];

#[test]
fn refusals_are_entries(rt: HostRuntime) -> Result<(), Fail> {
    let start = triangle(&[2, -1, -1])?;
    let mut game = Game::new(&start);
    for (number, (plain, refusal)) in REFUSED.iter().enumerate() {
        answers(
            &rt,
            &mut game,
            number as u32,
            *plain,
            Reply::Refused(*refusal),
        );
    }
    let short = Plain::Move(Move::Script(Script::sized(&[1, 0])));
    answers(&rt, &mut game, 9, short, Reply::Refused(Refusal::Script));
    assert!(rt; game.gifts() == 0 && *game.position() == *start.divisor());
    let mut full = Game::new(&pair(63, &[0, 0])?);
    answers(
        &rt,
        &mut full,
        0,
        Plain::Join(0, 1),
        Reply::Refused(Refusal::Valence),
    );
    Ok(())
}

// That the next call of the game, which has this number, is answered so.
fn answers(rt: &impl Abort, game: &mut Game, number: u32, plain: Plain, reply: Reply) {
    assert!(rt; game.entries() == number && number < 65_536);
    assert!(rt; game.act(plain) == reply, "call {number}");
}

// The replies to the verdict and to a rank test on a look, which is followed by a call.
fn settled(start: &Start, plain: Plain, drift: &Drift) -> Result<[Reply; 2], RankFault> {
    let mut game = Game::new(start);
    let look = LookData {
        drift: *drift,
        ..game.look_data()
    };
    let verdict = judge(&look.graph, start.q(), &look.position);
    let rank = rank_at_least(&look.graph, start.q(), &look.position, 0)?;
    game.act(Plain::Look);
    game.act(plain);
    Ok([
        game.settle(&look, &Finding::Judged(verdict)),
        game.settle(&look, &Finding::Ranked(rank)),
    ])
}

// With two dollars at a the verdict is that b and c borrow; after a has lent there is nothing to do, also if the drift that is
// told says that b has.
#[test]
fn findings_are_carried_along(rt: HostRuntime) -> Result<(), Fail> {
    let start = triangle(&[2, -1, -1])?;
    let zero = Drift::zero(start.graph());
    let other = Drift::between(&Script::sized(&[0, 1, 0]), &Script::sized(&[0, 0, 0]));
    let script = Script::sized(&[0, 0, 0]);
    let verdict = judge(start.graph(), start.q(), start.divisor());
    let carried = [
        Reply::Verdict(Verdict { script, ..verdict }),
        Reply::Rank(RankVerdict::AtLeast(0)),
    ];
    let lend = Plain::Move(Move::Lend(0));
    assert!(rt; settled(&start, lend, &zero)? == carried);
    assert!(rt; settled(&start, lend, &other)? == carried);
    assert!(rt; settled(&start, Plain::Gift(1, 1), &zero)? == [Reply::Stale(1); 2]);
    assert!(rt; settled(&start, Plain::Join(0, 1), &zero)? == [Reply::Stale(1); 2]);
    Ok(())
}

// The seats and the commands of steps, and the requests of their entries: a commit and a rank test tell the look that they
// are on, which is the last of their seat.
const STEPS: [(u8, Command, Request); 8] = [
    (2, Command::Call(Plain::Claim), Request::Claim),
    (1, Command::Call(Plain::Look), Request::Look),
    (
        64,
        Command::Call(Plain::Move(Move::Lend(0))),
        Request::Move(Move::Lend(0)),
    ),
    (2, Command::Call(Plain::Look), Request::Look),
    (1, Command::Commit, Request::Judge(1)),
    (1, Command::Call(Plain::Gift(1, -1)), Request::Gift(1, -1)),
    (1, Command::Call(Plain::Join(0, 1)), Request::Join(0, 1)),
    (2, Command::Rank(3), Request::Rank(3, 3)),
];

#[test]
fn entries_are_those_of_the_steps(rt: HostRuntime) -> Result<(), Fail> {
    let start = triangle(&[2, -1, -1])?;
    let mut steps = Vec::new(rt.alloc());
    for (seat, command, _) in &STEPS {
        steps.push(Step {
            seat: *seat,
            command: *command,
        })?;
    }
    let history: Vec<Entry> = rehearse(rt.alloc(), &start, &steps)?;
    assert!(rt; history.len() == 8);
    for (entry, (seat, _, request)) in history.iter().zip(&STEPS) {
        assert!(rt; entry.seat == *seat && entry.request == *request);
    }
    assert!(rt; history[7].reply == Reply::Stale(2));
    Ok(())
}

// Steps after a look of the first seat, and why they are not taken.
const NO_STEPS: [(u8, Command, RehearseFault); 4] = [
    (0, Command::Commit, RehearseFault::Seat(1)),
    (65, Command::Rank(631), RehearseFault::Seat(1)),
    (2, Command::Rank(631), RehearseFault::NoLook(1)),
    (1, Command::Rank(631), RehearseFault::TooMany(1)),
];

#[test]
fn what_is_not_rehearsed(rt: HostRuntime) -> Result<(), Fail> {
    let start = triangle(&[2, -1, -1])?;
    for (seat, command, fault) in &NO_STEPS {
        let rehearsed = rehearse(rt.alloc(), &start, &after_a_look(*seat, *command));
        assert!(rt; rehearsed.err() == Some(*fault), "{fault}");
    }
    Ok(())
}

fn after_a_look(seat: u8, command: Command) -> [Step; 2] {
    let look = Command::Call(Plain::Look);
    [
        Step {
            seat: 1,
            command: look,
        },
        Step { seat, command },
    ]
}

// A history has room for 65,536 entries. If it is full, the seat of the next step is judged first.
#[test]
fn histories_have_a_length(rt: HostRuntime) -> Result<(), Fail> {
    let start = triangle(&[2, -1, -1])?;
    let claim = Step {
        seat: 1,
        command: Command::Call(Plain::Claim),
    };
    let mut steps = vec![in rt.alloc(); claim; 65_537]?;
    let rehearsed = rehearse(rt.alloc(), &start, &steps);
    assert!(rt; rehearsed.err() == Some(RehearseFault::Full(65_536)));
    steps[65_536].seat = 65;
    let rehearsed = rehearse(rt.alloc(), &start, &steps);
    assert!(rt; rehearsed.err() == Some(RehearseFault::Seat(65_536)));
    Ok(())
}
