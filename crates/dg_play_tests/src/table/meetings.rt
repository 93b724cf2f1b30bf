//! Many seats in threads of their own on one table, and an observer beside them.
ghost use Rattle.std.specs.Prelude.{◌≡◌};

use crate::observer::watching::{Positions, keep_position};
use crate::table_tests::{TableTest, on_a_table};
use crate::tables::{amounts, petersen, triangle};
use dg_analyst::{commit, look, reckon};
use dg_chips::{Divisor, Move, Start};
use dg_graph::Graph;
use dg_log::Name;
use dg_observer::{Observer, ObserverFault};
use dg_rules::{Entry, Game, Plain, Reply, Request};
use dg_strategy::{Settler, Strategy, greedy_choice, play, settle_out};
use dg_table::{Audit, Seat, Table};
use dg_verdict::check;
use std::alloc::Global;
use std::process::Abort;
use std::sync::Wait;
use std::sync::atomic::{AtomicBool, Ordering};
use std::test::Fail;
use std::thread;
use std::thread::{Threads, join};

// An observer reads so often at most while others play.
const MOST_READS: u64 = 1_000_000_000_000;

// What a seat does, so many times.
#[derive(Clone, Copy)]
enum Player {
    // Lends and borrows at a vertex, in turn.
    Lends(u8),
    // Gives a vertex a dollar.
    Gives(u8),
    // Adds an edge between two vertices.
    Joins(u8, u8),
    // Makes calls that are drawn, on a graph of so many vertices.
    Draws(u8),
    // Looks, computes and commits.
    Analyses,
    // Plays a strategy.
    LendsFirst,
    BorrowsFirst,
    // Settles, in so many turns at most.
    Settles,
}

// What a meeting comes to.
#[derive(Clone, Copy)]
enum End {
    // So many gifts, and these amounts.
    At(u32, Divisor),
    // One join, between a and c, and at the end k 0 -k, if a has lent k times more before it than it has borrowed.
    Joined,
    // So many claims, all won, and nobody in debt.
    Settled(u32),
    // Nobody can tell.
    Open,
}

// The players, in the order of their seats and from the first on again: how often each plays, and how many entries it
// has, or 0 if nobody can tell.
#[derive(Drop)]
pub(crate) struct Meeting<'a> {
    seats: u8,
    players: &'a [(Player, u32, u64)],
    end: End,
}

#[test]
fn many_seats_make_one_history(rt: HostRuntime) -> Result<(), Fail> {
    let even = triangle(&[0, 0, 0])?;
    let owing = triangle(&[2, -1, -1])?;
    let analyst = (Player::Analyses, 500, 1_000);
    let lender = (Player::Lends(1), 1_000, 1_000);
    let joiner = (Player::Joins(0, 2), 1, 1);
    let strategist = (Player::LendsFirst, 500, 500);
    let opponent = (Player::BorrowsFirst, 500, 500);
    let bystander = (Player::Analyses, 200, 400);
    let still = End::At(0, *even.divisor());
    let given = End::At(1, *triangle(&[0, 0, 1])?.divisor());
    for (cells, start, seats, players, end) in [
        (
            4_000,
            &even,
            2,
            [
                (Player::Lends(0), 2_000, 2_000),
                (Player::Lends(1), 2_000, 2_000),
            ]
            .as_slice(),
            still,
        ),
        (
            65_536,
            &owing,
            64,
            [(Player::Draws(3), 1_024, 1_024)].as_slice(),
            End::Open,
        ),
        (2_000, &even, 2, [analyst, lender].as_slice(), still),
        (
            2_001,
            &even,
            3,
            [analyst, lender, (Player::Gives(2), 1, 1)].as_slice(),
            given,
        ),
        (
            2_001,
            &even,
            3,
            [analyst, lender, joiner].as_slice(),
            End::At(1, *even.divisor()),
        ),
        (
            1_400,
            &even,
            3,
            [strategist, opponent, bystander].as_slice(),
            still,
        ),
        (
            1_401,
            &even,
            4,
            [strategist, opponent, bystander, joiner].as_slice(),
            End::Joined,
        ),
    ] {
        let meeting = Meeting {
            seats,
            players,
            end,
        };
        let meeting = Box::new(rt.alloc(), meeting).ok().ok_or("memory")?;
        on_a_table(
            &rt,
            rt.alloc(),
            cells,
            start,
            seats,
            TableTest::Meeting(meeting),
        )?;
    }
    Ok(())
}

#[test]
fn many_seats_play_on_ten_vertices(rt: HostRuntime) -> Result<(), Fail> {
    let graph = petersen()?;
    let drawn = Start::new(
        graph,
        Divisor::new(&graph, &[3, -1, 4, -1, 5, -9, 2, -6, 5, -3])?,
        0,
    )?;
    // Six dollars in all, as many as the genus: it can be won.
    let owing = Start::new(
        graph,
        Divisor::new(&graph, &[-5, 3, 0, 0, 3, 2, 1, 1, 1, 0])?,
        0,
    )?;
    for (cells, start, seats, players, end) in [
        (
            4_096,
            &drawn,
            32,
            [(Player::Analyses, 64, 128), (Player::Draws(10), 128, 128)].as_slice(),
            End::Open,
        ),
        (
            65_536,
            &owing,
            8,
            [(Player::Settles, 8_000, 0)].as_slice(),
            End::Settled(8),
        ),
    ] {
        let meeting = Meeting {
            seats,
            players,
            end,
        };
        let meeting = Box::new(rt.alloc(), meeting).ok().ok_or("memory")?;
        on_a_table(
            &rt,
            rt.alloc(),
            cells,
            start,
            seats,
            TableTest::Meeting(meeting),
        )?;
    }
    Ok(())
}

// The seats play, each in a thread of its own, while an observer reads; then the table is closed, and its history played
// again.
pub(crate) fn meet<N: Name + Send + Sync, R: Threads + Wait + Abort + Sync>(
    rt: &R,
    alloc: Global,
    table: Table<N>,
    seats: Vec<Seat<N>>,
    meeting: &Meeting<'_>,
) -> Result<(), Fail> {
    let mut seats = seats;
    let (shared, players, ended) = (&table, meeting.players, &AtomicBool::new(false));
    let (_, watched) = join(
        rt,
        || {
            thread::for_each_mut(
                rt,
                seats.as_mut_slice(),
                64,
                &|i, seat| take_part(rt, alloc, shared, seat, players, i),
            );
            ended.store(true, Ordering::SeqCst);
        },
        || read_to_the_end(alloc, shared, ended),
    );
    let (entries, position) = watched?;
    let start = *table.start();
    let audit = table.close(seats).ok().ok_or("an audit")?;
    assert!(rt; entries == audit.entries && position == audit.position);
    is_told(rt, alloc, &start, &audit, meeting)
}

// The history is that of a game, and leads to the end of the meeting.
fn is_told<N: Name>(
    rt: &impl Abort,
    alloc: Global,
    start: &Start,
    audit: &Audit<N>,
    meeting: &Meeting<'_>,
) -> Result<(), Fail> {
    let history = audit.history(alloc)?;
    is_replayed(rt, start, &history, audit)?;
    is_ended(
        rt,
        claims_of(&history),
        lent_before_a_join(&history),
        audit,
        meeting,
    )
}

// Keeps the position while others play, and reads once more when they have ended. How many entries were read, and the position
// that they lead to.
fn read_to_the_end<N: Name>(
    alloc: Global,
    table: &Table<N>,
    ended: &AtomicBool,
) -> Result<(u32, Divisor), ObserverFault> {
    let start = *table.start().divisor();
    let mut observer = Observer::<N, Positions<N>, _>::new(
        alloc,
        start,
        |position: &Divisor, entry: &Entry| keep_position(position, entry),
    );
    'reads: for _ in 0..MOST_READS {
        if ended.load(Ordering::SeqCst) {
            break 'reads;
        }
        observer.catch_up(table.log())?;
    }
    observer.catch_up(table.log())?;
    Ok((observer.count(), *observer.state()))
}

// What the player at a place does; it stops if a call is refused.
fn take_part<N: Name>(
    rt: &impl Wait,
    alloc: Global,
    table: &Table<N>,
    seat: &mut Seat<N>,
    players: &[(Player, u32, u64)],
    place: usize,
) {
    let Some(&(player, times, _)) = players.iter().cycle().nth(place) else {
        return;
    };
    match player {
        Player::Lends(_) | Player::Gives(_) | Player::Joins(_, _) | Player::Draws(_) => {
            call_often(rt, alloc, table, seat, player, times);
        }
        Player::Analyses => analyse(rt, alloc, table, seat, times),
        Player::LendsFirst => {
            let lender = Strategy::new(|_: &Graph, _: &Divisor| Some(Move::Lend(0)));
            let _ = play(rt, alloc, table, seat, &lender, times);
        }
        Player::BorrowsFirst => {
            let borrower = Strategy::new(|_: &Graph, _: &Divisor| Some(Move::Borrow(0)));
            let _ = play(rt, alloc, table, seat, &borrower, times);
        }
        Player::Settles => {
            let settler = Settler::new(|_: &Graph, position: &Divisor| greedy_choice(position));
            let _ = settle_out(rt, alloc, table, seat, &settler, times);
        }
    }
}

// Looks, computes and commits so many times.
fn analyse<N: Name>(
    rt: &impl Wait,
    alloc: Global,
    table: &Table<N>,
    seat: &mut Seat<N>,
    times: u32,
) {
    for _ in 0..times {
        let Ok(taken) = look(table, rt, alloc, seat) else {
            return;
        };
        if commit(table, rt, alloc, seat, reckon(taken)).is_err() {
            return;
        }
    }
}

// Makes so many calls; those that are drawn are drawn by a xorshift of the seat's number.
fn call_often<N: Name>(
    rt: &impl Wait,
    alloc: Global,
    table: &Table<N>,
    seat: &mut Seat<N>,
    player: Player,
    times: u32,
) {
    let mut drawn = 88_172_645_463_325_252u64 ^ (u64::from(seat.number()) << 7);
    for i in 0..times {
        drawn ^= drawn << 13;
        drawn ^= drawn >> 7;
        drawn ^= drawn << 17;
        let plain = match player {
            Player::Lends(v) if i % 2 == 0 => Plain::Move(Move::Lend(v)),
            Player::Lends(v) => Plain::Move(Move::Borrow(v)),
            Player::Draws(size) => drawn_call(drawn, size),
            Player::Gives(v) => Plain::Gift(v, 1),
            Player::Joins(u, v) => Plain::Join(u, v),
            _ => return,
        };
        if table.call(rt, alloc, seat, plain).is_err() {
            return;
        }
    }
}

// A call on a graph of so many vertices; some name a vertex that is not there. About one in sixteen is a gift, or a levy,
// and as many are joins.
fn drawn_call(drawn: u64, size: u8) -> Plain {
    let v = (drawn / 16 % (u64::from(size) + 1)) as u8;
    match drawn % 16 {
        0 => Plain::Gift(v, (drawn / 512 % 4) as i64 - 1),
        1..=5 => Plain::Move(Move::Lend(v)),
        6..=10 => Plain::Move(Move::Borrow(v)),
        11 | 12 => Plain::Move(Move::Fire((drawn / 512 % 16) as u16)),
        13 => Plain::Look,
        14 => Plain::Join(v, (drawn / 512 % 4) as u8),
        _ => Plain::Claim,
    }
}

// Each reply is that of a game which makes the calls of the history in their order, and each finding is right.
fn is_replayed<N: Name>(
    rt: &impl Abort,
    start: &Start,
    history: &[Entry],
    audit: &Audit<N>,
) -> Result<(), Fail> {
    let mut game = Game::new(start);
    for (i, entry) in history.iter().enumerate() {
        let right = is_next(&mut game, history, entry)?;
        assert!(rt; right, "entry {i}");
    }
    assert!(rt; *game.position() == audit.position && game.gifts() == audit.gifts);
    assert!(rt; *game.graph() == audit.graph);
    Ok(())
}

// Whether the game, which goes on so, answers as the entry does.
fn is_next(game: &mut Game, history: &[Entry], entry: &Entry) -> Result<bool, Fail> {
    if game.entries() == 65_536 {
        return Err(Fail::from("an entry too many"));
    }
    let plain = match entry.request {
        Request::Move(play) => Plain::Move(play),
        Request::Gift(v, dollars) => Plain::Gift(v, dollars),
        Request::Join(u, v) => Plain::Join(u, v),
        Request::Look => Plain::Look,
        Request::Claim => Plain::Claim,
        Request::Judge(look) => return Ok(is_right(game, history, look as usize, &entry.reply)),
        Request::Rank(_, _) => return Ok(false),
    };
    Ok(game.act(plain) == entry.reply)
}

// How many claims there are, and how many are won.
fn claims_of(history: &[Entry]) -> (u32, u32) {
    let mut claims = (0u32, 0u32);
    for entry in history {
        if entry.request == Request::Claim {
            claims.0 = claims.0.wrapping_add(1);
        }
        if entry.reply == Reply::Won {
            claims.1 = claims.1.wrapping_add(1);
        }
    }
    claims
}

// Whether a finding on a look is stale just if a gift or a join was accepted since, and otherwise right if it is entered.
fn is_right(game: &Game, history: &[Entry], look: usize, reply: &Reply) -> bool {
    let Some(entry) = history.get(look) else {
        return false;
    };
    let Reply::Looked(gifts, _, _) = entry.reply else {
        return false;
    };
    match reply {
        Reply::Stale(now) => gifts < game.gifts() && *now == game.gifts(),
        Reply::Verdict(verdict) => {
            gifts == game.gifts() && check(game.graph(), 0, game.position(), verdict)
        }
        _ => false,
    }
}

// How often a has lent before the first join, less how often it has borrowed.
fn lent_before_a_join(history: &[Entry]) -> i64 {
    let mut lent = 0i64;
    for entry in history {
        match (entry.request, &entry.reply) {
            (Request::Move(Move::Lend(0)), Reply::Moved(_)) => lent = lent.wrapping_add(1),
            (Request::Move(Move::Borrow(0)), Reply::Moved(_)) => lent = lent.wrapping_sub(1),
            (Request::Join(_, _), Reply::Joined(_, _)) => return lent,
            _ => (),
        }
    }
    lent
}

// Whether the meeting has come to its end.
fn is_ended<N: Name>(
    rt: &impl Abort,
    claims: (u32, u32),
    lent: i64,
    audit: &Audit<N>,
    meeting: &Meeting<'_>,
) -> Result<(), Fail> {
    have_played(rt, &audit.calls, meeting);
    match meeting.end {
        End::At(gifts, position) => is_at(rt, audit, gifts, &position),
        End::Joined => is_at(rt, audit, 1, &amounts(&[lent, 0, lent.wrapping_neg()])?),
        End::Settled(count) => {
            assert!(rt; claims.0 == count && claims.1 == count);
            assert!(rt; audit.position.is_effective());
        }
        End::Open => (),
    }
    Ok(())
}

// Each player has as many entries as it must have.
fn have_played(rt: &impl Abort, calls: &[u64], meeting: &Meeting<'_>) {
    let players = meeting.players.iter().cycle();
    let counts = calls.iter().take(usize::from(meeting.seats));
    for (calls, player) in counts.zip(players) {
        assert!(rt; player.2 == 0 || *calls == player.2);
    }
}

fn is_at<N: Name>(rt: &impl Abort, audit: &Audit<N>, gifts: u32, position: &Divisor) {
    assert!(rt; audit.gifts == gifts);
    assert!(rt; audit.position == *position);
}
