//! Sessions side by side, each with a seat and a thread of its own.
ghost use Rattle.std.specs.Prelude.{◌≡◌, ◌≤◌, length, IfErr, IfOk, OnOk};
ghost use Rattle.dg_session.specs.Parties.{AreSessions, IsScriptOver, IsSessionsFault, script_bytes};

use crate::ends::SessionEnd;
use crate::serving::serve_unheard;
use dg_log::Name;
use dg_rank::Gate;
use dg_system::{Shortage, in_parallel};
use dg_table::{Seat, Table};
use dg_tokens::Names;
use std::alloc::Global;
use std::sync::Wait;
use std::thread::Threads;

// What all sessions of a table share: there is a name for each vertex.
#[derive(Drop)]
struct PartyContext<'a, N: Name, R, G> {
    rt: &'a R,
    alloc: Global,
    table: &'a Table<N>,
    names: &'a Names,
    gate: &'a G,
    ghost named: { length names.now ≡ N.table.start.graph.size },
}

/// Sessions of the seats of a table, all at once, each over the script at its place: a thread for each seat enters the gate with
/// the seat's number, and then answers the lines of its script. The thread that calls holds the session of the last script. What
/// they came to is told in the order of the scripts. The conditions are as many scripts as seats, and one name per vertex.
///
/// Refused with `OutOfMemory`, before the first session, and with `Spawn` if a thread could not be started, which only two
/// scripts or more ask for: then the first seats, perhaps none and never all, had their sessions, and the others know what they
/// knew.
pub fn sessions<N: Name + Send + Sync, R: Threads + Wait + Sync, G: Gate>(
    rt: &R,
    alloc: Global,
    table: &Table<N>,
    seats: &mut [Seat<N>],
    names: &Names,
    scripts: &[Vec<u8>],
    gate: &G,
) -> Result<Vec<Result<u32, SessionEnd>>, Shortage>
    requires scripts { length scripts.now ≡ length seats.old }
    requires names { length names.now ≡ N.table.start.graph.size }
    ensures ok { IfOk result
        (λ v. AreSessions N.table names.now (script_bytes scripts.now)
        seats.old seats.new v.items) }
    ensures fault { IfErr result
        (IsSessionsFault N.table names.now (script_bytes scripts.now) seats.old
        seats.new) }
{
    let context = PartyContext {
        rt,
        alloc,
        table,
        names,
        gate,
    };
    let Ok(mut ends) = vec![in alloc; Ok(0); scripts.len()] else {
        return Err(Shortage::OutOfMemory);
    };
    match run_scripts(&context, scripts, seats, &mut ends) {
        Ok(()) => Ok(ends),
        Err(shortage) => Err(shortage),
    }
}

// A thread for the first seat, and beside it this call again for the others. The last seat needs none.
fn run_scripts<'a, N: Name + Send + Sync, R: Threads + Wait + Sync, G: Gate>(
    context: &PartyContext<'a, N, R, G>,
    scripts: &[Vec<u8>],
    seats: &mut [Seat<N>],
    ends: &mut [Result<u32, SessionEnd>],
) -> Result<(), Shortage>
    requires scripts { length scripts.now ≡ length seats.old }
    requires ends { length scripts.now ≡ length ends.old }
    ensures ok { OnOk result (AreSessions N.table context.now.names.now (script_bytes scripts.now)
        seats.old seats.new ends.new) }
    ensures fault { IfErr result (λ shortage. (shortage ≡ Shortage.Spawn)
        × IsSessionsFault N.table context.now.names.now (script_bytes scripts.now) seats.old seats.new Shortage.Spawn) }
{
    let Some((seat, rest)) = seats.split_first_mut() else {
        return Ok(());
    };
    let Some((script, left)) = scripts.split_first() else {
        unreachable!()
    };
    let Some((end, later)) = ends.split_first_mut() else {
        unreachable!()
    };
    let script = script.as_slice();
    if rest.is_empty() {
        *end = run_script(context, script, seat);
        return Ok(());
    }
    let mut first = || -> Result<u32, SessionEnd>
        ensures { IsScriptOver N.table context.entry.now.names.now
            script.entry.now seat.entry.now seat.exit.now result }
    { run_script(context, script, seat) };
    let mut others = || -> Result<(), Shortage>
        requires { (length left.now ≡ length rest.now) × (length left.now ≡ length later.now) }
        ensures { OnOk result (AreSessions N.table context.entry.now.names.now
            (script_bytes left.entry.now) rest.entry.now rest.exit.now later.exit.now)
            × IfErr result (λ shortage. (shortage ≡ Shortage.Spawn)
            × IsSessionsFault N.table context.entry.now.names.now (script_bytes left.entry.now)
            rest.entry.now rest.exit.now Shortage.Spawn) }
    { run_scripts(context, left, rest, later) };
    match in_parallel(context.rt, &mut first, &mut others) {
        Ok((ended, told)) => {
            *end = ended;
            told
        }
        Err(shortage) => Err(shortage),
    }
}

// A session of the seat over a script, after the gate. What it would say nobody hears.
fn run_script<'a, N: Name, R: Threads + Wait, G: Gate>(
    context: &PartyContext<'a, N, R, G>,
    script: &[u8],
    seat: &mut Seat<N>,
) -> Result<u32, SessionEnd>
    ensures { IsScriptOver N.table context.now.names.now script.now seat.old
        seat.new result }
{
    context.gate.enter(u32::from(seat.number()));
    grow_heap(context.alloc, script.len());
    serve_unheard(
        context.rt,
        context.alloc,
        context.table,
        seat,
        context.names,
        script,
        1,
    )
}

// The bytes of a piece of memory. The C library maps one of 128 KB or more by itself, and unmaps it if it is given back.
const GROWTH_SIZE: usize = 122_880;

// How many bytes an entry in its box takes for each byte of its line: 496 for the five of a look.
const SHARE: usize = 100;

// The most pieces that are asked for at once.
const MAX_GROWTHS: usize = 16;

// Grows the heap once: asks for the space of a script's entries, and gives it back, which leaves it to them. Otherwise the C
// library asks the system for each page of it, and all other threads queue. If it is refused, that is what happens.
fn grow_heap(alloc: Global, bytes: usize) {
    let mut pieces = Vec::new(alloc);
    for _ in 0..(bytes / (GROWTH_SIZE / SHARE) + 1).min(MAX_GROWTHS) {
        let Ok(piece) = Vec::<u8>::with_capacity(alloc, GROWTH_SIZE) else {
            return;
        };
        let Ok(()) = pieces.push(piece) else {
            return;
        };
    }
}
