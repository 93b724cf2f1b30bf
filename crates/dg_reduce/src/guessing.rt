//! The guess of the script of a reduction.
//!
//! No clause says where a guess leads: the function that fires by it tests that. So its numbers are small, and if they are
//! not, its sums may wrap.

ghost use Rattle.std.specs.Prelude.{◌≡◌, ℕ, ◌<◌, ◌≤◌, pos, length, IfSome};
ghost use Rattle.std.specs.List.{slice_index_or};
ghost use Rattle.std.specs.Int.RustNames.{unsigned_abs};
ghost use Rattle.dg_chips.specs.Vector.{at};
ghost use Rattle.dg_chips.specs.declared.script.TheConstants.{MAX_ENTRY};
ghost use Rattle.dg_reduce.specs.Burnings.{CertifiesBurning};

use crate::certificate::Burning;
use crate::effective_divisor::capped_i32s;
use crate::inverse_laplacian::{InverseLaplacian, Lending, solve_once};
use dg_burn::burn_counted;
use dg_chips::Script;
use dg_graph::{Graph, MAX_VERTICES, contains};
use std::num::f64_to_bits_with_nan;
use std::simd::prelude::*;

/// The most lendings, and the most borrowings, that are guessed.
const MAX_LENDINGS: i32 = 1_000_000_000;

/// How often one who owes borrows: more than was ever seen to be needed.
const MAX_BORROWINGS: usize = 1000;

/// How many times those who do not burn lend together. Most tables need a few rounds; a heavy part that hangs on one edge was
/// seen to need 690.
const BURNING_ROUNDS: usize = 2000;

/// How many of these times they lend but once. Mostly all burn by then, and to compute how often they can lend costs more than
/// it saves; if a heavy part hangs on few edges, it saves hundreds of rounds.
const SINGLE_ROUNDS: usize = 4;

/// The most lendings of a round.
const MAX_ROUND_LENDINGS: i32 = 1_000_000;

/// Amounts off q, and lendings, near to those of a reduction. What q holds is not followed: no step looks at it.
#[derive(Clone, Copy)]
struct GuessState {
    chips: i32x16,
    script: [i32; 16],
}

/// A script, and what was seen where it leads.
#[derive(Clone, Copy)]
pub struct ReductionGuess {
    /// The script: 0 at q.
    pub script: Script,
    /// The burning of the amounts off q that it seems to lead to, if all vertices burn.
    pub burning: Option<Burning>,
}

/// A script that is 0 at q and that may lead from amounts, given in vertex order, to those that are reduced for q: each entry is
/// at most a thousand million, lendings or borrowings. How good the guess is depends on the inverse, and on how small the
/// amounts are.
///
/// An inverse serves many guesses. Where none is given, what is made for one guess alone costs less than an inverse.
pub fn guess(
    graph: &Graph,
    inverse: Option<&InverseLaplacian>,
    q: usize,
    amounts: &[i32; 16],
) -> ReductionGuess
    requires { q < graph.now.size }
    ensures size { result.script.size ≡ graph.now.size }
    ensures at_q { at result.script q ≡ pos 0 }
    ensures burning { IfSome result.burning (λ x. CertifiesBurning graph.now q x) }
{
    let _size = graph.size();
    let mut off = *amounts;
    off[q] = 0;
    match inverse {
        Some(inverse) => guess_near(graph, &inverse.lending, q, &off, &inverse.lendings(&off)),
        None => guess_alone(graph, q, &off),
    }
}

/// The guess without an inverse. It stands apart, so that no room is cleared for what an inverse has already.
#[inline(never)]
fn guess_alone(graph: &Graph, q: usize, amounts: &[i32; 16]) -> ReductionGuess
    requires { q < graph.now.size }
    ensures size { result.script.size ≡ graph.now.size }
    ensures at_q { at result.script q ≡ pos 0 }
    ensures burning { IfSome result.burning (λ x. CertifiesBurning graph.now q x) }
{
    let lending = Lending::new(graph, q);
    let lendings = solve_once(graph, q, amounts);
    guess_near(graph, &lending, q, amounts, &lendings)
}

/// The guess that begins with so many lendings.
fn guess_near(
    graph: &Graph,
    lending: &Lending,
    q: usize,
    amounts: &[i32; 16],
    lendings: &[f64; 16],
) -> ReductionGuess
    requires { q < graph.now.size }
    ensures size { result.script.size ≡ graph.now.size }
    ensures at_q { at result.script q ≡ pos 0 }
    ensures burning { IfSome result.burning (λ x. CertifiesBurning graph.now q x) }
{
    let _size = graph.size();
    let script = rounded(lendings);
    let chips = after_lendings(graph.size(), lending, amounts, &script);
    let mut near = GuessState { chips, script };
    borrow_until_solvent(lending, &mut near);
    let burning = fire_unburnt_roughly(graph, lending, q, &mut near);
    ReductionGuess {
        script: to_script(graph, q, &near.script),
        burning,
    }
}

/// The amounts after all have lent so often.
fn after_lendings(size: usize, lending: &Lending, amounts: &[i32; 16], script: &[i32; 16]) -> i32x16
    requires { size ≤ MAX_VERTICES }
{
    let mut chips = i32x16::from_array(*amounts);
    for v in 0..size {
        chips = chips + row_times(&lending.rows[v], script[v]);
    }
    chips
}

/// The whole numbers nearest to some that are within a thousand million.
fn rounded(lendings: &[f64; 16]) -> [i32; 16] {
    let mut whole = [0; 16];
    for v in 0..16 {
        whole[v] = nearest(lendings[v]);
    }
    whole
}

/// The whole number nearest to one that is within a thousand million. A sum with the large number has no place for a fraction,
/// and the last bits of it are the whole number's.
fn nearest(lendings: f64) -> i32 {
    let sum = f64_to_bits_with_nan(lendings + 6_755_399_441_055_744.0);
    ((sum & 0xffff_ffff) as u32).cast_signed()
}

/// What each vertex gains if the row's vertex lends `scaled` times.
fn row_times(row: &[i32; 16], times: i32) -> i32x16 {
    i32x16::from_array(*row) * i32x16::splat(times)
}

/// Lets the least who owes borrow until it owes no more, again and again. In any order of turns, each borrows as often in
/// the end.
fn borrow_until_solvent(lending: &Lending, near: &mut GuessState) {
    for _ in 0..MAX_BORROWINGS {
        let owing = near.chips.simd_lt(i32x16::splat(0)).to_bitmask();
        if owing == 0 {
            return;
        }
        let v = (owing.trailing_zeros() as usize).min(15);
        let times = times_to_pay(near.chips.to_array()[v], lending.valences[v]);
        near.chips = near.chips + row_times(&lending.rows[v], times);
        near.script[v] = near.script[v].wrapping_add(times);
    }
}

/// How often, below 0, a vertex that owes lends until it owes no more. A vertex without edges never does.
fn times_to_pay(chips: i32, valence: i32) -> i32 {
    if valence <= 0 {
        return 0;
    }
    chips.saturating_sub(valence - 1) / valence
}

/// Lets those who do not burn lend together, again and again, until all burn: that burning is the result.
fn fire_unburnt_roughly(
    graph: &Graph,
    lending: &Lending,
    q: usize,
    near: &mut GuessState,
) -> Option<Burning>
    requires { q < graph.now.size }
    ensures { IfSome result (λ x. CertifiesBurning graph.now q x) }
{
    for round in 0..BURNING_ROUNDS {
        let chips = near.chips.to_array();
        let held = capped_i32s(&chips);
        let counted = burn_counted(graph, q, &held);
        if counted.burnt.unburnt == 0 {
            let order = counted.burnt.order;
            return Some(Burning { held, order });
        }
        let set = counted.burnt.unburnt;
        let times = if round < SINGLE_ROUNDS {
            1
        } else {
            max_firings(set, &counted.joined, &chips)
        };
        fire_set(lending, set, &counted.joined, times, near);
    }
    None
}

/// How often a set can lend together until one of it would owe, but at least once; `joined` are the edges of each vertex to
/// those that are not in the set.
fn max_firings(set: u16, joined: &[u8; 16], chips: &[i32; 16]) -> i32 {
    let mut most = MAX_ROUND_LENDINGS;
    for v in 0..16 {
        let out = i32::from(joined[v]);
        if contains(set, v) && out > 0 {
            most = most.min(chips[v] / out);
        }
    }
    most.max(1)
}

/// Lets the vertices of a set lend together so many times; `joined` are the edges of each vertex to those that are not in it.
fn fire_set(lending: &Lending, set: u16, joined: &[u8; 16], times: i32, near: &mut GuessState) {
    let mut chips = near.chips.to_array();
    for v in 0..16 {
        let lends = i32::from(contains(set, v));
        let out = i32::from(joined[v]);
        let got = (1i32.wrapping_sub(lends)).wrapping_mul(lending.valences[v]);
        let gains = got.wrapping_sub(out).wrapping_mul(times);
        chips[v] = chips[v].wrapping_add(gains);
        near.script[v] = near.script[v].wrapping_add(lends.wrapping_mul(times));
    }
    near.chips = i32x16::from_array(chips);
}

/// The lendings as a script, 0 at q and cut off at the most that are guessed.
fn to_script(graph: &Graph, q: usize, lendings: &[i32; 16]) -> Script
    requires { q < graph.now.size }
    ensures size { result.size ≡ graph.now.size }
    ensures at_q { at result q ≡ pos 0 }
{
    let size = graph.size();
    let mut entries = clamped(lendings);
    entries[q] = 0;
    Script::from_prefix(size, &entries)
}

/// The lendings, cut off at the most that are guessed.
fn clamped(lendings: &[i32; 16]) -> [i32; 16]
    ensures places { length result ≡ 16 }
    ensures few { (v : ℕ) → unsigned_abs (slice_index_or result v (pos 0)) ≤ MAX_ENTRY }
{
    let mut entries = [0; 16];
    for v in 0..16 {
        entries[v] = lendings[v].clamp(-MAX_LENDINGS, MAX_LENDINGS);
    }
    entries
}
