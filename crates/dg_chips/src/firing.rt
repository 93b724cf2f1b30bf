//! What a move and a drift do to amounts.

ghost use Rattle.std.specs.Prelude.{◌≡◌, ℕ, ◌<◌, ◌≤◌, ◌*◌, pos, ◌-ℤ◌, ◌*ℤ◌, MatchBool, MatchResult, length};
ghost use Rattle.std.specs.Bool.{OnTrue};
ghost use Rattle.std.specs.List.{slice_index_or};
ghost use Rattle.std.specs.Int.RustNames.{unsigned_abs};
ghost use Rattle.dg_theory.specs.Firing.{gain, fired, FiresTo};
ghost use Rattle.dg_chips.specs.Vector.{at, GainsFitI32};
ghost use Rattle.dg_chips.specs.Moves.{IsAfterMove, IsAfterLending};
ghost use Rattle.dg_chips.specs.MoveFaults.{IsLendingFault, IsMoveFault};
ghost use Rattle.dg_chips.specs.declared.moves.Move.TheVariants.{Fire, Script as ScriptMove};

use crate::divisor::Divisor;
use crate::drift::MAX_DRIFT;
use crate::light::gain_i32;
use crate::moves::{Move, MoveFault};
use crate::script::Script;
use crate::wide::Wide;
use dg_graph::{Graph, is_vertex_set};

/// The divisor after a move; the one that is handed in stays as it is.
///
/// Refused in this order: `NoVertex` if the move names a vertex that is not there, `Empty` if it fires the empty
/// set, `Script` if its script has another size, `Range` if an amount of the result is not within 1,000,000.
/// What lies between the single lendings of a move is not tested.
pub fn apply(graph: &Graph, divisor: &Divisor, chip_move: &Move) -> Result<Divisor, MoveFault>
    requires { divisor.now.size ≡ graph.now.size }
    ensures { MatchResult result
        (IsAfterMove graph.now (at divisor.now) chip_move.now)
        (IsMoveFault graph.now (at divisor.now) chip_move.now) }
{
    match chip_move {
        Move::Lend(v) => lend(graph, divisor, usize::from(*v), 1),
        Move::Borrow(v) => lend(graph, divisor, usize::from(*v), -1),
        Move::Fire(set) => fire_set(graph, divisor, *set),
        Move::Script(script) => fire_script(graph, divisor, script),
    }
}

/// The divisor after a vertex has lent once, or borrowed once if `scaled` is -1.
fn lend(graph: &Graph, divisor: &Divisor, v: usize, times: i32) -> Result<Divisor, MoveFault>
    requires divisor { divisor.now.size ≡ graph.now.size }
    requires times { unsigned_abs times ≤ 1 }
    ensures { MatchResult result
        (IsAfterLending graph.now (at divisor.now) v times)
        (IsLendingFault graph.now (at divisor.now) v times) }
{
    if v >= graph.size() {
        return Err(MoveFault::NoVertex);
    }
    match divisor.after_lending(graph, v, times) {
        Some(divisor) => Ok(divisor),
        None => Err(MoveFault::Range),
    }
}

/// The divisor after each vertex of a set has lent once.
fn fire_set(graph: &Graph, divisor: &Divisor, set: u16) -> Result<Divisor, MoveFault>
    requires { divisor.now.size ≡ graph.now.size }
    ensures { MatchResult result
        (IsAfterMove graph.now (at divisor.now) (Fire set))
        (IsMoveFault graph.now (at divisor.now) (Fire set)) }
{
    if !is_vertex_set(graph.size(), set) {
        return Err(MoveFault::NoVertex);
    }
    if set == 0 {
        return Err(MoveFault::Empty);
    }
    match divisor.after_firing(graph, set) {
        Some(divisor) => Ok(divisor),
        None => Err(MoveFault::Range),
    }
}

/// The divisor after each vertex has lent as often as a script says.
fn fire_script(graph: &Graph, divisor: &Divisor, script: &Script) -> Result<Divisor, MoveFault>
    requires { divisor.now.size ≡ graph.now.size }
    ensures { MatchResult result
        (IsAfterMove graph.now (at divisor.now) (ScriptMove script.now))
        (IsMoveFault graph.now (at divisor.now) (ScriptMove script.now)) }
{
    if script.size() != graph.size() {
        return Err(MoveFault::Script);
    }
    let amounts = fired_amounts(graph, divisor, script);
    match Divisor::new(graph, &amounts[..graph.size()]) {
        Ok(divisor) => Ok(divisor),
        Err(_) => Err(MoveFault::Range),
    }
}

/// The amounts after a firing.
fn fired_amounts(graph: &Graph, divisor: &Divisor, script: &Script) -> [i64; 16]
    requires divisor { divisor.now.size ≡ graph.now.size }
    ensures places { length result ≡ 16 }
    ensures amounts { (v : ℕ) → v < graph.now.size →
        slice_index_or result v (pos 0) ≡ fired graph.now (at divisor.now) (at script.now) v }
{
    let lendings = script.entries();
    let mut amounts = [0; 16];
    for v in 0..graph.size() {
        amounts[v] = divisor.get(v) + gained(graph, &lendings, v);
    }
    amounts
}

/// Whether so many lendings lead from a divisor to some amounts.
pub(crate) fn leads(graph: &Graph, lendings: &[i64; 16], from: &Divisor, to: &Wide) -> bool
    requires lendings { (w : ℕ) → unsigned_abs (slice_index_or lendings.now w (pos 0)) ≤ MAX_DRIFT }
    requires from { from.now.size ≡ graph.now.size }
    requires to { to.now.size ≡ graph.now.size }
    ensures { MatchBool result
        (FiresTo graph.now (λ w. slice_index_or lendings.now w (pos 0)) (at from.now) (at to.now))
        (¬ FiresTo graph.now (λ w. slice_index_or lendings.now w (pos 0)) (at from.now)
        (at to.now)) }
{
    for v in 0..graph.size() {
        let amount = from.get(v) + gained(graph, lendings, v);
        if i128::from(amount) != to.get(v) {
            return false;
        }
    }
    true
}

/// What a vertex gets if each vertex lends so often.
pub(crate) fn gained(graph: &Graph, lendings: &[i64; 16], v: usize) -> i64
    requires vertex { v < graph.now.size }
    requires lendings { (w : ℕ) → unsigned_abs (slice_index_or lendings.now w (pos 0)) ≤ MAX_DRIFT }
    ensures gain { result ≡ gain graph.now (λ w. slice_index_or lendings.now w (pos 0)) v }
    ensures limit { unsigned_abs result ≤ 51000000000000000 * 16 }
{
    let _size = graph.size();
    let row = graph.row(v);
    let mut sum = 0;
    for w in 0..16 {
        sum += carried(row[w], lendings[w]);
    }
    sum - carried(graph.valence(v), lendings[v])
}

/// What a vertex gets by the lendings of a script; those that are known to be light are summed in 32 bits.
pub(crate) fn gain_of_script(graph: &Graph, script: &Script, light: bool, v: usize) -> i64
    requires vertex { v < graph.now.size }
    requires light { OnTrue light (GainsFitI32 graph.now (at script.now)) }
    ensures gain { result ≡ gain graph.now (at script.now) v }
    ensures limit { unsigned_abs result ≤ 51000000000000000 * 16 }
{
    if light {
        return i64::from(gain_i32(graph, script.as_array(), v));
    }
    gained(graph, &script.entries(), v)
}

/// What some edges carry together when each of them carries one dollar, or none, or one the other way.
pub(crate) fn carried_once(edges: u8, each: i32) -> i32
    requires { unsigned_abs each ≤ 1 }
    ensures product { result ≡ pos edges *ℤ each }
    ensures limit { unsigned_abs result ≤ 255 * unsigned_abs each }
{
    i32::from(edges) * each
}

/// What some edges carry together when each of them carries `each`.
pub(crate) fn carried(edges: u8, each: i64) -> i64
    requires { unsigned_abs each ≤ MAX_DRIFT }
    ensures product { result ≡ pos edges *ℤ each }
    ensures limit { unsigned_abs result ≤ 255 * unsigned_abs each }
{
    i64::from(edges) * each
}
