//! Reductions.

ghost use Rattle.std.specs.Prelude.{◌≡◌, ℕ, ◌<◌, ◌≤◌, pos, IfSome};
ghost use Rattle.std.specs.Int.RustNames.{unsigned_abs};
ghost use Rattle.dg_chips.specs.Vector.{at};
ghost use Rattle.dg_reduce.specs.Reductions.{IsReduction};
ghost use Rattle.dg_reduce.specs.Certificates.{IsCertified};
ghost use Rattle.dg_reduce.specs.Burnings.{CertifiesBurning};

use crate::by_levels::reduce_from_script;
use crate::certificate::{Burning, burning_order_by};
use crate::guessing::guess;
use crate::inverse_laplacian::InverseLaplacian;
use crate::limits::MAX_START;
use crate::reduced::Reduced;
use dg_burn::burn;
use dg_chips::{Divisor, Script, Wide};
use dg_graph::Graph;

/// A reduced divisor, the script that leads to it, and what shows that it is reduced.
#[derive(Clone, Copy)]
pub struct CertifiedReduction {
    /// The reduced divisor and the script.
    pub reduced: Reduced,
    /// The order in which all vertices burn from q, the least first; zeros past the last.
    pub order: [u8; 16],
}

/// The divisor that is reduced for q and can be reached by firing, and the script that leads to it. It takes no memory.
pub fn reduce(graph: &Graph, q: usize, divisor: &Divisor) -> Reduced
    requires size { divisor.now.size ≡ graph.now.size }
    requires vertex { q < graph.now.size }
    ensures { IsReduction graph.now q (at divisor.now) 226000000 result }
{
    // The clauses of `size` say that graph and divisor are within their limits.
    let _size = graph.size();
    let _amounts = divisor.size();
    reduce_wide(graph, q, &Wide::of(divisor))
}

/// The amounts, within 2,000,000 before, that are reduced for q and can be reached by firing, and the script that leads to
/// them. It takes no memory.
pub fn reduce_wide(graph: &Graph, q: usize, chips: &Wide) -> Reduced
    requires size { chips.now.size ≡ graph.now.size }
    requires vertex { q < graph.now.size }
    requires range { (v : ℕ) → v < graph.now.size → unsigned_abs (at chips.now v) ≤ MAX_START }
    ensures { IsReduction graph.now q (at chips.now) 451000000 result }
{
    reduce_certified(graph, None, q, chips).reduced
}

/// The amounts, within 2,000,000 before, that are reduced for q and can be reached by firing, with the script that leads to
/// them and the order in which all vertices burn. An inverse changes how long that takes, and no answer.
pub fn reduce_certified(
    graph: &Graph,
    inverse: Option<&InverseLaplacian>,
    q: usize,
    chips: &Wide,
) -> CertifiedReduction
    requires size { chips.now.size ≡ graph.now.size }
    requires vertex { q < graph.now.size }
    requires range { (v : ℕ) → v < graph.now.size → unsigned_abs (at chips.now v) ≤ MAX_START }
    ensures { IsCertified graph.now q (at chips.now) 451000000 result }
{
    let _size = graph.size();
    let guess = guess(graph, inverse, q, &chips.in_32_bits());
    certified_by(graph, q, chips, &guess.script, &guess.burning)
}

/// The reduction of amounts within 2,000,000 that begins with a script, any that is 0 at q: if the script leads to
/// amounts from which all vertices burn, these are the reduced ones. A burning of these amounts may be known before; one of
/// others changes no answer.
pub fn certified_by(
    graph: &Graph,
    q: usize,
    chips: &Wide,
    script: &Script,
    known: &Option<Burning>,
) -> CertifiedReduction
    requires size { chips.now.size ≡ graph.now.size }
    requires vertex { q < graph.now.size }
    requires script { script.now.size ≡ graph.now.size }
    requires range { (v : ℕ) → v < graph.now.size → unsigned_abs (at chips.now v) ≤ MAX_START }
    requires start { at script.now q ≡ pos 0 }
    requires known { IfSome known.now (λ x. CertifiesBurning graph.now q x) }
    ensures { IsCertified graph.now q (at chips.now) 451000000 result }
{
    let _size = graph.size();
    let divisor = chips.fired_by(graph, script);
    let Some(order) = burning_order_by(graph, q, &divisor, known) else {
        return certified_after(graph, q, chips, script);
    };
    CertifiedReduction {
        reduced: Reduced {
            divisor,
            script: *script,
        },
        order,
    }
}

/// The reduction that begins with a script, and then goes by the fallback.
fn certified_after(graph: &Graph, q: usize, chips: &Wide, script: &Script) -> CertifiedReduction
    requires size { chips.now.size ≡ graph.now.size }
    requires vertex { q < graph.now.size }
    requires script { script.now.size ≡ graph.now.size }
    requires range { (v : ℕ) → v < graph.now.size → unsigned_abs (at chips.now v) ≤ MAX_START }
    requires start { at script.now q ≡ pos 0 }
    ensures { IsCertified graph.now q (at chips.now) 451000000 result }
{
    let _size = graph.size();
    let reduced = reduce_from_script(graph, q, chips, script);
    let order = burn(graph, q, &reduced.divisor).order;
    CertifiedReduction { reduced, order }
}
