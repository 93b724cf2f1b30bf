//! Random graphs and amounts: the reductions that begin with a guess are those by levels.

ghost use Rattle.std.specs.Prelude.{◌≡◌, ◌<◌, ◌≤◌, pos};
ghost use Rattle.std.specs.Int.RustNames.{unsigned_abs};
ghost use Rattle.dg_chips.specs.Vector.{at};

use crate::reduce::guesses::is_wanted;
use dg_burn::capped_amounts;
use dg_chips::{Script, Wide};
use dg_graph::Graph;
use dg_reduce::{
    Burning, InverseLaplacian, Reduced, burning_order, guess, may_reduce, reduce_by_levels,
    reduce_certified, reduce_from_script,
};
use std::process::Abort;
use std::test::Fail;

/// Numbers that look random.
#[derive(Drop)]
struct Dice {
    state: u64,
}

impl Dice {
    /// A number below some other.
    fn below(&mut self, limit: u64) -> u64
        requires { 0 < limit }
        ensures { result < limit }
    {
        self.state = self.state.wrapping_mul(6_364_136_223_846_793_005);
        self.state = self.state.wrapping_add(1_442_695_040_888_963_407);
        (self.state >> 33) % limit
    }

    /// A byte below some other.
    fn byte(&mut self, limit: u8) -> u8
        requires { 0 < limit }
        ensures { result < limit }
    {
        self.below(u64::from(limit)) as u8
    }

    /// An amount, debt or not, up to some limit.
    fn amount(&mut self, most: u64) -> i128
        requires { most ≤ 1000000 }
    {
        i128::from(self.below(2 * most + 1)) - i128::from(most)
    }
}

/// How the edges of a random graph lie.
#[derive(Clone, Copy)]
enum Shape {
    /// A tree of single edges.
    Tree,
    /// A tree and as many single edges more as there are vertices.
    Light,
    /// Heavy edges between all vertices.
    Heavy,
    /// Two parts with heavy edges, and one single edge between them.
    Bridge,
    /// Eight vertices joined by heavy edges, and a path that hangs on the last of them.
    Tail,
    /// Two eights joined by heavy edges, and a single edge between them.
    Barbell,
    /// A path of heavy and single edges in turn.
    Path,
    /// Triangles with heavy edges, each joined to the next by a single edge.
    Triangles,
}

/// How many edges a thin graph has between two vertices, of which u is the lesser: heavy ones within a part, and a single
/// one from part to part.
fn thin_edges(heavy: u8, is_one_part: bool, u: u8, v: u8) -> u8
    requires { u ≤ v }
{
    if is_one_part {
        heavy
    } else {
        u8::from(v - u == 1)
    }
}

/// How many edges a random graph has between two vertices, of which u is the lesser, beside those of a tree.
fn edges_between(dice: &mut Dice, shape: Shape, size: u8, u: u8, v: u8) -> u8
    requires some { 1 ≤ size }
    requires order { u ≤ v }
{
    let half = size / 2 + 1;
    let across = u < half && v >= half;
    match shape {
        Shape::Tree | Shape::Light => 0,
        Shape::Heavy => 1 + dice.byte((60 / size).max(1)),
        Shape::Bridge if across => u8::from(u == 0 && v == half),
        Shape::Bridge => 1 + dice.byte((120 / size).clamp(1, 60)),
        Shape::Tail => thin_edges(8, v < 8, u, v),
        Shape::Barbell => thin_edges(8, u / 8 == v / 8, u, v),
        Shape::Path => thin_edges(60, u / 2 == v / 2, u, v),
        Shape::Triangles => thin_edges(25, u / 3 == v / 3, u, v),
    }
}

/// The edges of a graph.
#[derive(Drop)]
struct Items {
    items: [(u8, u8, u8); 152],
    count: usize,
}

impl Items {
    /// Adds edges between two vertices, as long as there is room.
    fn add(&mut self, u: u8, v: u8, edges: u8) {
        if self.count < 152 {
            self.items[self.count] = (u, v, edges);
            self.count += 1;
        }
    }
}

/// A random connected graph; none if some vertex has got too many edges.
fn graph_of(dice: &mut Dice, shape: Shape, size: u8) -> Option<Graph>
    requires some { 1 ≤ size }
    requires few { size ≤ 16 }
{
    let mut items = Items {
        items: [(0, 0, 1); 152],
        count: 0,
    };
    for v in 1..size {
        for u in 0..v {
            let edges = edges_between(dice, shape, size, u, v);
            if edges > 0 {
                items.add(u, v, edges);
            }
        }
        if matches!(shape, Shape::Tree | Shape::Light) {
            items.add(dice.byte(v), v, 1);
        }
        let u = dice.byte(size);
        if matches!(shape, Shape::Light) && u != v {
            items.add(u, v, 1);
        }
    }
    let count = items.count.min(152);
    Graph::new(usize::from(size), &items.items[..count]).ok()
}

/// A number of lendings near to another.
fn blunted(times: i64) -> i64
    ensures { unsigned_abs result ≤ 500000000 }
{
    (times ^ 13).clamp(-500_000_000, 500_000_000)
}

/// A script that is 0 at q and near to another, but off by some lendings at each vertex.
fn blunt(graph: &Graph, q: usize, script: &Script) -> Script
    requires size { script.now.size ≡ graph.now.size }
    requires vertex { q < graph.now.size }
    ensures size { result.size ≡ graph.now.size }
    ensures at_q { at result q ≡ pos 0 }
{
    let mut blunt = Wide::zero(graph);
    for v in 0..graph.size() {
        blunt = blunt.with_amount(v, i128::from(blunted(script.get(v))));
    }
    Script::relative_to(&blunt, q)
}

/// Whether all vertices but q hold the same.
fn is_same_off(q: usize, held: &[u8; 16], other: &[u8; 16]) -> bool {
    for v in 0..16 {
        if v != q && held[v] != other[v] {
            return false;
        }
    }
    true
}

/// Random amounts up to some limit.
fn amounts_of(dice: &mut Dice, size: usize, most: u64) -> [i128; 16]
    requires size { size ≤ 16 }
    requires most { most ≤ 1000000 }
{
    let mut amounts = [0; 16];
    for v in 0..size {
        amounts[v] = dice.amount(most);
    }
    amounts
}

/// The reduction by levels of amounts that are within the range, which begins with a blunt script if they are large.
fn by_levels(graph: &Graph, q: usize, chips: &Wide, most: u64, script: &Script) -> Option<Reduced>
    requires size { chips.now.size ≡ graph.now.size }
    requires vertex { q < graph.now.size }
    requires script { script.now.size ≡ graph.now.size }
{
    if !may_reduce(chips) {
        return None;
    }
    Some(if most <= 10 {
        reduce_by_levels(graph, q, chips)
    } else {
        reduce_from_script(graph, q, chips, &blunt(graph, q, script))
    })
}

/// Whether a guess has led to reduced amounts, and its burning is that of these.
fn is_right(graph: &Graph, q: usize, left: &Wide, burning: &Option<Burning>) -> bool
    requires size { left.now.size ≡ graph.now.size }
    requires vertex { q < graph.now.size }
{
    let known = match burning {
        Some(burning) => is_same_off(q, &burning.held, &capped_amounts(left)),
        None => false,
    };
    known && burning_order(graph, q, left).is_some()
}

/// Whether a random reduction is the same with a guess and by levels, which are left out if they take too long; and
/// whether the guess was right.
fn agrees(
    dice: &mut Dice,
    graph: &Graph,
    q: usize,
    most: u64,
    has_levels: bool,
) -> Option<(bool, bool)>
    requires vertex { q < graph.now.size }
    requires most { most ≤ 1000000 }
{
    let size = graph.size();
    let amounts = amounts_of(dice, size, most);
    let chips = Wide::new(graph, &amounts[..size]).ok()?;
    if !may_reduce(&chips) {
        return None;
    }
    let inverse = InverseLaplacian::new(graph, q);
    let found = reduce_certified(graph, Some(&inverse), q, &chips);
    let guessed = guess(graph, Some(&inverse), q, &chips.in_32_bits());
    let wanted = if has_levels {
        by_levels(graph, q, &chips, most, &guessed.script)?
    } else {
        found.reduced
    };
    let left = chips.fired_by(graph, &guessed.script);
    Some((
        is_wanted(graph, q, &found, &wanted),
        is_right(graph, q, &left, &guessed.burning),
    ))
}

/// How many graphs were tried, and how many guesses were wrong.
#[derive(Drop)]
struct Tally {
    graphs: u32,
    wrong: u32,
}

static SHAPES: [Shape; 8] = [
    Shape::Tree,
    Shape::Light,
    Shape::Heavy,
    Shape::Bridge,
    Shape::Tail,
    Shape::Barbell,
    Shape::Path,
    Shape::Triangles,
];

#[test]
fn as_by_levels(rt: HostRuntime) -> Result<(), Fail> {
    let mut dice = Dice { state: 1 };
    let mut tally = Tally {
        graphs: 0,
        wrong: 0,
    };
    for _ in 0..800 {
        for shape in &SHAPES {
            for most in [3, 10, 1000, 1_000_000] {
                is_by_levels(&rt, &mut dice, &mut tally, *shape, most);
            }
        }
    }
    assert!(rt; tally.graphs > 20_000, "{} graphs", tally.graphs);
    // None of these 24,000 guesses is wrong; nothing promises that.
    assert!(rt; tally.wrong < 24, "{} wrong guesses", tally.wrong);
    Ok(())
}

fn is_by_levels(rt: &impl Abort, dice: &mut Dice, tally: &mut Tally, shape: Shape, most: u64) {
    let size = 1 + dice.byte(16);
    let Some(graph) = graph_of(dice, shape, size) else {
        return;
    };
    let q = usize::from(dice.byte(size));
    assert!(rt; q < graph.size() && most <= 1_000_000);
    let has_levels = matches!(
        shape,
        Shape::Tree | Shape::Light | Shape::Heavy | Shape::Bridge
    );
    let Some((same, right)) = agrees(dice, &graph, q, most, has_levels) else {
        panic!(rt; "out of range");
    };
    assert!(rt; same, "graph {} with {most}", tally.graphs);
    tally.graphs = tally.graphs.wrapping_add(1);
    tally.wrong = tally.wrong.wrapping_add(u32::from(!right));
}
