//! What is asked on a look, and what is computed on it with no game at hand: verdicts and rank tests.
ghost use Rattle.std.specs.Prelude.{◌≡◌, ℕ, ◌<◌};
ghost use Rattle.dg_rules.specs.Look.{IsRightFinding, request_for_finding, request_for_question};
ghost use Rattle.dg_rules.specs.declared.entry.Request.TheVariants.{Judge as JudgeRequest};

use crate::entry::Request;
use crate::look::LookData;
use dg_graph::Graph;
use dg_reduce::InverseLaplacian;
use dg_verdict::{RankVerdict, Verdict, judge_with_inverse};

/// What is asked on a look, whatever is found.
#[derive(Clone, Copy, PartialEq, Eq)]
pub enum Question {
    /// Whether the position is winnable.
    Judge,
    /// Whether it passes the rank test of this degree.
    Rank(u32),
}

impl Question {
    /// What the entry of the question asks, where it was asked on the look with this number.
    pub fn request(&self, number: u32) -> Request
        ensures { result ≡ request_for_question number self.now }
    {
        match self {
            Question::Judge => Request::Judge(number),
            Question::Rank(k) => Request::Rank(number, *k),
        }
    }
}

/// What was computed on a look.
#[derive(Clone, Copy, PartialEq, Eq)]
pub enum Finding {
    /// Whether the position is winnable, with what shows it.
    Judged(Verdict),
    /// The answer of a rank test.
    Ranked(RankVerdict),
}

impl Finding {
    /// What the entry of the finding asks, where it was computed on the look with this number.
    pub fn request(&self, number: u32) -> Request
        ensures { result ≡ request_for_finding number self.now }
    {
        match self {
            Finding::Judged(_) => Request::Judge(number),
            Finding::Ranked(RankVerdict::AtLeast(k)) => Request::Rank(number, *k),
            Finding::Ranked(RankVerdict::Below(k, _)) => Request::Rank(number, *k),
        }
    }
}

/// The verdict on the amounts that a look showed, computed from the vertex q of its graph, whatever inverse it is given: one
/// that was made for the graph and q saves the time to make it anew. The conditions are that the look showed an amount for
/// each vertex of its graph, and that q is one of them.
pub fn judge_look(inverse: &InverseLaplacian, q: usize, look: &LookData) -> Finding
    requires size { look.now.position.size ≡ look.now.graph.size }
    requires vertex { q < look.now.graph.size }
    ensures found { IsRightFinding q look.now result }
    ensures asks { (i : ℕ) → request_for_finding i result ≡ JudgeRequest i }
{
    Finding::Judged(judge_with_inverse(&look.graph, Some(inverse), q, &look.position))
}

/// Makes an inverse anew, unless it may serve the verdict on a look, computed from the vertex q. Nothing is promised of it.
pub fn renew_inverse(inverse: &mut InverseLaplacian, q: usize, look: &LookData) {
    if !inverse.serves(&look.graph, q) {
        remake_inverse(inverse, q, &look.graph);
    }
}

/// Makes an inverse anew. It stands apart, so that no room for an inverse is cleared if the one that is kept serves.
#[cold]
#[inline(never)]
fn remake_inverse(inverse: &mut InverseLaplacian, q: usize, graph: &Graph) {
    *inverse = InverseLaplacian::new(graph, q);
}
