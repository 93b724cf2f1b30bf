//! Replies that no line of a run comes to, and how they are written.
ghost use Rattle.dg_lines.specs.Texts.{HasNames};

use dg_chips::{Divisor, Script, Wide};
use dg_file::Names;
use dg_graph::Graph;
use dg_lines::reply_text;
use dg_rules::{Refusal, Reply};
use dg_tokens::is_name;
use dg_verdict::{RankVerdict, Verdict};
use std::alloc::Global;
use std::process::Abort;
use std::test::Fail;

// Refusals, and how they are written.
static REFUSALS: [(Refusal, &str); 7] = [
    (Refusal::NoVertex, "refused vertex"),
    (Refusal::Empty, "refused empty"),
    (Refusal::Script, "refused script"),
    (Refusal::Gift, "refused gift"),
    (Refusal::Range, "refused range"),
    (Refusal::Loop, "refused loop"),
    (Refusal::Valence, "refused valence"),
];

#[test]
fn replies_are_written(rt: HostRuntime) -> Result<(), Fail> {
    let alloc = rt.alloc();
    let mut names = Names::new(alloc);
    for name in ["a", "b", "c"] {
        if is_name(name.as_bytes()) && names.len() < 16 {
            names.insert(alloc, name)?;
        }
    }
    for (refusal, want) in &REFUSALS {
        is_written(&rt, alloc, &names, &Reply::Refused(*refusal), want)?;
        let said = format!(in alloc; "{refusal}")?;
        assert!(&rt; said.as_str() == *want, "at {want}");
    }
    large_numbers_are_written(&rt, alloc, &names)
}

// A loss with debts, and a verdict with more dollars than a reduction comes to.
fn large_numbers_are_written(rt: &impl Abort, alloc: Global, names: &Names) -> Result<(), Fail> {
    let graph = Graph::new(3, &[(0, 1, 1), (1, 2, 1), (0, 2, 1)])?;
    let loss = Divisor::new(&graph, &[2, -1, -10])?;
    let script = Script::new(&graph, &[0, -1, 225_000_000])?;
    let reduced = Wide::new(&graph, &[-100_000_000_000_000_000_000, 1, 0])?;
    assert!(rt; names.len() == loss.size());
    assert!(rt; names.len() == script.size() && names.len() == reduced.size());
    let below = Reply::Rank(RankVerdict::Below(2, loss));
    is_written(rt, alloc, names, &below, "rank below 2 at a=2 b=-1 c=-10")?;
    let verdict = Verdict {
        winnable: false,
        script,
        reduced,
        order: [0; 16],
    };
    let want = "unwinnable by a=0 b=-1 c=225000000 to a=-100000000000000000000 b=1 c=0";
    is_written(rt, alloc, names, &Reply::Verdict(verdict), want)
}

// That the reply is written so.
fn is_written(
    rt: &impl Abort,
    alloc: Global,
    names: &Names,
    reply: &Reply,
    want: &str,
) -> Result<(), Fail>
    requires { HasNames names.now reply.now }
{
    let text = reply_text(alloc, reply, names)?;
    assert!(rt; text.as_slice() == want.as_bytes(), "at {want}");
    Ok(())
}
