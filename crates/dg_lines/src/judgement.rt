//! The line of a verdict that is printed for a table.
ghost use Rattle.std.specs.Prelude.{◌≡◌, ◌<◌, ◌++◌, All, codes, length, OnOk};
ghost use Rattle.dg_lines.specs.Judgements.{VerdictHasNames, burning_text, judgement_text};

use crate::text::push_verdict;
use dg_tokens::Names;
use dg_verdict::Verdict;
use std::alloc::{AllocError, Allocator};

/// The line of a verdict, after the text: the text of the verdict; then, if it is `ordered`, ` burning` and the names of the
/// vertices in the order in which they burn in the reduced divisor; and a newline.
#[inline(always)]
pub fn push_judgement<A: Allocator>(
    text: &mut Vec<u8, A>,
    names: &Names,
    verdict: &Verdict,
    ordered: bool,
) -> Result<(), AllocError>
    requires { VerdictHasNames names.now verdict.now }
    ensures { OnOk result (text.new.items
        ≡ text.old.items ++ (judgement_text names.now ordered verdict.now ++ codes "\n")) }
{
    push_verdict(text, names, verdict)?;
    if ordered {
        push_burning_order(text, names, &verdict.order[..names.len()])?;
    }
    text.push(b'\n')?;
    Ok(())
}

/// ` burning` and the names of these vertices, each after a space.
fn push_burning_order<A: Allocator>(
    text: &mut Vec<u8, A>,
    names: &Names,
    order: &[u8],
) -> Result<(), AllocError>
    requires { All (λ v. v < length names.now) order.now }
    ensures { OnOk result (text.new.items ≡ text.old.items ++ burning_text names.now order.now) }
{
    text.extend_from_slice(b" burning")?;
    'vertices: for v in order {
        text.push(b' ')?;
        text.extend_from_slice(names.name(*v).as_bytes())?;
    }
    Ok(())
}
