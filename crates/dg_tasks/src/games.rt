//! Greedy games that are played and printed turn by turn: the history is not kept.
ghost use Rattle.std.specs.Prelude.{◌≤◌, IfOk, IfErr};
ghost use Rattle.dg_rules.specs.declared.game.TheConstants.{MAX_ENTRIES};
ghost use Rattle.dg_tasks.specs.Games.{IsGreedyAnswer, RefusesGreedy};

use crate::fault::TaskFault;
use dg_file::TableFile;
use dg_lines::push_entry;
use dg_rules::{BLANK, Game};
use dg_strategy::greedy_turn;
use std::alloc::Global;

/// The room for text at first, in bytes. The system makes more room than this by whole pages, and copies no byte.
const FIRST_ROOM: usize = 131_072;

/// The history of the greedy strategy on a table as text: a line for each entry, with its number, from 0 on, and the text of its
/// reply; and then `turns` if so many turns were used up before nobody was in debt. The condition is at most 65,536 turns.
///
/// Refused with `Shortage` at the growth that was refused.
pub fn greedy_answer(alloc: Global, table: &TableFile, turns: u32) -> Result<Vec<u8>, TaskFault>
    requires { turns ≤ MAX_ENTRIES }
    ensures printed { IfOk result
        (λ text. IsGreedyAnswer table.now.start turns table.now.names text.items) }
    ensures refused { IfErr result RefusesGreedy }
{
    let names = table.names();
    let mut game = Game::new(table.start());
    let mut entry = BLANK;
    let mut text = Vec::with_capacity(alloc, FIRST_ROOM)?;
    'turns: for number in 0..turns {
        let settled = greedy_turn(&mut game, &mut entry);
        push_entry(&mut text, number as usize, &entry.reply, names)?;
        if settled {
            return Ok(text);
        }
    }
    text.extend_from_slice(b"turns\n")?;
    Ok(text)
}
