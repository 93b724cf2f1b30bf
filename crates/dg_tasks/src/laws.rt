//! A law of printed histories, the contract of a function that does nothing.
ghost use Rattle.dg_tasks.specs.OneText.{HistoryTextIsUnique, RehearsalsHaveOneText, GreedyHasOneText};

/// A legal history is printed in one way, by its start and its requests; so all histories that `rehearse` may give for some
/// steps have the text that `rehearsal_answer` prints of them, and of a greedy game there is one text.
pub fn rehearsal_text_is_unique()
    ensures legal { HistoryTextIsUnique }
    ensures rehearsals { RehearsalsHaveOneText }
    ensures greedy { GreedyHasOneText }
{}
