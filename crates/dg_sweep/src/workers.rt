//! Lines answered among workers, each with a thread of its own. They take pieces from a counter that no contract
//! trusts.
ghost use Rattle.std.specs.Prelude.{◌≡◌, ◌<◌, ◌≤◌, ◌++◌, ℕ, List, [], length, get_or, map, flat_map, All, Contains, IfErr, IfOk, IfSome, IsOkAnd, OnOk, Err};
ghost use Rattle.dg_sweep.specs.Kinds.{answers_of};
ghost use Rattle.dg_sweep.specs.Steps.{AnswersFront, EndsWithNewline};
ghost use Rattle.dg_sweep.specs.Pieces.{AnswersPiece, IsAnswered, LeadsPiece};
ghost use Rattle.dg_system.specs.declared.shortage.Shortage.TheVariants.{OutOfMemory, Spawn};

use crate::kinds::LineKind;
use crate::taking::answer_lines;
use dg_lines::cut;
use dg_system::{Shortage, in_parallel};
use std::alloc::{AllocError, Global};
use std::sync::Wait;
use std::sync::atomic::{AtomicUsize, Ordering};
use std::thread::Threads;

/// The fewest bytes for which one more worker is used.
const SHARE_SIZE: usize = 1_024;

/// The bytes of a piece, after which it goes on to the end of a line. A table of some vertices has as many, so that two slow
/// lines are seldom in one piece.
const PIECE_SIZE: usize = 128;

/// What all workers of a sweep share.
pub(crate) struct SweepContext<'a, R> {
    pub(crate) rt: &'a R,
    pub(crate) alloc: Global,
    pub(crate) kind: &'a LineKind<'a>,
    /// How many workers there may be.
    pub(crate) workers: usize,
}

impl<'a, R> Drop for SweepContext<'a, R> {
    fn drop(self) {
        let Self {
            rt: _,
            alloc: _,
            kind: _,
            workers: _,
        } = self;
    }
}

/// The answers to the piece at a place.
#[derive(Drop)]
struct PieceAnswer {
    place: usize,
    text: Vec<u8>,
}

/// Puts the answers to the lines of the bytes after the text, and gives what follows the last newline. The lines are shared
/// among the workers, if there are enough lines.
pub(crate) fn answer_batch<'a, R: Threads + Wait + Sync>(
    context: &SweepContext<'_, R>,
    bytes: &'a [u8],
    text: &mut Vec<u8>,
) -> Result<&'a [u8], Shortage>
    ensures answered { IfOk result (λ rest. (said : List ℕ)
        × AnswersFront (answers_of context.now.kind.now) bytes.now rest.now said
        × (text.new.items ≡ text.old.items ++ said)) }
    ensures spawn { result ≡ Err Spawn → 2 ≤ context.now.workers }
{
    let workers = context.workers.min(bytes.len() / SHARE_SIZE);
    if workers < 2 {
        return answer_lines(context.alloc, context.kind, bytes, text);
    }
    let (pieces, rest) = cut_pieces(context.alloc, bytes)?;
    let next = AtomicUsize::new(0);
    let done = answer_among(context, workers.min(pieces.len()), &pieces, &next)?;
    push_answers(context, &pieces, &done, text)?;
    answer_lines(context.alloc, context.kind, rest, text)
}

/// The answers to pieces that so many workers take, each the next that none has taken. The first has a thread of its own, and
/// the others work beside it. The condition is that there may be so many.
fn answer_among<R: Threads + Wait + Sync>(
    context: &SweepContext<'_, R>,
    workers: usize,
    pieces: &[&[u8]],
    next: &AtomicUsize,
) -> Result<Vec<PieceAnswer>, Shortage>
    requires { workers ≤ context.now.workers }
    ensures { IfOk result (λ done.
        All (IsAnswered (answers_of context.now.kind.now) (map (λ piece. piece.now) pieces.now)) done.items) }
{
    if workers < 2 {
        return answer_pieces(context, pieces, next);
    }
    let mut first = || -> Result<Vec<PieceAnswer>, Shortage>
        ensures { IfOk result (λ done. All (IsAnswered (answers_of context.entry.now.kind.now)
            (map (λ piece. piece.now) pieces.entry.now)) done.items) }
    { answer_pieces(context, pieces, next) };
    let mut others = || -> Result<Vec<PieceAnswer>, Shortage>
        requires { (2 ≤ workers) × (workers ≤ context.now.workers) }
        ensures { IfOk result (λ done. All (IsAnswered (answers_of context.entry.now.kind.now)
            (map (λ piece. piece.now) pieces.entry.now)) done.items) }
    { answer_among(context, workers - 1, pieces, next) };
    match in_parallel(context.rt, &mut first, &mut others) {
        Ok((here, there)) => joined_answers(here, there),
        Err(shortage) => Err(shortage),
    }
}

/// All answers, if both have some.
fn joined_answers(
    here: Result<Vec<PieceAnswer>, Shortage>,
    there: Result<Vec<PieceAnswer>, Shortage>,
) -> Result<Vec<PieceAnswer>, Shortage>
    ensures { IfOk result (λ done.
        IsOkAnd here (λ here. IsOkAnd there (λ there. done.items ≡ here.items ++ there.items))) }
{
    let mut done = here?;
    done.append(&mut there?)?;
    Ok(done)
}

/// The answers to the pieces that one worker takes.
fn answer_pieces<R>(
    context: &SweepContext<'_, R>,
    pieces: &[&[u8]],
    next: &AtomicUsize,
) -> Result<Vec<PieceAnswer>, Shortage>
    ensures answers { IfOk result (λ done.
        All (IsAnswered (answers_of context.now.kind.now) (map (λ piece. piece.now) pieces.now)) done.items) }
    ensures memory { IfErr result (λ shortage. shortage ≡ OutOfMemory) }
{
    let mut done = Vec::new(context.alloc);
    for _ in 0..pieces.len() {
        let place = next.fetch_add(1, Ordering::SeqCst);
        if place >= pieces.len() {
            break;
        }
        let answered = answer_piece(context, pieces[place], place)?;
        let Ok(()) = done.push(answered) else {
            return Err(Shortage::OutOfMemory);
        };
    }
    Ok(done)
}

/// The answers to the piece at a place.
fn answer_piece<R>(
    context: &SweepContext<'_, R>,
    piece: &[u8],
    place: usize,
) -> Result<PieceAnswer, Shortage>
    ensures text { IfOk result (λ answered.
        AnswersPiece (answers_of context.now.kind.now) piece.now answered.text.items) }
    ensures place { IfOk result (λ answered. answered.place ≡ place) }
    ensures memory { IfErr result (λ shortage. shortage ≡ OutOfMemory) }
{
    let mut text = Vec::new(context.alloc);
    match answer_lines(context.alloc, context.kind, piece, &mut text) {
        Ok(_) => Ok(PieceAnswer { place, text }),
        Err(shortage) => Err(shortage),
    }
}

/// Puts the answers to all pieces after the text, in the order of the pieces.
fn push_answers<R>(
    context: &SweepContext<'_, R>,
    pieces: &[&[u8]],
    done: &[PieceAnswer],
    text: &mut Vec<u8>,
) -> Result<(), Shortage>
    requires lines { All (λ piece. EndsWithNewline piece.now) pieces.now }
    requires done { All (IsAnswered (answers_of context.now.kind.now) (map (λ piece. piece.now) pieces.now)) done.now }
    ensures { OnOk result ((said : List ℕ) ×
        LeadsPiece (answers_of context.now.kind.now) (flat_map (λ piece. piece.now) pieces.now) said
        × (text.new.items ≡ text.old.items ++ said)) }
{
    let found = indices_by_piece(context.alloc, done, pieces.len())?;
    for place in 0..pieces.len() {
        push_piece_answer(context, pieces, place, done, &found, text)?;
    }
    Ok(())
}

/// For each of `count` pieces, the index of its answers in `done`, or the length of `done` if they are not there.
fn indices_by_piece(
    alloc: Global,
    done: &[PieceAnswer],
    count: usize,
) -> Result<Vec<usize>, AllocError> {
    let mut found = vec![in alloc; done.len(); count]?;
    for (index, answered) in done.iter().enumerate() {
        if let Some(at) = found.get_mut(answered.place) {
            *at = index;
        }
    }
    Ok(found)
}

/// Puts the answers to the piece at the place after the text. A piece that is not found among those done is answered here.
fn push_piece_answer<R>(
    context: &SweepContext<'_, R>,
    pieces: &[&[u8]],
    place: usize,
    done: &[PieceAnswer],
    found: &[usize],
    text: &mut Vec<u8>,
) -> Result<(), Shortage>
    requires place { place < length pieces.now }
    requires done { All (IsAnswered (answers_of context.now.kind.now) (map (λ piece. piece.now) pieces.now)) done.now }
    ensures { OnOk result ((said : List ℕ)
        × AnswersPiece (answers_of context.now.kind.now) (get_or (map (λ piece. piece.now) pieces.now) place []) said
        × (text.new.items ≡ text.old.items ++ said)) }
{
    if let Some(answers) = text_of_piece(done, found, place) {
        text.extend_from_slice(answers)?;
        return Ok(());
    }
    answer_lines(context.alloc, context.kind, pieces[place], text)?;
    Ok(())
}

/// The text of the answer to the piece at the place, if it is found where it should be.
fn text_of_piece<'a>(done: &'a [PieceAnswer], found: &[usize], place: usize) -> Option<&'a [u8]>
    ensures { IfSome result (λ text. (answered : PieceAnswer) × Contains done.now answered
        × (answered.place ≡ place) × (text.now ≡ answered.text.items)) }
{
    let answered = done.get(*found.get(place)?)?;
    if answered.place != place {
        return None;
    }
    Some(&answered.text)
}

/// Cuts bytes into pieces, each up to a newline, and what follows them.
fn cut_pieces(alloc: Global, bytes: &[u8]) -> Result<(Vec<&[u8]>, &[u8]), AllocError>
    ensures lines { IfOk result (λ r. All (λ piece. EndsWithNewline piece.now) r.0.items) }
    ensures whole { IfOk result (λ r. bytes.now ≡ flat_map (λ piece. piece.now) r.0.items ++ r.1.now) }
{
    let mut pieces = Vec::new(alloc);
    let mut rest = bytes;
    while let Some((piece, after)) = first_piece(rest) {
        pieces.push(piece)?;
        rest = after;
    }
    Ok((pieces, rest))
}

/// The first piece, up to a newline, and what follows it; `None` if there is no newline to end it. Near the end a piece is
/// half of what is left, and then the rest of a line.
fn first_piece(bytes: &[u8]) -> Option<(&[u8], &[u8])>
    ensures { IfSome result (λ r. EndsWithNewline r.0.now × (bytes.now ≡ r.0.now ++ r.1.now)) }
{
    let (_, later) = bytes.split_at(PIECE_SIZE.min(bytes.len() / 2));
    let (_, after) = cut(later, b'\n');
    let Some(after) = after else {
        return None;
    };
    Some((&bytes[..bytes.len() - after.len()], after))
}
