//! Schedules: their steps are played one after another.
ghost use Rattle.std.specs.Prelude.{◌≡◌, ◌≢◌, ℕ, ◌<◌, ◌≤◌, List, [], ◌∷◌, ◌++◌, length, slice_get, Some, MatchResult, MatchOption, OnErr, None};
ghost use Rattle.dg_chips.specs.Starts.{StartData};
ghost use Rattle.dg_rules.specs.Legal.{IsSeatNumber};
ghost use Rattle.dg_rules.specs.Look.{IsRightFinding, request_for_finding, request_for_question};
ghost use Rattle.dg_game.specs.Schedule.{UsesUpLook, KeepsLookAt, IsStepRequest, HasTrials, IsRehearsal};
ghost use Rattle.dg_game.specs.ScheduleFaults.{IsRehearsalFault};
ghost use Rattle.dg_game.specs.Rehearsal.{KeepsLook, IsRehearsalAfter, IsRehearsalState, PlaysStep, RefusesStep};
ghost use Rattle.dg_rules.specs.declared.entry.Entry.{Entry};
ghost use Rattle.dg_rules.specs.declared.step.Command.{Command};
ghost use Rattle.dg_rules.specs.declared.step.Step.{Step};
ghost use Rattle.dg_rules.specs.declared.step.Command.TheVariants.{Call, Commit, Rank};

use crate::ranking::rank_look;
use dg_chips::Start;
use dg_rank::{RankFault, trials};
use dg_reduce::InverseLaplacian;
use dg_rules::{
    BLANK, Command, Entry, Finding, Game, LookData, MAX_ENTRIES, MAX_SEATS, Plain, Question, Step,
    judge_look, renew_inverse,
};
use std::alloc::Allocator;
use thiserror::Error;

/// Why a schedule is not played. Steps are numbered from 0; the texts count them from 1.
#[derive(Clone, Copy, Debug, PartialEq, Eq, Error)]
pub enum RehearseFault {
    /// The step's seat is not 1 to 64.
    #[error("step {}: seat", .0.saturating_add(1))]
    Seat(usize),
    /// The history has no room for the step.
    #[error("step {}: full", .0.saturating_add(1))]
    Full(usize),
    /// The step wants a look, and its seat keeps none.
    #[error("step {}: no look", .0.saturating_add(1))]
    NoLook(usize),
    /// The step is a rank test of a degree above 1,000, or with more than 200,000 trials.
    #[error("step {}: {}", .0.saturating_add(1), RankFault::TooMany)]
    TooMany(usize),
    /// There is not enough memory.
    #[error("out of memory")]
    OutOfMemory,
}

/// A schedule that is being played: the game, its vertex q, and for each seat the look that it keeps.
#[derive(Drop)]
pub struct Rehearsal {
    /// The game as it stands.
    pub game: Game,
    /// The vertex from which verdicts are computed.
    pub q: usize,
    /// What serves its verdicts, made anew after an edge was added; no answer depends on it.
    pub inverse: InverseLaplacian,
    /// The look that a seat has taken last and not used up, at the place of the seat's number.
    pub looks: [Option<LookData>; 65],
}

/// Plays the steps one after another from the start, and gives the history: entry j has the seat and the request of
/// step j. A commit enters the verdict on the last look of its seat, and uses the look up; so does a rank test. The program
/// plays its steps by `Rehearsal::play`, too, and keeps no history: what it prints is promised in the same words.
///
/// Refused with `OutOfMemory`, and then step by step with `Seat` if a seat is not 1 to 64, with `Full` for the step
/// of number 65,536, with `NoLook` if the seat of a commit or of a rank test keeps no look, and with `TooMany` if
/// a rank test is past the limits: a degree of 1,000, and 200,000 trials. A refusal gives no history.
pub fn rehearse<A: Allocator + Drop>(
    alloc: A,
    start: &Start,
    steps: &[Step],
) -> Result<Vec<Entry, A>, RehearseFault>
    ensures { MatchResult result
        (λ history. IsRehearsal start.now steps.now history.items)
        (IsRehearsalFault start.now.graph.size steps.now) }
{
    let Ok(mut history) = Vec::with_capacity(alloc, steps.len().min(MAX_ENTRIES)) else {
        return Err(RehearseFault::OutOfMemory);
    };
    let mut rehearsal = Rehearsal::new(start);
    let mut entry = BLANK;
    for step in steps {
        rehearsal.play(step, &mut entry)?;
        history.push(entry).unwrap();
    }
    Ok(history)
}

impl Rehearsal {
    /// The schedule before its first step.
    pub fn new(start: &Start) -> Rehearsal
        ensures { (steps : List Step) → IsRehearsalAfter start.now steps [] result }
    {
        let q = start.q();
        Rehearsal {
            game: Game::new(start),
            q,
            inverse: InverseLaplacian::new(start.graph(), q),
            looks: [None; 65],
        }
    }

    /// Plays the next step, and writes its entry. The condition is that steps were played from a start, and nothing else
    /// has happened to the game, the vertex q or the looks.
    ///
    /// Refused with `Seat`, `Full`, `NoLook` or `TooMany` as `rehearse` refuses the step; then nothing has changed.
    pub fn play(&mut self, step: &Step, entry: &mut Entry) -> Result<(), RehearseFault>
        requires { IsRehearsalState self.old }
        ensures plays { MatchResult result
            (λ _. (self.old.game.entries < MAX_ENTRIES) × PlaysStep self.old step.now entry.new self.new)
            (RefusesStep self.old step.now) }
        ensures same { OnErr result ((self.new ≡ self.old) × (entry.new ≡ entry.old)) }
    {
        let seat = step.seat;
        if let Some(fault) = self.seat_fault(seat) {
            return Err(fault);
        }
        match &step.command {
            Command::Call(plain) => {
                self.call(seat, plain, entry);
                Ok(())
            }
            Command::Commit => self.commit(seat, entry),
            Command::Rank(k) => self.rank(seat, *k, entry),
        }
    }

    /// Why the seat can have no step next, whatever its command.
    fn seat_fault(&self, seat: u8) -> Option<RehearseFault>
        requires { IsRehearsalState self.now }
        ensures { MatchOption result
            (IsSeatNumber seat × (self.now.game.entries < MAX_ENTRIES))
            (λ fault. (c : Command) →
            RefusesStep self.now (record { seat = seat; command = c }) fault) }
    {
        let i = self.game.entries() as usize;
        if seat < 1 || seat > MAX_SEATS {
            return Some(RehearseFault::Seat(i));
        }
        if i == MAX_ENTRIES {
            return Some(RehearseFault::Full(i));
        }
        None
    }

    /// Answers a seat's call, and writes its entry; a look is kept for the seat.
    fn call(&mut self, seat: u8, plain: &Plain, entry: &mut Entry)
        requires playing { IsRehearsalState self.old }
        requires room { self.old.game.entries < MAX_ENTRIES }
        requires seat { IsSeatNumber seat }
        ensures { PlaysStep self.old (record { seat = seat; command = Call plain.now }) entry.new self.new }
    {
        if let Plain::Look = plain {
            self.looks[usize::from(seat)] = Some(self.game.look_data());
        }
        self.game.reply_to_call(seat, plain, entry);
        self.game.follow(entry);
    }

    /// Enters the verdict on the look that a seat keeps, which is used up; or why it can't be entered.
    fn commit(&mut self, seat: u8, entry: &mut Entry) -> Result<(), RehearseFault>
        requires playing { IsRehearsalState self.old }
        requires room { self.old.game.entries < MAX_ENTRIES }
        requires seat { IsSeatNumber seat }
        ensures plays { MatchResult result
            (λ _. PlaysStep self.old (record { seat = seat; command = Commit }) entry.new self.new)
            (RefusesStep self.old (record { seat = seat; command = Commit })) }
        ensures same { OnErr result ((self.new ≡ self.old) × (entry.new ≡ entry.old)) }
    {
        let i = self.game.entries() as usize;
        let Some(look) = self.kept_look(seat) else {
            return Err(RehearseFault::NoLook(i));
        };
        if look.gifts != self.game.gifts() {
            self.enter_stale(seat, &look, &Question::Judge, entry);
            return Ok(());
        }
        let q = self.q();
        renew_inverse(&mut self.inverse, q, &look);
        let finding = judge_look(&self.inverse, q, &look);
        self.enter_finding(seat, &look, &finding, entry);
        Ok(())
    }

    /// Enters the rank test of degree k on the look that a seat keeps, which is used up; or why it can't be entered.
    fn rank(&mut self, seat: u8, k: u32, entry: &mut Entry) -> Result<(), RehearseFault>
        requires playing { IsRehearsalState self.old }
        requires room { self.old.game.entries < MAX_ENTRIES }
        requires seat { IsSeatNumber seat }
        ensures plays { MatchResult result
            (λ _. PlaysStep self.old (record { seat = seat; command = Rank k }) entry.new self.new)
            (RefusesStep self.old (record { seat = seat; command = Rank k })) }
        ensures same { OnErr result ((self.new ≡ self.old) × (entry.new ≡ entry.old)) }
    {
        let i = self.game.entries() as usize;
        let Some(look) = self.kept_look(seat) else {
            return Err(RehearseFault::NoLook(i));
        };
        if look.gifts != self.game.gifts()
            && let Some(_) = trials(look.graph.size(), k)
        {
            self.enter_stale(seat, &look, &Question::Rank(k), entry);
            return Ok(());
        }
        let Ok(finding) = rank_look(self.q(), &look, k) else {
            return Err(RehearseFault::TooMany(i));
        };
        self.enter_finding(seat, &look, &finding, entry);
        Ok(())
    }

    /// The vertex from which verdicts are computed, which is that of the game.
    fn q(&self) -> usize
        requires { IsRehearsalState self.now }
        ensures q { result ≡ self.now.game.q }
        ensures vertex { result < self.now.game.graph.size }
    {
        let _position = self.game.position();
        self.q
    }

    /// The look that a seat keeps, if it keeps one.
    fn kept_look(&self, seat: u8) -> Option<LookData>
        requires playing { IsRehearsalState self.now }
        requires seat { IsSeatNumber seat }
        ensures { (o : StartData) (H : List Entry) (steps : List Step) →
            IsRehearsalAfter o steps H self.now → KeepsLook o H steps seat result }
    {
        self.looks[usize::from(seat)]
    }

    /// Enters what was computed on the look that a seat keeps, writes the entry, and uses the look up.
    #[inline(always)]
    fn enter_finding(&mut self, seat: u8, look: &LookData, finding: &Finding, entry: &mut Entry)
        requires playing { (o : StartData) × (H : List Entry) × (steps : List Step) ×
            IsRehearsalAfter o steps H self.old × KeepsLook o H steps seat (Some look.now) }
        requires found { IsRightFinding self.old.game.q look.now finding.now }
        requires room { self.old.game.entries < MAX_ENTRIES }
        requires seat { IsSeatNumber seat }
        ensures { (o : StartData) (H : List Entry) (steps : List Step) (c : Command) →
            IsRehearsalAfter o steps H self.old → KeepsLook o H steps seat (Some look.now) →
            slice_get steps (length H) ≡ Some (record { seat = seat; command = c }) →
            UsesUpLook c → HasTrials o.graph.size c →
            IsStepRequest steps seat (length H) c (request_for_finding look.now.number finding.now) →
            IsRehearsalAfter o steps (H ++ entry.new ∷ []) self.new }
    {
        self.game.reply_to_finding(seat, look, finding, entry);
        self.game.follow(entry);
        self.looks[usize::from(seat)] = None;
    }

    /// Enters a question as stale, on the look that a seat keeps, writes the entry, and uses the look up.
    fn enter_stale(&mut self, seat: u8, look: &LookData, asks: &Question, entry: &mut Entry)
        requires playing { (o : StartData) × (H : List Entry) × (steps : List Step) ×
            IsRehearsalAfter o steps H self.old × KeepsLook o H steps seat (Some look.now) }
        requires stale { look.now.gifts ≢ self.old.game.gifts }
        requires room { self.old.game.entries < MAX_ENTRIES }
        requires seat { IsSeatNumber seat }
        ensures { (o : StartData) (H : List Entry) (steps : List Step) (c : Command) →
            IsRehearsalAfter o steps H self.old → KeepsLook o H steps seat (Some look.now) →
            slice_get steps (length H) ≡ Some (record { seat = seat; command = c }) →
            UsesUpLook c → HasTrials o.graph.size c →
            IsStepRequest steps seat (length H) c (request_for_question look.now.number asks.now) →
            IsRehearsalAfter o steps (H ++ entry.new ∷ []) self.new }
    {
        self.game.reply_stale(seat, look, asks, entry);
        self.game.follow(entry);
        let place = usize::from(seat);
        self.looks[place] = None;
    }
}
