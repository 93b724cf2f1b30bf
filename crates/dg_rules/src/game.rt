//! The game as it stands, and what calls and findings do to it. It answers first, and follows the entry once that stands, because
//! a table's cell may refuse it.
ghost use Rattle.std.specs.Prelude.{◌≡◌, ◌≢◌, ℕ, ◌+◌, ◌<◌, ◌≤◌, List, [], ◌∷◌, ◌++◌, MatchOption, MatchResult, ⊤};
ghost use Rattle.std.specs.Bool.{OnTrue};
ghost use Rattle.std.specs.Int.RustNames.{unsigned_abs};
ghost use Rattle.dg_chips.specs.Starts.{StartData};
ghost use Rattle.dg_chips.specs.Vector.{at};
ghost use Rattle.dg_chips.specs.Moves.{move_script};
ghost use Rattle.dg_theory.specs.Firing.{FiresTo, AreEquivalent};
ghost use Rattle.dg_verdict.specs.Right.{IsRightVerdict};
ghost use Rattle.dg_rules.specs.MoveReplies.{RepliesToMove};
ghost use Rattle.dg_rules.specs.GiftReplies.{RepliesToGift};
ghost use Rattle.dg_rules.specs.JoinReplies.{RepliesToJoin};
ghost use Rattle.dg_rules.specs.Replies.{Replies, RepliesAt, RepliesToClaim};
ghost use Rattle.dg_rules.specs.History.{with_entry};
ghost use Rattle.dg_rules.specs.Legal.{IsSeatNumber, IsLegal};
ghost use Rattle.dg_rules.specs.Look.{IsLookAt, IsRightFinding, request_for_finding, request_for_question, KeepsFinding};
ghost use Rattle.dg_rules.specs.State.{IsState, LeadsTo, IsRightReply, IsNextState, position_of};
ghost use Rattle.dg_rules.specs.Requests.{call_request};
ghost use Rattle.dg_rules.specs.declared.entry.Entry.{Entry as EntryData};
ghost use Rattle.dg_rules.specs.declared.entry.Reply.TheVariants.{Given, Refused, Stale};

use crate::entry::{BLANK, Entry, MAX_GIFT, Plain, Refusal, Reply, Request};
use crate::finding::{Finding, Question};
use crate::look::LookData;
use dg_chips::{Divisor, Drift, MAX_ENTRY, Move, Start, apply};
use dg_graph::Graph;
use dg_verdict::{Verdict, judge, rebase};
use std::marker::Model;

/// The most entries that a history may have.
pub const MAX_ENTRIES: usize = 65_536;

/// A game as it stands: the graph and the vertex q, the amounts, how often each vertex has lent by the accepted moves,
/// how many gifts, levies and joins were accepted and how many entries there are.
#[derive(Clone, Copy)]
pub struct Game {
    graph: Graph,
    q: usize,
    amounts: Divisor,
    drift: Drift,
    gifts: u32,
    entries: u32,
}

impl Model for Game {
    ghost use Rattle.dg_rules.specs.State.{GameState, IsState};

    ghost Value = { GameState };

    ghost view = { λ a. record {
      graph = a.graph;
      q = a.q;
      amounts = a.amounts;
      drift = a.drift;
      gifts = a.gifts;
      entries = a.entries;
    } };

    ghost invariant = { λ a. IsState (record {
      graph = a.graph;
      q = a.q;
      amounts = a.amounts;
      drift = a.drift;
      gifts = a.gifts;
      entries = a.entries;
    }) };

    ghost inverse = { λ s. record {
      graph = s.graph;
      q = s.q;
      amounts = s.amounts;
      drift = s.drift;
      gifts = s.gifts;
      entries = s.entries;
    } };
}

impl Game {
    /// The game at its start.
    pub fn new(start: &Start) -> Game
        ensures { LeadsTo start.now [] result }
    {
        Game {
            graph: *start.graph(),
            q: start.q(),
            amounts: *start.divisor(),
            drift: Drift::zero(start.graph()),
            gifts: 0,
            entries: 0,
        }
    }

    /// The graph now.
    pub fn graph(&self) -> &Graph
        ensures { result.now ≡ self.now.graph }
    {
        &self.graph
    }

    /// The vertex from which verdicts are computed.
    fn q(&self) -> usize
        ensures q { result ≡ self.now.q }
        ensures vertex { result < self.now.graph.size }
    {
        self.q
    }

    /// The amounts now.
    pub fn position(&self) -> &Divisor
        ensures amounts { result.now ≡ self.now.amounts }
        ensures state { IsState self.now }
    {
        &self.amounts
    }

    /// How many gifts, levies and joins were accepted.
    pub fn gifts(&self) -> u32
        ensures { result ≡ self.now.gifts }
    {
        self.gifts
    }

    /// How many entries the history has, at most 65,536.
    pub fn entries(&self) -> u32
        ensures entries { result ≡ self.now.entries }
        ensures limit { result ≤ MAX_ENTRIES }
    {
        self.entries
    }

    /// What a seat keeps of a look that is the next entry.
    pub fn look_data(&self) -> LookData
        ensures number { result.number ≡ self.now.entries }
        ensures gifts { result.gifts ≡ self.now.gifts }
        ensures graph { result.graph ≡ self.now.graph }
        ensures position { result.position ≡ self.now.amounts }
        ensures drift { result.drift ≡ self.now.drift }
    {
        LookData {
            number: self.entries,
            gifts: self.gifts,
            graph: self.graph,
            position: self.amounts,
            drift: self.drift,
        }
    }

    /// Answers a call as the game answers it after its history, and takes it into the history, which stays legal if
    /// a seat of 1 to 64 calls. It takes no memory. The condition is that there are fewer than 65,536 entries.
    pub fn act(&mut self, plain: Plain) -> Reply
        requires { self.old.entries < MAX_ENTRIES }
        ensures replies { (o : StartData) (H : List EntryData) → LeadsTo o H self.old →
            Replies o H (call_request plain) result }
        ensures leads { (o : StartData) (H : List EntryData) (seat : ℕ) → LeadsTo o H self.old →
            LeadsTo o (with_entry H seat (call_request plain) result) self.new }
        ensures legal { (o : StartData) (H : List EntryData) (seat : ℕ) → LeadsTo o H self.old →
            IsLegal o H → IsSeatNumber seat → IsLegal o (with_entry H seat (call_request plain) result) }
    {
        let mut entry = BLANK;
        self.reply_to_call(0, &plain, &mut entry);
        self.follow(&entry);
        entry.reply
    }

    /// Writes the entry of a seat's call, as the game answers it after its history. The game stays as it is: `follow` takes
    /// the entry into the history.
    #[inline(always)]
    pub fn reply_to_call(&self, seat: u8, plain: &Plain, entry: &mut Entry)
        ensures seat { entry.new.seat ≡ seat }
        ensures request { entry.new.request ≡ call_request plain.now }
        ensures here { (before : ℕ → ℕ) →
            RepliesAt (position_of self.now) self.now.q before self.now.gifts entry.new.request
            entry.new.reply }
        ensures replies { (o : StartData) (H : List EntryData) → LeadsTo o H self.now →
            Replies o H entry.new.request entry.new.reply }
        ensures legal { (o : StartData) (H : List EntryData) → LeadsTo o H self.now →
            IsLegal o H → IsSeatNumber seat → IsLegal o (H ++ entry.new ∷ []) }
    {
        entry.seat = seat;
        plain.write_request(&mut entry.request);
        self.reply_to_plain(plain, &mut entry.reply);
    }

    /// Writes the reply to a call that is right as the game stands. It is inlined, so that what a look shows is copied once, not
    /// twice, if the caller knows that the game and the reply lie apart.
    #[inline(always)]
    fn reply_to_plain(&self, plain: &Plain, reply: &mut Reply)
        ensures { (before : ℕ → ℕ) →
            RepliesAt (position_of self.now) self.now.q before self.now.gifts (call_request plain.now) reply.new }
    {
        match plain {
            Plain::Move(play) => self.reply_to_move(play, reply),
            Plain::Gift(v, dollars) => self.reply_to_gift(*v, *dollars, reply),
            Plain::Join(u, v) => self.reply_to_join(*u, *v, reply),
            Plain::Look => *reply = Reply::Looked(self.gifts, self.amounts, self.graph),
            Plain::Claim => self.reply_to_claim(reply),
        }
    }

    /// Writes the reply to a move.
    #[inline(never)]
    fn reply_to_move(&self, play: &Move, reply: &mut Reply)
        ensures { RepliesToMove (position_of self.now) play.now reply.new }
    {
        match apply(&self.graph, &self.amounts, play) {
            Ok(amounts) => *reply = Reply::Moved(amounts),
            Err(fault) => refuse(reply, Refusal::from(fault)),
        }
    }

    /// Writes the reply to a gift or a levy.
    #[inline(never)]
    fn reply_to_gift(&self, v: u8, dollars: i64, reply: &mut Reply)
        ensures { RepliesToGift (position_of self.now) self.now.gifts v dollars reply.new }
    {
        match self.after_gift(v, dollars) {
            Ok(amounts) => *reply = Reply::Given(self.gifts + 1, amounts),
            Err(refusal) => refuse(reply, refusal),
        }
    }

    /// Writes the reply to a join.
    #[inline(never)]
    fn reply_to_join(&self, u: u8, v: u8, reply: &mut Reply)
        ensures { RepliesToJoin (position_of self.now) self.now.gifts u v reply.new }
    {
        match self.graph.check_join(u, v) {
            Ok(()) => *reply = Reply::Joined(self.gifts + 1, self.amounts),
            Err(fault) => refuse(reply, Refusal::from(fault)),
        }
    }

    /// Writes the reply to a claim.
    fn reply_to_claim(&self, reply: &mut Reply)
        ensures { RepliesToClaim (position_of self.now) reply.new }
    {
        if self.amounts.is_effective() {
            *reply = Reply::Won;
        } else {
            *reply = Reply::NotWon;
        }
    }

    /// Takes an entry that was answered rightly into the history. It takes no memory. The conditions are that there are fewer
    /// than 65,536 entries, and that the reply is the right one as the game stands.
    pub fn follow(&mut self, entry: &Entry)
        requires room { self.old.entries < MAX_ENTRIES }
        requires right { IsRightReply self.old entry.now.request entry.now.reply }
        ensures next { IsNextState self.old entry.now.request entry.now.reply self.new }
        ensures leads { (o : StartData) (H : List EntryData) → LeadsTo o H self.old →
            Replies o H entry.now.request entry.now.reply →
            LeadsTo o (H ++ entry.now ∷ []) self.new }
    {
        self.update(entry);
    }

    /// Takes an entry that was answered rightly into the state of the game.
    fn update(&mut self, entry: &Entry)
        requires room { self.old.entries < MAX_ENTRIES }
        requires right { IsRightReply self.old entry.now.request entry.now.reply }
        ensures { IsNextState self.old entry.now.request entry.now.reply self.new }
    {
        self.entries += 1;
        match &entry.reply {
            Reply::Moved(amounts) => {
                if let Request::Move(made) = &entry.request {
                    move_lends_few(made);
                    self.drift = self.drift.plus(&self.graph, made);
                    self.amounts = *amounts;
                }
            }
            Reply::Given(gifts, amounts) => {
                self.gifts = *gifts;
                self.amounts = *amounts;
            }
            Reply::Joined(gifts, _) => {
                if let Request::Join(u, v) = &entry.request
                    && let Ok(joined) = self.graph.join(*u, *v)
                {
                    self.gifts = *gifts;
                    self.graph = joined;
                }
            }
            Reply::Looked(..)
            | Reply::Verdict(_)
            | Reply::Rank(_)
            | Reply::Stale(_)
            | Reply::Won
            | Reply::NotWon
            | Reply::Refused(_) => {}
        }
    }

    /// Enters what was computed on a look: `Stale` if gifts, levies or joins were accepted since; otherwise a verdict
    /// that is right for the position now, with the reduced divisor and the burning order that were found, or the answer
    /// of the rank test as it was found. A legal history stays legal if a seat of 1 to 64 enters it. It takes no memory.
    /// The conditions are that there are fewer than 65,536 entries, that the look is one of the history, whatever its drift,
    /// and that the finding is right for the amounts of the look, on its graph.
    pub fn settle(&mut self, look: &LookData, finding: &Finding) -> Reply
        requires room { self.old.entries < MAX_ENTRIES }
        requires look { (o : StartData) × (H : List EntryData) × LeadsTo o H self.old ×
            IsLookAt o H look.now }
        requires found { IsRightFinding self.old.q look.now finding.now }
        ensures replies { (o : StartData) (H : List EntryData) → LeadsTo o H self.old →
            IsLookAt o H look.now → Replies o H (request_for_finding look.now.number finding.now) result }
        ensures leads { (o : StartData) (H : List EntryData) (seat : ℕ) → LeadsTo o H self.old →
            IsLookAt o H look.now →
            LeadsTo o (with_entry H seat (request_for_finding look.now.number finding.now) result) self.new }
        ensures legal { (o : StartData) (H : List EntryData) (seat : ℕ) → LeadsTo o H self.old →
            IsLookAt o H look.now → IsLegal o H → IsSeatNumber seat →
            IsLegal o (with_entry H seat (request_for_finding look.now.number finding.now) result) }
        ensures kept { KeepsFinding finding.now result }
    {
        let mut entry = BLANK;
        self.reply_to_finding(0, look, finding, &mut entry);
        self.follow(&entry);
        entry.reply
    }

    /// Writes the entry of what was computed on a look, answered as `settle` answers it. The game stays as it is:
    /// `follow` takes the entry into the history. The conditions are those of `settle` but for the number of entries.
    #[inline(always)]
    pub fn reply_to_finding(&self, seat: u8, look: &LookData, finding: &Finding, entry: &mut Entry)
        requires look { (o : StartData) × (H : List EntryData) × LeadsTo o H self.now ×
            IsLookAt o H look.now }
        requires found { IsRightFinding self.now.q look.now finding.now }
        ensures seat { entry.new.seat ≡ seat }
        ensures request { entry.new.request ≡ request_for_finding look.now.number finding.now }
        ensures replies { (o : StartData) (H : List EntryData) → LeadsTo o H self.now →
            IsLookAt o H look.now → Replies o H entry.new.request entry.new.reply }
        ensures legal { (o : StartData) (H : List EntryData) → LeadsTo o H self.now →
            IsLookAt o H look.now → IsLegal o H → IsSeatNumber seat → IsLegal o (H ++ entry.new ∷ []) }
        ensures kept { KeepsFinding finding.now entry.new.reply }
    {
        entry.seat = seat;
        entry.request = finding.request(look.number);
        self.reply_to_right_finding(look, finding, &mut entry.reply);
    }

    /// Writes the reply to a finding that is right as the game stands.
    #[inline(always)]
    fn reply_to_right_finding(&self, look: &LookData, finding: &Finding, reply: &mut Reply)
        requires look { (o : StartData) × (H : List EntryData) × LeadsTo o H self.now ×
            IsLookAt o H look.now }
        requires found { IsRightFinding self.now.q look.now finding.now }
        ensures replies { (o : StartData) (H : List EntryData) → LeadsTo o H self.now →
            IsLookAt o H look.now → Replies o H (request_for_finding look.now.number finding.now) reply.new }
        ensures kept { KeepsFinding finding.now reply.new }
    {
        if self.gifts != look.gifts {
            *reply = Reply::Stale(self.gifts);
            return;
        }
        match finding {
            Finding::Judged(verdict) => {
                if self.is_at(&look.position) {
                    *reply = Reply::Verdict(*verdict);
                } else {
                    let carried = self.verdict_now(&look.position, &look.drift, verdict);
                    *reply = Reply::Verdict(carried);
                }
            }
            Finding::Ranked(verdict) => *reply = Reply::Rank(*verdict),
        }
    }

    /// Writes the entry of a question on a look, if gifts, levies or joins were accepted since: it is answered with `Stale`,
    /// as `settle` answers each finding, so nothing has to be computed. The game stays as it is: `follow` takes the
    /// entry into the history. The condition is that their number is another than that before the look.
    pub fn reply_stale(&self, seat: u8, look: &LookData, asks: &Question, entry: &mut Entry)
        requires { look.now.gifts ≢ self.now.gifts }
        ensures seat { entry.new.seat ≡ seat }
        ensures request { entry.new.request ≡ request_for_question look.now.number asks.now }
        ensures stale { entry.new.reply ≡ Stale self.now.gifts }
        ensures replies { (o : StartData) (H : List EntryData) →
            LeadsTo o H self.now → IsLookAt o H look.now →
            Replies o H entry.new.request entry.new.reply }
        ensures legal { (o : StartData) (H : List EntryData) → LeadsTo o H self.now →
            IsLookAt o H look.now → IsLegal o H → IsSeatNumber seat → IsLegal o (H ++ entry.new ∷ []) }
    {
        entry.seat = seat;
        entry.request = asks.request(look.number);
        entry.reply = Reply::Stale(self.gifts());
    }

    /// Whether the position now is an earlier one.
    fn is_at(&self, then: &Divisor) -> bool
        ensures { OnTrue result (then.now.numbers ≡ self.now.amounts.numbers) }
    {
        *then == self.amounts
    }

    /// The verdict on an earlier position, carried over to the position now.
    fn verdict_now(&self, then: &Divisor, drift: &Drift, verdict: &Verdict) -> Verdict
        requires size { then.now.size ≡ self.now.graph.size }
        requires led { AreEquivalent self.now.graph (at then.now) (at self.now.amounts) }
        requires right { IsRightVerdict self.now.graph self.now.q (at then.now) verdict.now }
        ensures right { IsRightVerdict self.now.graph self.now.q (at self.now.amounts) result }
        ensures reduced { result.reduced ≡ verdict.now.reduced }
        ensures order { result.order ≡ verdict.now.order }
    {
        let _size = self.amounts.size();
        let since = self.drift_from(then, drift);
        rebase(self.q(), verdict, &since)
    }

    /// A drift that leads from an earlier position to the position now: what was lent since then, if it does; otherwise
    /// what the scripts of two verdicts differ by.
    fn drift_from(&self, then: &Divisor, drift: &Drift) -> Drift
        requires size { then.now.size ≡ self.now.graph.size }
        requires led { AreEquivalent self.now.graph (at then.now) (at self.now.amounts) }
        ensures size { result.size ≡ self.now.graph.size }
        ensures led { FiresTo self.now.graph (at result) (at then.now) (at self.now.amounts) }
    {
        if let Some(since) = self.drift_since(drift)
            && since.leads(&self.graph, then, &self.amounts)
        {
            return since;
        }
        let q = self.q();
        let before = judge(&self.graph, q, then);
        let now = judge(&self.graph, q, &self.amounts);
        Drift::between(&before.script, &now.script)
    }

    /// What the moves have lent since an earlier drift, if both have one size and the difference is within the limit.
    fn drift_since(&self, drift: &Drift) -> Option<Drift>
        ensures { MatchOption result ⊤ (λ d. d.size ≡ self.now.graph.size) }
    {
        if drift.size() != self.drift.size() {
            return None;
        }
        self.drift.since(drift)
    }

    /// The amounts after a gift, or why it is refused.
    fn after_gift(&self, v: u8, dollars: i64) -> Result<Divisor, Refusal>
        ensures { MatchResult result
            (λ d. RepliesToGift (position_of self.now) self.now.gifts v dollars
            (Given (self.now.gifts + 1) d))
            (λ refusal. RepliesToGift (position_of self.now) self.now.gifts v dollars
            (Refused refusal)) }
    {
        let v = usize::from(v);
        if v >= self.graph.size() {
            return Err(Refusal::NoVertex);
        }
        if dollars == 0 || !(-MAX_GIFT..=MAX_GIFT).contains(&dollars) {
            return Err(Refusal::Gift);
        }
        self.amounts
            .checked_add_at(v, dollars)
            .ok_or(Refusal::Range)
    }
}

/// Writes a refusal. It stands apart, so that no room for it is cleared if another reply is written.
#[cold]
#[inline(never)]
fn refuse(reply: &mut Reply, refusal: Refusal)
    ensures { reply.new ≡ Refused refusal }
{
    *reply = Reply::Refused(refusal);
}

/// A move lends, and borrows, at most 1,000,000,000 times at each vertex.
fn move_lends_few(play: &Move)
    ensures { (v : ℕ) → unsigned_abs (move_script play.now v) ≤ MAX_ENTRY }
{
    if let Move::Script(script) = play {
        let _size = script.size();
    }
}
