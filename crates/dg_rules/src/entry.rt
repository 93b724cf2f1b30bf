//! Entries of a history: what was asked, and what was answered.
ghost use Rattle.std.specs.Prelude.{◌≡◌};
ghost use Rattle.dg_rules.specs.Refusals.{refusal_for, join_refusal_for};
ghost use Rattle.dg_rules.specs.Requests.{call_request, choice_request};

use dg_chips::{Divisor, Move, MoveFault};
use dg_graph::{Graph, JoinFault};
use dg_verdict::{RankVerdict, Verdict};
use thiserror::Error;

/// The most seats of a table: they are numbered from 1 up to this.
pub const MAX_SEATS: u8 = 64;

/// The most dollars of a gift, and of a levy.
pub const MAX_GIFT: i64 = 1_000_000;

/// What a seat may ask of the game itself. Vertices are numbered from 0.
#[derive(Clone, Copy, PartialEq, Eq)]
pub enum Plain {
    /// Play a move.
    Move(Move),
    /// Give a vertex some dollars, -1,000,000 to 1,000,000 other than 0; a gift of less than 0 is a levy, which takes them.
    Gift(u8, i64),
    /// Add an edge between two vertices.
    Join(u8, u8),
    /// See the position.
    Look,
    /// Claim that nobody is in debt.
    Claim,
}

impl Plain {
    /// The call that a choice makes: its move, or a claim if it has none.
    pub fn from_choice(choice: Option<Move>) -> Plain
        ensures { call_request result ≡ choice_request choice }
    {
        match choice {
            Some(play) => Plain::Move(play),
            None => Plain::Claim,
        }
    }

    /// Writes what the entry of the call asks.
    pub fn write_request(&self, request: &mut Request)
        ensures { request.new ≡ call_request self.now }
    {
        match self {
            Plain::Move(play) => *request = Request::Move(*play),
            Plain::Gift(v, dollars) => *request = Request::Gift(*v, *dollars),
            Plain::Join(u, v) => *request = Request::Join(*u, *v),
            Plain::Look => *request = Request::Look,
            Plain::Claim => *request = Request::Claim,
        }
    }
}

/// What an entry of the history asked.
#[derive(Clone, Copy, PartialEq, Eq)]
pub enum Request {
    /// A move.
    Move(Move),
    /// A gift to a vertex, or a levy from it.
    Gift(u8, i64),
    /// An edge more between two vertices.
    Join(u8, u8),
    /// A look at the position.
    Look,
    /// A claim that nobody is in debt.
    Claim,
    /// A verdict that was computed on the look with this number.
    Judge(u32),
    /// A rank test that was computed on the look with this number, and its degree.
    Rank(u32, u32),
}

/// What an entry of the history was answered. Amounts are those after the entry, and so are the numbers of gifts, which
/// count the accepted gifts, levies and joins.
#[derive(Clone, Copy, PartialEq, Eq)]
pub enum Reply {
    /// The move was played.
    Moved(Divisor),
    /// The gift was accepted: the number of gifts, and the amounts.
    Given(u32, Divisor),
    /// The edge was added: the number of gifts, and the amounts, which are as before.
    Joined(u32, Divisor),
    /// The number of gifts, the amounts and the graph.
    Looked(u32, Divisor, Graph),
    /// Whether the position is winnable, with what shows it.
    Verdict(Verdict),
    /// The answer of the rank test.
    Rank(RankVerdict),
    /// Gifts, levies or joins were accepted since the look: their number now.
    Stale(u32),
    /// Nobody is in debt.
    Won,
    /// Somebody is in debt.
    NotWon,
    /// The move, the gift or the join was refused, and nothing has changed.
    Refused(Refusal),
}

/// Why a move, a gift or a join is refused.
#[derive(Clone, Copy, Debug, PartialEq, Eq, Error)]
pub enum Refusal {
    /// It names a vertex that is not there.
    #[error("refused vertex")]
    NoVertex,
    /// It fires the empty set.
    #[error("refused empty")]
    Empty,
    /// Its script has another size than the graph.
    #[error("refused script")]
    Script,
    /// The gift is 0, or not within 1,000,000.
    #[error("refused gift")]
    Gift,
    /// It leaves an amount that is not within 1,000,000.
    #[error("refused range")]
    Range,
    /// The join is of a vertex and itself.
    #[error("refused loop")]
    Loop,
    /// 63 edges meet at a vertex of the join already.
    #[error("refused valence")]
    Valence,
}

/// One line of the history: who asked, what, and what was answered.
#[derive(Clone, Copy, PartialEq, Eq)]
pub struct Entry {
    /// The seat, 1 to 64.
    pub seat: u8,
    /// What was asked.
    pub request: Request,
    /// What was answered.
    pub reply: Reply,
}

/// What an entry holds before it is written: no seat's, and of no meaning.
pub const BLANK: Entry = Entry {
    seat: 0,
    request: Request::Look,
    reply: Reply::Won,
};

impl From<MoveFault> for Refusal {
    ghost from_gives = { λ fault refusal. refusal ≡ refusal_for fault };

    fn from(fault: MoveFault) -> Refusal {
        match fault {
            MoveFault::NoVertex => Refusal::NoVertex,
            MoveFault::Empty => Refusal::Empty,
            MoveFault::Script => Refusal::Script,
            MoveFault::Range => Refusal::Range,
        }
    }
}

impl From<JoinFault> for Refusal {
    ghost from_gives = { λ fault refusal. refusal ≡ join_refusal_for fault };

    fn from(fault: JoinFault) -> Refusal {
        match fault {
            JoinFault::NoVertex => Refusal::NoVertex,
            JoinFault::Loop => Refusal::Loop,
            JoinFault::Valence => Refusal::Valence,
        }
    }
}
