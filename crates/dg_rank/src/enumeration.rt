//! Trials in their order: the one with a number, which comes first, and each as a divisor.
ghost use Rattle.std.specs.Prelude.{◌≡◌, ℕ, suc, ◌<◌, ◌≤◌, ◌+◌, ◌-◌, ◌∷◌, MatchBool, length, slice_index, slice_set};
ghost use Rattle.std.specs.List.{sum};
ghost use Rattle.dg_rank.specs.Limits.{HasTrials};
ghost use Rattle.dg_rank.specs.Numbering.{trial_count, nth_trial};
ghost use Rattle.dg_rank.specs.Divisors.{HoldsTrial};
ghost use Rattle.dg_rank.specs.Trials.{IsTrialBefore};

use crate::counting::{MAX_DEGREE, MAX_TRIALS, capped_trial_count};
use dg_chips::Divisor;
use dg_graph::MAX_VERTICES;
use std::marker::Model;

/// A trial: an amount for each place, none of them a debt.
#[derive(Drop)]
pub struct Trial {
    size: usize,
    amounts: [u32; 16],
}

impl Model for Trial {
    ghost use Rattle.std.specs.Prelude.{ℕ, ◌≤◌, List, take};
    ghost use Rattle.dg_graph.specs.declared.graph.TheConstants.{MAX_VERTICES};

    ghost Value = { List ℕ };

    ghost view = { λ a. take a.size a.amounts };

    ghost invariant = { λ a. a.size ≤ MAX_VERTICES };
}

impl Trial {
    /// The number of places, at most 16.
    pub fn size(&self) -> usize
        ensures size { result ≡ length self.now }
        ensures few { result ≤ MAX_VERTICES }
    {
        self.size
    }

    /// The amount of a place.
    pub fn get(&self, v: usize) -> u32
        requires { v < length self.now }
        ensures { result ≡ slice_index self.now v }
    {
        let amounts = &self.amounts;
        amounts[v]
    }

    /// Changes the amount of a place.
    pub(crate) fn set(&mut self, v: usize, amount: u32)
        requires { v < length self.old }
        ensures { self.new ≡ slice_set self.old v amount }
    {
        let amounts = &mut self.amounts;
        amounts[v] = amount;
    }

    /// The same trial with so many dollars more at a place.
    pub(crate) fn with_more(self, v: usize, dollars: u32) -> Trial
        requires place { v < length self }
        requires few { slice_index self v ≤ MAX_DEGREE }
        requires dollars { dollars ≤ MAX_DEGREE }
        ensures { result ≡ slice_set self v (slice_index self v + dollars) }
    {
        let mut more = self;
        let amount = more.get(v) + dollars;
        more.set(v, amount);
        more
    }

    /// The trial of degree k on n vertices with this number, counted from 0 in the order of trials.
    pub fn nth(n: usize, k: u32, i: u32) -> Trial
        requires { (c : ℕ) × HasTrials n k c × (i < c) }
        ensures { result ≡ nth_trial n k i }
    {
        let mut trial = Trial {
            size: n,
            amounts: [0; 16],
        };
        let mut left = k;
        let mut number = i;
        for v in 0..n - 1 {
            let (amount, rest) = first_amount(n - 1 - v, left, number);
            trial.set(v, amount);
            left -= amount;
            number = rest;
        }
        trial.set(n - 1, left);
        trial
    }

    /// The trial on n places that holds so many dollars at the last, and nothing elsewhere.
    pub(crate) fn all_at_last(n: usize, dollars: u32) -> Trial
        requires some { 0 < n }
        requires few { n ≤ MAX_VERTICES }
        ensures places { length result ≡ n }
        ensures held { slice_index result (n - 1) ≡ dollars }
        ensures empty { (u : ℕ) → u + 1 < n → slice_index result u ≡ 0 }
    {
        let mut trial = Trial {
            size: n,
            amounts: [0; 16],
        };
        trial.set(n - 1, dollars);
        trial
    }

    /// Whether it comes before another trial: whether it holds less at the first place at which they differ.
    pub(crate) fn is_before(&self, other: &Trial) -> bool
        requires { length other.now ≡ length self.now }
        ensures { MatchBool result
            (IsTrialBefore self.now other.now)
            (¬ IsTrialBefore self.now other.now) }
    {
        for v in 0..self.size() {
            if self.get(v) != other.get(v) {
                return self.get(v) < other.get(v);
            }
        }
        false
    }

    /// A trial as a divisor.
    pub fn to_divisor(&self) -> Divisor
        requires { sum self.now ≤ 1000 }
        ensures { HoldsTrial (length self.now) self.now result }
    {
        let size = self.size();
        let mut amounts = [0; 16];
        for v in 0..size {
            amounts[v] = i64::from(self.get(v));
        }
        Divisor::sized(&amounts[..size])
    }
}

/// The first amount of the trial with this number on one place more than n, and the number of what it leaves on the
/// other places.
fn first_amount(n: usize, k: u32, i: u32) -> (u32, u32)
    requires some { 0 < n }
    requires few { n ≤ MAX_VERTICES }
    requires small { k ≤ MAX_DEGREE }
    requires number { i < trial_count (suc n) k }
    requires limit { i ≤ MAX_TRIALS }
    ensures amount { result.0 ≤ k }
    ensures number { result.1 < trial_count n (k - result.0) }
    ensures limit { result.1 ≤ i }
    ensures trial { nth_trial (suc n) k i ≡ result.0 ∷ nth_trial n (k - result.0) result.1 }
{
    let mut rest = i;
    for amount in 0..k {
        let fewer = capped_trial_count(n, k - amount);
        if rest < fewer {
            return (amount, rest);
        }
        rest -= fewer;
    }
    (k, rest)
}
