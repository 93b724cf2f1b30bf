//! The laws of the dollar game, for every multigraph, divisor and script.

ghost use Rattle.dg_theory.specs.FiringLaws.{FiringAddsUp, ConstantsDoNothing, DifferByConstant, FiringKeepsDegree};
ghost use Rattle.dg_theory.specs.EquivalenceLaws.{EquivalenceIsReflexive, EquivalenceIsSymmetric, EquivalenceIsTransitive, EquivalentByPlays, EquivalentDegrees};
ghost use Rattle.dg_theory.specs.WinningLaws.{WinnableByScript, WinnableByClass, EquivalentWinnable};
ghost use Rattle.dg_theory.specs.ReducedLaws.{ReducedDecides, ReducedIsUnique, ReducedBelowGenus};
ghost use Rattle.dg_theory.specs.BurningLaws.{UnburntIsGreatest, GreatestIsUnique, ReducedIffBurnt, OrderShowsReduced};
ghost use Rattle.dg_theory.specs.ExistenceLaws.{ReducedExists, WinnableFromGenus};
ghost use Rattle.dg_theory.specs.JoinLaws.{JoinAddsEdge, JoinedIsMultigraph, ValenceGrows, EdgeKeepsSize};
ghost use Rattle.dg_theory.specs.RankLaws.{EquivalentRank, EquivalentLoss, RankIsMonotone, RankZeroIffWinnable, RankFromDegree, RankAtMostDegree, FirstLossIsUnique, LossBoundsRank};
ghost use Rattle.dg_theory.specs.DualityLaws.{RiemannRoch, RankOfDual, DualTests, LossOfDual, RankAboveGenus, RankExists, RankIsUnique, RankOfSum, Clifford, CliffordOrRiemannRoch};
ghost use Rattle.dg_theory.specs.Orders.{LossIffBurns};
ghost use Rattle.dg_theory.specs.Twins.{ExchangeKeepsWinnable};

/// Firing by one script and then by another is firing by their sum, and keeps the degree. A constant script changes
/// nothing; two scripts do the same exactly if they differ by a constant.
pub fn laws_of_firing()
    ensures adds_up { FiringAddsUp }
    ensures constant { ConstantsDoNothing }
    ensures same { DifferByConstant }
    ensures degree { FiringKeepsDegree }
{}

/// Linear equivalence is an equivalence of divisors on the vertices; two divisors are equivalent exactly if some list
/// of lendings and borrowings leads from one to the other, and then they have the same degree.
pub fn laws_of_equivalence()
    ensures reflexive { EquivalenceIsReflexive }
    ensures symmetric { EquivalenceIsSymmetric }
    ensures transitive { EquivalenceIsTransitive }
    ensures by_plays { EquivalentByPlays }
    ensures degree { EquivalentDegrees }
{}

/// A divisor is winnable exactly if some script clears all debts, and exactly if it is equivalent to an effective
/// divisor. So of equivalent divisors either both are winnable or neither is. A winnable divisor stays so if the amounts of
/// two twins are exchanged, vertices to which each other one has as many edges.
pub fn laws_of_winning()
    ensures by_script { WinnableByScript }
    ensures by_class { WinnableByClass }
    ensures equivalent { EquivalentWinnable }
    ensures twins { ExchangeKeepsWinnable }
{}

/// A divisor is equivalent to at most one that is reduced for q, and it is winnable exactly if that one is not in
/// debt at q.
pub fn laws_of_reduced()
    ensures once { ReducedIsUnique }
    ensures decides { ReducedDecides }
{}

/// What burning tells of a divisor without debt off q: what it leaves is the greatest set that fires without debt off q, of
/// which there is only one; it leaves nothing exactly if the divisor is reduced; and if all vertices burn from it in any
/// order, it is reduced.
pub fn laws_of_burning()
    ensures unburnt { UnburntIsGreatest }
    ensures one { GreatestIsUnique }
    ensures burnt { ReducedIffBurnt }
    ensures all { OrderShowsReduced }
{}

/// A divisor that is reduced for q and in debt at q has a degree below the genus.
pub fn laws_of_genus()
    ensures { ReducedBelowGenus }
{}

/// What exists in every multigraph, for amounts of any size: each divisor can be fired to one that is reduced for q, by
/// a script that is 0 at q; and a divisor whose degree is at least the genus is winnable.
pub fn laws_of_existence()
    ensures reduced { ReducedExists }
    ensures rich { WinnableFromGenus }
{}

/// What rank tests tell: a rank of at least k + 1 is one of at least k, and the rank is at least 0 exactly if the
/// divisor is winnable; a degree of at least the genus and k more gives a rank of at least k, and one below k gives
/// none. A first loss, of which there is at most one, shows that the rank is less. Equivalent divisors have the same
/// rank and the same first loss.
pub fn laws_of_rank()
    ensures below { RankIsMonotone }
    ensures zero { RankZeroIffWinnable }
    ensures rich { RankFromDegree }
    ensures poor { RankAtMostDegree }
    ensures loss { LossBoundsRank }
    ensures loss_once { FirstLossIsUnique }
    ensures rank { EquivalentRank }
    ensures first_loss { EquivalentLoss }
{}

/// What an edge more between two different vertices does: it is the one edge that is added, it makes a multigraph of a
/// multigraph, it meets its two vertices alone, and no vertex is added.
pub fn laws_of_joining()
    ensures edges { JoinAddsEdge }
    ensures multigraph { JoinedIsMultigraph }
    ensures valence { ValenceGrows }
    ensures size { EdgeKeepsSize }
{}

/// The theorem of Riemann and Roch: the rank of a divisor less that of its residual, which is the canonical divisor less it, is
/// the degree, plus 1, less the genus. So one rank tells the other; a rank test of one passes exactly if that of the
/// other does, at degrees that differ by as much; and a loss that one can't bear shows that the other can't bear all. From
/// the genus on, only rich divisors pass. Every divisor has a rank, and just one; that of a sum is at least the sum of the
/// ranks, if neither is -1; and by Clifford's theorem it is at most half of the degree, if neither it nor the rank of the
/// residual is -1. So no test of more than half of the degree passes but of a rich divisor.
pub fn laws_of_duality()
    ensures ranks { RiemannRoch }
    ensures dual { RankOfDual }
    ensures tests { DualTests }
    ensures loss { LossOfDual }
    ensures high { RankAboveGenus }
    ensures exists { RankExists }
    ensures once { RankIsUnique }
    ensures sum { RankOfSum }
    ensures clifford { Clifford }
    ensures half { CliffordOrRiemannRoch }
{}

/// A divisor has a loss of k dollars exactly if some equivalent one, without debt off q, burns from q in some order once at
/// most k dollars are taken from it: as many as it holds beyond the divisor of the order. Its debt at q is at most the genus
/// and k less the degree, so there are only finitely many to try.
pub fn law_of_burning_losses()
    ensures { LossIffBurns }
{}
