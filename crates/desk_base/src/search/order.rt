//! The order of rows and positions, and whether a position is a prefix of another.
ghost use Rattle.std.specs.Prelude.{◌≡◌, ◌↔◌, IsTrue, refl};
ghost use Rattle.std.specs.Ordering.{nat_cmp, eq_by_cmp, as_partial_cmp, is_eq};
ghost use Rattle.std.specs.Cmp.{equiv, partial_order_from_own_ties, po, partial_equiv_from_equiv};
ghost use Rattle.std.specs.Cmp.Lexicographic.{slice_cmp};
ghost use Rattle.desk_base.specs.search.Order.{pick_cmp, start_picks_cmp, found_cmp, position_cmp, Begins};
ghost use Rattle.desk_base.specs.search.OrderLaws.{found_total, position_total};
ghost use Rattle.std.proofs.lemmas.Cmp.{eq_by_cmp_equiv};

use crate::search::results::{Found, Picks, Position};
use crate::values::ids::ResourceId;
use crate::values::minutes::Minute;
use std::cmp::Ordering;

fn number_cmp(a: u32, b: u32) -> Ordering
    ensures { result ≡ nat_cmp a b }
{
    a.cmp(&b)
}

fn pick_cmp(a: Option<ResourceId>, b: Option<ResourceId>) -> Ordering
    ensures { result ≡ pick_cmp a b }
{
    match (a, b) {
        (Some(a), Some(b)) => number_cmp(a.get(), b.get()),
        (Some(_), None) => Ordering::Less,
        (None, Some(_)) => Ordering::Greater,
        (None, None) => Ordering::Equal,
    }
}

fn picks_cmp(a: &[Option<ResourceId>], b: &[Option<ResourceId>]) -> Ordering
    ensures { result ≡ slice_cmp pick_cmp a.now b.now }
{
    match a {
        [] => match b {
            [] => Ordering::Equal,
            [_, ..] => Ordering::Less,
        },
        [first, others @ ..] => match b {
            [] => Ordering::Greater,
            [second, more @ ..] => match pick_cmp(*first, *second) {
                Ordering::Less => Ordering::Less,
                Ordering::Equal => picks_cmp(others, more),
                Ordering::Greater => Ordering::Greater,
            },
        },
    }
}

fn start_picks_cmp(a_start: Minute, a: &Picks, b_start: Minute, b: &Picks) -> Ordering
    ensures { result ≡ start_picks_cmp a_start a.now b_start b.now }
{
    match number_cmp(a_start.get(), b_start.get()) {
        Ordering::Less => Ordering::Less,
        Ordering::Equal => picks_cmp(a.as_slice(), b.as_slice()),
        Ordering::Greater => Ordering::Greater,
    }
}

fn position_cmp(a: &Position, b: &Position) -> Ordering
    ensures { result ≡ position_cmp a.now b.now }
{
    start_picks_cmp(a.start, &a.picks, b.start, &b.picks)
}

fn found_cmp(a: &Found, b: &Found) -> Ordering
    ensures { result ≡ found_cmp a.now b.now }
{
    start_picks_cmp(a.start, &a.picks, b.start, &b.picks)
}

fn is_equal(order: Ordering) -> bool
    ensures { result ≡ is_eq order }
{
    match order {
        Ordering::Equal => true,
        Ordering::Less => false,
        Ordering::Greater => false,
    }
}

impl PartialEq for Found {
    ghost eq = { eq_by_cmp found_cmp };

    ghost laws = { partial_equiv_from_equiv (eq_by_cmp_equiv found_total) };

    fn eq(&self, other: &Found) -> bool {
        is_equal(found_cmp(self, other))
    }
}

impl Eq for Found {
    ghost laws = { eq_by_cmp_equiv found_total };
}

impl PartialOrd for Found {
    ghost partial_cmp = { as_partial_cmp found_cmp };

    ghost laws = { po found_total (λ x y. refl) };

    fn partial_cmp(&self, other: &Found) -> Option<Ordering> {
        Some(found_cmp(self, other))
    }
}

impl Ord for Found {
    ghost cmp = { found_cmp };

    ghost total = { found_total };

    ghost matches_partial_cmp = { λ x y. refl };

    ghost matches_eq = { λ x y. refl };

    fn cmp(&self, other: &Found) -> Ordering {
        found_cmp(self, other)
    }
}

impl PartialEq for Position {
    ghost eq = { eq_by_cmp position_cmp };

    ghost laws = { partial_equiv_from_equiv (eq_by_cmp_equiv position_total) };

    fn eq(&self, other: &Position) -> bool {
        is_equal(position_cmp(self, other))
    }
}

impl Eq for Position {
    ghost laws = { eq_by_cmp_equiv position_total };
}

impl PartialOrd for Position {
    ghost partial_cmp = { as_partial_cmp position_cmp };

    ghost laws = { po position_total (λ x y. refl) };

    fn partial_cmp(&self, other: &Position) -> Option<Ordering> {
        Some(position_cmp(self, other))
    }
}

impl Ord for Position {
    ghost cmp = { position_cmp };

    ghost total = { position_total };

    ghost matches_partial_cmp = { λ x y. refl };

    ghost matches_eq = { λ x y. refl };

    fn cmp(&self, other: &Position) -> Ordering {
        position_cmp(self, other)
    }
}

impl Position {
    /// Whether this position is a prefix of the other: from the same start, its picks are the first picks of the other. A position
    /// is a prefix of itself, and comes before every other that it begins.
    pub fn begins(&self, other: &Position) -> bool
        ensures { IsTrue result ↔ Begins self.now other.now }
    {
        self.start == other.start && other.picks.as_slice().starts_with(self.picks.as_slice())
    }
}
