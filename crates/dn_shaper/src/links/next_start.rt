ghost use Rattle.std.specs.Prelude.{◌≡◌, ◌+◌, ◌*◌, ◌^◌, ◌<◌, refl};
ghost use Rattle.std.specs.Ordering.{as_partial_cmp};
ghost use Rattle.std.specs.Cmp.{partial_order_from_own_ties};
ghost use Rattle.std.specs.Cmp.Rules.{comparing};
ghost use Rattle.std.proofs.Common.{rules};
ghost use Rattle.dn_shaper.specs.Refinement.NextStarts.{next_start_cmp};

use std::cmp::Ordering;

/// The next start of a link with a backlog: the moment from which the link is free, and the link's place.
///
/// The heap of links has one for each, by moment and then by place.
#[derive(Clone, Copy, Debug, PartialEq, Eq)]
pub struct NextStart {
    pub moment: u64,
    pub place: usize,
}

impl NextStart {
    /// Both in one number.
    ///
    /// So two are compared without a branch for each field, which a processor can't foresee in a heap of many links.
    fn key(&self) -> u128
        ensures value { result ≡ self.now.moment * 2 ^ 64 + self.now.place }
        ensures place { self.now.place < 2 ^ 64 }
    {
        self.moment as u128 * (1 << 64) + self.place as u128
    }
}

impl PartialOrd for NextStart {
    ghost partial_cmp = { as_partial_cmp next_start_cmp };

    ghost laws = { partial_order_from_own_ties (Prim.search (comparing, rules)) (Prim.search (comparing, rules)) };

    fn partial_cmp(&self, other: &NextStart) -> Option<Ordering> {
        Some(self.cmp(other))
    }
}

impl Ord for NextStart {
    ghost cmp = { next_start_cmp };

    ghost total = { Prim.search (comparing, rules) };

    ghost matches_partial_cmp = { λ x y. refl };

    ghost matches_eq = { Prim.search (comparing, rules) };

    fn cmp(&self, other: &NextStart) -> Ordering {
        self.key().cmp(&other.key())
    }
}
