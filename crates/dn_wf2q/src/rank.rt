ghost use Rattle.std.specs.Prelude.{◌≡◌, ◌<◌, ◌^◌, refl};
ghost use Rattle.std.specs.Ordering.{as_partial_cmp};
ghost use Rattle.std.specs.Cmp.{partial_order_from_own_ties};
ghost use Rattle.std.specs.Cmp.Rules.{comparing};
ghost use Rattle.std.proofs.Common.{rules};
ghost use Rattle.dn_wf2q.specs.Rank.{rank_cmp, rank_eq};

use dn_heap::Numbered;
use std::cmp::Ordering;
use std::marker::Model;

/// How many slots a key has room for. A tag is below 2^96.
pub(crate) const SLOTS: usize = 1 << 32;

/// A key of a heap: a tag of a flow's head, and the flow's slot.
///
/// Ranks are ordered by tag and then by slot.
///
/// Both stand in one number, since most of a scheduler's time goes into comparing and moving keys
/// within the heaps: so two are compared in one step, and a key takes 16 bytes.
#[derive(Clone, Copy)]
pub(crate) struct Rank {
    /// The slot in the lowest 32 bits, and above them the tag.
    key: u128,
}

impl Model for Rank {
    ghost use Rattle.std.specs.Prelude.{◌≡◌, ◌+◌, ◌*◌, ◌/◌, ◌%◌};
    ghost use Rattle.std.proofs.Common.{arith};
    ghost use Rattle.dn_wf2q.specs.Rank.{RankView};

    ghost Value = { RankView };

    ghost view = { λ r. record { tag = r.key / 4294967296; slot = r.key % 4294967296 } };

    ghost inverse = { λ r. record { key = r.tag * 4294967296 + r.slot } };

    ghost inverse_ok = { λ r h i. let same : r.key / 4294967296 * 4294967296 + r.key % 4294967296 ≡ r.key = omega arith in record { key = same i } };
}

impl Rank {
    pub(crate) fn new(tag: u128, slot: usize) -> Rank
        requires tag { tag < 2 ^ 96 }
        requires slot { slot < 2 ^ 32 }
        ensures value { result ≡ record { tag = tag; slot = slot } }
    {
        Rank {
            key: tag * SLOTS as u128 + slot as u128,
        }
    }

    pub(crate) fn tag(&self) -> u128
        ensures value { result ≡ self.now.tag }
    {
        self.key / SLOTS as u128
    }

    pub(crate) fn slot(&self) -> usize
        ensures value { result ≡ self.now.slot }
    {
        (self.key % SLOTS as u128) as usize
    }
}

impl Numbered for Rank {
    ghost number = { λ r. r.slot };

    fn number(&self) -> usize {
        self.slot()
    }
}

impl PartialEq for Rank {
    ghost eq = { rank_eq };

    ghost laws = { Prim.search (comparing, rules) };

    fn eq(&self, other: &Rank) -> bool {
        self.tag() == other.tag() && self.slot() == other.slot()
    }
}

impl Eq for Rank {
    ghost laws = { Prim.search (comparing, rules) };
}

impl PartialOrd for Rank {
    ghost partial_cmp = { as_partial_cmp rank_cmp };

    ghost laws = { partial_order_from_own_ties (Prim.search (comparing, rules)) (Prim.search (comparing, rules)) };

    fn partial_cmp(&self, other: &Rank) -> Option<Ordering> {
        Some(self.cmp(other))
    }
}

impl Ord for Rank {
    ghost cmp = { rank_cmp };

    ghost total = { Prim.search (comparing, rules) };

    ghost matches_partial_cmp = { λ x y. refl };

    ghost matches_eq = { Prim.search (comparing, rules) };

    #[tactic(auto, using(crate::proofs::Ranks::packed))]
    fn cmp(&self, other: &Rank) -> Ordering {
        self.key.cmp(&other.key)
    }
}
