ghost use Rattle.std.specs.Prelude.{◌≡◌, ◌+◌, min};
ghost use Rattle.demand.specs.Sides.{side_count, side_of, side_value};
ghost use Rattle.demand.specs.SidesLemmas.{side_climbs};
ghost use Rattle.std.proofs.Common.{rules};

use crate::binder::Binder;

// Two binders as one: the components of the first, then those of the second.
#[derive(Clone, Copy)]
pub struct SideBySide<A: Binder, B: Binder> {
    pub first: A,
    pub second: B,
}

// The binder that a component belongs to, with its number there.
#[derive(Clone, Copy, PartialEq, Eq, Debug)]
enum Side {
    First(u32),
    Second(u32),
}

impl<A: Binder, B: Binder> SideBySide<A, B> {
    // The side of component k, if there is such a component.
    fn side_of(&self, k: u32) -> Option<Side>
        ensures { result ≡ side_of (A.Binder.count self.now.first) (B.Binder.count self.now.second) k }
    {
        let n = self.first.count();
        if k >= self.count() {
            None
        } else if k < n {
            Some(Side::First(k))
        } else {
            Some(Side::Second(k - n))
        }
    }
}

impl<A: Binder, B: Binder> Binder for SideBySide<A, B> {
    ghost count = { λ x. side_count (A.Binder.count x.first) (B.Binder.count x.second) };

    ghost bound = { λ x k l. side_value (A.Binder.count x.first) (B.Binder.count x.second) (λ i. A.Binder.bound x.first i l) (λ i. B.Binder.bound x.second i l) k };

    ghost gain = { λ x k. side_value (A.Binder.count x.first) (B.Binder.count x.second) (A.Binder.gain x.first) (B.Binder.gain x.second) k };

    ghost few = { Prim.search rules };

    ghost starts = { Prim.search rules };

    ghost climbs = { λ x k l m h. side_climbs _ _ k _ _ _ _ (λ i. A.Binder.climbs x.first i l m h) (λ i. B.Binder.climbs x.second i l m h) };

    ghost repeats = { Prim.search rules };

    ghost fits = { Prim.search rules };

    ghost absent = { Prim.search rules };

    ghost still = { Prim.search rules };

    fn count(&self) -> u32 {
        (self.first.count() + self.second.count()).min(9)
    }

    fn bound(&self, k: u32, length: u32) -> u64 {
        match self.side_of(k) {
            Some(Side::First(i)) => self.first.bound(i, length),
            Some(Side::Second(i)) => self.second.bound(i, length),
            None => 0,
        }
    }

    fn gain(&self, k: u32) -> u64 {
        match self.side_of(k) {
            Some(Side::First(i)) => self.first.gain(i),
            Some(Side::Second(i)) => self.second.gain(i),
            None => 0,
        }
    }
}
