ghost use Rattle.std.specs.Prelude.{◌≡◌, ℕ, ◌+◌, ◌^◌, ◌<◌, ◌≤◌};

// Anything that has a count of components and, for each of them, a bound and a gain. Components are numbered from 0; a count
// of 9 stands for nine or more.
pub trait Binder {
    // How many components there are.
    ghost count: { Self → ℕ };

    // The most units that component k may demand in a window of l ticks.
    ghost bound: { Self → ℕ → ℕ → ℕ };

    // The units that 4,096 further ticks add to the bound of component k.
    ghost gain: { Self → ℕ → ℕ };

    fn count(&self) -> u32
        ensures { result ≡ count self.now };

    fn bound(&self, k: u32, length: u32) -> u64
        ensures { result ≡ bound self.now k length };

    fn gain(&self, k: u32) -> u64
        ensures { result ≡ gain self.now k };

    ghost few: { (x : Self) → count x ≤ 9 };

    // An empty window has no demand.
    ghost starts: { (x : Self) (k : ℕ) → bound x k 0 ≡ 0 };

    // A longer window never has less.
    ghost climbs: { (x : Self) (k l m : ℕ) → l ≤ m → bound x k l ≤ bound x k m };

    // From 4,096 ticks on the bound repeats itself, one gain higher.
    ghost repeats: { (x : Self) (k l : ℕ) → 4096 ≤ l → bound x k (l + 4096) ≡ bound x k l + gain x k };

    ghost fits: { (x : Self) (k l : ℕ) → l < 2 ^ 32 → bound x k l ≤ 2 ^ 52 };

    // There is no component at or past the count.
    ghost absent: { (x : Self) (k l : ℕ) → count x ≤ k → bound x k l ≡ 0 };

    ghost still: { (x : Self) (k : ℕ) → count x ≤ k → gain x k ≡ 0 };
}
