ghost use Rattle.std.specs.Prelude.{◌≡◌, ℕ, ◌≤◌};

// Anything that a call can be refused with. Its number is from 1 to 19. What goes with the number differs from one refusal
// to the other, so each `impl` has its own line.
pub trait Refusal {
    ghost numbered: { Self → ℕ };

    fn number(&self) -> u32
        ensures value { result ≡ numbered self.now }
        ensures documented { (1 ≤ result) × (result ≤ 19) };

    ghost low: { (x : Self) → 1 ≤ numbered x };

    ghost high: { (x : Self) → numbered x ≤ 19 };
}
