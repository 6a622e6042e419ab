ghost use Rattle.std.specs.Prelude.{[], ◌∷◌};
ghost use Rattle.sheets.specs.Sheets.{line, bound_of, gain_of, component_bound, component_gain};
ghost use Rattle.sheets.proofs.Lawful.{sound_line_lawful, components_lawful};
ghost use Rattle.sheets.proofs.Components.{past_value};
ghost use Rattle.std.proofs.Common.{rules};

use crate::sheet::LineSheet;
use demand::Binder;

// The sheet alone, as a binder of one component. Each kind of sheet has its own `impl`: the language takes none of another crate's
// trait for every type of a kind, and a wrapper would have to be asked of callers.
impl Binder for LineSheet {
    ghost count = { λ _. 1 };

    ghost bound = { λ x. component_bound (line x.line ∷ []) };

    ghost gain = { λ x. component_gain (line x.line ∷ []) };

    ghost few = { Prim.search rules };

    ghost starts = { λ x k. (components_lawful (line x.line ∷ []) (sound_line_lawful x.line x.sound, tt) k).starts };

    ghost climbs = { λ x k. (components_lawful (line x.line ∷ []) (sound_line_lawful x.line x.sound, tt) k).climbs };

    ghost repeats = { λ x k. (components_lawful (line x.line ∷ []) (sound_line_lawful x.line x.sound, tt) k).repeats };

    ghost fits = { λ x k. (components_lawful (line x.line ∷ []) (sound_line_lawful x.line x.sound, tt) k).fits };

    ghost absent = { λ x k l. past_value (λ d. bound_of d l) (line x.line ∷ []) k };

    ghost still = { λ x. past_value gain_of (line x.line ∷ []) };

    fn count(&self) -> u32 {
        1
    }

    fn bound(&self, k: u32, length: u32) -> u64 {
        if k == 0 { self.bound_at(length) } else { 0 }
    }

    fn gain(&self, k: u32) -> u64 {
        if k == 0 { self.gain_units() } else { 0 }
    }
}
