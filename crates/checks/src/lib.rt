// Values that the definitions have to give, and tests by tables of cases.

#![tactic(auto)]

ghost use Rattle.std.specs.Prelude.{◌≡◌, length};
ghost use Rattle.std.specs.List.{AllByRecursion};
ghost use Rattle.checks.specs.Reference.{Agrees, reference_values};

#[cfg(test)]
mod expecting;
#[cfg(test)]
mod reports;
#[cfg(test)]
mod transcripts;

// How many reference values there are: the definitions give every one of them.
pub fn reference_values() -> u32
    ensures agree { AllByRecursion Agrees reference_values }
    ensures count { result ≡ length reference_values }
{
    17
}
