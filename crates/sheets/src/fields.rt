ghost use Rattle.std.specs.Prelude.{◌≡◌};
ghost use Rattle.demand.specs.Fields.{from_to};
ghost use Rattle.sheets.specs.Fields.{power_of_two, field};

use crate::fault::{FileFault, Location};

// Whether x is a power of two from 1 to 4,096.
pub fn is_power(x: u16) -> bool
    ensures { result ≡ power_of_two x }
{
    x <= 4096 && x.is_power_of_two()
}

// Whether x lies from low to high, both included.
pub fn lies_in(low: u16, high: u16, x: u16) -> bool
    ensures { result ≡ from_to low high x }
{
    (low..=high).contains(&x)
}

// A field that is refused unless it passes its test.
pub fn accept(ok: bool, at: Location) -> Result<(), FileFault>
    ensures { result ≡ field ok at }
{
    if ok {
        Ok(())
    } else {
        Err(FileFault::OutOfRange(at))
    }
}
