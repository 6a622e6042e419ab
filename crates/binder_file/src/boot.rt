ghost use Rattle.std.specs.Prelude.{◌≡◌, ◌/◌, ◌%◌, ◌<◌, ◌≤◌, ◌≢◌};
ghost use Rattle.binder_file.specs.Boot.{boot_parts, boot_number};
ghost use Rattle.binder_file.specs.Format.{decode};

use crate::reading::read_sheets;
use demand::admission_test;

// A refusal's number and its place or length in one number, which is what code in C takes.
fn pack(number: u32, detail: u32) -> u32
    requires { (number ≤ 19) × (detail < 65536) }
    ensures { result ≡ boot_number (number, detail) }
{
    number * 65536 + detail
}

// The verdict on a binder file, for boot code: 0 for admitted, otherwise the refusal's number times 65,536 plus the place or the
// length. Number and detail can be told apart again, and refusal 10 never comes from a file.
#[tactic(auto, using(crate::proofs::Facts::file_facts))]
pub fn binder_verdict(bytes: &[u8]) -> u32
    ensures value { result ≡ boot_number (boot_parts (decode bytes.now)) }
    ensures told_apart { (result / 65536 ≡ (boot_parts (decode bytes.now)).0) × (result % 65536 ≡ (boot_parts (decode bytes.now)).1) }
    ensures never_ten { (boot_parts (decode bytes.now)).0 ≢ 10 }
{
    match read_sheets(bytes) {
        Ok(binder) => {
            let (number, length) = admission_test(&binder);
            pack(number, length)
        }
        Err(fault) => {
            let (number, _, place) = fault.numbers();
            // a fault's place is below 65,536
            pack(number, place as u32)
        }
    }
}
