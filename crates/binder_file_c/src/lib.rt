// The boot entry for code in C, as a static library. A crate is either that or a library, so the entry stands in both.

#![tactic(auto)]

ghost use Rattle.std.specs.Prelude.{◌≡◌, ◌/◌, ◌%◌, ◌≢◌};
ghost use Rattle.binder_file.specs.Boot.{boot_parts, boot_number};
ghost use Rattle.binder_file.specs.Format.{decode};

// The verdict on a binder file: 0 for admitted, otherwise the refusal's number times 65,536 plus the place or the length. Number
// and detail can be told apart again, and refusal 10 never comes from a file.
#[unsafe(no_mangle)]
pub extern "C" fn binder_verdict(bytes: &[u8]) -> u32
    ensures value { result ≡ boot_number (boot_parts (decode bytes.now)) }
    ensures told_apart { (result / 65536 ≡ (boot_parts (decode bytes.now)).0) × (result % 65536 ≡ (boot_parts (decode bytes.now)).1) }
    ensures never_ten { (boot_parts (decode bytes.now)).0 ≢ 10 }
{
    binder_file::binder_verdict(bytes)
}
