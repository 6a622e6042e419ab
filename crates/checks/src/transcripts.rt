// What `sit` prints, case by case.

use crate::expecting::expect;
use std::fmt::Write;
use std::test::Fail;
use transcript::transcript;

const TWO_SHEETS: &[u8] =
    b"\x0a\0\x01\0\x08\0\x04\0\x02\0\x01\0\x0a\0\x01\0\x08\0\x08\0\x03\0\x01\0";

// A binder file, an input and what is printed of them.
const CASES: [(&[u8], &[u8], &str); 12] = [
    (b"", b"t\n", "file 6 at 0\n"),
    (
        b"\x0a\0\x01\0\x08\0\x09\0\x02\0\x01\0",
        b"x",
        "file 4 at 6\n",
    ),
    (
        b"\x0a\0\x01\0\x04\0\x04\0\x05\0\x01\0",
        b"x",
        "refused 8 at 4\n",
    ),
    (
        b"\x0a\0\x02\0\0\x10\0\0\x04\0\x03\0\x0a\0\x02\0\0\x10\0\0\x04\0\x03\0",
        b"t\n",
        "refused 9 at 0\n",
    ),
    (TWO_SHEETS, b"", "admitted\n"),
    (
        TWO_SHEETS,
        b"a 1 8\na 0 4\nt\nt\nt\nf 0\nt\nt\nf 1\na 0 5\nt\na 0 8\nt\n",
        "admitted\njob 0\njob 1\nran 1 held 0 cut 0\nran 1 held 0 cut 0\nran 0 held 1 cut 0\nfinished 0 used 1\nidle held 1 cut 0\nidle held 0 cut 1\nrefused 17\njob 2\nidle held 1 cut 0\njob 3\nran 3 held 1 cut 0\n",
    ),
    (
        TWO_SHEETS,
        b"a 2 4\na 0 0\na 1 4097\nf 0\na 999999999 999999999\nf 999999999\nt",
        "admitted\nrefused 12\nrefused 13\nrefused 13\nrefused 16\nrefused 12\nrefused 16\nidle held 0 cut 0\n",
    ),
    (
        TWO_SHEETS,
        b"a 000000000 000000004\nf 000000000\nf 0\n",
        "admitted\njob 0\nfinished 0 used 0\nrefused 17\n",
    ),
    (TWO_SHEETS, b"\n", "admitted\nline 1 unreadable\n"),
    (
        TWO_SHEETS,
        b"t\nx\nt\n",
        "admitted\nidle held 0 cut 0\nline 2 unreadable\n",
    ),
    (
        TWO_SHEETS,
        b"t\n\n",
        "admitted\nidle held 0 cut 0\nline 2 unreadable\n",
    ),
    (
        TWO_SHEETS,
        b"f 9\nt ",
        "admitted\nrefused 16\nline 2 unreadable\n",
    ),
];

// Lines of another form.
const UNREADABLE: [&[u8]; 22] = [
    b"T",
    b" t",
    b"t\r\n",
    b"tt",
    b"a",
    b"a ",
    b"a 0",
    b"a 0 ",
    b"a  0 4",
    b"a 0  4",
    b"a 0 4 ",
    b"a 0 4 4",
    b"a\t0 4",
    b"a 0 -4",
    b"a 0000000001 4",
    b"a 0 0000000004",
    b"f",
    b"f ",
    b"f +1",
    b"f 0000000001",
    b"f 1:",
    b"x 0",
];

#[test]
fn cases(rt: HostRuntime) -> Result<(), Fail> {
    let heap = rt.alloc();
    for (file, input, text) in CASES {
        expect(&rt, transcript(heap, file, input), text)?;
    }
    for line in UNREADABLE {
        expect(
            &rt,
            transcript(heap, TWO_SHEETS, line),
            "admitted\nline 1 unreadable\n",
        )?;
    }
    Ok(())
}

#[test]
fn limits(rt: HostRuntime) -> Result<(), Fail> {
    let heap = rt.alloc();
    let mut long = vec![in heap; 0u8; 65536]?;
    expect(
        &rt,
        transcript(heap, TWO_SHEETS, &long),
        "admitted\nline 1 unreadable\n",
    )?;
    expect(&rt, transcript(heap, &long, b""), "file 2 at 0\n")?;
    long.push(0)?;
    for (file, input) in [(TWO_SHEETS, long.as_slice()), (&long, b"t\n"), (b"", &long)] {
        expect(&rt, transcript(heap, file, input), "input too long\n")?;
    }
    let arrivals = b"a 0 4096\n".repeat(heap, 97)?;
    let mut text = String::from_str(heap, "admitted\n")?;
    // the number itself is printed
    for job in 0..96u8 {
        writeln!(text, "job {job}")?;
    }
    text.push_str("refused 15\n")?;
    expect(&rt, transcript(heap, TWO_SHEETS, &arrivals), &text)
}
