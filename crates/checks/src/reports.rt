// What `admit` prints, case by case.

use crate::expecting::expect;
use report::admission_report;
use std::test::Fail;

const ONE_SHEET: &[u8] = b"\x0a\0\x01\0\x08\0\x04\0\x02\0\x01\0";

#[test]
fn verdicts(rt: HostRuntime) -> Result<(), Fail> {
    let heap = rt.alloc();
    let cases: [(&[u8], &str); 5] = [
        (
            ONE_SHEET,
            "sheet 0: rows, gain 1024\n  period 8 deadline 4 budget 2 copies 1\ngains 1024 of 4096\nleast slack 1 at length 1\nadmitted\n",
        ),
        (
            b"\x0a\0\x01\0\x01\0\x01\0\x01\0\x01\0",
            "sheet 0: rows, gain 4096\n  period 1 deadline 1 budget 1 copies 1\ngains 4096 of 4096\nleast slack 0 at length 1\nadmitted\n",
        ),
        (
            b"\x0a\0\x01\0\x04\0\x04\0\x05\0\x01\0",
            "sheet 0: rows, gain 5120\n  period 4 deadline 4 budget 5 copies 1\ngains 5120 of 4096\nexceeded by 1 at length 4\nrefused 8 at 4: the bounds add up to more than that length\n",
        ),
        (
            b"\x0a\0\x02\0\0\x10\0\0\x04\0\x03\0\x0a\0\x02\0\0\x10\0\0\x04\0\x03\0",
            "sheet 0: line, gain 3072\n  deadline 4096 burst 0 rate 3 per 4\nsheet 1: line, gain 3072\n  deadline 4096 burst 0 rate 3 per 4\ngains 6144 of 4096\nleast slack 1 at length 1, and it falls without end\nrefused 9 at 0: the gains add up to more than 4096\n",
        ),
        (
            b"\x12\0\x01\0\x04\0\x02\0\x01\0\x01\0\x08\0\x02\0\x01\0\x01\0",
            "sheet 0: rows, gain 1536\n  period 4 deadline 2 budget 1 copies 1\n  period 8 deadline 2 budget 1 copies 1\ngains 1536 of 4096\nleast slack 0 at length 2\nadmitted\n",
        ),
    ];
    for (bytes, text) in cases {
        expect(&rt, admission_report(heap, bytes), text)?;
    }
    Ok(())
}

#[test]
fn faults(rt: HostRuntime) -> Result<(), Fail> {
    let heap = rt.alloc();
    let cases: [(&[u8], &str); 8] = [
        (
            b"",
            "file 6 at 0: record 0 is one too few or too many: a file has one to eight\n",
        ),
        (
            b"\x0a\0\x01",
            "file 1 at 0: record 0 is cut short by the end of the file\n",
        ),
        (
            b"\x0b\0\x01\0\x08\0\x04\0\x02\0\x01\0",
            "file 1 at 0: record 0 is cut short by the end of the file\n",
        ),
        (b"\0\0\x03\0", "file 2 at 0: record 0 is of no known kind\n"),
        (
            b"\x01\0\x02\0",
            "file 3 at 0: record 0 has a length that no sheet of its kind has\n",
        ),
        (
            b"\x0a\0\x01\0\x08\0\x09\0\x02\0\x01\0",
            "file 4 at 6: record 0 has a field outside its range\n",
        ),
        (
            b"\x0a\0\x01\0\x08\0\x04\0\x02\0\x01\0\x0a\0\x02\0\x04\0\x03\0\x03\0\x01\0",
            "file 4 at 20: record 1 has a field outside its range\n",
        ),
        (
            b"\x12\0\x01\0\x08\0\x02\0\x01\0\x01\0\x04\0\x02\0\x01\0\x01\0",
            "file 5 at 12: record 0 has a row that does not come after the one before\n",
        ),
    ];
    for (bytes, text) in cases {
        expect(&rt, admission_report(heap, bytes), text)?;
    }
    Ok(())
}

#[test]
fn lengths(rt: HostRuntime) -> Result<(), Fail> {
    let heap = rt.alloc();
    let mut nine = ONE_SHEET.repeat(heap, 8)?;
    nine.push(7)?;
    expect(
        &rt,
        admission_report(heap, &nine),
        "file 6 at 96: record 8 is one too few or too many: a file has one to eight\n",
    )?;
    let mut long = vec![in heap; 0u8; 65536]?;
    expect(
        &rt,
        admission_report(heap, &long),
        "file 2 at 0: record 0 is of no known kind\n",
    )?;
    long.push(0)?;
    expect(&rt, admission_report(heap, &long), "input too long\n")
}
