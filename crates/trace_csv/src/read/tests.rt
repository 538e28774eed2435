//! Traces read both ways, directly and by `csv`, with what they stand for as worked out by hand.

use super::{read_rows, read_signed, read_trace};
use crate::direct::read_directly;
use crate::{Form, Trace, TraceError};
use std::alloc::Global;
use std::process::Abort;
use std::test::Fail;

// Some bytes, how wide their numbers may be, the numbers of all lines, and how many each line has.
type Good = (&'static [u8], u32, &'static [u32], usize);

// Some bytes, how wide their numbers may be, and why they are no trace.
type Bad = (&'static [u8], u32, TraceError);

// Digits, commas, LF and CRLF alone.
static DIRECT: [Good; 11] = [
    (b"3,5\n5,3\n3,5\n", 28, &[3, 5, 5, 3, 3, 5], 2),
    (b"3,5\n5,3", 28, &[3, 5, 5, 3], 2),
    (b"3,5\r\n5,3\r\n", 28, &[3, 5, 5, 3], 2),
    (b"3,5\r\n5,3\n3,5", 28, &[3, 5, 5, 3, 3, 5], 2),
    (b"0000000003,5", 28, &[3, 5], 2),
    (b"268435455,0", 28, &[268435455, 0], 2),
    (b"2147483647,2147483647", 31, &[2147483647, 2147483647], 2),
    (b"65535,0", 16, &[65535, 0], 2),
    (b"1,0", 1, &[1, 0], 2),
    (b"0,0,0,0\n0,1,1,0\n", 16, &[0, 0, 0, 0, 0, 1, 1, 0], 4),
    (b"7,8,9\n10,11,12", 28, &[7, 8, 9, 10, 11, 12], 3),
];

// The same with what `csv` alone reads: CR alone, an empty line, a quote, a space, a byte order mark.
static BY_CSV: [Good; 13] = [
    (b"3,5\r5,3\r", 28, &[3, 5, 5, 3], 2),
    (b"1,2\r34,5\n", 28, &[1, 2, 34, 5], 2),
    (b"3,5\n5,3\r", 28, &[3, 5, 5, 3], 2),
    (b"\"1\",\" 2 \"\r\n1,2\r\n\r\n", 28, &[1, 2, 1, 2], 2),
    (b"\n3,5\n\n\n5,3\n\n", 28, &[3, 5, 5, 3], 2),
    (b"3,5\n\n5,3\n", 28, &[3, 5, 5, 3], 2),
    (b"3,5\r\n\r\n5,3", 28, &[3, 5, 5, 3], 2),
    (b"\xef\xbb\xbf3,5\n", 28, &[3, 5], 2),
    (b"  3  , 5 ", 28, &[3, 5], 2),
    (b"3,5\n5, 3", 28, &[3, 5, 5, 3], 2),
    (b"3,\"5", 28, &[3, 5], 2),
    (b"1,\"2\"3", 28, &[1, 23], 2),
    (b"1,2\n3,\"4\"", 28, &[1, 2, 3, 4], 2),
];

static REFUSED: [Bad; 38] = [
    (b"", 28, TraceError::NoRecords),
    (b"\n\r\n\r\n", 28, TraceError::NoRecords),
    (b"\xef\xbb\xbf", 28, TraceError::NoRecords),
    (b"7", 28, TraceError::Length(1, 1)),
    (b"7\n8,9\n", 28, TraceError::Length(1, 1)),
    (b"x", 28, TraceError::Length(1, 1)),
    (b"\"\"", 28, TraceError::Length(1, 1)),
    (b"1,2\n1", 28, TraceError::Ragged(2, 1, 2)),
    (b"1,2\n1,2,3\n", 28, TraceError::Ragged(2, 3, 2)),
    (b"1,2\n\n1,2\n1,2,3", 28, TraceError::Ragged(3, 3, 2)),
    (b"1,2\n  \n", 28, TraceError::Ragged(2, 1, 2)),
    (b"1,2\nx\n", 28, TraceError::Ragged(2, 1, 2)),
    (b"1,2\n1\nx,y", 28, TraceError::Ragged(2, 1, 2)),
    (b"1,x\n1", 28, TraceError::NotANumber(1, 2)),
    (b"1,,2", 28, TraceError::NotANumber(1, 2)),
    (b",1", 28, TraceError::NotANumber(1, 1)),
    (b"1,2\n3,\n", 28, TraceError::NotANumber(2, 2)),
    (b"1,2\r\n3,4,\r\n", 28, TraceError::Ragged(2, 3, 2)),
    (b"1,2\n3, ", 28, TraceError::NotANumber(2, 2)),
    (b"x,y", 28, TraceError::NotANumber(1, 1)),
    (b"1,268435456\nx,1", 28, TraceError::TooBig(1, 2)),
    (b"1,2\n3,268435456\n", 28, TraceError::TooBig(2, 2)),
    (b"x,268435456", 28, TraceError::NotANumber(1, 1)),
    (b"268435456,x", 28, TraceError::TooBig(1, 1)),
    (b"268435456,0", 28, TraceError::TooBig(1, 1)),
    (b"2147483648,0", 31, TraceError::TooBig(1, 1)),
    (b"65536,0", 16, TraceError::TooBig(1, 1)),
    (b"9999999999,0", 31, TraceError::TooBig(1, 1)),
    (b"00000000001,1", 28, TraceError::NotANumber(1, 1)),
    (b"12345678901,1", 31, TraceError::NotANumber(1, 1)),
    (b"1,2\n3,00000000004\n", 28, TraceError::NotANumber(2, 2)),
    (b"1 2,3", 28, TraceError::NotANumber(1, 1)),
    (b"\t1,2", 28, TraceError::NotANumber(1, 1)),
    (b"+1,2", 28, TraceError::NotANumber(1, 1)),
    (b"1,-2", 28, TraceError::NotANumber(1, 2)),
    (b"1,\"2\n", 28, TraceError::NotANumber(1, 2)),
    (b"1,2\r3,x4\n", 28, TraceError::NotANumber(2, 2)),
    (b"1\x00,2", 28, TraceError::NotANumber(1, 1)),
];

// Some bytes of signed numbers, the halves of all lines, and how many fields each line has.
type GoodSigned = (&'static [u8], &'static [u32], usize);

// Some bytes of signed numbers, and why they are no trace.
type BadSigned = (&'static [u8], TraceError);

// Digits, minus, commas, LF and CRLF alone.
static SIGNED_DIRECT: [GoodSigned; 9] = [
    (
        b"-1,0\n0,-1\n-1,0\n",
        &[65535, 65535, 0, 0, 0, 0, 65535, 65535, 65535, 65535, 0, 0],
        2,
    ),
    (b"-2147483648,2147483647", &[32768, 0, 32767, 65535], 2),
    (
        b"-2147483647,-65536\r\n65536,-65535\r\n",
        &[32768, 1, 65535, 0, 1, 0, 65535, 1],
        2,
    ),
    (b"-0,0", &[0, 0, 0, 0], 2),
    (b"-0000000001,0000000001", &[65535, 65535, 0, 1], 2),
    (b"1,-2,3", &[0, 1, 65535, 65534, 0, 3], 3),
    (b"65535,-32768", &[0, 65535, 65535, 32768], 2),
    (b"-2147418113,-70000", &[32768, 65535, 65534, 61072], 2),
    (
        b"-0,-0\n0,0\r\n-0000000000,0",
        &[0, 0, 0, 0, 0, 0, 0, 0, 0, 0, 0, 0],
        2,
    ),
];

// The same with what `csv` alone reads.
static SIGNED_BY_CSV: [GoodSigned; 7] = [
    (
        b"\"-1\",\" -2 \"\r\n1,2\r\n\r\n",
        &[65535, 65535, 65535, 65534, 0, 1, 0, 2],
        2,
    ),
    (b"  -3  , 5 ", &[65535, 65533, 0, 5], 2),
    (
        b"-3,5\r5,-3\r",
        &[65535, 65533, 0, 5, 0, 5, 65535, 65533],
        2,
    ),
    (b"\xef\xbb\xbf-3,5\n", &[65535, 65533, 0, 5], 2),
    (b"\n-3,5\n\n", &[65535, 65533, 0, 5], 2),
    (b"-3,\"5", &[65535, 65533, 0, 5], 2),
    (b"\"-2147483648\",2147483647", &[32768, 0, 32767, 65535], 2),
];

static SIGNED_REFUSED: [BadSigned; 32] = [
    (b"", TraceError::NoRecords),
    (b"1", TraceError::Length(1, 1)),
    (b"-1", TraceError::Length(1, 1)),
    (b"-1,2\n-1", TraceError::Ragged(2, 1, 2)),
    (b"-1,2\n-1,2,-3\n", TraceError::Ragged(2, 3, 2)),
    (b"2147483648,0", TraceError::TooBig(1, 1)),
    (b"-2147483649,0", TraceError::TooBig(1, 1)),
    (b"0,9999999999", TraceError::TooBig(1, 2)),
    (b"0,-9999999999", TraceError::TooBig(1, 2)),
    (b"4294967295,0", TraceError::TooBig(1, 1)),
    (b"0,4294967296", TraceError::TooBig(1, 2)),
    (b"0,-4294967296", TraceError::TooBig(1, 2)),
    (b"- 1,0", TraceError::NotANumber(1, 1)),
    (b"+1,0", TraceError::NotANumber(1, 1)),
    (b"-+1,0", TraceError::NotANumber(1, 1)),
    (b"--1,0", TraceError::NotANumber(1, 1)),
    (b"-,0", TraceError::NotANumber(1, 1)),
    (b"0,-", TraceError::NotANumber(1, 2)),
    (b",0", TraceError::NotANumber(1, 1)),
    (b"0,", TraceError::NotANumber(1, 2)),
    (b"0,1-", TraceError::NotANumber(1, 2)),
    (b"0,1-2", TraceError::NotANumber(1, 2)),
    (b"00000000001,0", TraceError::NotANumber(1, 1)),
    (b"-00000000001,0", TraceError::NotANumber(1, 1)),
    (b"0,-12345678901", TraceError::NotANumber(1, 2)),
    (b"\"- 1\",0", TraceError::NotANumber(1, 1)),
    (b"0, -1 2", TraceError::NotANumber(1, 2)),
    (b"0, - ", TraceError::NotANumber(1, 2)),
    (b"-1,2\n3,-x\n", TraceError::NotANumber(2, 2)),
    (b"2147483648,x", TraceError::TooBig(1, 1)),
    (b"x,2147483648", TraceError::NotANumber(1, 1)),
    (b"-1,2147483648\n-1", TraceError::TooBig(1, 2)),
];

// The numbers of all lines of a trace.
fn numbers_of(alloc: Global, trace: &Trace) -> Result<Vec<u32>, Fail> {
    let mut numbers = Vec::new(alloc);
    for i in 0..trace.len() {
        numbers.extend_from_slice(trace.line(i))?;
    }
    Ok(numbers)
}

fn is_trace(
    rt: &impl Abort,
    alloc: Global,
    read: Result<Trace, TraceError>,
    numbers: &[u32],
    slots: usize,
) -> Result<(), Fail> {
    let trace = read.expect(rt, "it is a trace");
    let all = numbers_of(alloc, &trace)?;
    assert_eq!(rt; all.as_slice(), numbers);
    assert_eq!(rt; trace.slots(), slots);
    Ok(())
}

fn try_good(
    rt: &impl Abort,
    alloc: Global,
    rows: &'static [Good],
    direct: bool,
) -> Result<(), Fail> {
    for i in 0..rows.len() {
        let (bytes, width, numbers, slots) = rows[i];
        assert!(rt; 1 <= width && width <= 31);
        assert!(rt;
            read_directly(alloc, bytes, Form::Unsigned(width)).is_some() == direct,
            "row {i}"
        );
        is_trace(rt, alloc, read_trace(alloc, bytes, width), numbers, slots)?;
        is_trace(
            rt,
            alloc,
            read_rows(alloc, bytes, Form::Unsigned(width)),
            numbers,
            slots,
        )?;
    }
    Ok(())
}

fn try_bad(rt: &impl Abort, alloc: Global, rows: &'static [Bad]) {
    for i in 0..rows.len() {
        let (bytes, width, refusal) = rows[i];
        assert!(rt; 1 <= width && width <= 31);
        assert!(rt;
            read_directly(alloc, bytes, Form::Unsigned(width)).is_none(),
            "row {i}"
        );
        let whole = read_trace(alloc, bytes, width);
        assert!(rt; matches!(&whole, Err(e) if *e == refusal), "row {i}");
        let by_csv = read_rows(alloc, bytes, Form::Unsigned(width));
        assert!(rt; matches!(&by_csv, Err(e) if *e == refusal), "row {i}");
    }
}

#[test]
fn traces_are_read_or_refused_both_ways(rt: HostRuntime) -> Result<(), Fail> {
    try_good(&rt, rt.alloc(), &DIRECT, true)?;
    try_good(&rt, rt.alloc(), &BY_CSV, false)?;
    try_bad(&rt, rt.alloc(), &REFUSED);
    Ok(())
}

// How many lines and slots a trace of numbers of three bits has, read directly and by `csv`.
fn sizes_of(rt: &impl Abort, alloc: Global, bytes: &[u8]) -> (u64, usize) {
    let by_csv = read_rows(alloc, bytes, Form::Unsigned(3)).expect(rt, "csv reads it");
    let trace = read_trace(alloc, bytes, 3).expect(rt, "it is a trace");
    assert_eq!(rt; by_csv.len(), trace.len());
    assert_eq!(rt; by_csv.slots(), trace.slots());
    (trace.len(), trace.slots())
}

#[test]
fn wide_and_long_traces_are_read_both_ways(rt: HostRuntime) -> Result<(), Fail> {
    let alloc = rt.alloc();
    let mut wide = Vec::new(alloc);
    for _ in 0..1023 {
        wide.extend_from_slice(b"7,")?;
    }
    wide.push(b'7')?;
    assert!(rt; read_directly(alloc, &wide, Form::Unsigned(3)).is_some());
    assert_eq!(rt; sizes_of(&rt, alloc, &wide), (1, 1024));
    wide.extend_from_slice(b",7")?;
    assert!(rt;
        matches!(
            read_trace(alloc, &wide, 3),
            Err(TraceError::Length(1, 1025))
        )
    );
    let mut long = Vec::new(alloc);
    for _ in 0..500_000 {
        long.extend_from_slice(b"1,0\n")?;
    }
    assert!(rt; read_directly(alloc, &long, Form::Unsigned(3)).is_some());
    assert_eq!(rt; sizes_of(&rt, alloc, &long), (500_000, 2));
    long.extend_from_slice(b"1,\"0\"")?;
    assert!(rt; read_directly(alloc, &long, Form::Unsigned(3)).is_none());
    assert_eq!(rt; sizes_of(&rt, alloc, &long), (500_001, 2));
    Ok(())
}

fn try_good_signed(
    rt: &impl Abort,
    alloc: Global,
    rows: &'static [GoodSigned],
    direct: bool,
) -> Result<(), Fail> {
    for i in 0..rows.len() {
        let (bytes, halves, fields) = rows[i];
        let slots = fields.saturating_mul(2);
        assert!(rt;
            read_directly(alloc, bytes, Form::Signed).is_some() == direct,
            "row {i}"
        );
        is_trace(rt, alloc, read_signed(alloc, bytes), halves, slots)?;
        is_trace(
            rt,
            alloc,
            read_rows(alloc, bytes, Form::Signed),
            halves,
            slots,
        )?;
    }
    Ok(())
}

fn try_bad_signed(rt: &impl Abort, alloc: Global, rows: &'static [BadSigned]) {
    for i in 0..rows.len() {
        let (bytes, refusal) = rows[i];
        assert!(rt;
            read_directly(alloc, bytes, Form::Signed).is_none(),
            "row {i}"
        );
        let whole = read_signed(alloc, bytes);
        assert!(rt; matches!(&whole, Err(e) if *e == refusal), "row {i}");
        let by_csv = read_rows(alloc, bytes, Form::Signed);
        assert!(rt; matches!(&by_csv, Err(e) if *e == refusal), "row {i}");
    }
}

#[test]
fn signed_traces_are_read_or_refused_both_ways(rt: HostRuntime) -> Result<(), Fail> {
    try_good_signed(&rt, rt.alloc(), &SIGNED_DIRECT, true)?;
    try_good_signed(&rt, rt.alloc(), &SIGNED_BY_CSV, false)?;
    try_bad_signed(&rt, rt.alloc(), &SIGNED_REFUSED);
    Ok(())
}

#[test]
fn signed_traces_have_512_fields_at_most(rt: HostRuntime) -> Result<(), Fail> {
    let alloc = rt.alloc();
    let mut wide = Vec::new(alloc);
    for _ in 0..511 {
        wide.extend_from_slice(b"-7,")?;
    }
    wide.extend_from_slice(b"-7")?;
    assert!(rt; read_directly(alloc, &wide, Form::Signed).is_some());
    let trace = read_signed(alloc, &wide).expect(&rt, "512 fields");
    assert!(rt; trace.len() == 1 && trace.slots() == 1024);
    let by_csv = read_rows(alloc, &wide, Form::Signed).expect(&rt, "512 fields");
    assert!(rt; by_csv.len() == 1 && by_csv.slots() == 1024);
    wide.extend_from_slice(b",-7")?;
    assert!(rt; read_directly(alloc, &wide, Form::Signed).is_none());
    assert!(rt; matches!(read_signed(alloc, &wide), Err(TraceError::Length(1, 513))));
    assert!(rt;
        matches!(
            read_rows(alloc, &wide, Form::Signed),
            Err(TraceError::Length(1, 513))
        )
    );
    Ok(())
}
