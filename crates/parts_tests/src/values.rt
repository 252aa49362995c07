// Values of each kind with the texts that they have.
use crate::checks::expect;
use hex::decode_to_slice;
use std::process::Abort;
use std::simd::prelude::*;
use tds_values::{
    FRONT_SIZE, Kind, Reach, TEXT_ROOM, ValueFault, hex_lanes, read_scalar, scalar_text,
    write_front, write_scalar,
};

mod dates;
mod decimals;
mod numbers;
mod seeded;
mod times;

// The bytes that a text of hexadecimal digits spells, behind their number and before zeros; and the number.
fn bytes_of(rt: &impl Abort, hex: &str) -> ([u8; 33 + FRONT_SIZE], usize) {
    let n = hex.len() / 2;
    assert!(rt; n <= 32);
    let mut bytes = [0; 33 + FRONT_SIZE];
    bytes[0] = n as u8;
    let is_hex = decode_to_slice(hex.as_bytes(), &mut bytes[1..n + 1]).is_ok();
    expect(rt, hex, is_hex);
    (bytes, n)
}

// What a value of a kind is held to.
fn expect_of(rt: &impl Abort, kind: &Kind, what: &str, holds: bool) {
    assert!(rt; holds, "{kind:?} {what}");
}

fn name_of(fault: ValueFault) -> &'static str {
    match fault {
        ValueFault::Value => "Value",
        ValueFault::Length => "Length",
    }
}

// Checks the text that a value has, and the text that is written into a slice.
fn check_bytes(rt: &impl Abort, kind: &Kind, what: &str, bytes: &[u8], want: &str) {
    assert!(rt; kind.is_valid());
    assert!(rt; kind.is_scalar());
    match read_scalar(kind, bytes) {
        Ok(value) => expect_of(
            rt,
            kind,
            what,
            scalar_text(&value).as_slice() == want.as_bytes(),
        ),
        Err(fault) => expect_of(rt, kind, what, name_of(fault) == want),
    }
    let mut room = [0xEE; TEXT_ROOM];
    match write_scalar::<false>(kind, bytes, &mut room) {
        Ok(made) => expect_of(rt, kind, what, room.get(..made) == Some(want.as_bytes())),
        Err(fault) => expect_of(rt, kind, what, name_of(fault) == want),
    }
}

// Checks the text that is written of a value at the front of bytes which go on after it, `used` of them the value's.
fn check_front(rt: &impl Abort, kind: &Kind, what: &str, front: &[u8], used: usize, want: &str) {
    assert!(rt; kind.is_valid());
    assert!(rt; front.len() >= FRONT_SIZE);
    let mut room = [0xEE; TEXT_ROOM];
    match write_front::<false>(kind, front, &mut room) {
        Some(written) => {
            expect_of(rt, kind, what, written.used == used);
            let text = room.get(..written.made);
            expect_of(rt, kind, what, text == Some(want.as_bytes()));
        }
        None => expect_of(rt, kind, what, want == "Length" || want == "Value"),
    }
}

// The same of bytes in hexadecimal digits. At the front of others they are no value if those of the kind have another length.
fn check(rt: &impl Abort, kind: &Kind, hex: &str, want: &str) {
    let (bytes, n) = bytes_of(rt, hex);
    assert!(rt; n <= 32);
    check_bytes(rt, kind, hex, &bytes[1..n + 1], want);
    assert!(rt; kind.is_valid());
    match kind.fixed_length() {
        Some(length) if length as usize == n => check_front(rt, kind, hex, &bytes[1..], n, want),
        Some(_) => {}
        None => check_front(rt, kind, hex, &bytes, n + 1, want),
    }
}

// A line's first word, and the words after it.
fn words_of<'a>(rt: &impl Abort, line: &'a str) -> (&'a str, &'a str) {
    line.split_once(' ').expect(rt, line)
}

// Checks each line: the bytes in hexadecimal digits, a space, and the text.
fn check_lines(rt: &impl Abort, kind: &Kind, lines: &str) {
    for line in lines.lines() {
        let (hex, want) = words_of(rt, line);
        check(rt, kind, hex, want);
    }
}

fn check_all(rt: &impl Abort, table: &[(Kind, &str)]) {
    for (kind, lines) in table {
        check_lines(rt, kind, lines);
    }
}

fn check_decimals(rt: &impl Abort, table: &[(u8, u8, &str)]) {
    for (length, scale, lines) in table {
        let kind = Kind::Decimal {
            length: *length,
            precision: 38,
            scale: *scale,
        };
        check_lines(rt, &kind, lines);
    }
}

#[test]
fn numbers_have_their_texts(rt: HostRuntime) {
    check_all(&rt, &numbers::WORKED);
    check_all(&rt, &numbers::NUMBERS);
    check_all(&rt, &numbers::GUIDS);
    check_decimals(&rt, &decimals::LENGTHS);
    check_decimals(&rt, &decimals::SCALES);
}

#[test]
fn sixteen_bytes_have_their_digits(rt: HostRuntime) {
    let (first, second) = hex_lanes(u8x16::from_array(*b"0123456789abcdef"));
    expect(
        &rt,
        "of the first eight",
        first.to_array() == *b"3031323334353637",
    );
    expect(
        &rt,
        "of the others",
        second.to_array() == *b"3839616263646566",
    );
}

#[test]
fn moments_have_their_texts(rt: HostRuntime) {
    check_all(&rt, &dates::DATES);
    check_all(&rt, &dates::OFFSETS);
    check_all(&rt, &dates::OLD_DATE_TIMES);
    check_all(&rt, &times::SECONDS_BEGIN);
    check_all(&rt, &times::SECONDS_END);
}

#[test]
fn times_have_their_texts(rt: HostRuntime) {
    check_all(&rt, &times::TIMES);
    check_all(&rt, &times::DATE_TIMES);
    check_all(&rt, &times::LOCAL_TIMES);
}

#[test]
fn lengths(rt: HostRuntime) {
    let bytes = [0; 40];
    for (kind, allowed) in &numbers::LENGTHS {
        assert!(rt; kind.is_valid());
        assert!(rt; kind.is_scalar());
        for n in 0..40 {
            let fits = allowed.contains(&n);
            expect_of(&rt, kind, "its lengths", kind.length_allowed(n) == fits);
            let fault = matches!(
                read_scalar(kind, &bytes[..n as usize]),
                Err(ValueFault::Length)
            );
            expect_of(&rt, kind, "its fault", fault != fits);
        }
    }
}

// A length past one byte is a fault too.
#[test]
fn long_values(rt: HostRuntime) {
    let bytes = [0; 300];
    for n in [255, 256, 257, 260, 264, 272] {
        for kind in [Kind::Int1, Kind::Int4, Kind::Date, Kind::Guid] {
            assert!(rt; kind.is_valid());
            assert!(rt; kind.is_scalar());
            assert!(rt; n <= 300);
            expect_of(
                &rt,
                &kind,
                "its lengths",
                matches!(read_scalar(&kind, &bytes[..n]), Err(ValueFault::Length)),
            );
        }
    }
}

fn expect_valid(rt: &impl Abort, kind: Kind, valid: bool) {
    expect_of(rt, &kind, "is valid", kind.is_valid() == valid);
}

// The kinds with this number, which is a length or a scale.
fn check_number(rt: &impl Abort, n: u8) {
    expect_valid(rt, Kind::IntN(n), matches!(n, 1 | 2 | 4 | 8));
    expect_valid(rt, Kind::MoneyN(n), matches!(n, 4 | 8));
    expect_valid(rt, Kind::DateTimeN(n), matches!(n, 4 | 8));
    expect_valid(rt, Kind::Time(n), n < 8);
    expect_valid(rt, Kind::DateTime2(n), n < 8);
    expect_valid(rt, Kind::DateTimeOffset(n), n < 8);
}

// Lengths, precisions and scales of decimals, and whether there is such a kind.
const DECIMALS: [(u8, u8, u8, bool); 9] = [
    (5, 1, 0, true),
    (5, 38, 38, true),
    (17, 38, 37, true),
    (9, 5, 6, false),
    (13, 39, 0, false),
    (13, 0, 0, false),
    (4, 5, 0, false),
    (16, 38, 0, false),
    (21, 38, 0, false),
];

#[test]
fn kinds(rt: HostRuntime) {
    for n in 0..=255 {
        check_number(&rt, n);
    }
    for (length, precision, scale, valid) in &DECIMALS {
        let kind = Kind::Decimal {
            length: *length,
            precision: *precision,
            scale: *scale,
        };
        expect_valid(&rt, kind, *valid);
    }
}

#[test]
fn fixed_lengths(rt: HostRuntime) {
    for (kind, length) in [
        (Kind::Int1, Some(1)),
        (Kind::Bit, Some(1)),
        (Kind::Int2, Some(2)),
        (Kind::Int4, Some(4)),
        (Kind::Int8, Some(8)),
        (Kind::DateTime4, Some(4)),
        (Kind::DateTime8, Some(8)),
        (Kind::Money4, Some(4)),
        (Kind::Money8, Some(8)),
        (Kind::IntN(4), None),
        (Kind::BitN, None),
        (Kind::Guid, None),
        (Kind::Date, None),
        (Kind::Time(0), None),
        (Kind::Binary(Reach::Short), None),
        (Kind::Wide(Reach::Chunked), None),
    ] {
        assert!(rt; kind.is_valid());
        expect_of(&rt, &kind, "", kind.fixed_length() == length);
    }
}

// The long kinds are no scalars; their data may have any length, but for odd ones of UTF-16.
#[test]
fn long_kinds(rt: HostRuntime) {
    for reach in [Reach::Short, Reach::Chunked] {
        for kind in [Kind::Binary(reach), Kind::Narrow(reach), Kind::Wide(reach)] {
            assert!(rt; kind.is_valid());
            expect_of(&rt, &kind, "", !kind.is_scalar());
            expect_of(
                &rt,
                &kind,
                "",
                kind.length_allowed(0) && kind.length_allowed(254),
            );
            expect_of(
                &rt,
                &kind,
                "",
                kind.length_allowed(7) == (kind != Kind::Wide(reach)),
            );
        }
    }
}
