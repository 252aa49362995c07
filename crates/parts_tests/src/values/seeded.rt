// Values of every kind, drawn from a fixed seed: `scalar_text` and `write_scalar` share no writer of digits, and give
// each value the same text. The worked rows hold both to the texts that are wanted.
use super::expect_of;
use std::process::Abort;
use tds_values::{Kind, TEXT_ROOM, read_scalar, scalar_text, write_scalar};

// How many values of a kind are drawn: the first has the least of each number, the second the greatest.
const DRAWN: u64 = 8;

// A number of a value: how many bytes it takes, the least, and by how much the greatest is more. A negative number is
// told by its two's complement.
type Number = (usize, u64, u64);

const NONE: Number = (0, 0, 0);

const ANY_FOUR: Number = (4, 0, 4294967295);

const ANY_EIGHT: Number = (8, 0, u64::MAX);

const SIGN: Number = (1, 0, 1);

const DAY: Number = (3, 0, 3652058);

// A day counted from 1900-01-01.
const DAY_SINCE_1900: Number = (4, u64::MAX - 693594, 3652058);

// The day of a datetimeoffset, whose local time lies in the calendar whatever the offset.
const DAY_IN_UTC: Number = (3, 1, 3652056);

// The offset of a datetimeoffset, in minutes.
const OFFSET: Number = (2, u64::MAX - 839, 1680);

// Kinds without a scale, and the numbers of their values.
const KINDS: [(Kind, [Number; 2]); 17] = [
    (Kind::Int1, [(1, 0, 255), NONE]),
    (Kind::Int2, [(2, 0, 65535), NONE]),
    (Kind::Int4, [ANY_FOUR, NONE]),
    (Kind::Int8, [ANY_EIGHT, NONE]),
    (Kind::IntN(8), [ANY_EIGHT, NONE]),
    (Kind::Bit, [(1, 0, 255), NONE]),
    (Kind::BitN, [SIGN, NONE]),
    (Kind::Money4, [ANY_FOUR, NONE]),
    (Kind::Money8, [ANY_EIGHT, NONE]),
    (Kind::MoneyN(4), [ANY_FOUR, NONE]),
    (Kind::MoneyN(8), [ANY_EIGHT, NONE]),
    (Kind::Guid, [ANY_EIGHT, ANY_EIGHT]),
    (Kind::Date, [DAY, NONE]),
    (Kind::DateTime4, [(2, 0, 65535), (2, 0, 1439)]),
    (Kind::DateTimeN(4), [(2, 0, 65535), (2, 0, 1439)]),
    (Kind::DateTime8, [DAY_SINCE_1900, (4, 0, 25919999)]),
    (Kind::DateTimeN(8), [DAY_SINCE_1900, (4, 0, 25919999)]),
];

// The magnitudes of decimals, by their length with the sign.
const MAGNITUDES: [(u8, [Number; 2]); 4] = [
    (5, [ANY_FOUR, NONE]),
    (9, [ANY_EIGHT, NONE]),
    (13, [ANY_EIGHT, ANY_FOUR]),
    (17, [ANY_EIGHT, ANY_EIGHT]),
];

// Scales of times, and the units since midnight.
const TIMES: [(u8, Number); 8] = [
    (0, (3, 0, 86399)),
    (1, (3, 0, 863999)),
    (2, (3, 0, 8639999)),
    (3, (4, 0, 86399999)),
    (4, (4, 0, 863999999)),
    (5, (5, 0, 8639999999)),
    (6, (5, 0, 86399999999)),
    (7, (5, 0, 863999999999)),
];

// The numbers of a fixed sequence.
#[derive(Drop)]
struct Draws {
    state: u64,
}

impl Draws {
    // The number of a turn, from `least` to `least + more`, both of which are drawn often.
    fn number(&mut self, turn: u64, least: u64, more: u64) -> u64 {
        let state = self
            .state
            .wrapping_mul(6364136223846793005)
            .wrapping_add(1442695040888963407);
        self.state = state;
        let n = state ^ (state >> 32);
        let end = if turn < 2 { turn } else { state >> 61 };
        least.wrapping_add(match end {
            0 => 0,
            1 => more,
            _ if more == u64::MAX => n,
            _ => n % (more + 1),
        })
    }

    // The bytes of these numbers, and how many there are.
    fn bytes(&mut self, rt: &impl Abort, turn: u64, numbers: &[Number]) -> ([u8; 32], usize) {
        let mut bytes = [0; 32];
        let mut n = 0;
        for (width, least, more) in numbers {
            let drawn = self.number(turn, *least, *more).to_le_bytes();
            assert!(rt; *width <= 8 && n <= 24);
            bytes[n..n + *width].copy_from_slice(&drawn[..*width]);
            n += *width;
        }
        (bytes, n)
    }
}

// Whether the bytes are a value, and both programs give it one text.
fn have_one_text(rt: &impl Abort, kind: &Kind, bytes: &[u8]) -> bool {
    assert!(rt; kind.is_valid());
    assert!(rt; kind.is_scalar());
    let Ok(value) = read_scalar(kind, bytes) else {
        return false;
    };
    let mut room = [0xEE; TEXT_ROOM];
    let Ok(length) = write_scalar::<false>(kind, bytes, &mut room) else {
        return false;
    };
    scalar_text(&value).as_slice() == &room[..length]
}

fn check(rt: &impl Abort, draws: &mut Draws, kind: &Kind, numbers: &[Number]) {
    for turn in 0..DRAWN {
        let (bytes, n) = draws.bytes(rt, turn, numbers);
        assert!(rt; n <= 32);
        expect_of(
            rt,
            kind,
            "its two texts",
            have_one_text(rt, kind, &bytes[..n]),
        );
    }
}

fn check_decimals(rt: &impl Abort, draws: &mut Draws, scale: u8) {
    for (length, magnitude) in &MAGNITUDES {
        let kind = Kind::Decimal {
            length: *length,
            precision: 38,
            scale,
        };
        check(rt, draws, &kind, &[SIGN, magnitude[0], magnitude[1]]);
    }
}

fn check_times(rt: &impl Abort, draws: &mut Draws, scale: u8, units: Number) {
    check(rt, draws, &Kind::Time(scale), &[units]);
    check(rt, draws, &Kind::DateTime2(scale), &[units, DAY]);
    check(
        rt,
        draws,
        &Kind::DateTimeOffset(scale),
        &[units, DAY_IN_UTC, OFFSET],
    );
}

#[test]
fn both_texts(rt: HostRuntime) {
    let mut draws = Draws { state: 20260131 };
    for (kind, numbers) in &KINDS {
        check(&rt, &mut draws, kind, numbers);
    }
    for scale in 0..=38 {
        check_decimals(&rt, &mut draws, scale);
    }
    for (scale, units) in &TIMES {
        check_times(&rt, &mut draws, *scale, *units);
    }
}
