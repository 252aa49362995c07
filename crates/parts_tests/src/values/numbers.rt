// Bytes of values with their texts, or with the name of the fault, of the kinds without a date or a time.
// The texts were worked out by Python's datetime, decimal and uuid.
use tds_values::Kind;

// Values with their texts, one by one.
pub(crate) const WORKED: [(Kind, &str); 15] = [
    (
        Kind::Decimal {
            length: 5,
            precision: 5,
            scale: 2,
        },
        "0139300000 123.45
0005000000 -0.05
0000000000 0.00",
    ),
    (
        Kind::Decimal {
            length: 17,
            precision: 38,
            scale: 38,
        },
        "01ffffffff3f228a097ac4865aa84c3b4b 0.99999999999999999999999999999999999999",
    ),
    (
        Kind::Money8,
        "ffffffffffffffff -0.0001
0000000010270000 1.0000
0000008000000000 -922337203685477.5808",
    ),
    (
        Kind::Date,
        "000000 0001-01-01
dab937 9999-12-31
dbb937 Value
00000000 Length
42240b 2000-02-29",
    ),
    (
        Kind::DateTime8,
        "00000000ff818b01 1900-01-01 23:59:59.997
0000000000828b01 Value
462effff01000000 1753-01-01 00:00:00.003
a56af5ff00000000 0001-01-01 00:00:00.000
a46af5ff00000000 Value",
    ),
    (
        Kind::DateTime4,
        "00009f05 1900-01-01 23:59:00
0000a005 Value",
    ),
    (
        Kind::DateTimeOffset(0),
        "0000000000003c00 0001-01-01 01:00:00 +01:00
000000000000ffff Value
784a0141240b3c00 2000-02-29 00:30:00 +01:00
784a0141240ba6ff 2000-02-28 22:00:00 -01:30",
    ),
    (
        Kind::Time(7),
        "ffbf692ac9 23:59:59.9999999
00c0692ac9 Value",
    ),
    (
        Kind::Guid,
        "000102030405060708090a0b0c0d0e0f 03020100-0504-0706-0809-0a0b0c0d0e0f",
    ),
    (Kind::IntN(1), "ff 255"),
    (Kind::IntN(2), "0080 -32768"),
    (Kind::IntN(8), "0000000000000080 -9223372036854775808"),
    (Kind::Bit, "02 1"),
    (Kind::Money4, "9cffffff -0.0100"),
    (Kind::DateTime2(3), "00000000000000 0001-01-01 00:00:00.000"),
];

// The ends of one byte, and each number of digits.
const BYTES: &str = "00 0
09 9
0a 10
63 99
64 100
80 128
ff 255";

// Those of two.
const TWO_BYTES: &str = "0080 -32768
0180 -32767
ffff -1
0000 0
0100 1
ff7f 32767";

// Those of four.
const FOUR_BYTES: &str = "00000080 -2147483648
01000080 -2147483647
ffffffff -1
00000000 0
01000000 1
ffffff7f 2147483647
006cca88 -2000000000";

// Those of eight.
const EIGHT_BYTES: &str = "0000000000000080 -9223372036854775808
0100000000000080 -9223372036854775807
ffffffffffffffff -1
0000000000000000 0
0100000000000000 1
ffffffffffffff7f 9223372036854775807
0900000000000000 9
0a00000000000000 10
6300000000000000 99
6400000000000000 100
e703000000000000 999
e803000000000000 1000
0f27000000000000 9999
1027000000000000 10000
9f86010000000000 99999
a086010000000000 100000
3f420f0000000000 999999
40420f0000000000 1000000
7f96980000000000 9999999
8096980000000000 10000000
ffe0f50500000000 99999999
00e1f50500000000 100000000
ffc99a3b00000000 999999999
00ca9a3b00000000 1000000000
ffe30b5402000000 9999999999
00e40b5402000000 10000000000
ffe7764817000000 99999999999
00e8764817000000 100000000000
ff0fa5d4e8000000 999999999999
0010a5d4e8000000 1000000000000
ff9f724e18090000 9999999999999
00a0724e18090000 10000000000000
ff3f7a10f35a0000 99999999999999
00407a10f35a0000 100000000000000
ff7fc6a47e8d0300 999999999999999
0080c6a47e8d0300 1000000000000000
ffffc06ff2862300 9999999999999999
0000c16ff2862300 10000000000000000
ffff895d78456301 99999999999999999
00008a5d78456301 100000000000000000
ffff63a7b3b6e00d 999999999999999999
000064a7b3b6e00d 1000000000000000000
eb7e16820befddee -1234567890123456789";

// Bits: zero is 0, and any other byte 1.
const BITS: &str = "00 0
01 1
02 1
ff 1";

// The ends of money of eight bytes, and the numbers round zero and round one.
const EIGHT_BYTES_OF_MONEY: &str = "0000008000000000 -922337203685477.5808
0000008001000000 -922337203685477.5807
fffffffff0d8ffff -1.0000
fffffffff1d8ffff -0.9999
ffffffffffffffff -0.0001
0000000000000000 0.0000
0000000001000000 0.0001
000000000f270000 0.9999
0000000010270000 1.0000
00000000ffffffff 429496.7295
0100000000000000 429496.7296
ffffff7fffffffff 922337203685477.5807";

// Those of money of four.
const FOUR_BYTES_OF_MONEY: &str = "00000080 -214748.3648
f0d8ffff -1.0000
ffffffff -0.0001
00000000 0.0000
01000000 0.0001
10270000 1.0000
ffffff7f 214748.3647";

// The ends of each width of whole number, each number of digits, and bits; and the ends of both moneys, and the numbers
// round zero and round one.
pub(crate) const NUMBERS: [(Kind, &str); 14] = [
    (Kind::Int1, BYTES),
    (Kind::IntN(1), BYTES),
    (Kind::Int2, TWO_BYTES),
    (Kind::IntN(2), TWO_BYTES),
    (Kind::Int4, FOUR_BYTES),
    (Kind::IntN(4), FOUR_BYTES),
    (Kind::Int8, EIGHT_BYTES),
    (Kind::IntN(8), EIGHT_BYTES),
    (Kind::Bit, BITS),
    (Kind::BitN, BITS),
    (Kind::Money8, EIGHT_BYTES_OF_MONEY),
    (Kind::MoneyN(8), EIGHT_BYTES_OF_MONEY),
    (Kind::Money4, FOUR_BYTES_OF_MONEY),
    (Kind::MoneyN(4), FOUR_BYTES_OF_MONEY),
];

// GUIDs, whose first three numbers have their low byte first.
pub(crate) const GUIDS: [(Kind, &str); 1] = [(
    Kind::Guid,
    "00000000000000000000000000000000 00000000-0000-0000-0000-000000000000
ffffffffffffffffffffffffffffffff ffffffff-ffff-ffff-ffff-ffffffffffff
f0f1f2f3f4f5f6f7f8f9fafbfcfdfeff f3f2f1f0-f5f4-f7f6-f8f9-fafbfcfdfeff
123456789abcdef00fedcba987654321 78563412-bc9a-f0de-0fed-cba987654321
a0b1c2d3e4f5061728394a5b6c7d8e9f d3c2b1a0-f5e4-1706-2839-4a5b6c7d8e9f",
)];

// How many bytes a value of each scalar kind may have.
pub(crate) const LENGTHS: [(Kind, &[u8]); 48] = [
    (Kind::Int1, &[1]),
    (Kind::Int2, &[2]),
    (Kind::Int4, &[4]),
    (Kind::Int8, &[8]),
    (Kind::Bit, &[1]),
    (Kind::Money4, &[4]),
    (Kind::Money8, &[8]),
    (Kind::DateTime4, &[4]),
    (Kind::DateTime8, &[8]),
    (Kind::IntN(1), &[1]),
    (Kind::IntN(2), &[2]),
    (Kind::IntN(4), &[4]),
    (Kind::IntN(8), &[8]),
    (Kind::BitN, &[1]),
    (Kind::MoneyN(4), &[4]),
    (Kind::MoneyN(8), &[8]),
    (Kind::DateTimeN(4), &[4]),
    (Kind::DateTimeN(8), &[8]),
    (Kind::Guid, &[16]),
    (Kind::Date, &[3]),
    (
        Kind::Decimal {
            length: 5,
            precision: 9,
            scale: 2,
        },
        &[5],
    ),
    (
        Kind::Decimal {
            length: 9,
            precision: 9,
            scale: 2,
        },
        &[5, 9],
    ),
    (
        Kind::Decimal {
            length: 13,
            precision: 9,
            scale: 2,
        },
        &[5, 9, 13],
    ),
    (
        Kind::Decimal {
            length: 17,
            precision: 9,
            scale: 2,
        },
        &[5, 9, 13, 17],
    ),
    (Kind::Time(0), &[3]),
    (Kind::DateTime2(0), &[6]),
    (Kind::DateTimeOffset(0), &[8]),
    (Kind::Time(1), &[3]),
    (Kind::DateTime2(1), &[6]),
    (Kind::DateTimeOffset(1), &[8]),
    (Kind::Time(2), &[3]),
    (Kind::DateTime2(2), &[6]),
    (Kind::DateTimeOffset(2), &[8]),
    (Kind::Time(3), &[4]),
    (Kind::DateTime2(3), &[7]),
    (Kind::DateTimeOffset(3), &[9]),
    (Kind::Time(4), &[4]),
    (Kind::DateTime2(4), &[7]),
    (Kind::DateTimeOffset(4), &[9]),
    (Kind::Time(5), &[5]),
    (Kind::DateTime2(5), &[8]),
    (Kind::DateTimeOffset(5), &[10]),
    (Kind::Time(6), &[5]),
    (Kind::DateTime2(6), &[8]),
    (Kind::DateTimeOffset(6), &[10]),
    (Kind::Time(7), &[5]),
    (Kind::DateTime2(7), &[8]),
    (Kind::DateTimeOffset(7), &[10]),
];
