// TYPE_INFO: a type byte, and the bytes that describe it further (MS-TDS, Type Info Rule
// Definition).
ghost use Rattle.std.specs.Prelude.{◌≡◌, ◌≤◌, ℕ, ◌∷◌, ◌==◌, length, take, is_some, Some, IfOk, IfSome, MatchResult};
ghost use Rattle.tds_columns.specs.Description as spec;
ghost use Rattle.byteorder.specs.Endian.{little_number};
ghost use Rattle.tds_values.specs.TypeInfo as info;
ghost use Rattle.tds_values.specs.declared.kind.Kind.{Kind};

use byteorder::{ByteOrder, LittleEndian};
use tds_packet::{Fault, RefusedKind};
use tds_values::{Kind, Reach};

// Type bytes after which nothing follows (MS-TDS, Fixed-Length Data Types).
const INT1: u8 = 0x30;

const BIT: u8 = 0x32;

const INT2: u8 = 0x34;

const INT4: u8 = 0x38;

const DATETIME4: u8 = 0x3A;

const MONEY8: u8 = 0x3C;

const DATETIME8: u8 = 0x3D;

const MONEY4: u8 = 0x7A;

const INT8: u8 = 0x7F;

const DATE: u8 = 0x28;

// Type bytes with a length or a scale (MS-TDS, Variable-Length Data Types).
const GUID: u8 = 0x24;

const INT_N: u8 = 0x26;

const BIT_N: u8 = 0x68;

const MONEY_N: u8 = 0x6E;

const DATETIME_N: u8 = 0x6F;

const TIME: u8 = 0x29;

const DATETIME2: u8 = 0x2A;

const DATETIME_OFFSET: u8 = 0x2B;

// Type bytes with a length, a precision and a scale.
const DECIMAL: u8 = 0x6A;

const NUMERIC: u8 = 0x6C;

// Type bytes with a length of two bytes, and of characters with a collation of five after it.
const BIG_VARBINARY: u8 = 0xA5;

const BIG_BINARY: u8 = 0xAD;

const BIG_VARCHAR: u8 = 0xA7;

const BIG_CHAR: u8 = 0xAF;

const NVARCHAR: u8 = 0xE7;

const NCHAR: u8 = 0xEF;

// Type bytes that are refused by name. Floating-point numbers have no text in this profile.
const FLT4: u8 = 0x3B;

const FLT8: u8 = 0x3E;

const FLT_N: u8 = 0x6D;

// Values with a text pointer before them (MS-TDS, Long Length Types).
const TEXT: u8 = 0x23;

const NTEXT: u8 = 0x63;

const IMAGE: u8 = 0x22;

// A value that brings its own type with it (MS-TDS, SQL_VARIANT).
const SS_VARIANT: u8 = 0x62;

// Types whose description names a schema (MS-TDS, Common Language Runtime Instances, XML Values).
const UDT: u8 = 0xF0;

const XML: u8 = 0xF1;

// The described length of values that are spelled in chunks (MS-TDS, Partially Length-Prefixed
// Bytes).
const CHUNKED: u16 = 0xFFFF;

/// How many bytes follow a type byte in TYPE_INFO, if it is one of this profile.
#[inline(always)]
#[tactic(auto, unfolding(tds_values::specs::TypeInfo::rest_length))]
pub(crate) fn rest_length(byte: u8) -> Option<usize>
    ensures value { result ≡ info.rest_length byte }
    ensures bound { IfSome result (λ n. n ≤ 7) }
{
    match byte {
        INT1 | BIT | INT2 | INT4 | INT8 | DATETIME4 | DATETIME8 | MONEY4 | MONEY8 | DATE => Some(0),
        GUID | INT_N | BIT_N | MONEY_N | DATETIME_N | TIME | DATETIME2 | DATETIME_OFFSET => Some(1),
        DECIMAL | NUMERIC => Some(3),
        BIG_VARBINARY | BIG_BINARY => Some(2),
        BIG_VARCHAR | BIG_CHAR | NVARCHAR | NCHAR => Some(7),
        _ => None,
    }
}

// The kind of a type byte that is refused by name.
#[tactic(auto, unfolding(crate::specs::Description::refused_kind))]
fn refused_kind(byte: u8) -> Option<RefusedKind>
    ensures { result ≡ spec.refused_kind byte }
{
    match byte {
        FLT4 => Some(RefusedKind::Flt4),
        FLT8 => Some(RefusedKind::Flt8),
        FLT_N => Some(RefusedKind::FltN),
        TEXT => Some(RefusedKind::Text),
        NTEXT => Some(RefusedKind::NText),
        IMAGE => Some(RefusedKind::Image),
        SS_VARIANT => Some(RefusedKind::SsVariant),
        UDT => Some(RefusedKind::Udt),
        XML => Some(RefusedKind::Xml),
        _ => None,
    }
}

/// How many bytes follow the type byte of the column with this number, or why it isn't accepted.
pub(crate) fn judge_type(index: u16, byte: u8) -> Result<usize, Fault>
    ensures gives { MatchResult result
        (λ rest. info.rest_length byte ≡ Some rest)
        (λ fault. spec.type_fault index byte (info.rest_length byte) ≡ Some fault) }
    ensures bound { IfOk result (λ rest. rest ≤ 7) }
{
    match rest_length(byte) {
        Some(rest) => Ok(rest),
        None => match refused_kind(byte) {
            Some(kind) => Err(Fault::RefusedColumn { index, kind }),
            None => Err(Fault::UnknownType { index, byte }),
        },
    }
}

// How the length of a long value is spelled, by its described length.
fn reach(rest: &[u8]) -> Reach
    requires { 2 ≤ length rest.now }
    ensures { result ≡ info.reach_of (little_number 2 rest.now) }
{
    if LittleEndian::read_u16(rest) == CHUNKED {
        Reach::Chunked
    } else {
        Reach::Short
    }
}

/// The kind that a type byte and the bytes after it name, if they name one, and how many of
/// these bytes are its own.
#[inline(always)]
#[tactic(auto, unfolding(tds_values::specs::TypeInfo::rest_length, tds_values::specs::TypeInfo::named_kind))]
pub(crate) fn kind_at(byte: u8, rest: &[u8]) -> (Kind, usize)
    requires { (n : ℕ) × (info.rest_length byte ≡ Some n) × (n ≤ length rest.now) }
    ensures rest { info.rest_length byte ≡ Some result.1 }
    ensures kind { (kind : Kind) → info.named_kind byte (take result.1 rest.now) ≡ Some kind → result.0 ≡ kind }
{
    match byte {
        INT1 => (Kind::Int1, 0),
        BIT => (Kind::Bit, 0),
        INT2 => (Kind::Int2, 0),
        INT4 => (Kind::Int4, 0),
        INT8 => (Kind::Int8, 0),
        DATETIME4 => (Kind::DateTime4, 0),
        DATETIME8 => (Kind::DateTime8, 0),
        MONEY4 => (Kind::Money4, 0),
        MONEY8 => (Kind::Money8, 0),
        DATE => (Kind::Date, 0),
        GUID => (Kind::Guid, 1),
        INT_N => (Kind::IntN(rest[0]), 1),
        BIT_N => (Kind::BitN, 1),
        MONEY_N => (Kind::MoneyN(rest[0]), 1),
        DATETIME_N => (Kind::DateTimeN(rest[0]), 1),
        TIME => (Kind::Time(rest[0]), 1),
        DATETIME2 => (Kind::DateTime2(rest[0]), 1),
        DATETIME_OFFSET => (Kind::DateTimeOffset(rest[0]), 1),
        DECIMAL | NUMERIC => {
            let kind = Kind::Decimal {
                length: rest[0],
                precision: rest[1],
                scale: rest[2],
            };
            (kind, 3)
        }
        BIG_VARBINARY | BIG_BINARY => (Kind::Binary(reach(rest)), 2),
        BIG_VARCHAR | BIG_CHAR => (Kind::Narrow(reach(rest)), 7),
        NVARCHAR | NCHAR => (Kind::Wide(reach(rest)), 7),
        _ => unreachable!(),
    }
}

// Whether a type byte and all the bytes after it name a kind, whatever the numbers are that its
// values depend on.
#[tactic(auto, unfolding(tds_values::specs::TypeInfo::rest_length, tds_values::specs::TypeInfo::named_kind))]
fn is_named(byte: u8, rest: &[u8]) -> bool
    requires { info.rest_length byte ≡ Some (length rest.now) }
    ensures { result ≡ is_some (info.named_kind byte rest.now) }
{
    match byte {
        GUID => rest[0] == 16,
        BIT_N => rest[0] == 1,
        BIG_BINARY | BIG_CHAR | NCHAR => LittleEndian::read_u16(rest) != CHUNKED,
        _ => true,
    }
}

/// The kind that a type byte and all the bytes after it describe, if they are a TYPE_INFO.
#[inline(always)]
pub(crate) fn kind_of(byte: u8, rest: &[u8]) -> Option<Kind>
    requires { info.rest_length byte ≡ Some (length rest.now) }
    ensures { result ≡ info.kind_of (byte ∷ rest.now) }
{
    let (kind, _) = kind_at(byte, rest);
    if is_named(byte, rest) && kind.is_valid() {
        Some(kind)
    } else {
        None
    }
}
