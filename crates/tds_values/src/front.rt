// The text of the value at the front of bytes, which go on after it.
ghost use Rattle.std.specs.Prelude.{◌≡◌, ◌≢◌, ◌<◌, ◌≤◌, IsTrue, IfSome, MatchResult, Some, None, drop, length, slice_index, take};
ghost use Rattle.tds_values.specs.Front.{FrontWritten};
ghost use Rattle.tds_values.specs.Kind as kinds;

use crate::kind::Kind;
use crate::scalar::ValueFault;
use crate::span::Span;
use crate::text::TEXT_ROOM;
use crate::write::{
    write_bit, write_date, write_date_time_n, write_date_time_offset, write_date_time2,
    write_decimal, write_guid, write_integer, write_money, write_time,
};

/// How many bytes [`write_front`] needs: one more than the longest value with its length, so that one that is longer
/// than any kind allows is seen to be.
pub const FRONT_SIZE: usize = 19;

/// How many bytes the longest value has, a decimal.
const LONGEST_VALUE: usize = 17;

// The value of `n` bytes after their length. `None` if the length is another.
#[inline(always)]
fn counted(n: usize, bytes: &[u8]) -> Option<&[u8]>
    requires few { n ≤ LONGEST_VALUE }
    requires there { FRONT_SIZE ≤ length bytes.now }
    ensures value { IfSome result (λ value. value.now ≡ take (slice_index bytes.now 0) (drop 1 bytes.now)) }
    ensures size { IfSome result (λ value. slice_index bytes.now 0 ≡ n) }
    ensures whole { IfSome result (λ value. length value.now ≡ n) }
    ensures other { result ≡ None → length (take (slice_index bytes.now 0) (drop 1 bytes.now)) ≢ n }
{
    if bytes[0] as usize != n {
        return None;
    }
    Some(&bytes[1..1 + n])
}

// The value after its length. `None` if it is longer than any kind allows.
#[inline(always)]
fn counted_any(bytes: &[u8]) -> Option<&[u8]>
    requires there { FRONT_SIZE ≤ length bytes.now }
    ensures value { IfSome result (λ value. value.now ≡ take (slice_index bytes.now 0) (drop 1 bytes.now)) }
    ensures whole { IfSome result (λ value. length value.now ≡ slice_index bytes.now 0) }
    ensures few { IfSome result (λ value. length value.now ≤ LONGEST_VALUE) }
    ensures other { result ≡ None → LONGEST_VALUE < length (take (slice_index bytes.now 0) (drop 1 bytes.now)) }
{
    let n = bytes[0] as usize;
    if n > LONGEST_VALUE {
        return None;
    }
    Some(&bytes[1..1 + n])
}

// What was written of a value that has so many bytes with its length. `None` if it is refused.
#[inline(always)]
fn as_front(used: usize, text: Result<usize, ValueFault>) -> Option<Span>
    ensures { MatchResult text (λ made. result ≡ Some (record { used = used; made = made })) (λ _. result ≡ None) }
{
    match text {
        Ok(made) => Some(Span { used, made }),
        Err(_) => None,
    }
}

/// Writes the text of the value at the front of `bytes`, which comes after its length if its kind has one, to the front
/// of `to`. `None` if the bytes spell no value there: they don't for NULL, nor for a kind that isn't scalar. What `to`
/// holds after the text, and after `None`, isn't fixed.
///
/// `COPY` changes nothing. A loop that gives it another value has a copy of this code of its own, which is inlined there.
#[inline(always)]
pub fn write_front<const COPY: bool>(kind: &Kind, bytes: &[u8], to: &mut [u8]) -> Option<Span>
    requires valid { IsTrue (kinds.is_valid kind.now) }
    requires there { FRONT_SIZE ≤ length bytes.now }
    requires room { TEXT_ROOM ≤ length to.old }
    ensures within { IfSome result (λ front. front.used < FRONT_SIZE) }
    ensures text { FrontWritten kind.now bytes.now to.new result }
{
    match *kind {
        Kind::Int1 => as_front(1, write_integer(1, &bytes[..1], to)),
        Kind::Int2 => as_front(2, write_integer(2, &bytes[..2], to)),
        Kind::Int4 => as_front(4, write_integer(4, &bytes[..4], to)),
        Kind::Int8 => as_front(8, write_integer(8, &bytes[..8], to)),
        Kind::IntN(4) => as_front(5, write_integer(4, counted(4, bytes)?, to)),
        Kind::IntN(8) => as_front(9, write_integer(8, counted(8, bytes)?, to)),
        Kind::IntN(2) => as_front(3, write_integer(2, counted(2, bytes)?, to)),
        Kind::IntN(_) => as_front(2, write_integer(1, counted(1, bytes)?, to)),
        Kind::Bit => as_front(1, write_bit(&bytes[..1], to)),
        Kind::BitN => as_front(2, write_bit(counted(1, bytes)?, to)),
        Kind::Money4 => as_front(4, write_money(4, &bytes[..4], to)),
        Kind::Money8 => as_front(8, write_money(8, &bytes[..8], to)),
        Kind::MoneyN(n) => as_front(
            1 + n as usize,
            write_money(n, counted(n as usize, bytes)?, to),
        ),
        Kind::DateTime4 => as_front(4, write_date_time_n(4, &bytes[..4], to)),
        Kind::DateTime8 => as_front(8, write_date_time_n(8, &bytes[..8], to)),
        Kind::DateTimeN(n) => {
            as_front(
                1 + n as usize,
                write_date_time_n(n, counted(n as usize, bytes)?, to),
            )
        }
        Kind::Guid => as_front(17, write_guid(counted(16, bytes)?, to)),
        Kind::Decimal { length, scale, .. } => {
            let value = counted_any(bytes)?;
            as_front(1 + value.len(), write_decimal(length, scale, value, to))
        }
        Kind::Date => as_front(4, write_date(counted(3, bytes)?, to)),
        Kind::Time(0) => as_front(4, write_time(0, counted(3, bytes)?, to)),
        Kind::Time(3) => as_front(5, write_time(3, counted(4, bytes)?, to)),
        Kind::Time(7) => as_front(6, write_time(7, counted(5, bytes)?, to)),
        Kind::Time(scale) => {
            let value = counted_any(bytes)?;
            as_front(1 + value.len(), write_time(scale, value, to))
        }
        Kind::DateTime2(0) => as_front(7, write_date_time2(0, counted(6, bytes)?, to)),
        Kind::DateTime2(3) => as_front(8, write_date_time2(3, counted(7, bytes)?, to)),
        Kind::DateTime2(7) => as_front(9, write_date_time2(7, counted(8, bytes)?, to)),
        Kind::DateTime2(scale) => {
            let value = counted_any(bytes)?;
            as_front(1 + value.len(), write_date_time2(scale, value, to))
        }
        Kind::DateTimeOffset(0) => as_front(9, write_date_time_offset(0, counted(8, bytes)?, to)),
        Kind::DateTimeOffset(3) => as_front(10, write_date_time_offset(3, counted(9, bytes)?, to)),
        Kind::DateTimeOffset(7) => as_front(11, write_date_time_offset(7, counted(10, bytes)?, to)),
        Kind::DateTimeOffset(scale) => {
            let value = counted_any(bytes)?;
            as_front(1 + value.len(), write_date_time_offset(scale, value, to))
        }
        Kind::Binary(_) | Kind::Narrow(_) | Kind::Wide(_) => None,
    }
}
