// Text in Windows-1252, converted from one slice to another.
ghost use Rattle.std.specs.Prelude.{◌≡◌, ◌+◌, ◌*◌, ◌<◌, ◌≤◌, [], ◌∷◌, ◌++◌, ◌-◌, length, take, drop, slice_index, IfSome};
ghost use Rattle.std.specs.Int.{to_le_bytes, w32};
ghost use Rattle.tds_text.specs.Plain.{LiesIn};
ghost use Rattle.tds_text.specs.Windows1252 as windows_1252;

use crate::encode::{put_doubled, put_plain, take_before, take_plain};
use crate::lanes::{BLOCK, BY_HAND, LANES, MANY, PART, WIDE, plain_stops};
use tds_values::Span;

// The characters of the bytes 80 to FF in UTF-8, the first byte the lowest, with their number in the highest.
const UPPER: [u32; 128] = [
    0x03AC82E2, 0x020081C2, 0x039A80E2, 0x020092C6, 0x039E80E2, 0x03A680E2, 0x03A080E2, 0x03A180E2,
    0x020086CB, 0x03B080E2, 0x0200A0C5, 0x03B980E2, 0x020092C5, 0x02008DC2, 0x0200BDC5, 0x02008FC2,
    0x020090C2, 0x039880E2, 0x039980E2, 0x039C80E2, 0x039D80E2, 0x03A280E2, 0x039380E2, 0x039480E2,
    0x02009CCB, 0x03A284E2, 0x0200A1C5, 0x03BA80E2, 0x020093C5, 0x02009DC2, 0x0200BEC5, 0x0200B8C5,
    0x0200A0C2, 0x0200A1C2, 0x0200A2C2, 0x0200A3C2, 0x0200A4C2, 0x0200A5C2, 0x0200A6C2, 0x0200A7C2,
    0x0200A8C2, 0x0200A9C2, 0x0200AAC2, 0x0200ABC2, 0x0200ACC2, 0x0200ADC2, 0x0200AEC2, 0x0200AFC2,
    0x0200B0C2, 0x0200B1C2, 0x0200B2C2, 0x0200B3C2, 0x0200B4C2, 0x0200B5C2, 0x0200B6C2, 0x0200B7C2,
    0x0200B8C2, 0x0200B9C2, 0x0200BAC2, 0x0200BBC2, 0x0200BCC2, 0x0200BDC2, 0x0200BEC2, 0x0200BFC2,
    0x020080C3, 0x020081C3, 0x020082C3, 0x020083C3, 0x020084C3, 0x020085C3, 0x020086C3, 0x020087C3,
    0x020088C3, 0x020089C3, 0x02008AC3, 0x02008BC3, 0x02008CC3, 0x02008DC3, 0x02008EC3, 0x02008FC3,
    0x020090C3, 0x020091C3, 0x020092C3, 0x020093C3, 0x020094C3, 0x020095C3, 0x020096C3, 0x020097C3,
    0x020098C3, 0x020099C3, 0x02009AC3, 0x02009BC3, 0x02009CC3, 0x02009DC3, 0x02009EC3, 0x02009FC3,
    0x0200A0C3, 0x0200A1C3, 0x0200A2C3, 0x0200A3C3, 0x0200A4C3, 0x0200A5C3, 0x0200A6C3, 0x0200A7C3,
    0x0200A8C3, 0x0200A9C3, 0x0200AAC3, 0x0200ABC3, 0x0200ACC3, 0x0200ADC3, 0x0200AEC3, 0x0200AFC3,
    0x0200B0C3, 0x0200B1C3, 0x0200B2C3, 0x0200B3C3, 0x0200B4C3, 0x0200B5C3, 0x0200B6C3, 0x0200B7C3,
    0x0200B8C3, 0x0200B9C3, 0x0200BAC3, 0x0200BBC3, 0x0200BCC3, 0x0200BDC3, 0x0200BEC3, 0x0200BFC3,
];

// What the table has for a byte.
#[inline(always)]
fn upper(byte: u8) -> u32
    requires { 128 ≤ byte }
    ensures { result ≡ slice_index UPPER (byte - 128) }
{
    UPPER[usize::from(byte) - 0x80]
}

// Writes the bytes of a number, the lowest first.
#[inline(always)]
fn put_four(to: &mut [u8], at: usize, number: u32)
    requires { at + 4 ≤ length to.old }
    ensures { take (at + 4) to.new ≡ take at to.old ++ to_le_bytes w32 number }
{
    to[at..at + 4].copy_from_slice(&number.to_le_bytes());
}

// Writes the text of a byte beyond ASCII, and a byte or two after it.
#[inline(always)]
fn put_upper(to: &mut [u8], at: usize, byte: u8) -> usize
    requires upper { 128 ≤ byte }
    requires room { at + 4 ≤ length to.old }
    ensures most { result ≤ at + 3 }
    ensures written { take result to.new ≡ take at to.old ++ windows_1252.text (byte ∷ []) }
{
    let text = upper(byte);
    put_four(to, at, text);
    at + (text / 0x100_0000) as usize
}

// Writes the text of a byte, and a byte or two after it.
#[inline(always)]
fn put_text(to: &mut [u8], at: usize, byte: u8) -> usize
    requires { at + 4 ≤ length to.old }
    ensures most { result ≤ at + 3 }
    ensures written { take result to.new ≡ take at to.old ++ windows_1252.text (byte ∷ []) }
{
    if byte >= 0x80 {
        put_upper(to, at, byte)
    } else {
        put_doubled(to, at, byte)
    }
}

// Writes the next bytes that are their own text, at most 32, to a place, and returns how many.
#[inline(always)]
fn take_wide(bytes: &[u8], at: usize, to: &mut [u8], made: usize) -> usize
    requires wide { at + WIDE ≤ length bytes.now }
    requires room { made + WIDE ≤ length to.old }
    ensures most { result ≤ WIDE }
    ensures taken { let run = take result (drop at bytes.now) in
        take (made + result) to.new ≡ take made to.old ++ windows_1252.text run }
{
    take_before(bytes, at, plain_stops::<WIDE>(bytes, at), to, made)
}

// Goes on with the text of the bytes up to a place, a byte at a time, and returns how long it is then.
#[inline(always)]
#[tactic(auto, using(crate::proofs::SingleLaws::windows_1252_laws, std::proofs::lemmas::Grind::common_steps))]
fn convert_by_hand(bytes: &[u8], from: usize, end: usize, to: &mut [u8], start: usize) -> usize
    requires from { from ≤ end }
    requires end { end ≤ length bytes.now }
    requires room { start + 3 * (end - from) < length to.old }
    requires before { windows_1252.Converts bytes.now to.old from start }
    ensures most { result ≤ start + 3 * (end - from) }
    ensures text { windows_1252.Converts bytes.now to.new end result }
{
    let mut at = from;
    let mut made = start;
    while at < end {
        made = put_text(to, made, bytes[at]);
        at += 1;
    }
    made
}

// Writes the text of the bytes, as long as 32 of them are left and there are 64 bytes of room. The first ones are looked at 64 at a
// time, as long as all of them are their own text.
#[inline(never)]
#[tactic(auto, using(crate::proofs::Singles::windows_1252_runs, std::proofs::lemmas::Grind::common_steps))]
pub(crate) fn convert_wide(bytes: &[u8], to: &mut [u8]) -> Span
    ensures within { result.used ≤ length bytes.now }
    ensures fits { result.made ≤ length to.new }
    ensures some { WIDE ≤ length bytes.now → PART ≤ length to.old → 0 < result.used }
    ensures text { windows_1252.Converts bytes.now to.new result.used result.made }
{
    if bytes.len() < WIDE || to.len() < PART {
        return Span { used: 0, made: 0 };
    }
    let mut at = put_plain::<BLOCK>(bytes, 0, to);
    let mut made = at;
    let last = bytes.len() - WIDE;
    let limit = to.len() - PART;
    while at <= last && made <= limit {
        let n = take_wide(bytes, at, to, made);
        at += n;
        made += n;
        if n == WIDE {
            continue;
        }
        if n > 0 {
            made = put_text(to, made, bytes[at]);
            at += 1;
            continue;
        }
        made = convert_by_hand(bytes, at, at + BY_HAND, to, made);
        at += BY_HAND;
    }
    Span { used: at, made }
}

// Writes the text of the bytes, as long as 32 of them are left. It makes no call for fewer than 64.
#[inline(always)]
fn convert_front(bytes: &[u8], to: &mut [u8]) -> Span
    ensures within { result.used ≤ length bytes.now }
    ensures fits { result.made ≤ length to.new }
    ensures text { windows_1252.Converts bytes.now to.new result.used result.made }
{
    if bytes.len() < MANY {
        return Span { used: 0, made: 0 };
    }
    convert_wide(bytes, to)
}

// Goes on with the text, and returns its length. What follows the bytes in the source may be looked at.
#[inline(always)]
#[tactic(auto, using(crate::proofs::Singles::windows_1252_runs, std::proofs::lemmas::Grind::common_steps))]
fn convert_rest(bytes: &[u8], source: &[u8], after: Span, to: &mut [u8]) -> usize
    requires source { LiesIn bytes.now source.now }
    requires within { after.used ≤ length bytes.now }
    requires room { after.made + 3 * (length bytes.now - after.used) + LANES ≤ length to.old }
    requires before { windows_1252.Converts bytes.now to.old after.used after.made }
    ensures short { result ≤ after.made + 3 * (length bytes.now - after.used) }
    ensures text { take result to.new ≡ windows_1252.text bytes.now }
{
    let mut at = after.used;
    let mut made = after.made;
    let end = bytes.len().min((source.len() + 1).saturating_sub(LANES));
    while at < end {
        let n = take_plain::<LANES>(bytes, source, at, to, made);
        at += n;
        made += n;
        if n == LANES || at == bytes.len() {
            continue;
        }
        made = put_text(to, made, bytes[at]);
        at += 1;
    }
    convert_by_hand(bytes, at, bytes.len(), to, made)
}

// Writes the text of the first bytes, at most `N`: of those before the first that isn't its own text, and of that one. What follows the
// bytes in the source may be looked at.
#[inline(always)]
#[tactic(auto, using(crate::proofs::Singles::windows_1252_runs, std::proofs::lemmas::Grind::common_steps))]
fn convert_lanes<const N: usize>(bytes: &[u8], source: &[u8], to: &mut [u8]) -> Span
    requires few { N ≤ BLOCK }
    requires source { LiesIn bytes.now source.now }
    requires room { (3 * length bytes.now + LANES ≤ length to.old) × (N ≤ length to.old) }
    ensures within { result.used ≤ length bytes.now }
    ensures short { result.made ≤ 3 * result.used }
    ensures text { windows_1252.Converts bytes.now to.new result.used result.made }
{
    if source.len() < N {
        return Span { used: 0, made: 0 };
    }
    let n = take_plain::<N>(bytes, source, 0, to, 0);
    if n == N || n == bytes.len() {
        return Span { used: n, made: n };
    }
    let made = put_text(to, n, bytes[n]);
    Span { used: n + 1, made }
}

// Writes the text of the first bytes, looking at 16 together or at 32, as many as there may be.
#[inline(always)]
fn convert_first(bytes: &[u8], source: &[u8], to: &mut [u8]) -> Span
    requires source { LiesIn bytes.now source.now }
    requires room { 3 * length bytes.now + LANES ≤ length to.old }
    ensures within { result.used ≤ length bytes.now }
    ensures short { result.made ≤ 3 * result.used }
    ensures text { windows_1252.Converts bytes.now to.new result.used result.made }
{
    if bytes.len() <= LANES {
        return convert_lanes::<LANES>(bytes, source, to);
    }
    convert_lanes::<WIDE>(bytes, source, to)
}

// Writes the text of bytes as `convert` does, in the way that is best for fewer than 64: it makes no call.
#[inline(always)]
pub(crate) fn convert_few(bytes: &[u8], source: &[u8], to: &mut [u8]) -> usize
    requires source { LiesIn bytes.now source.now }
    requires room { 3 * length bytes.now + LANES ≤ length to.old }
    ensures short { result ≤ 3 * length bytes.now }
    ensures text { take result to.new ≡ windows_1252.text bytes.now }
{
    let first = convert_first(bytes, source, to);
    if first.used == bytes.len() {
        return first.made;
    }
    convert_rest(bytes, source, first, to)
}

// Writes the text of bytes, and returns its length. What follows them in the source may be looked at.
#[inline(always)]
pub(crate) fn convert(bytes: &[u8], source: &[u8], to: &mut [u8]) -> usize
    requires source { LiesIn bytes.now source.now }
    requires room { 3 * length bytes.now + LANES ≤ length to.old }
    ensures short { result ≤ 3 * length bytes.now }
    ensures text { take result to.new ≡ windows_1252.text bytes.now }
{
    let done = convert_front(bytes, to);
    convert_rest(bytes, source, done, to)
}

// Writes the text of bytes as `convert` does, if there is surely room for it.
pub(crate) fn convert_within(bytes: &[u8], source: &[u8], to: &mut [u8]) -> Option<usize>
    requires source { LiesIn bytes.now source.now }
    ensures most { IfSome result (λ made. made + LANES ≤ length to.old) }
    ensures text { IfSome result (λ made. take made to.new ≡ windows_1252.text bytes.now) }
{
    let done = convert_front(bytes, to);
    let room = to.len() - done.made;
    if room < LANES || (room - LANES) / 3 < bytes.len() - done.used {
        return None;
    }
    Some(convert_rest(bytes, source, done, to))
}
