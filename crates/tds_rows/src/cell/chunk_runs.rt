// Chunks of a long value that lie whole in the packet, one after another (MS-TDS, Partially Length-prefixed Bytes).
ghost use Rattle.std.specs.Prelude.{◌≡◌, ◌+◌, ◌^◌, ◌<◌, ◌≤◌, drop, length, take, true};
ghost use Rattle.tds_cells.specs.Cells.{within_total};
ghost use Rattle.tds_rows.specs.ChunkRuns.{RunsChunks};
ghost use Rattle.tds_values.specs.Numbers.{little};

use byteorder::{ByteOrder, LittleEndian};
use tds_csv::Joiner;
use tds_text::lanes::LANES;
use tds_values::Span;

/// The most bytes of a chunk that is taken with others: a longer one has its text put by itself.
pub(crate) const LONGEST_CHUNK: u64 = 1024;

/// How far a run of chunks came, and how many bytes of data they have.
#[derive(Clone, Copy)]
pub(crate) struct ChunkRun {
    pub(crate) span: Span,
    pub(crate) data: u64,
}

/// The length of the next chunk after `sum` bytes of data, if it lies whole in the bytes and isn't long: 0 if not, before the
/// terminator, and if it passes the total.
#[inline(always)]
pub(crate) fn next_chunk(bytes: &[u8], at: usize, total: Option<u64>, sum: u64) -> usize
    requires at { at ≤ length bytes.now }
    requires few { sum + LONGEST_CHUNK < 2 ^ 64 }
    ensures few { result ≤ LONGEST_CHUNK }
    ensures chunk { 0 < result → (at + 4 + result ≤ length bytes.now) × (little (take 4 (drop at bytes.now)) ≡ result)
        × (within_total total (sum + result) ≡ true) }
{
    if bytes.len() - at < 4 {
        return 0;
    }
    let n = u64::from(LittleEndian::read_u32(&bytes[at..]));
    if n > LONGEST_CHUNK || n as usize > bytes.len() - at - 4 {
        return 0;
    }
    match total {
        Some(total) if sum + n > total => 0,
        _ => n as usize,
    }
}

/// Writes the text of the chunks that lie whole in the bytes, as far as the joiner writes it and there is room.
pub(crate) fn write_chunks<J: Joiner>(
    joiner: &mut J,
    bytes: &[u8],
    total: Option<u64>,
    sum: u64,
    to: &mut [u8],
) -> ChunkRun
    requires begun { J.begins (J.withheld joiner.old) }
    requires few { sum + length bytes.now + LONGEST_CHUNK < 2 ^ 64 }
    ensures begun { J.begins (J.withheld joiner.new) }
    ensures used { result.span.used ≤ length bytes.now }
    ensures made { result.span.made ≤ length to.new }
    ensures data { result.data ≤ result.span.used }
    ensures chunks { RunsChunks J.fit J.begins J.rest J.text J.UNIT J.QUOTED
        (J.withheld joiner.old) (J.withheld joiner.new) total sum result.data
        (take result.span.used bytes.now) (take result.span.made to.new) }
{
    let mut at = 0;
    let mut made = 0;
    let mut data = 0;
    loop {
        let n = next_chunk(bytes, at, total, sum + data);
        if n == 0 || to.len() - made < 3 * n + LANES {
            break;
        }
        let source = &bytes[at + 4..];
        let Some(added) = joiner.write(&source[..n], source, &mut to[made..]) else {
            break;
        };
        at += 4 + n;
        made += added;
        data += n as u64;
    }
    ChunkRun {
        span: Span { used: at, made },
        data,
    }
}
