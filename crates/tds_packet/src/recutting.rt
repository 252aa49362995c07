// A payload written anew, in packets of another size.
ghost use Rattle.std.specs.Prelude.{◌≡◌, ℕ, List, ◌+◌, ◌-◌, ◌*◌, ◌^◌, ◌<◌, ◌≤◌, ◌++◌, drop, length};
ghost use Rattle.tds_meter.specs.LimitFaults.{IsPacketSize};
ghost use Rattle.tds_meter.specs.Space.{holding};
ghost use Rattle.tds_packet.specs.Packets.{packet_bytes};
ghost use Rattle.tds_packet.specs.Payloads.{IsGoing, IsOnSame, LeavesPayload, seen};
ghost use Rattle.tds_packet.specs.Recutting.{Cuts, Flushes, Gathers, Recuts, WritesPacket, cut_packet, write_stop};

use crate::answer::{Recut, RecutStop};
use crate::counted::Counted;
use crate::fault::{Fault, Place, Stop};
use crate::packet::TABULAR_RESULT;
use crate::payload::Payload;
use byteorder::{BigEndian, ByteOrder};
use std::io::{Read, Write};
use tds_meter::Area;

/// How many bytes the header of a packet has (MS-TDS, Packet Header).
const HEADER: usize = 8;

/// The Status of a message's last packet (MS-TDS, Packet Header).
const END_OF_MESSAGE: u8 = 0x01;

// The packets written so far, and their bytes.
#[derive(Debug, Clone, Copy)]
struct Written {
    packets: u64,
    bytes: u64,
}

/// Reads a message and writes its payload in packets of another size, that of the output's room:
/// full ones but for the last. A packet is written once a byte after it was read, or the message's
/// end. The input's room is the greatest packet size that is read, and the limit counts the bytes
/// read, headers included. At the end the writer is flushed, also after a stop of the input: a
/// failure then changes nothing.
///
/// Stops with the faults of a payload at their places, after which whole packets are written, and
/// with `WriteFailed` at the bytes that the writer took (MS-TDS, Packet Header).
pub fn recut<R: Read, W: Write>(
    from: &mut Counted<R>,
    to: &mut Counted<W>,
    input: &mut Area,
    output: &mut Area,
    max_wire: u64,
) -> Result<Recut, RecutStop>
    requires input { IsPacketSize input.old.room }
    requires output { IsPacketSize output.old.room }
    requires limit { max_wire ≤ 2 ^ 56 }
    ensures recuts { let m = output.old.room - 8 in
        Recuts R.remaining W.contents input.old.room max_wire m from.old from.new to.old to.new result }
    ensures rooms { (input.new.room ≡ input.old.room) × (output.new.room ≡ output.old.room) }
{
    let mut payload = Payload::new(from, input, max_wire);
    write_packets(&mut payload, to, output)
}

// Writes all of a payload in packets.
fn write_packets<R: Read, W: Write>(
    payload: &mut Payload<'_, R>,
    to: &mut Counted<W>,
    output: &mut Area,
) -> Result<Recut, RecutStop>
    requires going { IsGoing payload.old }
    requires place { payload.old.place ≡ 0 }
    requires room { IsPacketSize output.old.room }
    ensures payload { IsOnSame payload.old payload.new }
    ensures room { output.new.room ≡ output.old.room }
    ensures cuts { let m = output.old.room - 8 in
        Cuts W.contents m (seen R.remaining payload.old) (seen R.remaining payload.new) to.old to.new result }
{
    let mut done = Written {
        packets: 0,
        bytes: 0,
    };
    loop {
        match gather_packet(payload, output) {
            Ok(false) => done = write_packet(to, output, done, false)?,
            Ok(true) => {
                let all = write_packet(to, output, done, true)?;
                return finish(to, all, payload.place());
            }
            Err(stop) => {
                let _ = to.flush();
                return Err(RecutStop {
                    stop,
                    written: done.bytes,
                    unwritten: 0,
                });
            }
        }
    }
}

// Gathers a packet's body after room for its header, and says whether no byte follows it.
fn gather_packet<R: Read>(payload: &mut Payload<'_, R>, output: &mut Area) -> Result<bool, Stop>
    requires going { IsGoing payload.old }
    requires room { HEADER < output.old.room }
    ensures payload { LeavesPayload payload.old payload.new result }
    ensures room { output.new.room ≡ output.old.room }
    ensures body { Gathers R.remaining payload.old payload.new output.old.room output.new.bytes result }
{
    output.clear();
    let Ok(()) = output.extend(HEADER) else {
        unreachable!()
    };
    while !payload.at_end()? {
        let n = payload.buffered().len().min(output.free());
        if n == 0 {
            return Ok(false);
        }
        let Ok(()) = output.append(&payload.buffered()[..n]) else {
            unreachable!()
        };
        payload.consume(n);
    }
    Ok(true)
}

// Writes the packet that is in the area after room for its header.
fn write_packet<W: Write>(
    to: &mut Counted<W>,
    output: &mut Area,
    done: Written,
    last: bool,
) -> Result<Written, RecutStop>
    requires header { HEADER ≤ length output.old.bytes }
    requires fits { length output.old.bytes ≤ 32767 }
    requires count { (done.packets ≤ 2 ^ 56) × (done.bytes ≤ 2 ^ 57) }
    ensures room { output.new.room ≡ output.old.room }
    ensures writes { let packet = cut_packet done.packets last (drop HEADER output.old.bytes) in
        WritesPacket W.contents to.old to.new done (packet_bytes packet) result }
{
    put_packet_header(output, done.packets, last);
    let length = output.len() as u64;
    match to.deliver(output.bytes()) {
        Ok(()) => Ok(Written {
            packets: done.packets + 1,
            bytes: done.bytes + length,
        }),
        Err(taken) => {
            let taken = taken as u64;
            Err(write_failed(done.bytes + taken, length - taken))
        }
    }
}

// Writes the header of the packet after `number` others over the first bytes.
fn put_packet_header(output: &mut Area, number: u64, last: bool)
    requires header { HEADER ≤ length output.old.bytes }
    requires fits { length output.old.bytes ≤ 32767 }
    requires number { number ≤ 2 ^ 56 }
    ensures { output.new ≡ holding output.old (packet_bytes (cut_packet number last (drop HEADER output.old.bytes))) }
{
    let header = header(output.len(), number, last);
    put_front(output.tail(0), &header);
}

// The header of the packet of `size` bytes after `number` others (MS-TDS, Packet Header).
fn header(size: usize, number: u64, last: bool) -> [u8; 8]
    requires size { size ≤ 32767 }
    requires number { number ≤ 2 ^ 56 }
    ensures { (body : List ℕ) → 8 + length body ≡ size → result ++ body ≡ packet_bytes (cut_packet number last body) }
{
    let status = if last { END_OF_MESSAGE } else { 0x00 };
    let id = ((number + 1) % 256) as u8;
    let mut header = [TABULAR_RESULT, status, 0, 0, 0, 0, id, 0];
    BigEndian::write_u16(&mut header[2..4], size as u16);
    header
}

// Writes a list over the first bytes of another.
fn put_front(to: &mut [u8], front: &[u8])
    requires { length front.now ≤ length to.old }
    ensures { to.new ≡ front.now ++ drop (length front.now) to.old }
{
    to[..front.len()].copy_from_slice(front);
}

// Flushes the writer after all packets, which carry `payload` bytes.
fn finish<W: Write>(to: &mut Counted<W>, all: Written, payload: u64) -> Result<Recut, RecutStop>
    ensures { Flushes W.contents to.old to.new all payload result }
{
    if !to.flush() {
        return Err(write_failed(all.bytes, 0));
    }
    Ok(Recut {
        packets: all.packets,
        payload,
    })
}

// The stop of a writer that took `written` bytes, and `unwritten` of a packet not.
fn write_failed(written: u64, unwritten: u64) -> RecutStop
    ensures { result ≡ write_stop written unwritten }
{
    RecutStop {
        stop: Stop {
            fault: Fault::WriteFailed,
            place: Place::Text(written),
        },
        written,
        unwritten,
    }
}
