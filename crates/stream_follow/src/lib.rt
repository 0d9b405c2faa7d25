// Both ends of a trace on the standard streams: the two bytes of the host's ID, then as the annotator has it, a two-byte length, a sheet of
// so many bytes and a trace to the end of input; its lines as they come. specs/Program says what is printed. It stops where the annotator
// does.
#![tactic(auto)]

use stream_trace::Stop;
use trace_engine::Engine;

// Where bytes are held: as in the annotator (`stream_trace`) the sheet, 8,192 bytes, 51 and 16; the two bytes of the ID and of the length,
// a piece of the trace and its lines. With a full sheet of 47,105 bytes that is 61,413 of the 65,536 allowed.
// A piece of ordinary records, each 12 bytes after its length, has lines that fit by their count, so that none is routed twice.
pub const MOST_LINES: usize = 93;

pub const PIECE: usize = MOST_LINES * 14;

pub const LINES: usize = MOST_LINES * trace_ends::LONGEST;

pub fn follow(
    rt: HostRuntime,
    sheet: &mut [u8; sheet::FULL],
    piece: &mut [u8; PIECE],
    lines: &mut [u8; LINES],
) {
    match read_input(rt, sheet) {
        Ok((host_id, size, left)) => {
            read_over(rt, left, host_id, text::front(sheet, size), piece, lines);
        }
        Err(stop) => stream_trace::print_stop(rt, stop, lines),
    }
}

// The host's ID and a sheet: the ID, how long the sheet is, and the pieces that may still come.
fn read_input(rt: HostRuntime, sheet: &mut [u8; sheet::FULL]) -> Result<(u16, usize, u64), Stop> {
    let mut id = [0u8; 2];
    let left = stream_trace::fill(rt, console::PIECES, &mut id)?;
    let (size, fewer) = stream_trace::read_sheet(rt, left, sheet)?;
    Ok((endian::read_be16(&id, 0) as u16, size, fewer))
}

// The trace over a sheet, which is checked once in all.
fn read_over(
    rt: HostRuntime,
    start: u64,
    host_id: u16,
    sheet: &[u8],
    piece: &mut [u8; PIECE],
    lines: &mut [u8; LINES],
) {
    let engine = Engine::Ends(host_id, sheet::check(sheet));
    stream_trace::read_trace(rt, start, engine, sheet, piece, lines);
}
