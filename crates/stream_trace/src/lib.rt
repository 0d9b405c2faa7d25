// The annotator on the standard streams: a two-byte length, a sheet of so many bytes, then a trace to the end of input; its lines as they
// come. specs/Program says what is printed. Where standard input cannot be read or standard output cannot be written it stops, and a
// message goes to standard error.
#![tactic(auto)]

ghost use Rattle.std.specs.Prelude.{◌≡◌, ◌+◌, ◌≤◌, ◌<◌, length, IfSome};
ghost use Rattle.trace.specs.Trace.{state_of};
ghost use Rattle.trace_engine.specs.Engine.{Ready, longest_line};
ghost use Rattle.stream_trace.specs.Program.{opening_of};

use console::Piece;
use trace::Trace;
use trace_engine::Engine;
use trace_line::Finder;

// Where bytes are held: the sheet, a piece of the trace, its lines; 8,192 bytes in which the sheet's check marks IDs, 51 for a line that is
// measured; 16 kept of a record and 8 for a kind's name. With a full sheet of 47,105 bytes that is 61,420 of the 65,536 allowed.
// A piece of ordinary records, each 12 bytes after its length, has lines that fit by their count, so that none is routed twice.
pub const MOST_LINES: usize = 112;

pub const PIECE: usize = MOST_LINES * 14;

pub const LINES: usize = MOST_LINES * trace_line::LONGEST;

// Why an input is not read to its end: it is refused with this number, or it cannot be read. One that ends too soon is refused with 20.
#[derive(Clone, Copy)]
pub enum Stop {
    Refused(u8),
    Failed,
}

pub fn annotate(
    rt: HostRuntime,
    sheet: &mut [u8; sheet::FULL],
    piece: &mut [u8; PIECE],
    lines: &mut [u8; LINES],
) {
    match read_sheet(rt, console::PIECES, sheet) {
        Ok((size, left)) => read_over(rt, left, text::front(sheet, size), piece, lines),
        Err(stop) => print_stop(rt, stop, lines),
    }
}

// The one line of an input that is refused, by way of the lines' room.
pub fn print_stop(rt: HostRuntime, stop: Stop, lines: &mut [u8]) {
    if let Stop::Refused(number) = stop {
        let size = text::put_refusal(lines, 0, number);
        console::print(rt, text::front(lines, size));
    }
}

// A length, and a sheet of so many bytes: how long it is, and the pieces that may still come. A length above a full sheet's is refused
// with 22.
pub fn read_sheet(
    rt: HostRuntime,
    start: u64,
    sheet: &mut [u8; sheet::FULL],
) -> Result<(usize, u64), Stop> {
    let mut length = [0u8; 2];
    let left = fill(rt, start, &mut length)?;
    let Some(size) = opening_of(endian::read_be16(&length, 0) as usize) else {
        return Err(Stop::Refused(22));
    };
    let fewer = fill(rt, left, &mut sheet[..size])?;
    Ok((size, fewer))
}

// The sheet that a length opens: of so many bytes, unless it is longer than a full sheet.
fn opening_of(size: usize) -> Option<usize>
    ensures { result ≡ opening_of size }
{
    if sheet::FULL < size {
        return None;
    }
    Some(size)
}

// The trace over a sheet, which is checked once in all.
fn read_over(
    rt: HostRuntime,
    start: u64,
    sheet: &[u8],
    piece: &mut [u8; PIECE],
    lines: &mut [u8; LINES],
) {
    let finder = Finder::Sheet(sheet::check(sheet));
    read_trace(rt, start, Engine::Owner(finder), sheet, piece, lines);
}

// The trace to its end, by an engine, in pieces of any size, with room for any line.
pub fn read_trace(
    rt: HostRuntime,
    start: u64,
    engine: Engine,
    bytes: &[u8],
    piece: &mut [u8],
    lines: &mut [u8],
)
    requires { Ready engine bytes.now × (longest_line ≤ length lines.old) }
{
    let mut t = Trace::start();
    let mut left = start;
    loop {
        match console::read_piece(rt, left, piece) {
            Piece::Bytes(count, fewer) => {
                let Some(after) = label(rt, t, engine, bytes, text::front(piece, count), lines)
                else {
                    return;
                };
                t = after;
                left = fewer;
            }
            Piece::End => {
                finish(rt, t, lines);
                return;
            }
            Piece::Failed => {
                return;
            }
        }
    }
}

fn finish(rt: HostRuntime, t: Trace, lines: &mut [u8]) {
    let finished = trace::finish(t, lines);
    console::print(rt, text::front(lines, finished.written));
}

// The state after a piece, if its lines were written. A piece whose lines do not fit at once is taken in parts, each of no more bytes than
// lines fit.
fn label(
    rt: HostRuntime,
    t: Trace,
    engine: Engine,
    bytes: &[u8],
    piece: &[u8],
    lines: &mut [u8],
) -> Option<Trace>
    requires { Ready engine bytes.now × (longest_line ≤ length lines.old) }
    ensures { IfSome result (λ s. s ≡ state_of t piece.now) }
{
    let fed = trace_feed::feed_by(t, engine, bytes, piece, lines);
    if fed.number == 0 {
        if !console::print(rt, text::front(lines, fed.written)) {
            return None;
        }
        return Some(fed.state);
    }
    label_parts(rt, t, engine, bytes, piece, lines)
}

fn label_parts(
    rt: HostRuntime,
    start: Trace,
    engine: Engine,
    bytes: &[u8],
    piece: &[u8],
    lines: &mut [u8],
) -> Option<Trace>
    requires { Ready engine bytes.now × (longest_line ≤ length lines.old) }
    ensures { IfSome result (λ s. s ≡ state_of start piece.now) }
{
    let most = trace_engine::most_lines(engine, lines.len());
    let mut t = start;
    for part in piece.chunks(most) {
        let fed = trace_feed::feed_by(t, engine, bytes, part, lines);
        t = fed.state;
        if !console::print(rt, text::front(lines, fed.written)) {
            return None;
        }
    }
    Some(t)
}

// Reads until the room is full: the pieces that may still come. A turn takes as many bytes as come, so it is no `for`.
pub fn fill(rt: HostRuntime, start: u64, room: &mut [u8]) -> Result<u64, Stop> {
    let mut left = start;
    let mut at = 0;
    while at < room.len() {
        match console::read_piece(rt, left, &mut room[at..]) {
            Piece::Bytes(count, fewer) => {
                at += count;
                left = fewer;
            }
            Piece::End => {
                return Err(Stop::Refused(20));
            }
            Piece::Failed => {
                return Err(Stop::Failed);
            }
        }
    }
    Ok(left)
}
