// What the C boundary's calls on a trace do. The state is six numbers that the caller keeps; fewer are 11 and numbers that are no state
// 10, both tried first. Lines that do not fit, and an answer slice of no numbers, are 11: the state, the lines and the slice then stay.
#![tactic(auto)]

ghost use Rattle.std.specs.Prelude.{◌≡◌, length};
ghost use Rattle.trace_line.specs.declared.Finder.TheVariants.{Index};
ghost use Rattle.trace_line.specs.Line.{line_over};
ghost use Rattle.trace_line.specs.Finder.{line_by};
ghost use Rattle.trace_engine.specs.Engine.{Ready, line_of};
ghost use Rattle.capi_answers.specs.Answers.{returned, filled};
ghost use Rattle.capi_trace.specs.Calls.{piece_answer, state_left, lines_left, follow_answer, follow_state, follow_lines, end_answer, end_left};

use trace_engine::Engine;
use trace_line::Finder;

// The greatest ID.
const LAST_ID: u64 = 65535;

// Takes a piece over a sheet, which is checked once: the lines of the records that end in it, and how many bytes they are.
pub fn annotate(
    state: &mut [u64],
    sheet: &[u8],
    piece: &[u8],
    lines: &mut [u8],
    written: &mut [u64],
) -> u32
    ensures value { result
        ≡ returned (piece_answer (line_over sheet.now) state.old piece.now (length lines.old))
        written.old }
    ensures state_after { state.new
        ≡ state_left (line_over sheet.now) state.old piece.now (length lines.old)
        written.old }
    ensures lines_after { lines.new
        ≡ lines_left (line_over sheet.now) state.old piece.now lines.old written.old }
    ensures written_after { written.new
        ≡ filled (piece_answer (line_over sheet.now) state.old piece.now (length lines.old))
        written.old }
{
    let finder = Finder::Sheet(sheet::check(sheet));
    take(state, Engine::Owner(finder), sheet, piece, lines, written)
}

// The same by an index, which any bytes may be given as.
pub fn label(
    state: &mut [u64],
    index: &[u8],
    piece: &[u8],
    lines: &mut [u8],
    written: &mut [u64],
) -> u32
    ensures value { result
        ≡ returned (piece_answer (line_by Index index.now) state.old piece.now (length lines.old))
        written.old }
    ensures state_after { state.new
        ≡ state_left (line_by Index index.now) state.old piece.now (length lines.old)
        written.old }
    ensures lines_after { lines.new
        ≡ lines_left (line_by Index index.now) state.old piece.now lines.old
        written.old }
    ensures written_after { written.new
        ≡ filled (piece_answer (line_by Index index.now) state.old piece.now (length lines.old))
        written.old }
{
    take(
        state,
        Engine::Owner(Finder::Index),
        index,
        piece,
        lines,
        written,
    )
}

// The same with both ends, over a sheet and with the host's own ID: above FFFFh that is 10, tried before all else.
pub fn follow(
    host_id: u64,
    state: &mut [u64],
    sheet: &[u8],
    piece: &[u8],
    lines: &mut [u8],
    written: &mut [u64],
) -> u32
    ensures value { result
        ≡ returned (follow_answer host_id sheet.now state.old piece.now (length lines.old))
        written.old }
    ensures state_after { state.new
        ≡ follow_state host_id sheet.now state.old piece.now (length lines.old)
        written.old }
    ensures lines_after { lines.new
        ≡ follow_lines host_id sheet.now state.old piece.now lines.old written.old }
    ensures written_after { written.new
        ≡ filled (follow_answer host_id sheet.now state.old piece.now (length lines.old))
        written.old }
{
    if LAST_ID < host_id {
        return 10;
    }
    let engine = Engine::Ends(host_id as u16, sheet::check(sheet));
    take(state, engine, sheet, piece, lines, written)
}

// The same by an engine, which has the number of its sheet already.
fn take(
    state: &mut [u64],
    engine: Engine,
    bytes: &[u8],
    piece: &[u8],
    lines: &mut [u8],
    written: &mut [u64],
) -> u32
    requires { Ready engine bytes.now }
    ensures value { result
        ≡ returned (piece_answer (line_of engine bytes.now) state.old piece.now
        (length lines.old))
        written.old }
    ensures state_after { state.new
        ≡ state_left (line_of engine bytes.now) state.old piece.now (length lines.old)
        written.old }
    ensures lines_after { lines.new
        ≡ lines_left (line_of engine bytes.now) state.old piece.now lines.old
        written.old }
    ensures written_after { written.new
        ≡ filled (piece_answer (line_of engine bytes.now) state.old piece.now (length lines.old))
        written.old }
{
    let t = match trace_numbers::state_of(state) {
        Ok(t) => t,
        Err(number) => return u32::from(number),
    };
    // Not is_empty(), as at the end of a trace: a must-fail edit has to find this line alone.
    if written.len() == 0 {
        return 11;
    }
    let fed = trace_feed::feed_by(t, engine, bytes, piece, lines);
    if fed.number != 0 {
        return fed.number as u32;
    }
    let after = fed.state;
    trace_numbers::put_state(state, after);
    capi_answers::give_one(fed.written as u64, written)
}

// The line of a trace that ends here, if it gets one, and how many bytes it is.
pub fn finish(state: &[u64], lines: &mut [u8], written: &mut [u64]) -> u32
    ensures value { result ≡ returned (end_answer state.now (length lines.old)) written.old }
    ensures lines_after { lines.new ≡ end_left state.now lines.old written.old }
    ensures written_after { written.new ≡ filled (end_answer state.now (length lines.old)) written.old }
{
    let t = match trace_numbers::state_of(state) {
        Ok(t) => t,
        Err(number) => return u32::from(number),
    };
    if written.is_empty() {
        return 11;
    }
    let last = trace::finish(t, lines);
    if last.number != 0 {
        return last.number as u32;
    }
    capi_answers::give_one(last.written as u64, written)
}
