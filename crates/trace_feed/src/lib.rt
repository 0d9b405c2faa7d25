// A trace fed in pieces and labelled by one engine: a line for each record that ends in a piece. A piece may hold no bytes. A piece whose
// lines do not fit is not taken: fed again with more room, or in smaller pieces, it comes to the same lines.
#![tactic(auto)]

ghost use Rattle.std.specs.Prelude.{◌≡◌, ◌≤◌, length, leb};
ghost use Rattle.text.specs.Text.{Put};
ghost use Rattle.trace.specs.Trace.{text_of, lines_of};
ghost use Rattle.trace.specs.Feed.{fed_of, fed_put};
ghost use Rattle.trace_line.specs.Line.{line_over};
ghost use Rattle.trace_line.specs.declared.Finder.TheVariants.{Index};
ghost use Rattle.trace_line.specs.Finder.{line_by};
ghost use Rattle.trace_ends.specs.Ends.{line_ends};
ghost use Rattle.trace_engine.specs.Engine.{Ready, line_of};

use records::{Next, frame};
use trace::{Emits, Fed, Trace};
use trace_engine::Engine;
use trace_line::Finder;

// Over a sheet, which is checked once a call.
pub fn feed(t: Trace, sheet: &[u8], piece: &[u8], out: &mut [u8]) -> Fed
    ensures { (result ≡ fed_of (line_over sheet.now) t piece.now (length out.old))
        × (out.new ≡ fed_put (line_over sheet.now) t piece.now out.old) }
{
    let finder = Finder::Sheet(sheet::check(sheet));
    feed_by(t, Engine::Owner(finder), sheet, piece, out)
}

// By an index, which is taken as it is.
pub fn feed_index(t: Trace, index: &[u8], piece: &[u8], out: &mut [u8]) -> Fed
    ensures { (result ≡ fed_of (line_by Index index.now) t piece.now (length out.old))
        × (out.new ≡ fed_put (line_by Index index.now) t piece.now out.old) }
{
    feed_by(t, Engine::Owner(Finder::Index), index, piece, out)
}

// With both ends, over a sheet and with the host's own ID.
pub fn feed_ends(t: Trace, host_id: u16, sheet: &[u8], piece: &[u8], out: &mut [u8]) -> Fed
    ensures { (result ≡ fed_of (line_ends host_id sheet.now) t piece.now (length out.old))
        × (out.new ≡ fed_put (line_ends host_id sheet.now) t piece.now out.old) }
{
    feed_by(
        t,
        Engine::Ends(host_id, sheet::check(sheet)),
        sheet,
        piece,
        out,
    )
}

// For callers that look at a sheet once for many pieces: by an engine, which has the number of its sheet already.
pub fn feed_by(t: Trace, engine: Engine, bytes: &[u8], piece: &[u8], out: &mut [u8]) -> Fed
    requires { Ready engine bytes.now }
    ensures { (result ≡ fed_of (line_of engine bytes.now) t piece.now (length out.old))
        × (out.new ≡ fed_put (line_of engine bytes.now) t piece.now out.old) }
{
    if !fits(t, engine, bytes, piece, out.len()) {
        return Fed {
            number: 11,
            written: 0,
            state: t,
        };
    }
    put_lines(t, engine, bytes, piece, out)
}

// Whether the piece's lines fit so many bytes. A record takes two bytes at least, so the piece's length may tell it; else the lines'
// count tells it of an ordinary trace, so that no record is routed twice.
fn fits(t: Trace, engine: Engine, bytes: &[u8], piece: &[u8], room: usize) -> bool
    requires { Ready engine bytes.now }
    ensures { result ≡ leb (length (lines_of (line_of engine bytes.now) t piece.now)) room }
{
    let most = trace_engine::most_lines(engine, room);
    if piece.len() / 2 < most {
        return true;
    }
    let stage = t.stage;
    if trace::count_lines(stage, piece) <= most {
        return true;
    }
    measured(t, engine, bytes, piece, room)
}

// The same by each line's length.
fn measured(t: Trace, engine: Engine, bytes: &[u8], piece: &[u8], room: usize) -> bool
    requires { Ready engine bytes.now }
    ensures { result ≡ leb (length (lines_of (line_of engine bytes.now) t piece.now)) room }
{
    let mut stage = t.stage;
    let mut n = t.number;
    let mut kept = t.kept;
    let mut head = trace::head_of(t);
    let mut total = 0;
    for byte in piece {
        let event = frame::event_of(stage, *byte);
        let emits = trace::emitted(event);
        n = trace::number_after(n, emits);
        kept = trace::keep(&mut head, kept, event);
        let size = size_of(emits, n, text::front(&head, kept), engine, bytes);
        if room - total < size {
            return false;
        }
        total += size;
        kept = trace::settle(&mut head, kept, emits);
        stage = frame::stage_after(event);
    }
    true
}

// The piece's lines, which fit: a record that is whole in the piece at once, one that is cut byte by byte. So it is no `for`.
fn put_lines(t: Trace, engine: Engine, bytes: &[u8], piece: &[u8], out: &mut [u8]) -> Fed
    requires { Ready engine bytes.now
        × (length (lines_of (line_of engine bytes.now) t piece.now) ≤ length out.old) }
    ensures { (result ≡ fed_of (line_of engine bytes.now) t piece.now (length out.old))
        × (out.new ≡ fed_put (line_of engine bytes.now) t piece.now out.old) }
{
    let mut stage = t.stage;
    let mut n = t.number;
    let mut kept = t.kept;
    let mut head = trace::head_of(t);
    let mut at = 0;
    let mut i = 0;
    while i < piece.len() {
        if let Next::Record(size) = trace::next_in(stage, piece, i) {
            n = trace::number_after(n, Emits::Line);
            let header = text::front(records::part_at(piece, i, size), trace::FRONT);
            at = trace_engine::put_line(out, at, n, header, engine, bytes);
            kept = 0;
            head = [0u8; trace::FRONT];
            i = i + 2 + size;
            continue;
        }
        let event = frame::event_of(stage, piece[i]);
        let emits = trace::emitted(event);
        n = trace::number_after(n, emits);
        kept = trace::keep(&mut head, kept, event);
        at = put_emitted(out, at, emits, n, text::front(&head, kept), engine, bytes);
        kept = trace::settle(&mut head, kept, emits);
        stage = frame::stage_after(event);
        i += 1;
    }
    Fed {
        number: 0,
        written: at,
        state: Trace {
            stage,
            number: n,
            kept,
            head,
        },
    }
}

// How many bytes an event gives, with the record's number and header.
fn size_of(emits: Emits, n: u64, header: &[u8], engine: Engine, bytes: &[u8]) -> usize
    requires { Ready engine bytes.now }
    ensures { result ≡ length (text_of (line_of engine bytes.now) emits n header.now) }
{
    let mut line = [0u8; trace_engine::LONGEST];
    put_emitted(&mut line, 0, emits, n, header, engine, bytes)
}

// What it gives, put at a place.
fn put_emitted(
    out: &mut [u8],
    at: usize,
    emits: Emits,
    n: u64,
    header: &[u8],
    engine: Engine,
    bytes: &[u8],
) -> usize
    requires { Ready engine bytes.now }
    ensures { Put out.old at (text_of (line_of engine bytes.now) emits n header.now) out.new result }
{
    match emits {
        Emits::Nothing => text::place(out, at),
        Emits::Refusal => text::put_text(out, at, b"refused 21\n"),
        Emits::Line => trace_engine::put_line(out, at, n, header, engine, bytes),
    }
}
