// A trace, taken byte by byte: version byte 1, then length-first records of header bytes, the frame of `records::frame`. A record gets
// its number and its line with its last byte; of the record under way its first 16 bytes are kept. What a record's line says is not
// decided here.
#![tactic(auto)]

ghost use Rattle.std.specs.Prelude.{◌≡◌, ◌<◌, length, drop};
ghost use Rattle.trace.specs.Annotated.{front_length};
ghost use Rattle.trace.specs.Trace.{tracing, fresh, line_at, emitted_by, number_by, kept_by, head_by, kept_after, head_after, next_in};
ghost use Rattle.trace.specs.Trace.{count_on, line_count};
ghost use Rattle.trace.specs.Feed.{text_put, ended_of, finished_of, finished_put};

use records::frame::{Ending, Event, Stage};
use records::{Next, frame};

// A header is labelled by so many bytes of its front.
pub const FRONT: usize = 16;

// What was fed so far: where the next byte falls, the number of the last whole record, and how many bytes of a record are kept, in `head`.
#[derive(Clone, Copy)]
pub struct Trace {
    pub stage: Stage,
    pub number: u64,
    pub kept: usize,
    pub head: [u8; FRONT],
}

// 0 and how many bytes of lines were put, with the state after the piece; or 11 and none, with the state as it was: the piece is not taken.
#[derive(Clone, Copy)]
pub struct Fed {
    pub number: u8,
    pub written: usize,
    pub state: Trace,
}

// 0 and how many bytes of the last line were put, or 11 and none.
#[derive(Clone, Copy)]
pub struct Finished {
    pub number: u8,
    pub written: usize,
}

// What an event gives: no line, the refusal of another version, or the line of a record that is whole with it.
#[derive(Clone, Copy)]
pub enum Emits {
    Nothing,
    Refusal,
    Line,
}

impl Trace {
    pub fn start() -> Self
        ensures { result ≡ fresh }
    {
        Trace {
            stage: Stage::Start,
            number: 0,
            kept: 0,
            head: [0u8; FRONT],
        }
    }
}

// The kept bytes of a state, which are 16.
pub fn head_of(t: Trace) -> [u8; FRONT]
    ensures { (tracing t.stage t.number t.kept result ≡ t) × (length result ≡ front_length) }
{
    t.head
}

pub fn emitted(event: Event) -> Emits
    ensures { result ≡ emitted_by event }
{
    match event {
        Event::Version => Emits::Nothing,
        Event::Foreign => Emits::Refusal,
        Event::Passed => Emits::Nothing,
        Event::Half(_) => Emits::Nothing,
        Event::Begins(size) => line_at(size),
        Event::Byte(_, left) => line_at(left),
    }
}

// With so many bytes of a record to come.
fn line_at(left: u32) -> Emits
    ensures { result ≡ line_at left }
{
    if left == 0 {
        return Emits::Line;
    }
    Emits::Nothing
}

// A record that is whole has the next number.
pub fn number_after(number: u64, emits: Emits) -> u64
    ensures { result ≡ number_by emits number }
{
    match emits {
        Emits::Nothing => number,
        Emits::Refusal => number,
        Emits::Line => std::num::wrapping_add_u64(number, 1),
    }
}

// The bytes of a record are kept as far as the head has places: the answer is how many of them are.
pub fn keep(head: &mut [u8], kept: usize, event: Event) -> usize
    ensures { (result ≡ kept_by event kept (length head.old))
        × (head.new ≡ head_by event kept head.old) }
{
    match event {
        Event::Version => kept,
        Event::Foreign => kept,
        Event::Passed => kept,
        Event::Half(_) => kept,
        Event::Begins(_) => 0,
        Event::Byte(byte, _) => text::put_byte(head, kept, byte),
    }
}

// With a record's line its bytes are let go: the answer is how many are kept.
pub fn settle(head: &mut [u8], kept: usize, emits: Emits) -> usize
    requires { length head.old ≡ front_length }
    ensures { (result ≡ kept_after emits kept) × (head.new ≡ head_after emits head.old) }
{
    match emits {
        Emits::Nothing => kept,
        Emits::Refusal => kept,
        Emits::Line => {
            head.fill(0);
            0
        }
    }
}

// The record that starts at a place of a piece, if it is whole there.
pub fn next_in(stage: Stage, piece: &[u8], at: usize) -> Next
    ensures { result ≡ next_in stage (drop at piece.now) }
{
    match stage {
        Stage::Start => Next::Broken,
        Stage::Other => Next::Broken,
        Stage::Between => records::next_at(piece, at),
        Stage::Length(_) => Next::Broken,
        Stage::Inside(_) => Next::Broken,
    }
}

// How many lines a piece gives: told by the frame alone, so before any of them is made. A turn takes a whole record or a byte, so it is no
// `for`.
pub fn count_lines(start: Stage, piece: &[u8]) -> usize
    ensures { result ≡ line_count start piece.now }
{
    let mut stage = start;
    let mut count = 0;
    let mut i = 0;
    while i < piece.len() {
        if let Next::Record(size) = next_in(stage, piece, i) {
            count += 1;
            i = i + 2 + size;
            continue;
        }
        let event = frame::event_of(stage, piece[i]);
        count = counted(count, emitted(event));
        stage = frame::stage_after(event);
        i += 1;
    }
    count
}

fn counted(count: usize, emits: Emits) -> usize
    requires { count < 18446744073709551615 }
    ensures { result ≡ count_on emits count }
{
    match emits {
        Emits::Nothing => count,
        Emits::Refusal => count + 1,
        Emits::Line => count + 1,
    }
}

// The line of a trace that ends here, if it gets one. The state stays as it was.
pub fn finish(t: Trace, out: &mut [u8]) -> Finished
    ensures { (result ≡ finished_of t (length out.old)) × (out.new ≡ finished_put t out.old) }
{
    let stage = t.stage;
    match frame::ending_of(stage) {
        Ending::Empty => put_last(out, b"refused 20\n"),
        Ending::Unread => Finished {
            number: 0,
            written: 0,
        },
        Ending::Whole => Finished {
            number: 0,
            written: 0,
        },
        Ending::Cut => put_last(out, b"cut\n"),
    }
}

fn put_last(out: &mut [u8], line: &[u8]) -> Finished
    ensures { (result ≡ ended_of line.now (length out.old))
        × (out.new ≡ text_put line.now out.old) }
{
    if out.len() < line.len() {
        return Finished {
            number: 11,
            written: 0,
        };
    }
    text::put_text(out, 0, line);
    Finished {
        number: 0,
        written: line.len(),
    }
}
