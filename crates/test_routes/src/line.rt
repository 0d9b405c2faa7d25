// A line of the script. Its word and its bytes are kept in lent room.
use lines::{Ended, Stage, WORD};
use sheet_text::LONGEST;
use test_answers::{Answer, Verb};
use text::{front, put_byte};

// Enough for the longest board and the longest sheet that pass their checks.
pub const ROOM: usize = 128 * records::MOST_FUNCTIONS;

#[derive(Clone, Copy)]
pub struct Line {
    pub stage: Stage,
    pub letters: usize,
    pub count: usize,
    // whether it has more bytes than the room
    pub long: bool,
    // how many bytes of the lent sheet are the current one
    pub size: usize,
    // whether every answer so far could be written
    pub written: bool,
}

pub fn start(size: usize, written: bool) -> Line {
    Line {
        stage: Stage::Start,
        letters: 0,
        count: 0,
        long: false,
        size,
        written,
    }
}

pub fn take(
    rt: HostRuntime,
    line: Line,
    byte: u8,
    word: &mut [u8; WORD],
    room: &mut [u8; ROOM],
    sheet: &mut [u8; ROOM],
) -> Line {
    if byte == b'\n' {
        return end(rt, line, word, room, sheet);
    }
    let before = line.stage;
    let stage = lines::next(before, byte);
    match stage {
        Stage::Letter(letter) => Line {
            stage,
            letters: put_byte(word, line.letters, letter),
            ..line
        },
        Stage::Byte(value) => with_byte(line, value, room),
        _ => Line { stage, ..line },
    }
}

// Of a line that is too long nothing more is looked at.
fn with_byte(line: Line, value: u8, room: &mut [u8; ROOM]) -> Line {
    if line.count < ROOM {
        return Line {
            stage: Stage::Byte(value),
            count: put_byte(room, line.count, value),
            ..line
        };
    }
    Line {
        stage: Stage::Wrong,
        long: true,
        ..line
    }
}

// Answers the line, unless it is a comment or blank, and begins the next.
pub fn end(
    rt: HostRuntime,
    line: Line,
    word: &[u8; WORD],
    room: &[u8; ROOM],
    sheet: &mut [u8; ROOM],
) -> Line {
    let mut out = [0u8; LONGEST];
    let answer = put_answer(&mut out, line, word, room, sheet);
    start(answer.size, console::print(rt, front(&out, answer.count)))
}

fn put_answer(
    out: &mut [u8],
    line: Line,
    word: &[u8; WORD],
    room: &[u8; ROOM],
    sheet: &mut [u8; ROOM],
) -> Answer {
    let size = line.size;
    let stage = line.stage;
    let verb = named(front(word, line.letters));
    match lines::end(stage) {
        Ended::Passed => Answer { count: 0, size },
        Ended::Whole => test_answers::put_answer(out, verb, front(room, line.count), sheet, size),
        Ended::Wrong => Answer {
            count: test_answers::put_refusal(out, verb, line.long),
            size,
        },
    }
}

// What the first word asks for.
fn named(word: &[u8]) -> Verb {
    if check::same(word, b"board") {
        return Verb::Board;
    }
    if check::same(word, b"sheet") {
        return Verb::Sheet;
    }
    if check::same(word, b"command") {
        return Verb::Command;
    }
    if check::same(word, b"lookup") {
        return Verb::Lookup;
    }
    if check::same(word, b"header") {
        return Verb::Header;
    }
    if check::same(word, b"from") {
        return Verb::From;
    }
    Verb::Other
}
