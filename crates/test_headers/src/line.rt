// A line of input. The bytes of its header are kept in lent room.
use crate::answer;
use lines::{Ended, Stage};
use text::{front, put_byte};

// A header longer than this keeps its first bytes: the codec looks at 16 at the most.
pub const KEPT: usize = 64;

#[derive(Clone, Copy)]
pub struct Line {
    pub stage: Stage,
    pub count: usize,
    // whether every answer so far could be written
    pub written: bool,
}

pub fn start(written: bool) -> Line {
    Line {
        stage: Stage::Start,
        count: 0,
        written,
    }
}

pub fn take(rt: HostRuntime, line: Line, byte: u8, header: &mut [u8; KEPT]) -> Line {
    if byte == b'\n' {
        return start(end(rt, line, header));
    }
    let before = line.stage;
    let stage = next(before, byte);
    match stage {
        Stage::Byte(value) => Line {
            stage,
            count: put_byte(header, line.count, value),
            ..line
        },
        _ => Line { stage, ..line },
    }
}

// Answers the line, unless it is a comment or blank, and says whether the answer could be written.
pub fn end(rt: HostRuntime, line: Line, header: &[u8; KEPT]) -> bool {
    let stage = line.stage;
    match lines::end(stage) {
        Ended::Passed => true,
        Ended::Whole => answer_whole(rt, line, header),
        Ended::Wrong => console::print(rt, b"not hexadecimal\n"),
    }
}

// The header of no bytes is `-`; other lines of none are blank.
fn answer_whole(rt: HostRuntime, line: Line, header: &[u8; KEPT]) -> bool {
    let stage = line.stage;
    if let Stage::Letter(_) = stage {
        return answer::print(rt, front(header, 0));
    }
    if line.count == 0 {
        return true;
    }
    answer::print(rt, front(header, line.count))
}

// No word comes first, so `#` and `-` count as the first byte only. `-` stands alone.
fn next(stage: Stage, byte: u8) -> Stage {
    match stage {
        Stage::Start => first(byte),
        Stage::Letter(_) => Stage::Wrong,
        _ => lines::next(stage, byte),
    }
}

fn first(byte: u8) -> Stage {
    match byte {
        b'#' => Stage::Comment,
        b'-' => Stage::Letter(byte),
        _ => lines::next(Stage::Space, byte),
    }
}
