// A line of input. The letters of its word are kept in lent room. The bytes of its board are fed to
// the planner's input, which keeps the first of them in lent room too.
use board_feed::{Feed, KEPT};
use lines::{Ended, Stage, WORD};
use text::{front, put_byte};

#[derive(Clone, Copy)]
pub struct Line {
    pub stage: Stage,
    pub letters: usize,
    pub input: Feed,
    // whether every answer so far could be written
    pub written: bool,
}

pub fn start(written: bool) -> Line {
    Line {
        stage: Stage::Start,
        letters: 0,
        input: Feed::start(),
        written,
    }
}

pub fn take(
    rt: HostRuntime,
    line: Line,
    byte: u8,
    word: &mut [u8; WORD],
    kept: &mut [u8; KEPT],
) -> Line {
    if byte == b'\n' {
        return start(end(rt, line, word, kept));
    }
    let before = line.stage;
    let stage = lines::next(before, byte);
    match stage {
        Stage::Letter(letter) => Line {
            stage,
            letters: put_byte(word, line.letters, letter),
            ..line
        },
        Stage::Byte(value) => Line {
            stage,
            input: fed(line.input, value, kept),
            ..line
        },
        _ => Line { stage, ..line },
    }
}

// Answers the line, unless it is a comment or blank, and says whether the answer could be written.
pub fn end(rt: HostRuntime, line: Line, word: &[u8; WORD], kept: &[u8; KEPT]) -> bool {
    let stage = line.stage;
    match lines::end(stage) {
        Ended::Passed => true,
        Ended::Whole => answer(rt, line, word, kept),
        Ended::Wrong => print_wrong(rt),
    }
}

fn answer(rt: HostRuntime, line: Line, word: &[u8; WORD], kept: &[u8; KEPT]) -> bool {
    if check::same(front(word, line.letters), b"board") {
        return stream_plan::print(rt, line.input, kept);
    }
    print_wrong(rt)
}

fn print_wrong(rt: HostRuntime) -> bool {
    console::print(rt, b"not a line\n")
}

fn fed(input: Feed, byte: u8, kept: &mut [u8; KEPT]) -> Feed {
    let piece = [byte];
    input.feed(&piece, kept)
}
