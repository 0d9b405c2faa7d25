// The answer to a line of test_routes' script, put into lent bytes from their start.
#![tactic(auto)]

use plan_answer::Planning;
use sheet::Lookup;
use text::{front, put_text};

// What a line asks for.
#[derive(Clone, Copy)]
pub enum Verb {
    Board,
    Sheet,
    Command,
    Lookup,
    Header,
    From,
    // another word
    Other,
}

// How many bytes the answer has, and how many of the lent sheet are the current one.
#[derive(Clone, Copy)]
pub struct Answer {
    pub count: usize,
    pub size: usize,
}

pub fn put_answer(
    out: &mut [u8],
    verb: Verb,
    bytes: &[u8],
    sheet: &mut [u8],
    size: usize,
) -> Answer {
    match verb {
        Verb::Board => plan_board(out, bytes, sheet, size),
        Verb::Sheet => take_over(out, bytes, sheet),
        Verb::Command => rewrite_command(out, bytes, sheet, size),
        Verb::Lookup => Answer {
            count: put_lookup(out, bytes, front(sheet, size)),
            size,
        },
        Verb::Header => Answer {
            count: test_arrivals::put_routing(out, bytes, front(sheet, size)),
            size,
        },
        Verb::From => Answer {
            count: test_arrivals::put_sending(out, bytes, front(sheet, size)),
            size,
        },
        Verb::Other => Answer {
            count: test_arrivals::put_wrong(out),
            size,
        },
    }
}

// What is put for a line that is none, or one that is too long. Another word is told first.
pub fn put_refusal(out: &mut [u8], verb: Verb, long: bool) -> usize {
    if let Verb::Other = verb {
        return test_arrivals::put_wrong(out);
    }
    if long {
        return put_text(out, 0, b"line too long\n");
    }
    test_arrivals::put_wrong(out)
}

// The plan becomes the current sheet. A refused board leaves it, since a refused call changes no
// lent byte.
fn plan_board(out: &mut [u8], board: &[u8], sheet: &mut [u8], size: usize) -> Answer {
    let planning = planner::plan(board, sheet);
    let count = sheet_text::put_planning(out, 0, planning, sheet);
    match planning {
        Planning::Planned(length) => Answer {
            count,
            size: length,
        },
        Planning::Refused(_) => Answer { count, size },
    }
}

// The bytes become the current sheet, whatever they are.
fn take_over(out: &mut [u8], bytes: &[u8], sheet: &mut [u8]) -> Answer {
    Answer {
        count: test_arrivals::put_number(out, b"sheet ", sheet::check(bytes) as u64),
        size: put_text(sheet, 0, bytes),
    }
}

// An ID and a command word.
fn rewrite_command(out: &mut [u8], bytes: &[u8], sheet: &mut [u8], size: usize) -> Answer {
    if bytes.len() != 4 {
        return Answer {
            count: test_arrivals::put_wrong(out),
            size,
        };
    }
    let id = endian::read_be16(bytes, 0) as u16;
    let command = endian::read_be16(bytes, 2) as u16;
    let n = sheet::set_command(front_mut(sheet, size), id, command);
    Answer {
        count: test_arrivals::put_number(out, b"command ", n as u64),
        size,
    }
}

// An ID.
fn put_lookup(out: &mut [u8], bytes: &[u8], sheet: &[u8]) -> usize {
    if bytes.len() != 2 {
        return test_arrivals::put_wrong(out);
    }
    let id = endian::read_be16(bytes, 0) as u16;
    match sheet::find(sheet, id) {
        Lookup::Registers(at) => test_arrivals::put_number(out, b"lookup ", at as u64),
        Lookup::Refused(n) => test_arrivals::put_number(out, b"refused ", n as u64),
    }
}

// The first `count` bytes, or all.
fn front_mut(bytes: &mut [u8], count: usize) -> &mut [u8] {
    if count < bytes.len() {
        return &mut bytes[..count];
    }
    bytes
}
