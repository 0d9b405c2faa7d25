// The standard streams as the programs use them: input in pieces or byte by byte, output, and a
// message on standard error where one of the two fails. A program stops at the first failure, so it
// leaves one message.
//
// A proved loop has to end and nothing says that an input does. So the pieces are counted down from
// a number that no input uses up, here and in no program: each call answers how many may still come.
#![tactic(auto)]

ghost use Rattle.std.specs.Prelude.{length};
ghost use Rattle.console.specs.Console.{Fewer, Nearer};

use std::io::Read;

// The pieces that may come.
pub const PIECES: u64 = u64::MAX;

// The next piece of standard input.
#[derive(Clone, Copy)]
pub enum Piece {
    // so many bytes from the start of the room, and the pieces that may still come
    Bytes(usize, u64),
    End,
    Failed,
}

// A place in standard input: in the piece that the room holds, and the pieces that may still come.
#[derive(Clone, Copy)]
pub struct Reader {
    pub at: usize,
    pub count: usize,
    pub left: u64,
}

// The next byte of standard input.
#[derive(Clone, Copy)]
pub enum Next {
    // the byte, and the place after it
    Byte(u8, Reader),
    End,
    Failed,
}

pub fn read_piece(rt: HostRuntime, left: u64, room: &mut [u8]) -> Piece
    ensures { Fewer left (length room.old) result }
{
    if left == 0 {
        report_not_read(rt);
        return Piece::Failed;
    }
    let mut input = rt.stdin();
    match input.read(room) {
        Ok(0) => Piece::End,
        Ok(count) => Piece::Bytes(count, left - 1),
        Err(_) => {
            report_not_read(rt);
            Piece::Failed
        }
    }
}

// Standard input in pieces to its end, each taken by way of the room: what has become of the start then, unless the input cannot be read.
pub fn fold_pieces<T: Copy, F: FnMut(T, &[u8]) -> T>(
    rt: HostRuntime,
    room: &mut [u8],
    start: T,
    mut take: F,
) -> Option<T>
    requires { F.IsAlwaysCallable take }
{
    let mut value = start;
    let mut left = PIECES;
    loop {
        match read_piece(rt, left, room) {
            Piece::Bytes(count, fewer) => {
                value = take(value, &room[..count]);
                left = fewer;
            }
            Piece::End => return Some(value),
            Piece::Failed => return None,
        }
    }
}

impl Reader {
    pub fn start() -> Self {
        Reader {
            at: 0,
            count: 0,
            left: PIECES,
        }
    }

    // The same room is lent each time: it holds the piece that the place is in.
    pub fn byte(self, rt: HostRuntime, room: &mut [u8]) -> Next
        ensures { Nearer self result }
    {
        let at = self.at;
        if at < self.count && at < room.len() {
            return Next::Byte(room[at], Reader { at: at + 1, ..self });
        }
        match read_piece(rt, self.left, room) {
            Piece::Bytes(count, left) => Next::Byte(room[0], Reader { at: 1, count, left }),
            Piece::End => Next::End,
            Piece::Failed => Next::Failed,
        }
    }
}

// Whether all of it was written.
pub fn print(rt: HostRuntime, bytes: &[u8]) -> bool {
    let written = rt.stdout().write_all(bytes).is_ok();
    if !written {
        report(rt, b"standard output could not be written\n");
    }
    written
}

fn report_not_read(rt: HostRuntime) {
    report(rt, b"standard input could not be read\n");
}

// Where standard error can't be written either, nothing is left to say it on.
fn report(rt: HostRuntime, message: &[u8]) {
    let _ = rt.stderr().write_all(message);
}
