// The boot's requester ID and first tag and then a board, an input of any length fed in pieces, and the board's script. The first three
// bytes and the first bytes of the board are kept, each in room that the caller lends.
#![tactic(auto)]

ghost use Rattle.std.specs.Prelude.{◌≡◌, ◌++◌, ◌-◌, length, drop};
ghost use Rattle.script_feed.specs.Program.{front_size};
ghost use Rattle.script_feed.specs.Feed.{started, fed_of, front_after, kept_after, scripting_of, room_of, answer_of};

use board_feed::{Feed, KEPT};
use scripter::Scripting;

// A requester ID in two bytes and a tag in one.
pub const FRONT: usize = 3;

// The longest script: 4,094 writes of 18 bytes.
pub const LONGEST: usize = 73692;

// What was fed so far: how many of the first three bytes, and what of the board.
#[derive(Clone, Copy)]
pub struct Input {
    pub front: usize,
    pub board: Feed,
}

impl Input {
    pub fn start() -> Self
        ensures { result ≡ started }
    {
        Input {
            front: 0,
            board: Feed::start(),
        }
    }

    // With a piece more.
    pub fn feed(self, piece: &[u8], front: &mut [u8; FRONT], kept: &mut [u8; KEPT]) -> Self
        ensures { (result ≡ fed_of self piece.now)
            × (front.new ≡ front_after self front.old piece.now)
            × (kept.new ≡ kept_after self kept.old piece.now) }
    {
        let left = FRONT.saturating_sub(self.front);
        let (early, late) = piece.split_at(left.min(piece.len()));
        let board = self.board;
        let count = text::put_text(front, self.front, early);
        Input {
            front: count,
            board: board.feed(late, kept),
        }
    }

    // The script of all the bytes fed.
    pub fn script(self, front: &[u8; FRONT], kept: &[u8; KEPT], room: &mut [u8]) -> Scripting
        ensures { (result ≡ scripting_of self kept.now (length room.old))
            × (room.new ≡ room_of self front.now kept.now room.old) }
    {
        let board = self.board;
        if board.is_long() {
            return Scripting::Refused(board.frame_number());
        }
        let requester = endian::read_be16(front, 0) as u16;
        scripter::write_script(text::front(kept, board.count), requester, front[2], room)
    }

    // The script, or the line `refused N`: so many bytes of the answer, from its start.
    pub fn print(self, front: &[u8; FRONT], kept: &[u8; KEPT], answer: &mut [u8; LONGEST]) -> usize
        ensures { (result ≡ length (answer_of self front.now kept.now))
            × (answer.new ≡ answer_of self front.now kept.now ++ drop result answer.old) }
    {
        match self.script(front, kept, answer) {
            Scripting::Written(n) => n,
            Scripting::Refused(n) => text::put_refusal(answer, 0, n),
        }
    }
}
