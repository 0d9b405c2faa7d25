// Boards in hexadecimal on standard input, a plan or `refused N` for each on standard output, as
// document 01 prints it.
//
// A line is `board` and the board's bytes in hexadecimal digits of either case, with spaces between
// bytes as one likes; a board may have any length, or no byte. A line that starts with `#` is a
// comment, and a blank line is passed over. Any other line is answered by `not a line`. The
// last line may lack its newline. Where standard input cannot be read, what was read of the last
// line has no answer; there, and where standard output cannot be written, a message goes to standard
// error and the program ends.
#![tactic(auto)]

mod line;

use board_feed::KEPT;
use console::{Next, Reader};
use lines::WORD;

// Room for a piece of input.
const PIECE: usize = 4096;

fn main(rt: HostRuntime) {
    let mut piece = [0u8; PIECE];
    let mut word = [0u8; WORD];
    let mut kept = [0u8; KEPT];
    answer_lines(rt, &mut piece, &mut word, &mut kept);
}

// Answers each line, and what stands after the last newline.
fn answer_lines(rt: HostRuntime, piece: &mut [u8], word: &mut [u8; WORD], kept: &mut [u8; KEPT]) {
    let mut reader = Reader::start();
    let mut line = line::start(true);
    while line.written {
        match reader.byte(rt, piece) {
            Next::Byte(byte, after) => {
                line = line::take(rt, line, byte, word, kept);
                reader = after;
            }
            Next::End => {
                line::end(rt, line, word, kept);
                return;
            }
            Next::Failed => {
                return;
            }
        }
    }
}
