// Headers in hexadecimal on standard input, one line of answer for each on standard output: the
// packet as it was read and whether it is written back to the same bytes, or the refusal.
//
// A line of hexadecimal digits is a header, with spaces between bytes as one likes. A line that
// starts with `#` is a comment, and a blank line is passed over. A line that is only `-` is the
// header of no bytes. Any other line is answered by `not hexadecimal`. The last line may lack its
// newline. Where standard input cannot be read, what was read of the last line has no answer; there,
// and where standard output cannot be written, a message goes to standard error and the program
// ends.
#![tactic(auto)]

mod answer;
mod line;

use console::{Next, Reader};

// Room for a piece of input.
const PIECE: usize = 65536;

fn main(rt: HostRuntime) {
    let mut piece = [0u8; PIECE];
    let mut header = [0u8; line::KEPT];
    answer_lines(rt, &mut piece, &mut header);
}

// Answers each line, and what stands after the last newline.
fn answer_lines(rt: HostRuntime, piece: &mut [u8], header: &mut [u8; line::KEPT]) {
    let mut reader = Reader::start();
    let mut line = line::start(true);
    while line.written {
        match reader.byte(rt, piece) {
            Next::Byte(byte, after) => {
                line = line::take(rt, line, byte, header);
                reader = after;
            }
            Next::End => {
                line::end(rt, line, header);
                return;
            }
            Next::Failed => {
                return;
            }
        }
    }
}
