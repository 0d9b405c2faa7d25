// A script on standard input, and an answer on standard output for each of its lines: boards
// planned, sheets taken over, command words rewritten, IDs looked up, and headers routed over the
// current sheet, from the host or from a function.
//
//   board HEX         planned, the board's sheet becomes the current one: its listing, or `refused N`, and the sheet stays
//   sheet HEX         these bytes become the current sheet, whatever they are: `sheet N`, with the number of its checks
//   command ID VALUE  the command word of the function with this ID becomes VALUE: `command N`
//   lookup ID         where that function's 64 register bytes start in the sheet: `lookup OFFSET` or `refused N`
//   header HEX        the header's packet, routed: `record R bridges B`, for a broadcast `all N`, for the port `port`, and the packet as it
//                     arrives, or `refused N`
//   from RECORD HEX   the header's packet, routed from the function with this record: as above, for the host `host bridges B`
//
// HEX is any number of bytes, none too, ID, VALUE and RECORD two bytes each, as hexadecimal digits in either
// case with spaces between bytes as one likes. Before the first sheet the current one is empty. A
// line that starts with `#` and a blank one are passed over. Any other line is answered by
// `not a line`, one of more than 65,536 bytes by `line too long`, and neither changes the current
// sheet. The last line may lack its newline. Where standard input cannot be read, what was read of
// the last line has no answer; there, and where standard output cannot be written, a message goes to
// standard error and the program ends.
#![tactic(auto)]

mod line;

use console::{Next, Reader};
use line::ROOM;
use lines::WORD;

// Room for a piece of input.
const PIECE: usize = 65536;

fn main(rt: HostRuntime) {
    let mut piece = [0u8; PIECE];
    let mut word = [0u8; WORD];
    let mut room = [0u8; ROOM];
    let mut sheet = [0u8; ROOM];
    answer_lines(rt, &mut piece, &mut word, &mut room, &mut sheet);
}

// Answers each line, and what stands after the last newline.
fn answer_lines(
    rt: HostRuntime,
    piece: &mut [u8],
    word: &mut [u8; WORD],
    room: &mut [u8; ROOM],
    sheet: &mut [u8; ROOM],
) {
    let mut reader = Reader::start();
    let mut line = line::start(0, true);
    while line.written {
        match reader.byte(rt, piece) {
            Next::Byte(byte, after) => {
                line = line::take(rt, line, byte, word, room, sheet);
                reader = after;
            }
            Next::End => {
                line::end(rt, line, word, room, sheet);
                return;
            }
            Next::Failed => {
                return;
            }
        }
    }
}
