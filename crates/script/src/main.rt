// A requester ID in two bytes, a tag in one and then a board on standard input, to its end; on standard output the board's write script,
// or `refused N`. An input of any length is answered, from fixed room. Where standard input cannot be read there is no answer; there, and
// where standard output cannot be written, a message goes to standard error.
#![tactic(auto)]

use board_feed::KEPT;
use script_feed::{FRONT, Input, LONGEST};

// Room for a piece of input.
const PIECE: usize = 4096;

fn main(rt: HostRuntime) {
    let mut piece = [0u8; PIECE];
    let mut front = [0u8; FRONT];
    let mut kept = [0u8; KEPT];
    script(rt, &mut piece, &mut front, &mut kept);
}

// Takes the input in pieces to its end, and prints its script.
fn script(rt: HostRuntime, piece: &mut [u8], front: &mut [u8; FRONT], kept: &mut [u8; KEPT]) {
    let read = console::fold_pieces(
        rt,
        piece,
        Input::start(),
        |input, bytes| input.feed(bytes, front, kept),
    );
    if let Some(input) = read {
        print(rt, input, front, kept);
    }
}

fn print(rt: HostRuntime, input: Input, front: &[u8; FRONT], kept: &[u8; KEPT]) {
    let mut answer = [0u8; LONGEST];
    let n = input.print(front, kept, &mut answer);
    console::print(rt, text::front(&answer, n));
}
