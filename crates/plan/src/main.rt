// A board's bytes on standard input, its plan on standard output as document 01 prints it, or
// `refused N`. An input of any length is answered, from fixed room. Where standard input cannot be
// read there is no answer; there, and where standard output cannot be written, a message goes to
// standard error.
#![tactic(auto)]

use board_feed::{Feed, KEPT};

// Room for a piece of input.
const PIECE: usize = 4096;

fn main(rt: HostRuntime) {
    let mut piece = [0u8; PIECE];
    let mut kept = [0u8; KEPT];
    plan(rt, &mut piece, &mut kept);
}

// Takes the input in pieces to its end, and prints its plan.
fn plan(rt: HostRuntime, piece: &mut [u8], kept: &mut [u8; KEPT]) {
    let read = console::fold_pieces(
        rt,
        piece,
        Feed::start(),
        |input, bytes| input.feed(bytes, kept),
    );
    if let Some(input) = read {
        stream_plan::print(rt, input, kept);
    }
}
