// The 30 bytes of a host record and then a sheet on standard input, to its end; on standard output `accepted`, or `refused N`. An input of
// any length is answered, from fixed room. Where standard input cannot be read there is no answer; there, and where standard output cannot
// be written, a message goes to standard error.
#![tactic(auto)]

use audit_feed::{Feed, KEPT, LONGEST};

// Room for a piece of input.
const PIECE: usize = 4096;

fn main(rt: HostRuntime) {
    let mut piece = [0u8; PIECE];
    let mut kept = [0u8; KEPT];
    audit(rt, &mut piece, &mut kept);
}

// Takes the input in pieces to its end, and prints its audit.
fn audit(rt: HostRuntime, piece: &mut [u8], kept: &mut [u8; KEPT]) {
    let read = console::fold_pieces(
        rt,
        piece,
        Feed::start(),
        |input, bytes| input.feed(bytes, kept),
    );
    if let Some(input) = read {
        print(rt, input, kept);
    }
}

fn print(rt: HostRuntime, input: Feed, kept: &[u8; KEPT]) {
    let mut answer = [0u8; LONGEST];
    let n = input.print(kept, &mut answer);
    console::print(rt, text::front(&answer, n));
}
