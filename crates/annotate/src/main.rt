// A register sheet and a trace of headers on standard input, a label for each header on standard output. An input of any length is
// answered, from fixed room.
#![tactic(auto)]

fn main(rt: HostRuntime) {
    let mut sheet = [0u8; sheet::FULL];
    let mut piece = [0u8; stream_trace::PIECE];
    let mut lines = [0u8; stream_trace::LINES];
    stream_trace::annotate(rt, &mut sheet, &mut piece, &mut lines);
}
