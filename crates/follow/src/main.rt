// The host's ID, a register sheet and a trace of headers on standard input; for each header who sent it and who gets it on standard output.
// An input of any length is answered, from fixed room.
#![tactic(auto)]

fn main(rt: HostRuntime) {
    let mut sheet = [0u8; sheet::FULL];
    let mut piece = [0u8; stream_follow::PIECE];
    let mut lines = [0u8; stream_follow::LINES];
    stream_follow::follow(rt, &mut sheet, &mut piece, &mut lines);
}
