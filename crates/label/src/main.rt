// A host record, a register sheet and a trace of headers on standard input, a label for each header on standard output, by the sheet's
// index. An input of any length is answered, from fixed room.
#![tactic(auto)]

fn main(rt: HostRuntime) {
    let mut sheet = [0u8; sheet::FULL];
    let mut index = [0u8; stream_label::INDEX];
    let mut piece = [0u8; stream_label::PIECE];
    let mut lines = [0u8; stream_label::LINES];
    stream_label::label(rt, &mut sheet, &mut index, &mut piece, &mut lines);
}
