// The C boundary. Each call returns 0 or document 01's number, and a refused call changes nothing that it was lent. A slice passes as a
// pointer and then a length. An answer slice too short is 11, tried last; numbers past the answer's own are left as they were.
#![tactic(auto)]

ghost use Rattle.std.specs.Prelude.{◌≡◌, length};
ghost use Rattle.tlp.specs.Reading.{number_of as reading_number, read_of};
ghost use Rattle.sheet.specs.Sheet.{sheet_number};
ghost use Rattle.audit_rule.specs.Audit.{audit_number, sound_number};
ghost use Rattle.audit_finding.specs.Finding.{finding_of};
ghost use Rattle.plan_where.specs.Finding.{plan_finding_of};
ghost use Rattle.capi_where.specs.Calls.{who_number, who_filled, plan_number, plan_filled};
ghost use Rattle.index_build.specs.Build.{build_number, sound_build_number, index_after, sound_index_after};
ghost use Rattle.index_alone.specs.Alone.{alone_number, alone_build_number, alone_index_after};
ghost use Rattle.trace_line.specs.declared.Finder.TheVariants.{Index};
ghost use Rattle.trace_line.specs.Line.{line_over};
ghost use Rattle.trace_line.specs.Finder.{line_by};
ghost use Rattle.capi_answers.specs.Answers.{returned, filled};
ghost use Rattle.capi_packet.specs.Calls.{read_answer, write_answer, room_left};
ghost use Rattle.capi_sheet.specs.Calls.{lookup_answer, id_answer, command_number, command_left};
ghost use Rattle.capi_plan.specs.Calls.{plan_answer, sheet_left};
ghost use Rattle.capi_route.specs.Calls.{route_answer};
ghost use Rattle.capi_cards.specs.Calls.{send_answer};
ghost use Rattle.capi_sent.specs.Calls.{sender_answer, ends_answer};
ghost use Rattle.capi_find.specs.Calls.{find_answer};
ghost use Rattle.capi_trace.specs.Calls.{piece_answer, state_left, lines_left, follow_answer, follow_state, follow_lines, end_answer, end_left};
ghost use Rattle.capi_ledger.specs.Calls.{open_answer, open_left, complete_answer, complete_left, count_answer};
ghost use Rattle.capi_script.specs.Calls.{script_answer, script_left};
ghost use Rattle.capi.specs.Calls.{version_number};
ghost use Rattle.plan_answer.specs.Plan.{number_of as planning_number, planning};

use plan_answer::Planning;

// The version of these calls, which the C header and the Rust crate are held against.
#[unsafe(no_mangle)]
pub extern "C" fn cartsundial_version() -> u32
    ensures { result ≡ version_number }
{
    3400
}

// Reads a header's packet as twenty numbers.
#[unsafe(no_mangle)]
pub extern "C" fn cartsundial_read(header: &[u8], packet: &mut [u64]) -> u32
    ensures value { result ≡ returned (read_answer header.now) packet.old }
    ensures packet_after { packet.new ≡ filled (read_answer header.now) packet.old }
{
    capi_packet::read(header, packet)
}

// 0 for a header that cartsundial_read reads, or its number. There is no answer, so that no room for one is asked for.
#[unsafe(no_mangle)]
pub extern "C" fn cartsundial_judge(header: &[u8]) -> u32
    ensures { result ≡ reading_number (read_of header.now) }
{
    tlp_judge::judge(header) as u32
}

// Writes the packet that twenty numbers are, and its number of bytes. Numbers that are no packet are refused before the room is looked at:
// fewer than twenty 11, a kind and form not carried 2, a number too large for its field or in a field that the kind does not have 10.
#[unsafe(no_mangle)]
pub extern "C" fn cartsundial_write(packet: &[u64], room: &mut [u8], written: &mut [u64]) -> u32
    ensures value { result ≡ returned (write_answer packet.now (length room.old)) written.old }
    ensures room_after { room.new ≡ room_left packet.now room.old written.old }
    ensures written_after { written.new ≡ filled (write_answer packet.now (length room.old)) written.old }
{
    capi_packet::write(packet, room, written)
}

// Plans a board: its sheet, and the sheet's length.
#[unsafe(no_mangle)]
pub extern "C" fn cartsundial_plan(board: &[u8], sheet: &mut [u8], written: &mut [u64]) -> u32
    ensures value { result ≡ returned (plan_answer board.now (length sheet.old)) written.old }
    ensures sheet_after { sheet.new ≡ sheet_left board.now sheet.old written.old }
    ensures written_after { written.new ≡ filled (plan_answer board.now (length sheet.old)) written.old }
{
    if written.len() == 0 {
        return plan_refusal(board);
    }
    match planner::plan(board, sheet) {
        Planning::Planned(n) => capi_answers::give_one(n as u64, written),
        Planning::Refused(n) => n as u32,
    }
}

// Writes a board's script, the configuration writes that bring its functions to the planned sheet, and the script's length. A requester ID
// above FFFFh or a first tag above FFh is 10, tried first.
#[unsafe(no_mangle)]
pub extern "C" fn cartsundial_script(
    board: &[u8],
    requester: u32,
    first_tag: u32,
    script: &mut [u8],
    written: &mut [u64],
) -> u32
    ensures value { result ≡ returned (script_answer board.now requester first_tag (length script.old)) written.old }
    ensures script_after { script.new ≡ script_left board.now requester first_tag script.old written.old }
    ensures written_after { written.new
        ≡ filled (script_answer board.now requester first_tag (length script.old)) written.old }
{
    capi_script::script(board, requester, first_tag, script, written)
}

// 0 for a sheet that passes, or its number.
#[unsafe(no_mangle)]
pub extern "C" fn cartsundial_check(sheet: &[u8]) -> u32
    ensures { result ≡ sheet_number sheet.now }
{
    sheet::check(sheet) as u32
}

// 0 for a sheet that is accepted for a host record, the 30 bytes after its length, or the number of the first check that fails.
#[unsafe(no_mangle)]
pub extern "C" fn cartsundial_audit(host: &[u8], sheet: &[u8]) -> u32
    ensures { result ≡ audit_number host.now sheet.now }
{
    auditor::audit(host, sheet) as u32
}

// The same with 51 asked of the address space and not of the kind: 0 for a sheet on which every address has one owner.
#[unsafe(no_mangle)]
pub extern "C" fn cartsundial_sound(host: &[u8], sheet: &[u8]) -> u32
    ensures { result ≡ sound_number host.now sheet.now }
{
    auditor::sound(host, sheet) as u32
}

// The audit's number, and whom it is about: the record and its place, the other record and its place. A refused sheet has them, so its
// refusal writes what it was lent; with room for fewer than four the slice stays, and 0 is 11.
#[unsafe(no_mangle)]
pub extern "C" fn cartsundial_audit_where(host: &[u8], sheet: &[u8], who: &mut [u64]) -> u32
    ensures value { result ≡ who_number (finding_of host.now sheet.now) who.old }
    ensures who_after { who.new ≡ who_filled (finding_of host.now sheet.now) who.old }
{
    capi_where::audit_where(host, sheet, who)
}

// The planner's number, and whom it is about: the record and its place, the record and place before which most room is lost; then how many
// buses the board needs, how many bytes of the low, the high and the I/O pool, and the alignment of a base of each. A refused board has them
// too. Room for eight to ten gets all but the alignments; with room for fewer the slice stays, and 0 is 11.
#[unsafe(no_mangle)]
pub extern "C" fn cartsundial_plan_where(board: &[u8], who: &mut [u64]) -> u32
    ensures value { result ≡ plan_number (plan_finding_of board.now) who.old }
    ensures who_after { who.new ≡ plan_filled (plan_finding_of board.now) who.old }
{
    capi_where::plan_where(board, who)
}

// Where the 64 register bytes of the function with an ID start in the sheet.
#[unsafe(no_mangle)]
pub extern "C" fn cartsundial_lookup(sheet: &[u8], id: u32, offset: &mut [u64]) -> u32
    ensures value { result ≡ returned (lookup_answer sheet.now id) offset.old }
    ensures offset_after { offset.new ≡ filled (lookup_answer sheet.now id) offset.old }
{
    capi_sheet::lookup(sheet, id, offset)
}

// The ID of the function with a record number, from 1 on: from the owner that a route answers to its bus, device and function.
#[unsafe(no_mangle)]
pub extern "C" fn cartsundial_id(sheet: &[u8], number: u32, id: &mut [u64]) -> u32
    ensures value { result ≡ returned (id_answer sheet.now number) id.old }
    ensures id_after { id.new ≡ filled (id_answer sheet.now number) id.old }
{
    capi_sheet::id_of(sheet, number, id)
}

// Rewrites the command word of the function with an ID, and no other byte. A value above FFFFh is 10, tried before the sheet is read.
#[unsafe(no_mangle)]
pub extern "C" fn cartsundial_command(sheet: &mut [u8], id: u32, command: u32) -> u32
    ensures value { result ≡ command_number sheet.old id command }
    ensures sheet_after { sheet.new ≡ command_left sheet.old id command }
{
    capi_sheet::set_command(sheet, id, command)
}

// Walks a header over a sheet: the record that gets the packet, the bridges crossed, and the packet as it arrives, 22 numbers. A broadcast
// has record 0, how many functions, the packet, and then their record numbers; what ends at the port has 0 and 0.
#[unsafe(no_mangle)]
pub extern "C" fn cartsundial_route(header: &[u8], sheet: &[u8], answer: &mut [u64]) -> u32
    ensures value { result ≡ returned (route_answer header.now sheet.now) answer.old }
    ensures answer_after { answer.new ≡ filled (route_answer header.now sheet.now) answer.old }
{
    capi_route::route(header, sheet, answer)
}

// Walks a request that starts at a function of the sheet, by its record number: the answer is that of a route, with the bridges crossed up
// and down. What goes to the host has record 0 and the bridges crossed upward. A number that is no record, of any size, is 45.
#[unsafe(no_mangle)]
pub extern "C" fn cartsundial_route_from(
    number: u32,
    header: &[u8],
    sheet: &[u8],
    answer: &mut [u64],
) -> u32
    ensures value { result ≡ returned (send_answer number header.now sheet.now) answer.old }
    ensures answer_after { answer.new ≡ filled (send_answer number header.now sheet.now) answer.old }
{
    capi_cards::route_from(number, header, sheet, answer)
}

// Who sends a header's packet, below a host with this ID: 0 for the host, else the record. A host ID above FFFFh is 10, tried first.
#[unsafe(no_mangle)]
pub extern "C" fn cartsundial_sender(
    host_id: u64,
    header: &[u8],
    sheet: &[u8],
    sender: &mut [u64],
) -> u32
    ensures value { result ≡ returned (sender_answer host_id header.now sheet.now) sender.old }
    ensures sender_after { sender.new ≡ filled (sender_answer host_id header.now sheet.now) sender.old }
{
    capi_sent::sender(host_id, header, sheet, sender)
}

// Both ends of a header's packet, below a host with this ID: the sender as above; where it goes, 0 one function, 1 the host, 2 the port,
// 3 every function; the record, 0 where it is none; the bridges crossed both ways; and the packet as it arrives, 24 numbers. A broadcast has
// how many functions for the bridges, and after the packet their record numbers. A host ID above FFFFh is 10, tried first.
#[unsafe(no_mangle)]
pub extern "C" fn cartsundial_route_sent(
    host_id: u64,
    header: &[u8],
    sheet: &[u8],
    answer: &mut [u64],
) -> u32
    ensures value { result ≡ returned (ends_answer host_id header.now sheet.now) answer.old }
    ensures answer_after { answer.new ≡ filled (ends_answer host_id header.now sheet.now) answer.old }
{
    capi_sent::route_sent(host_id, header, sheet, answer)
}

// Builds the index of a sheet that is accepted for a host record: the audit's number, then 11 where the slice is shorter than 1,024 bytes
// and 256 a function. Nothing past them is written.
#[unsafe(no_mangle)]
pub extern "C" fn cartsundial_index(host: &[u8], sheet: &[u8], index: &mut [u8]) -> u32
    ensures value { result ≡ build_number host.now sheet.now (length index.old) }
    ensures index_after { index.new ≡ index_after host.now sheet.now index.old }
{
    index_build::build(host, sheet, index) as u32
}

// The same by the second verdict's number: the index of a sheet on which every address has one owner.
#[unsafe(no_mangle)]
pub extern "C" fn cartsundial_index_sound(host: &[u8], sheet: &[u8], index: &mut [u8]) -> u32
    ensures value { result ≡ sound_build_number host.now sheet.now (length index.old) }
    ensures index_after { index.new ≡ sound_index_after host.now sheet.now index.old }
{
    index_build::build_sound(host, sheet, index) as u32
}

// The second verdict of a sheet of which no host is told: its own number first, and 0 where every address has one owner under some host.
#[unsafe(no_mangle)]
pub extern "C" fn cartsundial_sound_alone(sheet: &[u8]) -> u32
    ensures { result ≡ alone_number sheet.now }
{
    index_alone::sound_alone(sheet) as u32
}

// The index of such a sheet, by that number.
#[unsafe(no_mangle)]
pub extern "C" fn cartsundial_index_alone(sheet: &[u8], index: &mut [u8]) -> u32
    ensures value { result ≡ alone_build_number sheet.now (length index.old) }
    ensures index_after { index.new ≡ alone_index_after sheet.now index.old }
{
    index_alone::build_alone(sheet, index) as u32
}

// Searches an index for a header: the answer is that of a route over the sheet that the index was built from. Any bytes may be given as an
// index.
#[unsafe(no_mangle)]
pub extern "C" fn cartsundial_find(header: &[u8], index: &[u8], answer: &mut [u64]) -> u32
    ensures value { result ≡ returned (find_answer header.now index.now) answer.old }
    ensures answer_after { answer.new ≡ filled (find_answer header.now index.now) answer.old }
{
    capi_find::find(header, index, answer)
}

// Takes a piece of a trace: the lines of the records that end in it, over a sheet, and how many bytes they are. The state is six numbers
// that the caller keeps, all zero at first: fewer are 11 and numbers that are no state 10, both tried first. A refused piece is not taken.
#[unsafe(no_mangle)]
pub extern "C" fn cartsundial_annotate(
    state: &mut [u64],
    sheet: &[u8],
    piece: &[u8],
    lines: &mut [u8],
    written: &mut [u64],
) -> u32
    ensures value { result
        ≡ returned (piece_answer (line_over sheet.now) state.old piece.now (length lines.old))
        written.old }
    ensures state_after { state.new
        ≡ state_left (line_over sheet.now) state.old piece.now (length lines.old)
        written.old }
    ensures lines_after { lines.new
        ≡ lines_left (line_over sheet.now) state.old piece.now lines.old written.old }
    ensures written_after { written.new
        ≡ filled (piece_answer (line_over sheet.now) state.old piece.now (length lines.old))
        written.old }
{
    capi_trace::annotate(state, sheet, piece, lines, written)
}

// The same by an index: over one that was built, the lines and the state are those over its sheet. Any bytes may be given as an index.
#[unsafe(no_mangle)]
pub extern "C" fn cartsundial_label(
    state: &mut [u64],
    index: &[u8],
    piece: &[u8],
    lines: &mut [u8],
    written: &mut [u64],
) -> u32
    ensures value { result
        ≡ returned (piece_answer (line_by Index index.now) state.old piece.now (length lines.old))
        written.old }
    ensures state_after { state.new
        ≡ state_left (line_by Index index.now) state.old piece.now (length lines.old)
        written.old }
    ensures lines_after { lines.new
        ≡ lines_left (line_by Index index.now) state.old piece.now lines.old
        written.old }
    ensures written_after { written.new
        ≡ filled (piece_answer (line_by Index index.now) state.old piece.now (length lines.old))
        written.old }
{
    capi_trace::label(state, index, piece, lines, written)
}

// The same with both ends of each packet, over a sheet and with the host's own ID: above FFFFh that is 10, tried before all else.
#[unsafe(no_mangle)]
pub extern "C" fn cartsundial_follow(
    host_id: u64,
    state: &mut [u64],
    sheet: &[u8],
    piece: &[u8],
    lines: &mut [u8],
    written: &mut [u64],
) -> u32
    ensures value { result
        ≡ returned (follow_answer host_id sheet.now state.old piece.now (length lines.old))
        written.old }
    ensures state_after { state.new
        ≡ follow_state host_id sheet.now state.old piece.now (length lines.old)
        written.old }
    ensures lines_after { lines.new
        ≡ follow_lines host_id sheet.now state.old piece.now lines.old written.old }
    ensures written_after { written.new
        ≡ filled (follow_answer host_id sheet.now state.old piece.now (length lines.old))
        written.old }
{
    capi_trace::follow(host_id, state, sheet, piece, lines, written)
}

// Ends a trace, labelled over a sheet, by an index or with both ends: its last line, if it gets one, and how many bytes it is.
#[unsafe(no_mangle)]
pub extern "C" fn cartsundial_annotate_end(
    state: &[u64],
    lines: &mut [u8],
    written: &mut [u64],
) -> u32
    ensures value { result ≡ returned (end_answer state.now (length lines.old)) written.old }
    ensures lines_after { lines.new ≡ end_left state.now lines.old written.old }
    ensures written_after { written.new ≡ filled (end_answer state.now (length lines.old)) written.old }
{
    capi_trace::finish(state, lines, written)
}

// Opens the request of a header in a ledger, 256 numbers that the caller keeps, all zero at first: fewer are 11, tried first; any numbers
// are a ledger. Then the header's number, 60, 61 or 62.
#[unsafe(no_mangle)]
pub extern "C" fn cartsundial_ledger_open(ledger: &mut [u64], header: &[u8]) -> u32
    ensures value { result ≡ open_answer header.now ledger.old }
    ensures ledger_after { ledger.new ≡ open_left header.now ledger.old }
{
    capi_ledger::open_request(ledger, header)
}

// Completes a request of a ledger by a header: 11 as above, then the header's number, 60, 63, 64 or 65.
#[unsafe(no_mangle)]
pub extern "C" fn cartsundial_ledger_complete(ledger: &mut [u64], header: &[u8]) -> u32
    ensures value { result ≡ complete_answer header.now ledger.old }
    ensures ledger_after { ledger.new ≡ complete_left header.now ledger.old }
{
    capi_ledger::complete_request(ledger, header)
}

// How many requests of a ledger are open.
#[unsafe(no_mangle)]
pub extern "C" fn cartsundial_ledger_count(ledger: &[u64], count: &mut [u64]) -> u32
    ensures value { result ≡ returned (count_answer ledger.now) count.old }
    ensures count_after { count.new ≡ filled (count_answer ledger.now) count.old }
{
    capi_ledger::count(ledger, count)
}

// ---- what the planner's call is made of. It is called from here, since through a crate between them a part of it is compiled with data
// below the stack pointer, which boot code must not have

// The board's own number, or else 11: every sheet has its version byte, so with an empty one the planner ends at its last check and writes
// nothing.
fn plan_refusal(board: &[u8]) -> u32
    ensures { result ≡ planning_number (planning board.now 0) }
{
    let mut sheet = [0u8; 1];
    match planner::plan(board, &mut sheet[..0]) {
        Planning::Planned(_) => 0,
        Planning::Refused(n) => n as u32,
    }
}
