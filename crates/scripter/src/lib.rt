// The write script: a board's bytes to the plan as configuration writes, or the number. No sheet is kept: each part of the script is a
// pass over the board of its own, and the one that writes BARs and windows places the records, laid out one at a time, so the call takes no
// more stack than the planner.
#![tactic(auto)]

ghost use Rattle.std.specs.Prelude.{◌≡◌, false, true, ℕ, ◌+◌, ◌*◌, ◌≤◌, ◌<◌, length, take, drop, count_by, not, ◌==◌};
ghost use Rattle.std.proofs.lemmas.List.Edits.{sets};
ghost use Rattle.records.specs.Limits.{most_functions};
ghost use Rattle.records.specs.declared.Next.TheVariants.{Record};
ghost use Rattle.records.specs.Records.{next_of};
ghost use Rattle.board_record.specs.Function.{is_bridge as is_bridge_of, function_of_part, header_wrong};
ghost use Rattle.board.specs.Board.{board_number, host_of, functions_of};
ghost use Rattle.sheet.specs.Sheet.{full_sheet};
ghost use Rattle.plan_answer.specs.Plan.{on_board};
ghost use Rattle.planner.specs.Measure.{IsMeasured};
ghost use Rattle.plan_pass.specs.Step.{function_at, cursors_next, NumberFits, Placeable, Bridged};
ghost use Rattle.plan_pass.specs.Loop.{most_buses, Placing};
ghost use Rattle.script_writes.specs.Writes.{register_writes, writes_in};
ghost use Rattle.script_writes.specs.Script.{write_stride};
ghost use Rattle.script_writes.specs.Wrote.{Wrote};
ghost use Rattle.scripter.specs.Scripting.{script_of, script_length, scripting_as, scripting, room_as, room_after};
ghost use Rattle.scripter.specs.Counting.{write_count, count_in};
ghost use Rattle.scripter.specs.UnplacedLaws.{Numbered, bus_part, command_part};
ghost use Rattle.scripter.specs.PassLaws.{ghost_sheet, placed_part, cursors_after, pass_of, front_of, Passing};

use board_record::{Function, Host};
use planner::Measured;
use records::{MOST_FUNCTIONS, Next};
use script_writes::{Boot, Dword, Pass, Place};
use sheet_record::places::STRIDE;

// A script that was written: its length; or the number of the first check that the board fails.
#[derive(Clone, Copy)]
pub enum Scripting {
    Written(usize),
    Refused(u8),
}

// The script's length, or the number. The script is written up to its length and nothing past it; refused, the room stays as it was.
pub fn write_script(board: &[u8], requester: u16, tag: u8, room: &mut [u8]) -> Scripting
    ensures { (result ≡ scripting board.now (length room.old))
        × (room.new ≡ room_after board.now requester tag room.old) }
{
    let n = board::check(board);
    if n != 0 {
        return Scripting::Refused(n);
    }
    script_lawful(board, requester, tag, room)
}

// 30 to 33, then short room, then the script.
fn script_lawful(board: &[u8], requester: u16, tag: u8, room: &mut [u8]) -> Scripting
    requires { board_number board.now ≡ 0 }
    ensures { (result ≡ scripting_as (on_board (host_of board.now) (functions_of board.now) full_sheet)
        (script_length board.now) (length room.old))
        × (room.new ≡ room_as result board.now requester tag room.old) }
{
    let mut counts = [0u8; 2 + 2 * MOST_FUNCTIONS];
    let mut memo = [0u64; 7 * MOST_FUNCTIONS];
    let host = board_record::host_of(records::part_at(
        board,
        board_record::HOST,
        board_record::HOST_LENGTH,
    ));
    let m = measure(board, host, &mut counts, &mut memo);
    let n = planner::refusal(host, m);
    if n != 0 {
        return Scripting::Refused(n);
    }
    let size = script_writes::STRIDE * count_writes(board);
    if room.len() < size {
        return Scripting::Refused(11);
    }
    write_passes(board, host, &counts, &memo, requester, tag, room);
    Scripting::Written(size)
}

// The planner's measuring, with its tables, once more: shared by two calls it would be a function of its own, and its tables would lie on
// top of the cursors' array in both. Inlined into each, they take the same place.
fn measure(board: &[u8], host: Host, counts: &mut [u8], memo: &mut [u64]) -> Measured
    requires board_value { board_number board.now ≡ 0 }
    requires most_functions_in_bounds { (2 * most_functions + 2 ≤ length counts.old) × (7 * most_functions ≤ length memo.old) }
    ensures { IsMeasured board.now host counts.new memo.new result }
{
    let mut parents = [0u16; MOST_FUNCTIONS];
    let mut heads = [0u32; MOST_FUNCTIONS];
    let mut readbacks = [0u32; 6 * MOST_FUNCTIONS];
    let n = plan_tables::fill(board, &mut parents, &mut heads, &mut readbacks);
    planner::count_and_size(&parents, &heads, &readbacks, n, host, counts, memo)
}

// ---- how many writes

// A lawful board's writes, told by its own records.
fn count_writes(board: &[u8]) -> usize
    requires { board_number board.now ≡ 0 }
    ensures { (result ≡ count_in (functions_of board.now)) × (result ≤ 13 * most_functions) }
{
    let mut count: usize = 0;
    for part in records::parts_from(board, board_record::FUNCTIONS) {
        count += count_of(board_record::function_of(part));
    }
    count
}

// Its used BARs and its command word, and a bridge's buses and windows.
fn count_of(f: Function) -> usize
    ensures { (result ≡ write_count f) × (result ≤ 13) }
{
    let readbacks = f.readbacks;
    let used = used_in(readbacks, bar::slot_count(f.header));
    if bar::is_bridge(f.header) {
        return used + 7;
    }
    used + 1
}

// How many of the first n read-backs are not 0.
fn used_in(readbacks: [u32; 6], n: usize) -> usize
    requires { n ≤ 6 }
    ensures { result ≡ count_by (λ x. not (x == 0)) (take n readbacks) }
{
    readbacks[..n]
        .iter()
        .filter(|readback| **readback != 0)
        .count()
}

// ---- the three parts

// The whole script of a board that is planned, into a room that has it.
fn write_passes(
    board: &[u8],
    host: Host,
    counts: &[u8],
    memo: &[u64],
    requester: u16,
    tag: u8,
    room: &mut [u8],
)
    requires { Placing board.now host counts.now memo.now (ghost_sheet board.now) × (script_length board.now ≤ length room.old) }
    ensures { room.new ≡ sets room.old 0 (script_of board.now requester tag) }
{
    let mut cursors = [0u64; 3 * plan_pass::BUSES];
    let boot = Boot {
        requester,
        root: host.first_bus,
    };
    let start = Place { at: 0, tag };
    let next = write_front(board, host, counts, memo, &mut cursors, boot, start, room);
    write_pass(
        Pass::Commands,
        board,
        host,
        counts,
        memo,
        &mut cursors,
        boot,
        next,
        room,
    );
}

// What comes before the command words.
fn write_front(
    board: &[u8],
    host: Host,
    counts: &[u8],
    memo: &[u64],
    cursors: &mut [u64],
    boot: Boot,
    from: Place,
    room: &mut [u8],
) -> Place
    requires placing { Placing board.now host counts.now memo.now (ghost_sheet board.now) × (boot.root ≡ host.first_bus) }
    requires cursors_len { (length cursors.old ≡ 3 * most_buses) × (from.at + write_stride * length (front_of board.now) ≤ length room.old) }
    ensures { Wrote boot room.old from (front_of board.now) room.new result }
{
    let next = write_pass(
        Pass::Buses,
        board,
        host,
        counts,
        memo,
        cursors,
        boot,
        from,
        room,
    );
    write_pass(
        Pass::Registers,
        board,
        host,
        counts,
        memo,
        cursors,
        boot,
        next,
        room,
    )
}

// One part: every cursor at its pool's base, then the records.
fn write_pass(
    pass: Pass,
    board: &[u8],
    host: Host,
    counts: &[u8],
    memo: &[u64],
    cursors: &mut [u64],
    boot: Boot,
    from: Place,
    room: &mut [u8],
) -> Place
    requires placing { Placing board.now host counts.now memo.now (ghost_sheet board.now) × (boot.root ≡ host.first_bus) }
    requires cursors_len { (length cursors.old ≡ 3 * most_buses) × (from.at + write_stride * length (pass_of pass board.now) ≤ length room.old) }
    ensures { Wrote boot room.old from (pass_of pass board.now) room.new result }
{
    plan_pass::fill_cursors(cursors, plan_pass::bases_of(host));
    pass_records(pass, board, counts, memo, cursors, boot, from, room)
}

fn pass_records(
    pass: Pass,
    board: &[u8],
    counts: &[u8],
    memo: &[u64],
    cursors: &mut [u64],
    boot: Boot,
    from: Place,
    room: &mut [u8],
) -> Place
    requires { Passing pass board.now boot counts.now memo.now cursors.old from room.old }
    ensures { Wrote boot room.old from (pass_of pass board.now) room.new result }
{
    // no `for` over the parts: placing takes the place of a record, and cuts it out inside
    let mut at = board_record::FUNCTIONS;
    let mut i: usize = 0;
    let mut next = from;
    while let Next::Record(n) = records::next_at(board, at) {
        next = put_next(
            pass, board, at, n, i, counts, memo, cursors, boot, next, room,
        );
        at = at + 2 + n;
        i += 1;
    }
    next
}

// Record i + 1 in this part. Only its registers need it placed: its bus numbers, its ID and its command word are told without.
fn put_next(
    pass: Pass,
    board: &[u8],
    at: usize,
    n: usize,
    i: usize,
    counts: &[u8],
    memo: &[u64],
    cursors: &mut [u64],
    boot: Boot,
    from: Place,
    room: &mut [u8],
) -> Place
    requires board_value { (next_of (drop at board.now) ≡ Record n) × (header_wrong (take n (drop (at + 2) board.now)) ≡ false) }
    requires placeable { Placeable boot.root counts.now cursors.old (function_at board.now at n)
        × (is_bridge_of (function_at board.now at n) ≡ true
        → Bridged boot.root counts.now memo.now cursors.old i (function_at board.now at n).parent) }
    requires n_in_bounds { from.at + write_stride * length
        (writes_in pass 0 (placed_part boot counts.now memo.now cursors.old i (function_at board.now at n)))
        ≤ length room.old }
    ensures cursors { cursors.new ≡ cursors_after pass memo.now cursors.old i (function_at board.now at n) }
    ensures room { (k : ℕ) → Wrote boot room.old from
        (writes_in pass k
        (placed_part boot counts.now memo.now cursors.old i (function_at board.now at n)))
        room.new result }
{
    match pass {
        Pass::Buses => {
            let part = records::part_at(board, at, n);
            put_buses(part, i, counts, memo, boot, from, room)
        }
        Pass::Registers => put_placed(board, at, n, i, counts, memo, cursors, boot, from, room),
        Pass::Commands => {
            let part = records::part_at(board, at, n);
            put_command(part, counts, boot, from, room)
        }
    }
}

// ---- one record

// A bridge's bus registers.
fn put_buses(
    part: &[u8],
    i: usize,
    counts: &[u8],
    memo: &[u64],
    boot: Boot,
    from: Place,
    room: &mut [u8],
) -> Place
    requires part_value { (header_wrong part.now ≡ false) × Numbered boot counts.now memo.now i (function_of_part part.now) }
    requires part_in_bounds { from.at + write_stride * length (bus_part 0 boot counts.now memo.now i (function_of_part part.now)) ≤ length room.old }
    ensures { (k : ℕ) → Wrote boot room.old from
        (bus_part k boot counts.now memo.now i (function_of_part part.now))
        room.new result }
{
    if !board_record::is_bridge(part) {
        return from;
    }
    let parent = board_record::parent_of(part) as usize;
    let primary = plan_pass::number_at(boot.root, counts, parent, parent);
    let last = plan_pass::last_below(memo, i);
    let buses = Dword {
        first: primary,
        second: plan_pass::number_at(boot.root, counts, i + 1, i + 1),
        third: plan_pass::number_at(boot.root, counts, last, parent),
        fourth: 0,
    };
    let id = plan_pass::id_of(primary, board_record::devfn_of(part));
    script_writes::put_known(id, 0x18, 0b0111, buses, boot, from, room)
}

// Its command word.
fn put_command(part: &[u8], counts: &[u8], boot: Boot, from: Place, room: &mut [u8]) -> Place
    requires part_value { (header_wrong part.now ≡ false)
        × NumberFits boot.root counts.now (function_of_part part.now).parent (function_of_part part.now).parent }
    requires write_stride_in_bounds { from.at + write_stride ≤ length room.old }
    ensures { (k : ℕ) → Wrote boot room.old from
        (command_part k boot counts.now (function_of_part part.now)) room.new result }
{
    let parent = board_record::parent_of(part) as usize;
    let bus = plan_pass::number_at(boot.root, counts, parent, parent);
    let [low, high] = command_of(part).to_le_bytes();
    let bytes = Dword {
        first: low,
        second: high,
        third: 0,
        fourth: 0,
    };
    let id = plan_pass::id_of(bus, board_record::devfn_of(part));
    script_writes::put_known(id, 0x04, 0b0011, bytes, boot, from, room)
}

fn command_of(part: &[u8]) -> u16
    requires { header_wrong part.now ≡ false }
    ensures { result ≡ (function_of_part part.now).command }
{
    endian::read_be16(part, 4) as u16
}

// The function placed, and its BARs and windows.
fn put_placed(
    board: &[u8],
    at: usize,
    n: usize,
    i: usize,
    counts: &[u8],
    memo: &[u64],
    cursors: &mut [u64],
    boot: Boot,
    from: Place,
    room: &mut [u8],
) -> Place
    requires board_value { (next_of (drop at board.now) ≡ Record n) × (header_wrong (take n (drop (at + 2) board.now)) ≡ false) }
    requires placeable { Placeable boot.root counts.now cursors.old (function_at board.now at n)
        × (is_bridge_of (function_at board.now at n) ≡ true
        → Bridged boot.root counts.now memo.now cursors.old i (function_at board.now at n).parent) }
    requires n_in_bounds { from.at + write_stride * length
        (register_writes 0 (placed_part boot counts.now memo.now cursors.old i (function_at board.now at n)))
        ≤ length room.old }
    ensures cursors { cursors.new ≡ cursors_next memo.now cursors.old i (function_at board.now at n) }
    ensures room { (k : ℕ) → Wrote boot room.old from
        (register_writes k
        (placed_part boot counts.now memo.now cursors.old i (function_at board.now at n)))
        room.new result }
{
    let mut bytes = [0u8; STRIDE];
    plan_pass::place_at(
        board, at, n, i, boot.root, counts, memo, cursors, &mut bytes, 0,
    );
    script_writes::put_registers(&bytes[2..], boot, from, room)
}
