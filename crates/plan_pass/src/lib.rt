// The placing pass: where each function of a lawful board lies, record by record, and its registers.
#![tactic(auto)]

ghost use Rattle.std.specs.Prelude.{◌≡◌, false, true, suc, ◌+◌, ◌*◌, ◌≤◌, ◌<◌, length, take, drop};
ghost use Rattle.std.proofs.lemmas.List.Edits.{sets};
ghost use Rattle.arith.specs.Powers.{PowerOfTwo};
ghost use Rattle.pools.specs.declared.Pool.{Pool as PoolName};
ghost use Rattle.bar.specs.Bar.{slots, any_bad};
ghost use Rattle.board_record.specs.Function.{is_bridge as is_bridge_of, slot_count as slot_count_of, function_of_part, header_wrong};
ghost use Rattle.plan_rule.specs.Pieces.{window_align};
ghost use Rattle.records.specs.declared.Next.TheVariants.{Record};
ghost use Rattle.records.specs.Records.{next_of};
ghost use Rattle.sheet_record.specs.Places.{stride};
ghost use Rattle.sheet_bytes.specs.Layout.{sheet_bytes};
ghost use Rattle.plan_pass.specs.Loop.{most_buses, plan_on, Ready, bases_for, Filled, Placing};
ghost use Rattle.plan_sizing.specs.Memo.{laid_at};
ghost use Rattle.plan_function.specs.Kept.{extent_in, windows_placed};
ghost use Rattle.plan_pass.specs.Step.{cursors_in, ends_list, extents_in, number_in, NumberFits, bars_in, leaf_with, bridge_with};
ghost use Rattle.plan_pass.specs.Step.{leaf_registers, bridge_registers};
ghost use Rattle.plan_pass.specs.Step.{function_at, registers_of, record_of, leaf_next, bridge_next, cursors_next, Placeable, Bridged};

use board_record::{Function, Host};
use plan_function::{BarsPlaced, Cursors, Extents, WindowsPlaced};
use pools::Pool;
use records::Next;
use sheet_bytes::Registers;
use sheet_record::places::STRIDE;
use window::Window;

// The root bus, and a bus below each record.
pub const BUSES: usize = 1 + records::MOST_FUNCTIONS;

// The whole pass over a planned board: the sheet's bytes, and past them nothing.
pub fn place_all(board: &[u8], host: Host, counts: &[u8], memo: &[u64], sheet: &mut [u8])
    requires { Placing board.now host counts.now memo.now sheet.old }
    ensures { sheet.new ≡ sets sheet.old 0 (sheet_bytes (plan_on board.now)) }
{
    let mut cursors = [0u64; 3 * BUSES];
    fill_cursors(&mut cursors, bases_of(host));
    sheet[0] = 1;
    place_records(board, host.first_bus, counts, memo, &mut cursors, sheet);
}

// Every record, from cursors at the pools' bases and a sheet that has its version byte.
pub fn place_records(
    board: &[u8],
    first: u8,
    counts: &[u8],
    memo: &[u64],
    cursors: &mut [u64],
    sheet: &mut [u8],
)
    requires { Ready board.now first counts.now memo.now cursors.old sheet.old }
    ensures { sheet.new ≡ sets sheet.old 0 (sheet_bytes (plan_on board.now)) }
{
    // no `for` over the parts: a slice made for a call is stored as two words, so `place_at` takes a place and cuts the record out inside
    let mut at = board_record::FUNCTIONS;
    let mut i: usize = 0;
    while let Next::Record(n) = records::next_at(board, at) {
        let to = 1 + STRIDE * i;
        place_at(board, at, n, i, first, counts, memo, cursors, sheet, to);
        at = at + 2 + n;
        i += 1;
    }
}

// Record i + 1: its registers, and the cursors after it. Its BARs are placed here for both kinds: one call is inlined, two are not.
fn place_record(
    f: Function,
    i: usize,
    first: u8,
    counts: &[u8],
    memo: &[u64],
    cursors: &mut [u64],
) -> Registers
    requires { Placeable first counts.now cursors.old f
        × (is_bridge_of f ≡ true → Bridged first counts.now memo.now cursors.old i f.parent) }
    ensures { (result ≡ registers_of first counts.now memo.now cursors.old i f)
        × (cursors.new ≡ cursors_next memo.now cursors.old i f) }
{
    let bars = own_bars(f, cursors);
    if bar::is_bridge(f.header) {
        return place_bridge(f, bars, i, first, counts, memo, cursors);
    }
    place_leaf(f, bars, first, counts, cursors)
}

// The cursors of bus b: three numbers at 3 * b.
fn cursors_at(cursors: &[u64], b: usize) -> Cursors
    requires { 3 * b + 3 ≤ length cursors.now }
    ensures { result ≡ cursors_in cursors.now b }
{
    let at = 3 * b;
    Cursors {
        low: cursors[at],
        high: cursors[at + 1],
        io: cursors[at + 2],
    }
}

fn store_cursors(cursors: &mut [u64], b: usize, c: Cursors)
    requires { 3 * b + 3 ≤ length cursors.old }
    ensures { cursors.new ≡ sets cursors.old (3 * b) (ends_list c) }
{
    let at = 3 * b;
    cursors[at] = c.low;
    cursors[at + 1] = c.high;
    cursors[at + 2] = c.io;
}

// The record after which the bus below record i + 1 ends.
pub fn last_below(memo: &[u64], i: usize) -> usize
    requires { 7 * i + 7 ≤ length memo.now }
    ensures { result ≡ (laid_at memo.now i).next }
{
    let l = plan_sizing::stored_at(memo, i);
    l.next
}

// What sizing stored of the bus below record i + 1.
fn extents_at(memo: &[u64], i: usize) -> Extents
    requires { 7 * i + 7 ≤ length memo.now }
    ensures { result ≡ extents_in (laid_at memo.now i) }
{
    let l = plan_sizing::stored_at(memo, i);
    let low = l.low;
    let high = l.high;
    let io = l.io;
    Extents { low, high, io }
}

// ---- one record

// The first bus and the numbers that k records take, less the spares still to come of record p and of the bridges above it: for p = k the
// number of record k's own bus.
pub fn number_at(first: u8, counts: &[u8], k: usize, p: usize) -> u8
    requires { NumberFits first counts.now k p }
    ensures { (result ≡ number_in first counts.now k p) × (result < 256) }
{
    first + (counts[2 * k] - counts[2 * p + 1])
}

pub fn id_of(bus: u8, devfn: u8) -> u16
    ensures { result ≡ bus * 256 + devfn }
{
    bus as u16 * 256 + devfn as u16
}

// Its BARs, from the cursors of the bus it is on.
fn own_bars(f: Function, cursors: &[u64]) -> BarsPlaced
    requires { (3 * f.parent + 3 ≤ length cursors.now) × (any_bad (slots (take (slot_count_of f) f.readbacks)) ≡ false) }
    ensures { result ≡ bars_in cursors.now f }
{
    let readbacks = f.readbacks;
    plan_function::place_bars(
        readbacks,
        bar::slot_count(f.header),
        cursors_at(cursors, f.parent as usize),
    )
}

fn leaf_registers(f: Function, first: u8, counts: &[u8], values: [u32; 6]) -> Registers
    requires { NumberFits first counts.now f.parent f.parent }
    ensures { result ≡ leaf_with first counts.now f values }
{
    let parent = f.parent as usize;
    let bus = number_at(first, counts, parent, parent);
    let readbacks = f.readbacks;
    Registers {
        id: id_of(bus, f.devfn),
        command: f.command,
        header: f.header,
        values,
        readbacks,
        primary: 0,
        secondary: 0,
        subordinate: 0,
        low: Window::closed(Pool::Low),
        high: Window::closed(Pool::High),
        io: Window::closed(Pool::Io),
    }
}

fn place_leaf(
    f: Function,
    bars: BarsPlaced,
    first: u8,
    counts: &[u8],
    cursors: &mut [u64],
) -> Registers
    requires { Placeable first counts.now cursors.old f × (bars ≡ bars_in cursors.old f) }
    ensures { (result ≡ leaf_registers first counts.now cursors.old f)
        × (cursors.new ≡ leaf_next cursors.old f) }
{
    let values = bars.values;
    let r = leaf_registers(f, first, counts, values);
    let after = bars.cursors;
    store_cursors(cursors, f.parent as usize, after);
    r
}

// A bridge's windows follow its BARs.
fn own_windows(i: usize, memo: &[u64], cursors: &[u64], after: Cursors) -> WindowsPlaced
    requires { (7 * i + 7 ≤ length memo.now)
        × (3 * suc i + 3 ≤ length cursors.now)
        × ((q : PoolName) → PowerOfTwo (window_align q (extent_in (extents_in (laid_at memo.now i)) q).align)) }
    ensures { result ≡ windows_placed (extents_in (laid_at memo.now i)) after (cursors_in cursors.now (suc i)) }
{
    plan_function::place_windows(extents_at(memo, i), after, cursors_at(cursors, i + 1))
}

fn bridge_registers(
    f: Function,
    i: usize,
    first: u8,
    counts: &[u8],
    last: usize,
    values: [u32; 6],
    w: WindowsPlaced,
) -> Registers
    requires { NumberFits first counts.now f.parent f.parent
        × NumberFits first counts.now (suc i) (suc i)
        × NumberFits first counts.now last f.parent }
    ensures { result ≡ bridge_with first counts.now i f last values w }
{
    let parent = f.parent as usize;
    let primary = number_at(first, counts, parent, parent);
    let secondary = number_at(first, counts, i + 1, i + 1);
    let subordinate = number_at(first, counts, last, parent);
    let readbacks = f.readbacks;
    let low = w.low;
    let high = w.high;
    let io = w.io;
    Registers {
        id: id_of(primary, f.devfn),
        command: f.command,
        header: f.header,
        values,
        readbacks,
        primary,
        secondary,
        subordinate,
        low,
        high,
        io,
    }
}

// A bridge starts the bus below it.
fn place_bridge(
    f: Function,
    bars: BarsPlaced,
    i: usize,
    first: u8,
    counts: &[u8],
    memo: &[u64],
    cursors: &mut [u64],
) -> Registers
    requires { Placeable first counts.now cursors.old f
        × Bridged first counts.now memo.now cursors.old i f.parent
        × (bars ≡ bars_in cursors.old f) }
    ensures { (result ≡ bridge_registers first counts.now memo.now cursors.old i f)
        × (cursors.new ≡ bridge_next memo.now cursors.old i f) }
{
    let k = i + 1;
    let after = bars.cursors;
    let w = own_windows(i, memo, cursors, after);
    let values = bars.values;
    let r = bridge_registers(f, i, first, counts, last_below(memo, i), values, w);
    let own = w.cursors;
    store_cursors(cursors, f.parent as usize, own);
    let below = w.below;
    store_cursors(cursors, k, below);
    r
}

// ---- all records

// The function at a place where a record stands.
pub fn function_at(board: &[u8], at: usize, n: usize) -> Function
    requires { (next_of (drop at board.now) ≡ Record n) × (header_wrong (take n (drop (at + 2) board.now)) ≡ false) }
    ensures { result ≡ function_of_part (take n (drop (at + 2) board.now)) }
{
    board_record::function_of(records::part_at(board, at, n))
}

// Record i + 1, at a place of the board, placed and written at a place of the output: the one call of all that is below it, for whoever
// places records. So it is compiled as a whole, and what it hands on stays in registers.
pub fn place_at(
    board: &[u8],
    at: usize,
    n: usize,
    i: usize,
    first: u8,
    counts: &[u8],
    memo: &[u64],
    cursors: &mut [u64],
    out: &mut [u8],
    to: usize,
)
    requires board_value { (next_of (drop at board.now) ≡ Record n) × (header_wrong (take n (drop (at + 2) board.now)) ≡ false) }
    requires placeable { Placeable first counts.now cursors.old (function_at board.now at n)
        × (is_bridge_of (function_at board.now at n) ≡ true
        → Bridged first counts.now memo.now cursors.old i (function_at board.now at n).parent)
        × (to + stride ≤ length out.old) }
    ensures cursors { cursors.new ≡ cursors_next memo.now cursors.old i (function_at board.now at n) }
    ensures out { out.new
        ≡ sets out.old to
        (record_of first counts.now memo.now cursors.old i (function_at board.now at n)) }
{
    let f = function_at(board, at, n);
    write_placed(f, i, first, counts, memo, cursors, out, to);
}

// The cursors after record i + 1, for whoever wants no more of it.
pub fn pass_over(
    board: &[u8],
    at: usize,
    n: usize,
    i: usize,
    first: u8,
    counts: &[u8],
    memo: &[u64],
    cursors: &mut [u64],
)
    requires board_value { (next_of (drop at board.now) ≡ Record n) × (header_wrong (take n (drop (at + 2) board.now)) ≡ false) }
    requires placeable { Placeable first counts.now cursors.old (function_at board.now at n)
        × (is_bridge_of (function_at board.now at n) ≡ true
        → Bridged first counts.now memo.now cursors.old i (function_at board.now at n).parent) }
    ensures { cursors.new ≡ cursors_next memo.now cursors.old i (function_at board.now at n) }
{
    let mut bytes = [0u8; STRIDE];
    place_at(board, at, n, i, first, counts, memo, cursors, &mut bytes, 0);
}

// A function placed as record i + 1, and written.
fn write_placed(
    f: Function,
    i: usize,
    first: u8,
    counts: &[u8],
    memo: &[u64],
    cursors: &mut [u64],
    out: &mut [u8],
    to: usize,
)
    requires placeable { Placeable first counts.now cursors.old f
        × (is_bridge_of f ≡ true → Bridged first counts.now memo.now cursors.old i f.parent) }
    requires stride_in_bounds { to + stride ≤ length out.old }
    ensures cursors { cursors.new ≡ cursors_next memo.now cursors.old i f }
    ensures out { out.new
        ≡ sets out.old to
        (record_of first counts.now memo.now cursors.old i f) }
{
    let r = place_record(f, i, first, counts, memo, cursors);
    sheet_bytes::write_record(out, to, r);
}

// ---- the pass

pub fn bases_of(host: Host) -> Cursors
    ensures { result ≡ bases_for host }
{
    let low = host.low;
    let high = host.high;
    let io = host.io;
    Cursors {
        low: plan_rule::cap(low.base),
        high: plan_rule::cap(high.base),
        io: plan_rule::cap(io.base),
    }
}

// The same cursors for every bus.
pub fn fill_cursors(cursors: &mut [u64], base: Cursors)
    requires { 3 * most_buses ≤ length cursors.old }
    ensures { Filled base most_buses cursors.new }
{
    for b in 0..BUSES {
        store_cursors(cursors, b, base);
    }
}
