// The planner: a board's bytes to its register sheet, or the number of the first check that the board fails. Any bytes may be given, and
// any room.
#![tactic(auto)]

ghost use Rattle.std.specs.Prelude.{◌≡◌, ◌+◌, ◌*◌, ◌≤◌, length};
ghost use Rattle.records.specs.Limits.{most_functions};
ghost use Rattle.board.specs.Board.{board_number, host_of, functions_of};
ghost use Rattle.plan_answer.specs.Plan.{on_board, planning, sheet_as, sheet_after};
ghost use Rattle.plan_tables.specs.Counts.{most_taken};
ghost use Rattle.planner.specs.Measure.{runs_out, refusal_by, Measurable, CountedAndSized, IsMeasured};

use board_record::{Host, Span};
use plan_answer::Planning;
use plan_rule::Extent;
use plan_sizing::Laid;
use records::MOST_FUNCTIONS;
use sheet_record::places::STRIDE;

// The sheet's length, or the number. The sheet is written up to its length and nothing past it; a refused board leaves it as it was.
pub fn plan(board: &[u8], sheet: &mut [u8]) -> Planning
    ensures { (result ≡ planning board.now (length sheet.old))
        × (sheet.new ≡ sheet_after board.now sheet.old) }
{
    let n = board::check(board);
    if n != 0 {
        return Planning::Refused(n);
    }
    plan_lawful(board, sheet)
}

// What is known of a lawful board before anything is placed.
#[derive(Clone, Copy)]
pub struct Measured {
    pub functions: usize,
    // the bus numbers that its bridges and their spares take
    pub bridges: u32,
    // what its root bus comes to in each pool
    pub root: Laid,
}

// 30 to 33, then short room, then the sheet.
fn plan_lawful(board: &[u8], sheet: &mut [u8]) -> Planning
    requires { board_number board.now ≡ 0 }
    ensures { (result ≡ on_board (host_of board.now) (functions_of board.now) (length sheet.old))
        × (sheet.new ≡ sheet_as result board.now sheet.old) }
{
    let mut counts = [0u8; 2 + 2 * MOST_FUNCTIONS];
    let mut memo = [0u64; 7 * MOST_FUNCTIONS];
    let host = board_record::host_of(records::part_at(
        board,
        board_record::HOST,
        board_record::HOST_LENGTH,
    ));
    let m = measure(board, host, &mut counts, &mut memo);
    let n = refusal(host, m);
    if n != 0 {
        return Planning::Refused(n);
    }
    let size = 1 + STRIDE * m.functions;
    if sheet.len() < size {
        return Planning::Refused(11);
    }
    plan_pass::place_all(board, host, &counts, &memo, sheet);
    Planning::Planned(size)
}

// One pass fills the arrays, one counts the bus numbers that the functions take, one sizes every bus.
fn measure(board: &[u8], host: Host, counts: &mut [u8], memo: &mut [u64]) -> Measured
    requires board_value { board_number board.now ≡ 0 }
    requires most_functions_in_bounds { (2 * most_functions + 2 ≤ length counts.old) × (7 * most_functions ≤ length memo.old) }
    ensures { IsMeasured board.now host counts.new memo.new result }
{
    let mut parents = [0u16; MOST_FUNCTIONS];
    let mut heads = [0u32; MOST_FUNCTIONS];
    let mut readbacks = [0u32; 6 * MOST_FUNCTIONS];
    let n = plan_tables::fill(board, &mut parents, &mut heads, &mut readbacks);
    count_and_size(&parents, &heads, &readbacks, n, host, counts, memo)
}

// The first n functions of the arrays.
pub fn count_and_size(
    parents: &[u16],
    heads: &[u32],
    readbacks: &[u32],
    n: usize,
    host: Host,
    counts: &mut [u8],
    memo: &mut [u64],
) -> Measured
    requires { Measurable parents.now heads.now readbacks.now n counts.old memo.old }
    ensures { CountedAndSized parents.now heads.now readbacks.now n host counts.old
        memo.old counts.new memo.new result }
{
    let ps = &parents[..n];
    let hs = &heads[..n];
    let bridges = plan_tables::count_buses(ps, hs, counts);
    let sets = &readbacks[..6 * n];
    let root = plan_sizing::size_board(
        ps,
        hs,
        sets,
        memo,
        host.low.base,
        host.high.base,
        host.io.base,
    );
    Measured {
        functions: n,
        bridges,
        root,
    }
}

// The number of what runs out first: bus numbers, then the low, high and I/O pool. 0 where nothing does.
pub fn refusal(host: Host, m: Measured) -> u8
    requires { m.bridges ≤ most_taken * most_functions }
    ensures { result ≡ refusal_by host m }
{
    if (host.last_bus as u32) < host.first_bus as u32 + m.bridges {
        return 30;
    }
    if runs_out(host.low, m.root.low) {
        return 31;
    }
    if runs_out(host.high, m.root.high) {
        return 32;
    }
    if runs_out(host.io, m.root.io) {
        return 33;
    }
    0
}

// Anything runs out of a closed pool. An open one ends below 2^52, where ends are kept whole.
fn runs_out(pool: Span, e: Extent) -> bool
    ensures { result ≡ runs_out pool e }
{
    if pool.last < pool.base {
        return 0 < e.align;
    }
    plan_sizing::ends_past(pool.last, e)
}
