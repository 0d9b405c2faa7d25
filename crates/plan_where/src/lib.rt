// What does not fit: a board's number, who fails under it, before whom most room is lost to alignment, and what the board needs. Any bytes
// may be given.
#![tactic(auto)]

ghost use Rattle.std.specs.Prelude.{◌≡◌, ◌+◌, ◌*◌, ◌≤◌, ◌<◌, length};
ghost use Rattle.records.specs.Limits.{most_functions};
ghost use Rattle.board.specs.Board.{board_number, host_of, functions_of};
ghost use Rattle.board.specs.ToPlacing.{to_host, to_placing};
ghost use Rattle.planner.specs.Measure.{IsMeasured};
ghost use Rattle.plan_items.specs.Loop.{Walkable};
ghost use Rattle.plan_where.specs.Finding.{in_pool, parties_under, lawful_finding, plan_finding_of};

use board_record::Host;
use finding::{NOBODIES, NOBODY, Parties, Party};
use plan_needs::Needs;
use planner::Measured;
use pools::Pool;
use records::MOST_FUNCTIONS;

// The number of the first check that the board fails, 0 where it is planned; who fails it; of 31 to 33 also before whom most room is lost.
// A board that fails a check of its own has no needs.
#[derive(Clone, Copy)]
pub struct PlanFinding {
    pub number: u8,
    pub party: Party,
    pub other: Party,
    pub needs: Needs,
}

const NO_NEEDS: Needs = Needs {
    buses: 0,
    low: 0,
    high: 0,
    io: 0,
    low_align: 0,
    high_align: 0,
    io_align: 0,
};

pub fn plan_where(board: &[u8]) -> PlanFinding
    ensures { result ≡ plan_finding_of board.now }
{
    let number = board::check(board);
    if number != 0 {
        return PlanFinding {
            number,
            party: board_where::failing(board, number),
            other: NOBODY,
            needs: NO_NEEDS,
        };
    }
    where_lawful(board)
}

// 30 to 33, or nothing: the root bus is measured with each closed pool at 0, which changes no number, and tells what is needed.
fn where_lawful(board: &[u8]) -> PlanFinding
    requires { board_number board.now ≡ 0 }
    ensures { result ≡ lawful_finding (to_host (host_of board.now)) (to_placing (functions_of board.now)) }
{
    let mut counts = [0u8; 2 + 2 * MOST_FUNCTIONS];
    let mut memo = [0u64; 7 * MOST_FUNCTIONS];
    let host = board_record::host_of(records::part_at(
        board,
        board_record::HOST,
        board_record::HOST_LENGTH,
    ));
    let laid = plan_needs::laid_host(host);
    let m = measure(board, laid, &mut counts, &mut memo);
    let number = planner::refusal(host, m);
    let parties = parties_under(number, board, host, &counts, &memo);
    PlanFinding {
        number,
        party: parties.party,
        other: parties.other,
        needs: plan_needs::needs_of(laid, m.bridges, m.root),
    }
}

// The planner's measuring, with its tables, in a call of its own: they are gone when the items are walked over.
fn measure(board: &[u8], host: Host, counts: &mut [u8], memo: &mut [u64]) -> Measured
    requires board_value { board_number board.now ≡ 0 }
    requires most_functions_in_bounds { (2 * most_functions + 2 ≤ length counts.old) × (7 * most_functions ≤ length memo.old) }
    ensures { IsMeasured board.now host counts.new memo.new result }
{
    let mut parents = [0u16; MOST_FUNCTIONS];
    let mut heads = [0u32; MOST_FUNCTIONS];
    let mut readbacks = [0u32; 6 * MOST_FUNCTIONS];
    let n = plan_tables::fill(board, &mut parents, &mut heads, &mut readbacks);
    planner::count_and_size(&parents, &heads, &readbacks, n, host, counts, memo)
}

// Who runs out of the pool that the number is about.
fn parties_under(number: u8, board: &[u8], host: Host, counts: &[u8], memo: &[u64]) -> Parties
    requires { 30 < number → Walkable board.now host counts.now memo.now }
    ensures { result ≡ parties_under number (to_host host) (to_placing (functions_of board.now)) }
{
    match number {
        31 => in_pool(Pool::Low, board, host, counts, memo),
        32 => in_pool(Pool::High, board, host, counts, memo),
        33 => in_pool(Pool::Io, board, host, counts, memo),
        _ => NOBODIES,
    }
}

// The first item that runs out of the pool, and the one before which most room is lost.
fn in_pool(q: Pool, board: &[u8], host: Host, counts: &[u8], memo: &[u64]) -> Parties
    requires { Walkable board.now host counts.now memo.now }
    ensures { result ≡ in_pool (to_host host) (to_placing (functions_of board.now)) q }
{
    let seen = plan_items::walk_items(board, host, q, counts, memo);
    Parties {
        party: seen.out,
        other: seen.most.party,
    }
}
