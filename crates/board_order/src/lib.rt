// 23: depth-first order, by one pass over the functions with the buses that are open. Level 0 is the host's bus; a bridge opens the level
// after its own, and a function closes the levels below its parent's.
#![tactic(auto)]

ghost use Rattle.std.specs.Prelude.{◌≡◌, false, [], map, ◌+◌, ◌≤◌};
ghost use Rattle.records.specs.Limits.{most_above};
ghost use Rattle.records.specs.Records.{parts_from, any_part};
ghost use Rattle.board_record.specs.Function.{function_of_part, header_wrong};
ghost use Rattle.board_record.specs.Host.{functions_at};
ghost use Rattle.board_order.specs.Order.{first_misplaced, some_number};
ghost use Rattle.board_order.specs.Stack.{unplaced_at, shared_after};
ghost use Rattle.board_order.specs.Levels.{found_in, open_after};

use records::MOST_ABOVE;

// Below the host's bus as many buses as a function may have bridges above it, and one more that the last of them opens.
const LEVELS: usize = MOST_ABOVE + 2;

// The number of the first function that is misplaced.
pub fn first_misplaced(board: &[u8]) -> Option<usize>
    requires { any_part header_wrong (parts_from board.now functions_at) ≡ false }
    ensures { result ≡ some_number (first_misplaced 0 [] (map function_of_part (parts_from board.now functions_at))) }
{
    // of each level: the record that it is the bus of, one more than the device/function of its last function, and than the device of its
    // last function 0 that is not alone
    let mut buses = [0usize; LEVELS];
    let mut nexts = [0usize; LEVELS];
    let mut shared = [0usize; LEVELS];
    let mut levels: usize = 1;
    for (before, part) in records::parts_from(board, board_record::FUNCTIONS).enumerate() {
        let number = before + 1;
        let Some(i) = level_of(&buses, levels, board_record::parent_of(part) as usize) else {
            return Some(number);
        };
        if unplaced(part, i, nexts[i], shared[i]) {
            return Some(number);
        }
        nexts[i] = board_record::devfn_of(part) as usize + 1;
        shared[i] = shared_after(shared[i], part);
        buses[i + 1] = number;
        nexts[i + 1] = 0;
        shared[i + 1] = 0;
        levels = open_after(i, part);
    }
    None
}

// The deepest of the open levels that is the parent's bus.
fn level_of(buses: &[usize; LEVELS], levels: usize, parent: usize) -> Option<usize>
    requires { levels ≤ most_above + 2 }
    ensures { result ≡ found_in parent buses.now levels }
{
    for i in (0..levels).rev() {
        if buses[i] == parent {
            return Some(i);
        }
    }
    None
}

fn unplaced(part: &[u8], depth: usize, next: usize, shared: usize) -> bool
    requires { header_wrong part.now ≡ false }
    ensures { result ≡ unplaced_at next shared depth (function_of_part part.now) }
{
    let devfn = board_record::devfn_of(part);
    ((devfn as usize) < next)
        | (MOST_ABOVE < depth)
        | !((devfn % 8 == 0) | (shared == (devfn / 8) as usize + 1))
}

fn shared_after(shared: usize, part: &[u8]) -> usize
    requires { header_wrong part.now ≡ false }
    ensures { result ≡ shared_after shared (function_of_part part.now) }
{
    let devfn = board_record::devfn_of(part);
    if (devfn % 8 == 0) & (board_record::header_of(part) / 128 == 1) {
        (devfn / 8) as usize + 1
    } else {
        shared
    }
}

// A bridge at level i opens the level after it.
fn open_after(i: usize, part: &[u8]) -> usize
    requires { (i ≤ most_above) × (header_wrong part.now ≡ false) }
    ensures { result ≡ open_after i (function_of_part part.now) }
{
    if board_record::is_bridge(part) {
        i + 2
    } else {
        i + 1
    }
}
