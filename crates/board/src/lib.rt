// The board, house format: document 01's checks, tried in their order, each over all records before the next.
#![tactic(auto)]

ghost use Rattle.std.specs.Prelude.{◌≡◌, false, length, drop, ltb};
ghost use Rattle.records.specs.Records.{parts_of, parts_from, any_part};
ghost use Rattle.records.specs.Limits.{most_functions};
ghost use Rattle.board_record.specs.Rules.{too_early};
ghost use Rattle.board_record.specs.Host.{functions_at};
ghost use Rattle.board.specs.Pass.{any_breaks};
ghost use Rattle.board.specs.Board.{is_version, misframed as is_misframed, board_number};

use board_record::{FUNCTIONS, HOST, HOST_LENGTH, Rule};
use records::{MOST_FUNCTIONS, Next};

// Document 01's number of any bytes as a board: 0 is accepted.
pub fn check(board: &[u8]) -> u8
    ensures { result ≡ board_number board.now }
{
    if board.is_empty() {
        return 20;
    }
    let version = board[0];
    if !is_version(version) {
        return 21;
    }
    if misframed(board) {
        return 20;
    }
    if too_many(board) {
        return 22;
    }
    if any_breaks(Rule::Header(version), board) {
        return 24;
    }
    if board_record::host_wrong(board_record::host_of(records::part_at(board, HOST, HOST_LENGTH))) {
        return 26;
    }
    if board_order::first_misplaced(board).is_some() {
        return 23;
    }
    if any_breaks(Rule::ReadBacks, board) {
        return 25;
    }
    0
}

// ---- 21

fn is_version(v: u8) -> bool
    ensures { result ≡ is_version v }
{
    matches!(v, 1 | 2)
}

// ---- 20: the host first, of 30 bytes, then functions of 6 or more, whose lengths end at the end

fn misframed(board: &[u8]) -> bool
    ensures { result ≡ is_misframed (parts_of (drop 1 board.now)) }
{
    let Next::Record(n) = records::next_at(board, HOST) else {
        return true;
    };
    n != HOST_LENGTH || any_breaks(Rule::Length, board)
}

// The bytes break off, or some function breaks the rule.
fn any_breaks(rule: Rule, board: &[u8]) -> bool
    requires { any_part (too_early rule) (parts_from board.now functions_at) ≡ false }
    ensures { result ≡ any_breaks rule (parts_of (drop functions_at board.now)) }
{
    // no `for`: whether they broke off is asked after the last
    let mut parts = records::parts_from(board, FUNCTIONS);
    while let Some(part) = parts.next() {
        if board_record::breaks(rule, part) {
            return true;
        }
    }
    parts.broke_off()
}

// ---- 22

fn too_many(board: &[u8]) -> bool
    ensures { result ≡ ltb most_functions (length (parts_from board.now functions_at)) }
{
    records::parts_from(board, FUNCTIONS)
        .nth(MOST_FUNCTIONS)
        .is_some()
}
