// Who fails a board's own checks: the first function at which the check of its number fails, in record order, and its place.
#![tactic(auto)]

ghost use Rattle.std.specs.Prelude.{◌≡◌, false};
ghost use Rattle.records.specs.Records.{parts_from, any_part};
ghost use Rattle.bar.specs.Bar.{is_bad};
ghost use Rattle.board_record.specs.Host.{functions_at};
ghost use Rattle.board_record.specs.Function.{function_of_part, header_wrong};
ghost use Rattle.board_record.specs.Rules.{too_early};
ghost use Rattle.board.specs.Board.{board_number};
ghost use Rattle.board_where.specs.Where.{bad_slot, place_in, first_breaking, failing_of};

use bar::Slot;
use board_record::{FUNCTIONS, Rule};
use finding::{NOBODY, Party};

// The first function that fails the check of this number, and its place; nobody where the number is about no function.
pub fn failing(board: &[u8], number: u8) -> Party
    requires { number ≡ board_number board.now }
    ensures { result ≡ failing_of board.now }
{
    if number == 24 {
        return first_breaking(Rule::Header(board[0]), board);
    }
    if number == 23 {
        return Party {
            number: board_order::first_misplaced(board).unwrap_or(0),
            place: 10,
        };
    }
    if number == 25 {
        return first_breaking(Rule::ReadBacks, board);
    }
    NOBODY
}

// The first function that breaks the rule, and where.
fn first_breaking(rule: Rule, board: &[u8]) -> Party
    requires { any_part (too_early rule) (parts_from board.now functions_at) ≡ false }
    ensures { result ≡ first_breaking rule (parts_from board.now functions_at) }
{
    for (before, part) in records::parts_from(board, FUNCTIONS).enumerate() {
        if board_record::breaks(rule, part) {
            return Party {
                number: before + 1,
                place: place_in(rule, part),
            };
        }
    }
    NOBODY
}

// Where a record that breaks the rule does so: its slot, or else the function as a whole.
fn place_in(rule: Rule, part: &[u8]) -> u8
    requires { too_early rule part.now ≡ false }
    ensures { result ≡ place_in rule part.now }
{
    match rule {
        Rule::Length | Rule::Header(_) => 10,
        Rule::ReadBacks => bad_slot(part),
    }
}

// The first bad slot, 0 where none is.
fn bad_slot(part: &[u8]) -> u8
    requires { header_wrong part.now ≡ false }
    ensures { result ≡ bad_slot (function_of_part part.now) }
{
    let f = board_record::function_of(part);
    let set = f.readbacks;
    let slots = bar::slot_count(f.header);
    for (i, x) in bar::slots(set, slots) {
        if is_bad(x) {
            return i as u8;
        }
    }
    0
}

fn is_bad(x: Slot) -> bool
    ensures { result ≡ is_bad x }
{
    matches!(x, Slot::Bad)
}
