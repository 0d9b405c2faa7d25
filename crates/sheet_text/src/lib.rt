// A plan printed whole, as document 01 prints it, into lent bytes. Each call stores what fits from a place on and answers the next place,
// and asks nothing of its caller. The definitions stand in specs/Listing.
#![tactic(auto)]

ghost use Rattle.std.specs.Prelude.{◌≡◌, true, false, [], ◌∷◌, ◌++◌, ◌≤◌, length};
ghost use Rattle.text.specs.Text.{Put, hexadecimal};
ghost use Rattle.sheet_record.specs.Places.{record_size};
ghost use Rattle.sheet_record.specs.Entry.{header_of, is_bridge, entry_of};
ghost use Rattle.sheet.specs.Sheet.{Framed, entries_of};
ghost use Rattle.sheet_text.specs.Listing.{buses, words, window_text, bridge_text, end_text, line_of};
ghost use Rattle.sheet_text.specs.Listing.{count_text, plan_text, sheet_text, planning_text, longest};

use plan_answer::Planning;
use pools::Pool;
use text::{put_byte, put_hexadecimal, put_refusal, put_text};

// The longest answer: a count, and a line of 83 bytes for each function, all bridges.
pub const LONGEST: usize = 9 + 83 * records::MOST_FUNCTIONS;

// The planner's answer: the sheet that it left in the room, or its number.
pub fn put_planning(out: &mut [u8], at: usize, planning: Planning, room: &[u8]) -> usize
    ensures put { Put out.old at (planning_text planning room.now) out.new result }
    ensures fits { length (planning_text planning room.now) ≤ longest }
{
    match planning {
        Planning::Planned(n) => put_sheet(out, at, text::front(room, n)),
        Planning::Refused(n) => put_refusal(out, at, n),
    }
}

// Any bytes as a sheet: its functions, or its number.
pub fn put_sheet(out: &mut [u8], at: usize, sheet: &[u8]) -> usize
    ensures { Put out.old at (sheet_text sheet.now) out.new result }
{
    let n = sheet::check(sheet);
    if n != 0 {
        return put_refusal(out, at, n);
    }
    put_plan(out, at, sheet)
}

fn put_plan(out: &mut [u8], at: usize, sheet: &[u8]) -> usize
    requires { Framed 1 sheet.now }
    ensures { Put out.old at (plan_text (entries_of sheet.now)) out.new result }
{
    let count = sheet::count(sheet);
    let mut next = put_count(out, at, count);
    for k in 0..count {
        next = put_record(out, next, sheet::part(sheet, k));
    }
    next
}

fn put_count(out: &mut [u8], at: usize, count: usize) -> usize
    ensures { Put out.old at (count_text count) out.new result }
{
    let next = text::put_named(out, at, b"plan ", count as u64);
    put_byte(out, next, b'\n')
}

// One function: its ID, and what it is.
fn put_record(out: &mut [u8], at: usize, part: &[u8]) -> usize
    requires { length part.now ≡ record_size }
    ensures { Put out.old at (line_of (entry_of part.now)) out.new result }
{
    let next = put_hexadecimal(out, at, 4, sheet_record::id_of(part) as u64);
    if sheet_record::is_bridge(part) {
        return put_bridge(out, next, part);
    }
    put_end(out, next, part)
}

fn put_end(out: &mut [u8], at: usize, part: &[u8]) -> usize
    requires part_len { length part.now ≡ record_size }
    requires part_value { is_bridge (header_of part.now) ≡ false }
    ensures { Put out.old at (end_text (entry_of part.now)) out.new result }
{
    let values = sheet_record::values_of(part);
    let next = put_bars(out, at, b" end", &values);
    put_byte(out, next, b'\n')
}

fn put_bridge(out: &mut [u8], at: usize, part: &[u8]) -> usize
    requires part_len { length part.now ≡ record_size }
    requires part_value { is_bridge (header_of part.now) ≡ true }
    ensures { Put out.old at (bridge_text (entry_of part.now)) out.new result }
{
    let values = sheet_record::values_of(part);
    let mut next = put_bars(out, at, b" bridge", &values[..2]);
    next = put_buses(out, next, part);
    next = put_windows(out, next, part);
    put_byte(out, next, b'\n')
}

fn put_buses(out: &mut [u8], at: usize, part: &[u8]) -> usize
    requires part_len { length part.now ≡ record_size }
    requires part_value { is_bridge (header_of part.now) ≡ true }
    ensures { Put out.old at (words 2 (buses (entry_of part.now))) out.new result }
{
    let numbers = [
        sheet_record::primary_of(part) as u32,
        sheet_record::secondary_of(part) as u32,
        sheet_record::subordinate_of(part) as u32,
    ];
    put_words(out, at, 2, &numbers)
}

// A bridge's I/O window, its low and high memory windows, and the high one's upper words.
fn put_windows(out: &mut [u8], at: usize, part: &[u8]) -> usize
    requires part_len { length part.now ≡ record_size }
    requires part_value { is_bridge (header_of part.now) ≡ true }
    ensures { Put out.old at (window_text (entry_of part.now)) out.new result }
{
    let io = sheet_record::window_of(part, Pool::Io);
    let low = sheet_record::window_of(part, Pool::Low);
    let high = sheet_record::window_of(part, Pool::High);
    let mut next = put_pair(out, at, 2, io.base as u32, io.limit as u32);
    next = put_pair(out, next, 4, low.base as u32, low.limit as u32);
    next = put_pair(out, next, 4, high.base as u32, high.limit as u32);
    put_pair(out, next, 8, high.upper_base, high.upper_limit)
}

// What a function is, and its BARs.
fn put_bars(out: &mut [u8], at: usize, name: &[u8], values: &[u32]) -> usize
    ensures { Put out.old at (name.now ++ words 8 values.now) out.new result }
{
    let next = put_text(out, at, name);
    put_words(out, next, 8, values)
}

fn put_pair(out: &mut [u8], at: usize, width: usize, first: u32, second: u32) -> usize
    ensures { Put out.old at (words width (first ∷ second ∷ [])) out.new result }
{
    put_words(out, at, width, &[first, second])
}

// Each number after a space, in its last `width` hexadecimal digits.
fn put_words(out: &mut [u8], at: usize, width: usize, numbers: &[u32]) -> usize
    ensures { Put out.old at (words width numbers.now) out.new result }
{
    let mut next = text::place(out, at);
    for number in numbers {
        next = put_word(out, next, width, *number);
    }
    next
}

fn put_word(out: &mut [u8], at: usize, width: usize, number: u32) -> usize
    ensures { Put out.old at (32 ∷ hexadecimal width number) out.new result }
{
    let next = put_byte(out, at, b' ');
    put_hexadecimal(out, next, width, number as u64)
}
