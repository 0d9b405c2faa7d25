// 52 told in one pass for ranges in any order: spans of addresses hold all that was taken so far, and a range that meets none of them is
// taken. One that touches a span widens it, so that ranges side by side need one span. Where there is no room for a span more, or a range
// meets one, the pass tells nothing.
#![tactic(auto)]

ghost use Rattle.std.specs.Prelude.{◌≡◌, true, false, [], ◌∷◌, map, ◌+◌, ◌*◌, ◌≤◌, ◌<◌, length, get_or, IfSome};
ghost use Rattle.sheet_record.specs.Places.{record_size};
ghost use Rattle.sheet_record.specs.Entry.{entry_of};
ghost use Rattle.sheet.specs.declared.Rule.TheVariants.{ReadBacks};
ghost use Rattle.sheet.specs.Sheet.{breaks, entries_of};
ghost use Rattle.sheet.proofs.SheetLaws.{Checked};
ghost use Rattle.sheet_ranges.specs.Items.{range_of, item_at, ranges_in};
ghost use Rattle.sheet_ranges.specs.ItemsLaws.{stored};
ghost use Rattle.audit_rule.specs.Audit.{not_disjoint};
ghost use Rattle.audit_rising.specs.Rising.{spot, Beside};
ghost use Rattle.audit_rising.specs.Spots.{spot_of, spots_of};
ghost use Rattle.audit_spans.specs.Spans.{span_of, Free, Held, Grown};

use sheet_ranges::Item;

// So many spans.
const MOST: usize = 128;

// Three numbers a span: its key, its first and its last address.
const NUMBERS: usize = 384;

// Whether the ranges of each bus are told to be disjoint.
pub fn ranges_disjoint(sheet: &[u8]) -> bool
    requires { Checked sheet.now }
    ensures { result ≡ true → not_disjoint (entries_of sheet.now) ≡ false }
{
    let mut spans = [0u64; NUMBERS];
    hold_records(sheet, &mut spans)
}

fn hold_records(sheet: &[u8], spans: &mut [u64]) -> bool
    requires { Checked sheet.now × (length spans.old ≡ 384) }
    ensures { result ≡ true → not_disjoint (entries_of sheet.now) ≡ false }
{
    let mut room = [0u64; sheet_ranges::ROOM];
    let mut n: usize = 0;
    for k in 0..sheet::count(sheet) {
        let Some(more) = hold_record(spans, n, sheet::part(sheet, k), &mut room) else {
            return false;
        };
        n = more;
    }
    true
}

// A function's ranges are decoded into the room. It says how many spans there are then, and nothing where they are not told apart.
fn hold_record(spans: &mut [u64], n: usize, part: &[u8], room: &mut [u64]) -> Option<usize>
    requires { (length spans.old ≡ 384) × (n ≤ 128) × (length part.now ≡ record_size) × (breaks ReadBacks (entry_of part.now) ≡ false)
        × (18 ≤ length room.old) }
    ensures { IfSome result (λ m. (m ≤ 128) × Held spans.old n (spots_of (entry_of part.now)) spans.new m) }
{
    let count = sheet_ranges::ranges_of(part, room);
    hold_ranges(spans, n, sheet_record::bus_of(part), room, count)
}

// So many ranges of a function on this bus.
fn hold_ranges(spans: &mut [u64], n: usize, bus: u8, own: &[u64], count: usize) -> Option<usize>
    requires { (length spans.old ≡ 384) × (n ≤ 128) × (3 * count ≤ length own.now) }
    ensures { IfSome result (λ m. (m ≤ 128) × Held spans.old n (map (spot_of bus) (ranges_in count own.now)) spans.new m) }
{
    let mut m = n;
    for i in 0..count {
        m = hold_range(spans, m, bus, sheet_ranges::item_at(own, i))?;
    }
    Some(m)
}

fn hold_range(spans: &mut [u64], n: usize, bus: u8, a: Item) -> Option<usize>
    requires { (length spans.old ≡ 384) × (n ≤ 128) }
    ensures { IfSome result (λ m. (m ≤ 128) × Held spans.old n (spot_of bus (range_of a) ∷ []) spans.new m) }
{
    if !audit_rising::is_sided(a) {
        return None;
    }
    let key = audit_rising::key_of(bus, a) as u64;
    if !is_free(spans, n, key, a.first, a.last) {
        return None;
    }
    hold(spans, n, key, a.first, a.last)
}

// ---- one range under its key

// It meets none of n spans.
fn is_free(spans: &[u64], n: usize, key: u64, first: u64, last: u64) -> bool
    requires { 3 * n ≤ length spans.now }
    ensures { result ≡ true → Free spans.now n (spot key first last true) }
{
    for i in 0..n {
        if is_met(spans, i, key, first, last) {
            return false;
        }
    }
    true
}

fn is_met(spans: &[u64], i: usize, key: u64, first: u64, last: u64) -> bool
    requires { 3 * i + 3 ≤ length spans.now }
    ensures { result ≡ false → Beside (span_of (item_at spans.now i)) (spot key first last true) }
{
    let at = 3 * i;
    (spans[at] == key) & ((spans[at + 1] <= last) & (first <= spans[at + 2]))
}

// Its span: one that it touches, widened, or one of its own.
fn hold(spans: &mut [u64], n: usize, key: u64, first: u64, last: u64) -> Option<usize>
    requires { (length spans.old ≡ 384) × (n ≤ 128) }
    ensures { IfSome result (λ m. (m ≤ 128) × Grown spans.old n (spot key first last true) spans.new m) }
{
    if let Some(i) = touched(spans, n, key, first, last) {
        let lo = spans[3 * i + 1].min(first);
        let hi = spans[3 * i + 2].max(last);
        put(spans, i, key, lo, hi);
        return Some(n);
    }
    if n == MOST {
        return None;
    }
    put(spans, n, key, first, last);
    Some(n + 1)
}

// The first of n spans with this key that it touches.
fn touched(spans: &[u64], n: usize, key: u64, first: u64, last: u64) -> Option<usize>
    requires { 3 * n ≤ length spans.now }
    ensures { IfSome result (λ i. (i < n) × (get_or spans.now (3 * i) 0 ≡ key)) }
{
    (0..n).find(|i| touches(spans, *i, key, first, last))
}

fn touches(spans: &[u64], i: usize, key: u64, first: u64, last: u64) -> bool
    requires { 3 * i + 3 ≤ length spans.now }
    ensures { result ≡ true → get_or spans.now (3 * i) 0 ≡ key }
{
    let at = 3 * i;
    (spans[at] == key)
        & ((spans[at + 2].saturating_add(1) == first) | (last.saturating_add(1) == spans[at + 1]))
}

fn put(spans: &mut [u64], i: usize, key: u64, first: u64, last: u64)
    requires { 3 * i + 3 ≤ length spans.old }
    ensures { spans.new ≡ stored spans.old i (record { pool = key; first = first; last = last }) }
{
    let at = 3 * i;
    spans[at] = key;
    spans[at + 1] = first;
    spans[at + 2] = last;
}
