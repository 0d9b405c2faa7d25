// A record's ranges put into a lent slice of numbers, so that it is decoded once: a function's BARs and open windows, and a host's open
// pools. A range takes three numbers: its pool, its first and its last address, since a foreign sheet's range can end at 2^64.
#![tactic(auto)]

ghost use Rattle.std.specs.Prelude.{◌≡◌, true, false, [], ◌∷◌, ◌++◌, ◌+◌, ◌*◌, ◌≤◌, leb, length};
ghost use Rattle.lists.specs.Lists.{one_if};
ghost use Rattle.sheet_record.specs.Places.{record_size};
ghost use Rattle.sheet_record.specs.Entry.{header_of, is_bridge, slot_count, entry_of, window_of};
ghost use Rattle.sheet_record.specs.Spaces.{pool_of, open_range};
ghost use Rattle.sheet.specs.declared.Rule.TheVariants.{ReadBacks};
ghost use Rattle.sheet.specs.Sheet.{breaks};
ghost use Rattle.sheet_ranges.specs.Ranges.{windows_in, ranges_of, pools_in, pool_number};
ghost use Rattle.sheet_ranges.specs.Items.{range_of, item_at, ranges_in, open_item, bar_at, BarEnds, bars_in};

use bar::Slot;
use board_record::Host;
use pools::Pool;

// One range: the number of its pool, its first and its last address.
#[derive(Clone, Copy)]
pub struct Item {
    pub pool: u64,
    pub first: u64,
    pub last: u64,
}

// A function has six BARs, or two and three windows; a host has three pools.
pub const ROOM: usize = 18;

// A function's BARs, then its open windows: how many there are.
pub fn ranges_of(part: &[u8], room: &mut [u64]) -> usize
    requires { (length part.now ≡ record_size) × (breaks ReadBacks (entry_of part.now) ≡ false) × (18 ≤ length room.old) }
    ensures { (ranges_in result room.new ≡ ranges_of (entry_of part.now)) × (result ≤ 6) }
{
    let n = put_bars(part, room);
    if sheet_record::is_bridge(part) {
        return put_windows(part, room, n);
    }
    n
}

// A bridge's open windows, and none of an end function.
pub fn windows_of(part: &[u8], room: &mut [u64]) -> usize
    requires { (length part.now ≡ record_size) × (18 ≤ length room.old) }
    ensures { (ranges_in result room.new ≡ windows_in (entry_of part.now)) × (result ≤ 6) }
{
    if sheet_record::is_bridge(part) {
        return put_windows(part, room, 0);
    }
    0
}

// A host's open pools.
pub fn pools_of(host: Host, room: &mut [u64]) -> usize
    requires { 18 ≤ length room.old }
    ensures { (ranges_in result room.new ≡ pools_in host) × (result ≤ 6) }
{
    let n = put_open(room, 0, Pool::Low, host.low.base, host.low.last);
    let m = put_open(room, n, Pool::High, host.high.base, host.high.last);
    put_open(room, m, Pool::Io, host.io.base, host.io.last)
}

// The range at index i.
pub fn item_at(room: &[u64], i: usize) -> Item
    requires { 3 * i + 3 ≤ length room.now }
    ensures { result ≡ item_at room.now i }
{
    let at = 3 * i;
    Item {
        pool: room[at],
        first: room[at + 1],
        last: room[at + 2],
    }
}

// ---- after n ranges

fn number_of(q: Pool) -> u64
    ensures { result ≡ pool_number (pool_of q) }
{
    match q {
        Pool::Low => 1,
        Pool::High => 2,
        Pool::Io => 3,
    }
}

fn put(room: &mut [u64], n: usize, x: Item) -> usize
    requires { 3 * n + 3 ≤ length room.old }
    ensures { (ranges_in result room.new ≡ ranges_in n room.old ++ (range_of x ∷ [])) × (result ≡ n + 1) }
{
    let at = 3 * n;
    room[at] = x.pool;
    room[at + 1] = x.first;
    room[at + 2] = x.last;
    n + 1
}

// Where the first address is above the last there is no range.
fn put_open(room: &mut [u64], n: usize, q: Pool, first: u64, last: u64) -> usize
    requires { 3 * n + 3 ≤ length room.old }
    ensures { (ranges_in result room.new ≡ ranges_in n room.old ++ one_if (leb first last) (open_item q first last)) × (result ≤ n + 1) }
{
    if last < first {
        return n;
    }
    let x = Item {
        pool: number_of(q),
        first,
        last,
    };
    put(room, n, x)
}

// ---- windows

fn put_window(part: &[u8], q: Pool, room: &mut [u64], n: usize) -> usize
    requires { (length part.now ≡ record_size) × (3 * n + 3 ≤ length room.old) }
    ensures { (ranges_in result room.new ≡ ranges_in n room.old ++ open_range q (window_of q part.now)) × (result ≤ n + 1) }
{
    let w = sheet_record::window_of(part, q);
    put_open(room, n, q, w.start(q), w.last(q))
}

fn put_windows(part: &[u8], room: &mut [u64], n: usize) -> usize
    requires { (length part.now ≡ record_size) × (is_bridge (header_of part.now) ≡ true) × (3 * n + 9 ≤ length room.old) }
    ensures { (ranges_in result room.new ≡ ranges_in n room.old ++ windows_in (entry_of part.now)) × (result ≤ n + 3) }
{
    let low = put_window(part, Pool::Low, room, n);
    let high = put_window(part, Pool::High, room, low);
    put_window(part, Pool::Io, room, high)
}

// ---- BARs

// The last address by size less one: a BAR may end at 2^64.
fn put_bar(room: &mut [u64], n: usize, x: Slot, value: u64) -> usize
    requires { (3 * n + 3 ≤ length room.old) × BarEnds x value }
    ensures { (ranges_in result room.new ≡ ranges_in n room.old ++ bar_at x value) × (result ≤ n + 1) }
{
    match x {
        Slot::Bar(q, _, size) => {
            let first = bar::base_of(x, value);
            let own = Item {
                pool: number_of(q),
                first,
                last: first + (size - 1),
            };
            put(room, n, own)
        }
        Slot::Unused | Slot::Upper | Slot::Bad => n,
    }
}

// A lawful function's, in slot order.
fn put_bars(part: &[u8], room: &mut [u64]) -> usize
    requires { (length part.now ≡ record_size) × (breaks ReadBacks (entry_of part.now) ≡ false) × (18 ≤ length room.old) }
    ensures { (ranges_in result room.new ≡ bars_in part.now) × (result ≤ slot_count (header_of part.now)) }
{
    let set = sheet_record::readbacks_of(part);
    let values = sheet_record::values_of(part);
    let slots = sheet_record::slot_count(part);
    let mut n: usize = 0;
    for (i, x) in bar::slots(set, slots) {
        n = put_bar(room, n, x, bar::value_here(x, values, slots, i));
    }
    n
}
