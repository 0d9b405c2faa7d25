// The items of a lawful board in one pool, in placing order: which runs out of it first, and before which most room is lost to alignment.
#![tactic(auto)]

ghost use Rattle.std.specs.Prelude.{◌≡◌, true, false, cond, ◌+◌, ◌*◌, ◌<◌, ◌≤◌, max, length, take};
ghost use Rattle.arith.specs.Powers.{PowerOfTwo};
ghost use Rattle.pools.specs.Pools.{granule, same_pool};
ghost use Rattle.bar.specs.Bar.{slots, any_bad, SizedSlot};
ghost use Rattle.board_record.specs.Function.{is_bridge};
ghost use Rattle.board.specs.Board.{functions_of};
ghost use Rattle.board.specs.ToPlacing.{to_host, to_placing};
ghost use Rattle.plan_rule.specs.Cap.{limit};
ghost use Rattle.plan_pass.specs.StepLaws.{ends_in};
ghost use Rattle.finding.specs.Places.{window_place};
ghost use Rattle.plan_items.specs.Walk.{ends_out, out_after, most_after, see as see_of, see_all, told_at, window_told, record_told, slots_of};
ghost use Rattle.plan_items.specs.Walk.{seen_after, slot_seen, bars_seen, watched_of, nothing_seen};
ghost use Rattle.plan_items.specs.Loop.{seen_in, told_on, inner_in, told_next, Seeable, Walking, Walkable};

use bar::Slot;
use board_record::{Function, Host};
use finding::Party;
use plan_rule::Extent;
use pools::Pool;
use records::Next;

// The room lost to alignment before an item.
#[derive(Clone, Copy)]
pub struct Loss {
    pub party: Party,
    pub room: u64,
}

// An item: whether it is on the root bus, its record and place, the end of the one before it, its own start and end.
#[derive(Clone, Copy)]
pub struct Told {
    pub root: bool,
    pub party: Party,
    pub before: u64,
    pub start: u64,
    pub stop: u64,
}

// The pool that is looked at.
#[derive(Clone, Copy)]
pub struct Watched {
    pub pool: Pool,
    pub closed: bool,
    pub last: u64,
}

// Of the items so far: the first on the root bus that runs out of the pool, nobody where none does, and the most room lost.
#[derive(Clone, Copy)]
pub struct Seen {
    pub out: Party,
    pub most: Loss,
}

// What is seen of the items up to one of a record's, and where that one ends.
#[derive(Clone, Copy)]
pub struct BarsSeen {
    pub seen: Seen,
    pub end: u64,
}

// What the walk over all items of the pool comes to.
pub fn walk_items(board: &[u8], host: Host, q: Pool, counts: &[u8], memo: &[u64]) -> Seen
    requires { Walkable board.now host counts.now memo.now }
    ensures { result ≡ seen_in (to_host host) (to_placing (functions_of board.now)) q }
{
    let mut cursors = [0u64; 3 * plan_pass::BUSES];
    plan_pass::fill_cursors(
        &mut cursors,
        plan_pass::bases_of(plan_needs::laid_host(host)),
    );
    walk_records(
        board,
        host.first_bus,
        watched_pool(host, q),
        counts,
        memo,
        &mut cursors,
    )
}

// ---- all records

// Every record, from cursors where the pools are laid out from.
fn walk_records(
    board: &[u8],
    first: u8,
    w: Watched,
    counts: &[u8],
    memo: &[u64],
    cursors: &mut [u64],
) -> Seen
    requires { Walking board.now first counts.now memo.now cursors.old }
    ensures { result ≡ see_all w nothing_seen (told_on board.now w.pool) }
{
    // no `for` over the parts: `pass_over` takes the place of a record
    let mut seen = nothing_seen();
    let mut at = board_record::FUNCTIONS;
    let mut i: usize = 0;
    while let Next::Record(n) = records::next_at(board, at) {
        let f = plan_pass::function_at(board, at, n);
        seen = see_next(w, seen, f, i, memo, cursors);
        plan_pass::pass_over(board, at, n, i, first, counts, memo, cursors);
        at = at + 2 + n;
        i += 1;
    }
    seen
}

// Record i + 1, from the cursors of its bus and what sizing stored of the bus below it.
fn see_next(w: Watched, seen: Seen, f: Function, i: usize, memo: &[u64], cursors: &[u64]) -> Seen
    requires { Seeable w.pool f i memo.now cursors.now }
    ensures { result ≡ see_all w seen (told_next w.pool f i memo.now cursors.now) }
{
    let q = w.pool;
    let end = cursor_of(cursors, q, f.parent as usize);
    see_record(w, seen, f, i + 1, end, inner_of(memo, q, i))
}

// The cursor of bus b: three numbers at 3 * b, in the order of the pools.
fn cursor_of(cursors: &[u64], q: Pool, b: usize) -> u64
    requires { 3 * b + 3 ≤ length cursors.now }
    ensures { result ≡ ends_in cursors.now b q }
{
    cursors[3 * b + q as usize]
}

// What sizing stored of the bus below record i + 1.
fn inner_of(memo: &[u64], q: Pool, i: usize) -> Extent
    requires { 7 * i + 7 ≤ length memo.now }
    ensures { result ≡ inner_in memo.now i q }
{
    let l = plan_sizing::stored_at(memo, i);
    match q {
        Pool::Low => l.low,
        Pool::High => l.high,
        Pool::Io => l.io,
    }
}

// A pool with its base above its last address is closed.
fn watched_pool(host: Host, q: Pool) -> Watched
    ensures { result ≡ watched_of (to_host host) q }
{
    let span = match q {
        Pool::Low => host.low,
        Pool::High => host.high,
        Pool::Io => host.io,
    };
    Watched {
        pool: q,
        closed: span.last < span.base,
        last: span.last,
    }
}

fn nothing_seen() -> Seen
    ensures { result ≡ nothing_seen }
{
    Seen {
        out: finding::NOBODY,
        most: Loss {
            party: finding::NOBODY,
            room: 0,
        },
    }
}

// ---- one record

// Record k: its BARs from the end of its bus on, and then a bridge's window over what its own bus comes to.
fn see_record(w: Watched, seen: Seen, f: Function, k: usize, end: u64, inner: Extent) -> Seen
    requires { (end ≤ limit) × (any_bad (slots_of f) ≡ false) × (is_bridge f ≡ true → PowerOfTwo (max (granule w.pool) inner.align)) }
    ensures { result ≡ see_all w seen (record_told w.pool f k end inner) }
{
    let start = BarsSeen { seen, end };
    let bars = see_bars(
        w,
        start,
        f.parent,
        k,
        f.readbacks,
        bar::slot_count(f.header),
    );
    if bar::is_bridge(f.header) {
        return see_window(w, bars, f.parent, k, inner);
    }
    bars.seen
}

// The BARs of the first n read-backs of a lawful set, slot by slot.
fn see_bars(w: Watched, start: BarsSeen, parent: u16, k: usize, set: [u32; 6], n: usize) -> BarsSeen
    requires { (start.end ≤ limit) × (n ≤ 6) × (any_bad (slots (take n set)) ≡ false) }
    ensures { (result ≡ bars_seen w parent k 0 start (slots (take n set))) × (result.end ≤ limit) }
{
    let mut done = start;
    for (i, x) in bar::slots(set, n) {
        let party = Party {
            number: k,
            place: i as u8,
        };
        done = see_slot(w, done, parent, party, x);
    }
    done
}

// One slot: a BAR of the pool is an item, anything else is none.
fn see_slot(w: Watched, done: BarsSeen, parent: u16, party: Party, x: Slot) -> BarsSeen
    requires { (done.end ≤ limit) × SizedSlot x }
    ensures { result ≡ slot_seen w parent party.number party.place done x }
{
    match x {
        Slot::Bar(p, _, size) => see_bar(w, done, parent, party, p, size),
        Slot::Unused | Slot::Upper | Slot::Bad => done,
    }
}

fn see_bar(w: Watched, done: BarsSeen, parent: u16, party: Party, p: Pool, size: u64) -> BarsSeen
    requires { (done.end ≤ limit) × PowerOfTwo size }
    ensures { result ≡ cond (same_pool p w.pool) (seen_after w done (told_at parent party.number party.place done.end size size)) done }
{
    if p == w.pool {
        return see_at(w, done, parent, party, size, size);
    }
    done
}

// A bridge's window, the last of its items; none where there is nothing inside.
fn see_window(w: Watched, done: BarsSeen, parent: u16, k: usize, inner: Extent) -> Seen
    requires { (done.end ≤ limit) × PowerOfTwo (max (granule w.pool) inner.align) }
    ensures { result ≡ see_all w done.seen (window_told w.pool parent k done.end inner) }
{
    let pool = w.pool;
    if inner.align == 0 {
        return done.seen;
    }
    let party = Party {
        number: k,
        place: window_place(pool),
    };
    let size = plan_rule::window_size(pool, inner.end);
    let after = see_at(
        w,
        done,
        parent,
        party,
        size,
        plan_rule::window_align(pool, inner.align),
    );
    after.seen
}

// ---- one item

// An item of this size and alignment, after the end of the one before.
fn see_at(w: Watched, done: BarsSeen, parent: u16, party: Party, size: u64, align: u64) -> BarsSeen
    requires { (done.end ≤ limit) × PowerOfTwo align }
    ensures { result ≡ seen_after w done (told_at parent party.number party.place done.end size align) }
{
    let start = plan_rule::start_at(align, done.end);
    let stop = plan_rule::end_of(start, size);
    let x = Told {
        root: parent == 0,
        party,
        before: done.end,
        start,
        stop,
    };
    BarsSeen {
        seen: see(w, done.seen, x),
        end: stop,
    }
}

fn see(w: Watched, seen: Seen, x: Told) -> Seen
    requires { x.before ≤ x.start }
    ensures { result ≡ see_of w seen x }
{
    Seen {
        out: out_after(w, seen.out, x),
        most: most_after(seen.most, x),
    }
}

// The first on the root bus that runs out of the pool stays.
fn out_after(w: Watched, out: Party, x: Told) -> Party
    ensures { result ≡ out_after w out x }
{
    if (out.number == 0) & (x.root & ends_out(w, x.stop)) {
        return x.party;
    }
    out
}

// Does an item that ends there run out of the pool? Of a closed pool every item does.
fn ends_out(w: Watched, stop: u64) -> bool
    ensures { result ≡ ends_out w stop }
{
    w.closed | (1 < stop.saturating_sub(w.last))
}

// Of two that lose as much, the first stays.
fn most_after(most: Loss, x: Told) -> Loss
    requires { x.before ≤ x.start }
    ensures { result ≡ most_after most x }
{
    let room = x.start - x.before;
    if most.room < room {
        return Loss {
            party: x.party,
            room,
        };
    }
    most
}

// ---- pools

fn window_place(q: Pool) -> u8
    ensures { result ≡ window_place q }
{
    match q {
        Pool::Low => 6,
        Pool::High => 7,
        Pool::Io => 8,
    }
}
