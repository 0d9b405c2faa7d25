// The table of an index and the search by it. Keys are in four segments: low memory, high memory, I/O, IDs. Each segment has 8 n buckets
// of keys, by a base and a shift of its own, and the table says of each bucket how many slots stand in earlier ones. So a search starts
// near its slot, and a few keys decide.
#![tactic(auto)]

ghost use Rattle.std.specs.Prelude.{◌≡◌, ◌+◌, ◌-◌, ◌*◌, ◌<◌, ◌≤◌, length, if◌then◌else◌, nat_le, nat_lt};
ghost use Rattle.index_layout.specs.Places.{index_size, most_slots, last_key, segment_buckets, buckets};
ghost use Rattle.index_layout.specs.Keys.{no_key};
ghost use Rattle.index_table.specs.Table.{segment_at, last_bucket, bucket_by, bucket_at};
ghost use Rattle.index_table.specs.Table.{ahead, shift_of, put_segment, segmented, tabled, width_of, headed, finished};
ghost use Rattle.index_table.specs.Search.{cut, key_of, count_from, onward, last_in, found_at};

// How many keys are counted, where more are quartered first.
const FEW: usize = 16;

// ---- building

// An index whose slots 1 to count are in order: its segments, its table, its first bytes.
pub fn finish(index: &mut [u8], n: usize, root: u8, count: usize)
    requires { (count ≤ most_slots n) × (index_size n ≤ length index.old) }
    ensures { index.new ≡ finished n root count index.old }
{
    put_segments(index, n, count);
    let width = fill_table(index, n, count);
    put_head(index, n, root, width);
}

fn put_head(index: &mut [u8], n: usize, root: u8, width: usize)
    requires { index_size n ≤ length index.old }
    ensures { index.new ≡ headed n root width index.old }
{
    endian::write_le16(index, index_layout::FUNCTIONS, n as u64);
    index[index_layout::ROOT] = root;
    endian::write_le16(index, index_layout::WIDTH, width as u64);
}

fn put_segments(index: &mut [u8], n: usize, count: usize)
    requires { (count ≤ most_slots n) × (index_size n ≤ length index.old) }
    ensures { index.new ≡ segmented 4 n count 0 0 index.old }
{
    let mut from: usize = 0;
    for w in 0..index_layout::SEGMENTS {
        let to = segment_end(index, n, count, w, from);
        put_segment(index, n, w, from, to);
        from = to;
    }
}

// How many slots stand in segments up to w, where the first `from` are known to.
fn segment_end(index: &[u8], n: usize, count: usize, w: usize, from: usize) -> usize
    requires { (count ≤ most_slots n) × (index_size n ≤ length index.now) × (w < 4) × (from ≤ count) }
    ensures { (result ≡ ahead (count - from) (λ i. segment_at index.now n i) (w + 1) from) × (result ≤ count) }
{
    for p in from..count {
        if w < index_layout::segment_of(index_slots::key_at(index, n, p + 1)) {
            return p;
        }
    }
    count
}

// The base and the shift of segment w, whose slots follow slot `from` up to slot `to`. They stay zeros where it has none.
fn put_segment(index: &mut [u8], n: usize, w: usize, from: usize, to: usize)
    requires { (to ≤ most_slots n) × (index_size n ≤ length index.old) × (w < 4) }
    ensures { index.new ≡ put_segment n w from to index.old }
{
    if to <= from {
        return;
    }
    let base = index_slots::key_at(index, n, from + 1);
    let last = index_slots::key_at(index, n, to);
    let shift = shift_of(last.saturating_sub(base), last_bucket(n));
    endian::write_le64(index, index_layout::base_place(w), base);
    index[index_layout::shift_place(w)] = shift;
}

// The least shift that leaves no more than `most`, or 63.
fn shift_of(d: u64, most: u64) -> u8
    ensures { result ≡ shift_of 63 d most 0 }
{
    for s in 0..63 {
        if d >> s <= most {
            return s;
        }
    }
    63
}

// The table; and the most slots that one bucket has.
fn fill_table(index: &mut [u8], n: usize, count: usize) -> usize
    requires { (count ≤ most_slots n) × (index_size n ≤ length index.old) }
    ensures { (index.new ≡ tabled n count index.old) × (result ≡ width_of n count index.old) }
{
    let mut p: usize = 0;
    let mut w: usize = 0;
    for q in 0..index_layout::BUCKETS * n {
        let t = advance(index, n, count, q, p);
        endian::write_le16(index, index_layout::bucket_place(q), t as u64);
        w = w.max(t - p);
        p = t;
    }
    w
}

// How many slots stand before bucket q, where the first `from` are known to.
fn advance(index: &[u8], n: usize, count: usize, q: usize, from: usize) -> usize
    requires { (count ≤ most_slots n) × (index_size n ≤ length index.now) × (from ≤ count) }
    ensures { (result ≡ ahead (count - from) (λ i. bucket_at index.now n i) q from) × (result ≤ count) × (from ≤ result) }
{
    for p in from..count {
        if !is_before(index, n, p + 1, q) {
            return p;
        }
    }
    count
}

// Does slot i stand in a bucket before q?
fn is_before(index: &[u8], n: usize, i: usize, q: usize) -> bool
    requires { (i ≤ most_slots n) × (index_size n ≤ length index.now) }
    ensures { result ≡ nat_lt (bucket_at index.now n i) q }
{
    let key = index_slots::key_at(index, n, i);
    bucket_of(index, n, index_layout::segment_of(key), key) < q
}

// ---- searching

// On any bytes: the position of the last key not above this one, if keys are in order and the table is theirs.
pub fn find(index: &[u8], n: usize, w: usize, key: u64) -> usize
    requires { (index_size n ≤ length index.now) × (w < 4) × (key < no_key) }
    ensures { (result ≡ found_at index.now n w key) × (result ≤ most_slots n) }
{
    let q = bucket_of(index, n, w, key);
    let most = index_layout::SLOTS * n;
    let from = endian::read_le16(index, index_layout::bucket_place(q)) as usize;
    let width = endian::read_le16(index, index_layout::WIDTH) as usize;
    last_in(index, n, key, from.min(most), width.min(most)).min(most)
}

// The bucket of a key of segment w. The last bucket of a segment stays empty.
fn bucket_of(index: &[u8], n: usize, w: usize, key: u64) -> usize
    requires { (index_size n ≤ length index.now) × (w < 4) }
    ensures { (result ≡ bucket_by index.now n w key) × (result ≤ buckets n) }
{
    let base = endian::read_le64(index, index_layout::base_place(w));
    let shift = index[index_layout::shift_place(w)] % 64;
    let q = (key.saturating_sub(base) >> shift).min(last_bucket(n));
    index_layout::SEGMENT_BUCKETS * n * w + q as usize
}

// The last of the `width` positions behind `from` whose key is not above the address.
fn last_in(index: &[u8], n: usize, a: u64, from: usize, width: usize) -> usize
    requires { (index_size n ≤ length index.now) × (a < no_key) × (from + width ≤ last_key n) }
    ensures { result ≡ last_in width (λ i. key_of index.now n a i) a from width }
{
    let mut lo = from;
    let mut k = width;
    while FEW < k {
        let quarter = k / 4;
        lo = step(index, n, a, lo, quarter);
        k -= 3 * quarter;
    }
    count(index, n, a, lo, k)
}

// Past as many quarters as have a last key that is not above the address: three keys that are loaded at once, where halving waits for
// one before the next.
fn step(index: &[u8], n: usize, a: u64, lo: usize, quarter: usize) -> usize
    requires { (index_size n ≤ length index.now) × (a < no_key) × (lo + 3 * quarter ≤ last_key n) }
    ensures { (result ≡ onward (λ i. key_of index.now n a i) a lo quarter) × (result ≤ lo + 3 * quarter) }
{
    let first = reached(index_slots::key_at(index, n, lo + quarter), a);
    let second = reached(index_slots::key_at(index, n, lo + 2 * quarter), a);
    let third = reached(index_slots::key_at(index, n, lo + 3 * quarter), a);
    lo + quarter * (first + second + third)
}

fn count(index: &[u8], n: usize, a: u64, from: usize, width: usize) -> usize
    requires { (index_size n ≤ length index.now) × (a < no_key) × (from + width ≤ last_key n) }
    ensures { result ≡ from + count_from width (λ i. key_of index.now n a i) a (from + 1) }
{
    let mut c: usize = 0;
    for i in 0..width {
        let k = index_slots::key_at(index, n, from + i + 1);
        c += reached(k, a);
    }
    from + c
}

// 1 if the key is not above the address, without a branch: the top bit of a difference that starts at 2^63.
fn reached(key: u64, a: u64) -> usize
    requires { a < no_key }
    ensures { (result ≡ (if nat_le (cut a key) a then 1 else 0)) × (result ≤ 1) }
{
    (std::num::wrapping_sub_u64(a + 9223372036854775808, key) / 9223372036854775808) as usize
}

// ---- numbers

// The last bucket of a segment, from its first, that keys go to.
fn last_bucket(n: usize) -> u64
    requires { segment_buckets n < 18446744073709551616 }
    ensures { result ≡ last_bucket n }
{
    (index_layout::SEGMENT_BUCKETS * n).saturating_sub(2) as u64
}
