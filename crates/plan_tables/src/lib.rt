// A lawful board's functions, once, into the arrays that the planner's passes read: each parent record, head and set of read-backs. And the
// bus numbers that they take.
#![tactic(auto)]

ghost use Rattle.std.specs.Prelude.{◌≡◌, false, List, [], ◌∷◌, ℕ, ◌+◌, ◌*◌, ◌%◌, ◌≤◌, ◌<◌, length, get_or};
ghost use Rattle.bar.specs.Header.{is_bridge as is_bridge_header};
ghost use Rattle.std.proofs.lemmas.List.Edits.{sets};
ghost use Rattle.records.specs.Limits.{most_functions};
ghost use Rattle.board_record.specs.Function.{function_of_part, header_wrong};
ghost use Rattle.board.specs.Board.{board_number, functions_of};
ghost use Rattle.plan_sizing.specs.Functions.{header_in, functions_in};
ghost use Rattle.plan_tables.specs.Tables.{head_of, Room, Put, Filled};
ghost use Rattle.plan_tables.specs.Counts.{spare_of, weight_of, most_taken, Countable, AllCounted};

// How many functions the board has. Function i has its parent record and its head at i, its six read-backs at 6 * i.
pub fn fill(board: &[u8], parents: &mut [u16], heads: &mut [u32], readbacks: &mut [u32]) -> usize
    requires { (board_number board.now ≡ 0) × Room most_functions parents.old heads.old readbacks.old }
    ensures { Filled (functions_of board.now) parents.old heads.old readbacks.old
        parents.new heads.new readbacks.new result }
{
    let mut count: usize = 0;
    for part in records::parts_from(board, board_record::FUNCTIONS) {
        put(part, count, parents, heads, readbacks);
        count += 1;
    }
    count
}

// The bus numbers that all functions take, and into the counts two bytes for the host and for each function, both modulo 256: at 2 * k how
// many numbers the first k functions take, at 2 * k + 1 the spares of function k and of the bridges above it, which come later.
pub fn count_buses(parents: &[u16], heads: &[u32], counts: &mut [u8]) -> u32
    requires { Countable parents.now heads.now counts.old }
    ensures { ((ss : List ℕ) → AllCounted (functions_in parents.now heads.now ss) counts.new
        (length parents.now) result)
        × (result ≤ most_taken * most_functions) }
{
    put_counts(counts, 0, 0, 0);
    let mut taken: u32 = 0;
    for i in 0..parents.len() {
        let over = over_at(counts, parents[i] as usize);
        let head = heads[i];
        taken += weight(head);
        put_counts(counts, i + 1, taken, over + spare(head));
    }
    taken
}

// Of a record whose header type and length passed their check; byte 3 is the header type.
fn put(part: &[u8], i: usize, parents: &mut [u16], heads: &mut [u32], readbacks: &mut [u32])
    requires { (header_wrong part.now ≡ false) × Room (i + 1) parents.old heads.old readbacks.old }
    ensures { Put (function_of_part part.now) i parents.old heads.old readbacks.old
        parents.new heads.new readbacks.new }
{
    parents[i] = board_record::parent_of(part);
    heads[i] = head_of(part);
    put_set(readbacks, 6 * i, part);
}

fn put_set(readbacks: &mut [u32], at: usize, part: &[u8])
    requires { (header_wrong part.now ≡ false) × (at + 6 ≤ length readbacks.old) }
    ensures { readbacks.new ≡ sets readbacks.old at (function_of_part part.now).readbacks }
{
    for j in 0..6 {
        readbacks[at + j] = board_record::readback_at(part, j);
    }
}

// The header type byte, and above it the spares.
fn head_of(part: &[u8]) -> u32
    requires { header_wrong part.now ≡ false }
    ensures { result ≡ head_of (function_of_part part.now) }
{
    board_record::header_of(part) as u32 + 256 * board_record::spares_of(part)
}

// ---- the numbers that a function takes

// A bridge's own and its spares, which are the uppermost byte of its head.
fn weight(head: u32) -> u32
    ensures { (result ≡ weight_of head) × (result ≤ most_taken) }
{
    if is_bridge(head) {
        1 + head / 256 / 65536
    } else {
        0
    }
}

fn spare(head: u32) -> u32
    ensures { (result ≡ spare_of head) × (result ≤ 255) }
{
    if is_bridge(head) {
        head / 256 / 65536
    } else {
        0
    }
}

fn is_bridge(head: u32) -> bool
    ensures { result ≡ is_bridge_header (header_in head) }
{
    bar::is_bridge((head % 256) as u8)
}

// ---- the counts

fn over_at(counts: &[u8], k: usize) -> u32
    requires { 2 * k + 2 ≤ length counts.now }
    ensures { (result ≡ get_or counts.now (2 * k + 1) 0) × (result < 256) }
{
    counts[2 * k + 1] as u32
}

fn put_counts(counts: &mut [u8], k: usize, taken: u32, over: u32)
    requires { 2 * k + 2 ≤ length counts.old }
    ensures { counts.new ≡ sets counts.old (2 * k) (taken % 256 ∷ over % 256 ∷ []) }
{
    let at = 2 * k;
    counts[at] = (taken % 256) as u8;
    counts[at + 1] = (over % 256) as u8;
}
