// Slots of an index of n functions, in a lent slice: keys in one run of 8 bytes each, words in another, both little-endian. Slot 0 stands
// before all others; slots 1 and up are put in one by one, and behind the last of them the keys are above all.
#![tactic(auto)]

ghost use Rattle.std.specs.Prelude.{◌≡◌, ◌+◌, ◌*◌, ◌<◌, ◌≤◌, length};
ghost use Rattle.std.proofs.lemmas.List.Edits.{sets};
ghost use Rattle.index_layout.specs.Places.{index_size, most_slots, last_key};
ghost use Rattle.index_slots.specs.Slots.{key_at, word_at, put_slot};
ghost use Rattle.index_slots.specs.Cleared.{copies, cleared};

// The key of slot i, or of one of the 7 n places behind the slots.
pub fn key_at(index: &[u8], n: usize, i: usize) -> u64
    requires { (i ≤ last_key n) × (index_size n ≤ length index.now) }
    ensures { result ≡ key_at index.now n i }
{
    endian::read_le64(index, index_layout::key_place(n, i))
}

pub fn word_at(index: &[u8], n: usize, i: usize) -> u64
    requires { (i ≤ most_slots n) × (index_size n ≤ length index.now) }
    ensures { result ≡ word_at index.now n i }
{
    endian::read_le64(index, index_layout::word_place(n, i))
}

// An index with no slots: zeros, but for the keys behind slot 0.
pub fn clear(index: &mut [u8], n: usize)
    requires { index_size n ≤ length index.old }
    ensures { index.new ≡ cleared n index.old }
{
    let keys = index_layout::key_place(n, 1);
    let words = index_layout::word_place(n, 0);
    write_copies(index, 0, keys / 8, 0);
    write_copies(index, keys, index_layout::KEYS * n, index_layout::NO_KEY);
    let size = index_layout::LEAST + index_layout::EACH * n;
    write_copies(index, words, (size - words) / 8, 0);
}

// Slot i.
pub fn put_slot(index: &mut [u8], n: usize, i: usize, key: u64, word: u64)
    requires { (i ≤ most_slots n) × (index_size n ≤ length index.old) }
    ensures { index.new ≡ put_slot index.old n i (record { key = key; word = word }) }
{
    endian::write_le64(index, index_layout::key_place(n, i), key);
    endian::write_le64(index, index_layout::word_place(n, i), word);
}

// A number k times from a place on.
fn write_copies(out: &mut [u8], at: usize, k: usize, v: u64)
    requires { at + 8 * k ≤ length out.old }
    ensures { out.new ≡ sets out.old at (copies k v) }
{
    for i in 0..k {
        endian::write_le64(out, at + 8 * i, v);
    }
}
