// The IDs that were met so far: a bit for each of the 65,536 IDs, 64 to a word.
#![tactic(auto)]

ghost use Rattle.std.specs.Prelude.{◌≡◌, ◌≤◌, length};
ghost use Rattle.sheet_marks.specs.Marks.{is_marked, marked};

#[tactic(auto, unfolding(crate::specs::Marks::is_marked))]
pub fn is_marked(seen: &[u64], id: u16) -> bool
    requires { 1024 ≤ length seen.now }
    ensures { result ≡ is_marked seen.now id }
{
    let word = usize::from(id / 64);
    (seen[word] >> (id % 64)) % 2 == 1
}

pub fn mark(seen: &mut [u64], id: u16)
    requires { 1024 ≤ length seen.old }
    ensures { seen.new ≡ marked seen.old id }
{
    let word = usize::from(id / 64);
    let bit = 1u64 << (id % 64);
    seen[word] |= bit;
}

// Marks the ID, and says whether it was marked before.
pub fn test_and_mark(seen: &mut [u64], id: u16) -> bool
    requires { 1024 ≤ length seen.old }
    ensures answer { result ≡ is_marked seen.old id }
    ensures content { seen.new ≡ marked seen.old id }
{
    let before = is_marked(seen, id);
    mark(seen, id);
    before
}
