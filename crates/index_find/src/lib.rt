// A key looked for in an index: the word found tells what becomes of a header that no check refuses, with no packet made. For who has a
// path of its own for a kind.
#![tactic(auto)]

ghost use Rattle.std.specs.Prelude.{◌≡◌, ◌<◌};
ghost use Rattle.index_layout.specs.Keys.{no_key, segment_of};
ghost use Rattle.index_search.specs.Search.{outcome_by};
ghost use Rattle.index_find.specs.Found.{outcome_at};

// The word of the slot that holds a key of segment w, or 0 where none does.
pub fn word_for(index: &[u8], w: usize, key: u64) -> u64
    requires { (w ≡ segment_of key) × (key < no_key) }
    ensures { outcome_by result ≡ outcome_at index.now key }
{
    let n = index_search::functions_in(index);
    if n == 0 {
        return 0;
    }
    index_search::word_over(index, n, w, key)
}
