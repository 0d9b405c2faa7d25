// A broadcast's list: the record numbers of a sheet, in order, put into a lent slice.
#![tactic(auto)]

ghost use Rattle.std.specs.Prelude.{◌≡◌, ◌+◌, ◌≤◌, length};
ghost use Rattle.std.proofs.lemmas.List.Edits.{sets};
ghost use Rattle.route_list.specs.Counted.{counted};

// The numbers 1 to `count`, from a place on.
pub fn put_list(list: &mut [u64], at: usize, count: usize)
    requires { at + count ≤ length list.old }
    ensures { list.new ≡ sets list.old at (counted 1 count) }
{
    for i in 0..count {
        list[at + i] = i as u64 + 1;
    }
}
