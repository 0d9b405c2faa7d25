// The index of a sheet, built in a lent slice: of one that the audit accepts, or of one that has one owner for every address.
#![tactic(auto)]

ghost use Rattle.std.specs.Prelude.{◌≡◌, ◌≤◌, length};
ghost use Rattle.sheet.specs.Sheet.{entries_of};
ghost use Rattle.audit_rule.specs.Accepted.{OneOwner};
ghost use Rattle.index_layout.specs.Places.{index_size};
ghost use Rattle.lists.specs.Lists.{All};
ghost use Rattle.index_slots.specs.Slots.{Fits, placed};
ghost use Rattle.index_table.specs.Table.{built};
ghost use Rattle.index_pass.specs.Pass.{slots_below};
ghost use Rattle.index_build.specs.Build.{number_after, build_number, sound_build_number, left_by, index_after, sound_index_after};
ghost use Rattle.index_build.specs.BuildLaws.{Rooted};

// Any bytes: the audit's number, then 11 where the slice is too short. Refused, no byte changes; built, none past the index does.
pub fn build(host: &[u8], sheet: &[u8], index: &mut [u8]) -> u8
    ensures number { result ≡ build_number host.now sheet.now (length index.old) }
    ensures content { index.new ≡ index_after host.now sheet.now index.old }
{
    let verdict = auditor::audit(host, sheet);
    build_after(verdict, host, sheet, index)
}

// The same by the second verdict's number, of every sheet that has one owner for every address.
pub fn build_sound(host: &[u8], sheet: &[u8], index: &mut [u8]) -> u8
    ensures number { result ≡ sound_build_number host.now sheet.now (length index.old) }
    ensures content { index.new ≡ sound_index_after host.now sheet.now index.old }
{
    let verdict = auditor::sound(host, sheet);
    build_after(verdict, host, sheet, index)
}

// By the number of a verdict that lets only such sheets through.
fn build_after(verdict: u8, host: &[u8], sheet: &[u8], index: &mut [u8]) -> u8
    requires { verdict ≡ 0 → OneOwner host.now sheet.now }
    ensures number { result ≡ number_after verdict sheet.now (length index.old) }
    ensures content { index.new ≡ left_by (number_after verdict sheet.now (length index.old)) host.now sheet.now index.old }
{
    if verdict != 0 {
        return verdict;
    }
    let n = sheet::count(sheet);
    if index.len() < index_layout::LEAST + index_layout::EACH * n {
        return 11;
    }
    let h = board_record::host_of(host);
    fill(index, n, sheet, h.first_bus);
    0
}

// Of a sheet with n functions, whose buses are a tree below the root bus.
fn fill(index: &mut [u8], n: usize, sheet: &[u8], root: u8)
    requires { Rooted sheet.now root × (n ≡ length (entries_of sheet.now)) × (index_size n ≤ length index.old)
        × All Fits (slots_below root sheet.now) }
    ensures { index.new ≡ built n root (slots_below root sheet.now) index.old }
{
    index_slots::clear(index, n);
    let count = put_all(index, n, sheet, root);
    index_sort::sort(index, n, count);
    index_table::finish(index, n, root, count);
}

// All owners, in the order of the records: how many there are.
fn put_all(index: &mut [u8], n: usize, sheet: &[u8], root: u8) -> usize
    requires { Rooted sheet.now root × (n ≡ length (entries_of sheet.now)) × (index_size n ≤ length index.old) }
    ensures { (index.new ≡ placed 0 n (slots_below root sheet.now) index.old)
        × (result ≡ length (slots_below root sheet.now)) }
{
    let mut table = [0u16; sheet_above::BUSES];
    sheet_above::leaders(sheet, &mut table);
    index_pass::put_owners(index, n, sheet, &table, root)
}
