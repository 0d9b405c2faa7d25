// The second verdict and the index of a sheet of which no host is told. They do not say where the pools of the sheet's own host end.
#![tactic(auto)]

ghost use Rattle.std.specs.Prelude.{◌≡◌, length};
ghost use Rattle.index_alone.specs.Alone.{alone_number, alone_build_number, alone_index_after};

// Any bytes: the sheet's own number, then the second verdict's; 0 where every address has one owner.
pub fn sound_alone(sheet: &[u8]) -> u8
    ensures { result ≡ alone_number sheet.now }
{
    let n = sheet::check(sheet);
    if n != 0 {
        return n;
    }
    let host = any_host::any_host(route::root_of(sheet));
    auditor::sound(&host, sheet)
}

// The same, then 11 where the slice is too short. Refused, no byte changes; built, none past the index does.
pub fn build_alone(sheet: &[u8], index: &mut [u8]) -> u8
    ensures number { result ≡ alone_build_number sheet.now (length index.old) }
    ensures content { index.new ≡ alone_index_after sheet.now index.old }
{
    let n = sheet::check(sheet);
    if n != 0 {
        return n;
    }
    let host = any_host::any_host(route::root_of(sheet));
    index_build::build_sound(&host, sheet, index)
}
