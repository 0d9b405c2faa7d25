// What the C boundary's calls on a sheet's function do: its registers by an ID, an ID by a record number, and its command word rewritten.
#![tactic(auto)]

ghost use Rattle.std.specs.Prelude.{◌≡◌};
ghost use Rattle.sheet.specs.Lookup.{lookup_of};
ghost use Rattle.capi_answers.specs.Answers.{returned, filled};
ghost use Rattle.capi_sheet.specs.Calls.{lookup_answer, id_answer, unowned_of, command_number, command_left};

use sheet::{Lookup, RecordId};

// The greatest ID and the greatest command word.
const WORD: u32 = 65535;

pub fn lookup(sheet: &[u8], id: u32, offset: &mut [u64]) -> u32
    ensures value { result ≡ returned (lookup_answer sheet.now id) offset.old }
    ensures offset_after { offset.new ≡ filled (lookup_answer sheet.now id) offset.old }
{
    match find(sheet, id) {
        Lookup::Registers(at) => capi_answers::give_one(at as u64, offset),
        Lookup::Refused(n) => n as u32,
    }
}

pub fn id_of(sheet: &[u8], number: u32, id: &mut [u64]) -> u32
    ensures value { result ≡ returned (id_answer sheet.now number) id.old }
    ensures id_after { id.new ≡ filled (id_answer sheet.now number) id.old }
{
    match sheet::id_of(sheet, number as usize) {
        RecordId::Id(n) => capi_answers::give_one(n as u64, id),
        RecordId::Refused(n) => n as u32,
    }
}

pub fn set_command(sheet: &mut [u8], id: u32, command: u32) -> u32
    ensures value { result ≡ command_number sheet.old id command }
    ensures sheet_after { sheet.new ≡ command_left sheet.old id command }
{
    if WORD < command {
        return 10;
    }
    if WORD < id {
        return unowned(sheet) as u32;
    }
    sheet::set_command(sheet, id as u16, command as u16) as u32
}

// The lookup by an ID of any size.
fn find(sheet: &[u8], id: u32) -> Lookup
    ensures { result ≡ lookup_of sheet.now id }
{
    if WORD < id {
        return Lookup::Refused(unowned(sheet));
    }
    sheet::find(sheet, id as u16)
}

// The number for an ID that no function has: the sheet's own, or else 40.
fn unowned(sheet: &[u8]) -> u8
    ensures { result ≡ unowned_of sheet.now }
{
    let n = sheet::check(sheet);
    if n == 0 { 40 } else { n }
}
