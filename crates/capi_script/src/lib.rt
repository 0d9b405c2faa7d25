// What the C boundary's call on a write script does. A requester ID above FFFFh or a tag above FFh is 10, tried first; then the planner's
// number; then 11, where the room is short of the script or the answer slice has no number: the room and the slice then stay.
#![tactic(auto)]

ghost use Rattle.std.specs.Prelude.{◌≡◌, length};
ghost use Rattle.capi_answers.specs.Answers.{returned, filled};
ghost use Rattle.capi_script.specs.Calls.{script_answer, script_left};

use scripter::Scripting;

// The greatest requester ID and the greatest tag.
const LAST_REQUESTER: u32 = 65535;

const LAST_TAG: u32 = 255;

// Writes a board's script, and answers how many bytes it is. With no room for the answer an empty part of the room is lent, so that nothing
// is written.
pub fn script(board: &[u8], requester: u32, tag: u32, room: &mut [u8], written: &mut [u64]) -> u32
    ensures value { result ≡ returned (script_answer board.now requester tag (length room.old)) written.old }
    ensures room_after { room.new ≡ script_left board.now requester tag room.old written.old }
    ensures written_after { written.new ≡ filled (script_answer board.now requester tag (length room.old)) written.old }
{
    if LAST_REQUESTER < requester {
        return 10;
    }
    if LAST_TAG < tag {
        return 10;
    }
    let space = capi_answers::space_for(written.len(), room.len());
    match scripter::write_script(board, requester as u16, tag as u8, &mut room[..space]) {
        Scripting::Written(n) => capi_answers::give_one(n as u64, written),
        Scripting::Refused(n) => n as u32,
    }
}
