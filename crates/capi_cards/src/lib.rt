// What the C boundary's call for a request from a card does: the answer of `route_cards` as numbers, for a record number of any size.
#![tactic(auto)]

ghost use Rattle.std.specs.Prelude.{◌≡◌};
ghost use Rattle.route_cards.specs.Sending.{sending_of};
ghost use Rattle.capi_answers.specs.Answers.{returned, filled};
ghost use Rattle.capi_cards.specs.Calls.{send_answer};

use route_cards::Sending;

// The greatest record number that `route_cards` takes.
const WORD: u32 = 65535;

// A request that goes to the host has record 0 and the bridges crossed upward.
pub fn route_from(number: u32, header: &[u8], sheet: &[u8], answer: &mut [u64]) -> u32
    ensures value { result ≡ returned (send_answer number header.now sheet.now) answer.old }
    ensures answer_after { answer.new ≡ filled (send_answer number header.now sheet.now) answer.old }
{
    match send(number, header, sheet) {
        Sending::Delivered(d) => {
            let p = d.packet;
            capi_answers::give_delivery(d.owner as u64, d.bridges as u64, p, answer)
        }
        Sending::Host(bridges, p) => capi_answers::give_delivery(0, bridges as u64, p, answer),
        Sending::Refused(n) => n as u32,
    }
}

// A number above 65,535 is no record of any sheet, and neither is 0.
fn send(number: u32, header: &[u8], sheet: &[u8]) -> Sending
    ensures { result ≡ sending_of number header.now sheet.now }
{
    if WORD < number {
        return route_cards::route_from(0, header, sheet);
    }
    route_cards::route_from(number as u16, header, sheet)
}
