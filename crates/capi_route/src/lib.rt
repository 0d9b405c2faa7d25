// What the C boundary's call that walks a header over a sheet does: the router's answer as numbers.
#![tactic(auto)]

ghost use Rattle.std.specs.Prelude.{◌≡◌};
ghost use Rattle.capi_answers.specs.Answers.{returned, filled};
ghost use Rattle.capi_route.specs.Calls.{route_answer};

pub fn route(header: &[u8], sheet: &[u8], answer: &mut [u64]) -> u32
    ensures value { result ≡ returned (route_answer header.now sheet.now) answer.old }
    ensures answer_after { answer.new ≡ filled (route_answer header.now sheet.now) answer.old }
{
    capi_routing::give_routing(route::route(header, sheet), answer)
}
