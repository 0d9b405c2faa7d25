// What becomes of a packet, as numbers in a slice that the caller lends, by a walk over a sheet or by an index.
#![tactic(auto)]

ghost use Rattle.std.specs.Prelude.{◌≡◌};
ghost use Rattle.route_list.specs.Counted.{counted};
ghost use Rattle.capi_answers.specs.Answers.{returned, filled};
ghost use Rattle.capi_routing.specs.Routing.{on_routing};

use route_answer::Routing;

// The record that gets the packet, the bridges crossed, and the packet as it arrives. A broadcast has record 0, how many functions, the
// packet, and then their record numbers; what ends at the port has 0 and 0.
pub fn give_routing(routing: Routing, out: &mut [u64]) -> u32
    ensures value { result ≡ returned (on_routing routing (counted 1)) out.old }
    ensures out_after { out.new ≡ filled (on_routing routing (counted 1)) out.old }
{
    match routing {
        Routing::Delivered(d) => {
            let p = d.packet;
            capi_answers::give_delivery(d.owner as u64, d.bridges as u64, p, out)
        }
        Routing::Broadcast(functions, p) => {
            capi_answers::give_broadcast(functions as usize, p, out)
        }
        Routing::Port(p) => capi_answers::give_delivery(0, 0, p, out),
        Routing::Refused(n) => n as u32,
    }
}
