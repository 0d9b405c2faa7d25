// What a record's line tells, by one of three engines: who owns the packet, looked up in a sheet or in an index; or both its ends, over a
// sheet and with the host's own ID.
#![tactic(auto)]

ghost use Rattle.std.specs.Prelude.{◌≡◌, ◌/◌};
ghost use Rattle.text.specs.Text.{Put};
ghost use Rattle.trace_engine.specs.Engine.{Ready, line_of, longest_of};

use trace_line::Finder;

// An engine, whose bytes are lent beside it. Of both ends it is the host's ID and the sheet's own number, so that who labels many headers
// over one sheet checks it once.
#[derive(Clone, Copy)]
pub enum Engine {
    Owner(Finder),
    Ends(u16, u8),
}

// No line is longer, by any engine.
pub const LONGEST: usize = trace_ends::LONGEST;

// Puts the line of record n at a place, as far as it fits, and answers the next place.
pub fn put_line(
    out: &mut [u8],
    at: usize,
    n: u64,
    header: &[u8],
    engine: Engine,
    bytes: &[u8],
) -> usize
    requires { Ready engine bytes.now }
    ensures { Put out.old at (line_of engine bytes.now n header.now) out.new result }
{
    match engine {
        Engine::Owner(finder) => trace_line::put_line(out, at, n, header, finder, bytes),
        Engine::Ends(host_id, number) => trace_ends::put_line(
            out, at, n, header, host_id, number, bytes,
        ),
    }
}

// How many lines of any length so many bytes have room for.
pub fn most_lines(engine: Engine, room: usize) -> usize
    ensures { result ≡ room / longest_of engine }
{
    match engine {
        Engine::Owner(_) => room / trace_line::LONGEST,
        Engine::Ends(_, _) => room / trace_ends::LONGEST,
    }
}
