// What the C boundary's calls on a ledger of open requests do. The ledger is the first 256 numbers of a slice that the caller keeps: fewer
// are 11, tried first, and numbers past them are left as they were.
#![tactic(auto)]

ghost use Rattle.std.specs.Prelude.{◌≡◌};
ghost use Rattle.capi_answers.specs.Answers.{returned, filled};
ghost use Rattle.capi_ledger.specs.Calls.{open_answer, open_left, complete_answer, complete_left, count_answer};

// How many numbers a ledger has.
const PLACES: usize = 256;

pub fn open_request(ledger: &mut [u64], header: &[u8]) -> u32
    ensures value { result ≡ open_answer header.now ledger.old }
    ensures ledger_after { ledger.new ≡ open_left header.now ledger.old }
{
    if ledger.len() < PLACES {
        return 11;
    }
    ledger::open_in(&mut ledger[..PLACES], header) as u32
}

pub fn complete_request(ledger: &mut [u64], header: &[u8]) -> u32
    ensures value { result ≡ complete_answer header.now ledger.old }
    ensures ledger_after { ledger.new ≡ complete_left header.now ledger.old }
{
    if ledger.len() < PLACES {
        return 11;
    }
    ledger::complete_in(&mut ledger[..PLACES], header) as u32
}

pub fn count(ledger: &[u64], out: &mut [u64]) -> u32
    ensures value { result ≡ returned (count_answer ledger.now) out.old }
    ensures out_after { out.new ≡ filled (count_answer ledger.now) out.old }
{
    if ledger.len() < PLACES {
        return 11;
    }
    let n = ledger::count(&ledger[..PLACES]);
    capi_answers::give_one(n as u64, out)
}
