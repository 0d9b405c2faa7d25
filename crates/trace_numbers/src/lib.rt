// A trace's state as six numbers, for callers that have no enums: the stage and its value, the number of the last whole record, how many
// bytes are kept, and the 16 kept bytes as two big-endian numbers. Six zeros are a fresh state.
#![tactic(auto)]

ghost use Rattle.std.specs.Prelude.{◌≡◌, true, ◌≤◌, length};
ghost use Rattle.std.proofs.lemmas.List.Edits.{sets};
ghost use Rattle.trace_numbers.specs.Numbers.{stage_number, stage_value, numbers_of};
ghost use Rattle.trace_numbers.specs.Parsing.{is_stage, stage_at, head_at, is_state, state_at, trace_of, taken_as};

use records::frame::Stage;
use trace::Trace;

// How many numbers a state has.
pub const SIZE: usize = 6;

// The greatest value of a stage: the first byte of a length, and the bytes of a record that are to come.
const BYTE: u64 = 255;

const WORD: u64 = 65535;

// So many bytes are kept at most.
const KEPT: u64 = 16;

// ---- numbers to a state

// The state that the first six numbers are, or the number of the first check that they fail: 11 for fewer, 10 for numbers that are no
// state. Later numbers are not looked at.
pub fn state_of(numbers: &[u64]) -> Result<Trace, u8>
    ensures { result ≡ taken_as (trace_of numbers.now) }
{
    if numbers.len() < SIZE {
        return Err(11);
    }
    if !is_state(numbers) {
        return Err(10);
    }
    Ok(state_at(numbers))
}

fn is_state(numbers: &[u64]) -> bool
    requires { 6 ≤ length numbers.now }
    ensures { result ≡ is_state numbers.now }
{
    is_stage(numbers[0], numbers[1]) & (numbers[3] <= KEPT)
}

// Some stage has the number, and this value. The tests are joined with no branch between them.
fn is_stage(number: u64, value: u64) -> bool
    ensures { result ≡ is_stage number value }
{
    ((number < 3) & (value == 0))
        | ((number == 3) & (value <= BYTE))
        | ((number == 4) & (0 < value) & (value <= WORD))
}

fn state_at(numbers: &[u64]) -> Trace
    requires { (6 ≤ length numbers.now) × (is_state numbers.now ≡ true) }
    ensures { result ≡ state_at numbers.now }
{
    Trace {
        stage: stage_at(numbers[0], numbers[1]),
        number: numbers[2],
        kept: numbers[3] as usize,
        head: head_at(numbers[4], numbers[5]),
    }
}

fn stage_at(number: u64, value: u64) -> Stage
    requires { is_stage number value ≡ true }
    ensures { result ≡ stage_at number value }
{
    match number {
        0 => Stage::Start,
        1 => Stage::Other,
        2 => Stage::Between,
        3 => Stage::Length(value as u8),
        _ => Stage::Inside(value as u32),
    }
}

fn head_at(first: u64, second: u64) -> [u8; trace::FRONT]
    ensures { result ≡ head_at first second }
{
    let mut head = [0u8; trace::FRONT];
    endian::write_be64(&mut head, 0, first);
    endian::write_be64(&mut head, 8, second);
    head
}

// ---- a state to numbers

// Stores the state's six numbers.
pub fn put_state(out: &mut [u64], t: Trace)
    requires { 6 ≤ length out.old }
    ensures { out.new ≡ sets out.old 0 (numbers_of t) }
{
    let stage = t.stage;
    let head = trace::head_of(t);
    out[0] = stage_number(stage);
    out[1] = stage_value(stage);
    out[2] = t.number;
    out[3] = t.kept as u64;
    out[4] = endian::read_be64(&head, 0);
    out[5] = endian::read_be64(&head, 8);
}

fn stage_number(stage: Stage) -> u64
    ensures { result ≡ stage_number stage }
{
    match stage {
        Stage::Start => 0,
        Stage::Other => 1,
        Stage::Between => 2,
        Stage::Length(_) => 3,
        Stage::Inside(_) => 4,
    }
}

fn stage_value(stage: Stage) -> u64
    ensures { result ≡ stage_value stage }
{
    match stage {
        Stage::Start => 0,
        Stage::Other => 0,
        Stage::Between => 0,
        Stage::Length(high) => high as u64,
        Stage::Inside(left) => left as u64,
    }
}
