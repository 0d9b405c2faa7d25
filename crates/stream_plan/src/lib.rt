// The plan of a board that was fed, on standard output: what the two programs that plan share.
#![tactic(auto)]

use board_feed::{Feed, KEPT};
use sheet_text::LONGEST;

// The plan, or `refused N`, and whether all of it was written.
pub fn print(rt: HostRuntime, input: Feed, kept: &[u8; KEPT]) -> bool {
    let mut sheet = [0u8; sheet::FULL];
    let mut answer = [0u8; LONGEST];
    let n = input.print(kept, &mut sheet, &mut answer);
    print_front(rt, &answer, n)
}

fn print_front(rt: HostRuntime, answer: &[u8; LONGEST], count: usize) -> bool {
    console::print(rt, text::front(answer, count))
}
