// A line of text as a state that each byte moves on: a word, then bytes in hexadecimal digits of
// either case with spaces between bytes as one likes; or a comment, or nothing. The state says what
// the last byte was, so a program keeps letters and bytes in its own room as they come, and looks at
// the word when the line is over. The definitions stand in specs/Lines.
#![tactic(auto)]

ghost use Rattle.std.specs.Prelude.{◌≡◌};
ghost use Rattle.lines.specs.Lines.{first_of, letter_of, between_of, second_of, next_of, ended_of};

use text::digits;

// Room for a word. No program has a word this long, so what is kept of a longer one is none either.
pub const WORD: usize = 8;

// What the last byte was in its line.
#[derive(Clone, Copy)]
pub enum Stage {
    // nothing yet, or a space before the word
    Start,
    // part of a comment
    Comment,
    // a letter of the word
    Letter(u8),
    // a space after the word or after a byte
    Space,
    // the first digit of a byte, of this value
    Half(u8),
    // the second digit of this byte
    Byte(u8),
    // what no line has
    Wrong,
}

// A line that is over.
#[derive(Clone, Copy)]
pub enum Ended {
    // a comment or blank
    Passed,
    // a word, and whole bytes or none
    Whole,
    Wrong,
}

pub fn next(stage: Stage, byte: u8) -> Stage
    ensures { result ≡ next_of stage byte }
{
    match stage {
        Stage::Start => first(byte),
        Stage::Letter(_) => letter(byte),
        Stage::Space | Stage::Byte(_) => between(byte),
        Stage::Half(high) => second(high, byte),
        Stage::Comment | Stage::Wrong => stage,
    }
}

pub fn end(stage: Stage) -> Ended
    ensures { result ≡ ended_of stage }
{
    match stage {
        Stage::Start | Stage::Comment => Ended::Passed,
        Stage::Letter(_) | Stage::Space | Stage::Byte(_) => Ended::Whole,
        Stage::Half(_) | Stage::Wrong => Ended::Wrong,
    }
}

// A space in front, a comment, or the word's first letter.
#[tactic(auto, unfolding(crate::specs::Lines::first_of))]
fn first(byte: u8) -> Stage
    ensures { result ≡ first_of byte }
{
    if byte == b' ' {
        return Stage::Start;
    }
    if byte == b'#' {
        return Stage::Comment;
    }
    Stage::Letter(byte)
}

// A letter more, or the space after the word.
#[tactic(auto, unfolding(crate::specs::Lines::letter_of))]
fn letter(byte: u8) -> Stage
    ensures { result ≡ letter_of byte }
{
    if byte == b' ' {
        return Stage::Space;
    }
    Stage::Letter(byte)
}

// A space, or the first digit of a byte.
#[tactic(auto, unfolding(crate::specs::Lines::between_of))]
fn between(byte: u8) -> Stage
    ensures { result ≡ between_of byte }
{
    if byte == b' ' {
        return Stage::Space;
    }
    match digits::value_of(byte) {
        Some(high) => Stage::Half(high),
        None => Stage::Wrong,
    }
}

// The second digit of a byte.
#[tactic(auto, unfolding(crate::specs::Lines::second_of))]
fn second(high: u8, byte: u8) -> Stage
    ensures { result ≡ second_of high byte }
{
    match digits::value_of(byte) {
        Some(low) => Stage::Byte(digits::joined(high, low)),
        None => Stage::Wrong,
    }
}
