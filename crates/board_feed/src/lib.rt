// A board of any length, fed in pieces and planned. As many bytes are kept as a lawful board can have, and one more. Of a longer input only
// the frame is looked at, which tells its number: 21, 20 or 22, and else 24, since at most 512 functions of 30 bytes do not come to that
// length.
#![tactic(auto)]

ghost use Rattle.std.specs.Prelude.{◌≡◌, ◌++◌, length, drop};
ghost use Rattle.std.proofs.lemmas.List.Edits.{sets};
ghost use Rattle.board_feed.specs.Feed.{started, fed_of, is_long, frame_number, planning_of, sheet_of, answer_of};
ghost use Rattle.records.specs.declared.frame.Stage.TheVariants.{Start};
ghost use Rattle.board_feed.specs.Shown.{shown_at};
ghost use Rattle.board_feed.specs.Tally.{misfits_of, counted_of, begun_of, heard_by, whole_number};

use plan_answer::Planning;
use records::frame;
use records::frame::{Ending, Event, Stage};
use sheet_text::LONGEST;

// The functions, and the host before them.
const MOST_RECORDS: usize = 1 + records::MOST_FUNCTIONS;

// Lengths of records: the host's, and what a function's lies between.
const HOST_LENGTH: u32 = board_record::HOST_LENGTH as u32;

const SHORTEST_FUNCTION: u32 = 6;

const LONGEST_FUNCTION: usize = board_record::END;

// What a lawful board can have at the most: the version and the host, then functions, each after its length.
const LONGEST_BOARD: usize = board_record::FUNCTIONS
    + records::MOST_FUNCTIONS * (2 + LONGEST_FUNCTION);

// One byte more tells that an input is longer.
pub const KEPT: usize = LONGEST_BOARD + 1;

// That there are more than a board can have is all that is asked of the count.
const MOST_COUNTED: usize = 1000;

// What was fed so far. The first bytes are in the caller's room.
#[derive(Clone, Copy)]
pub struct Feed {
    pub count: usize,
    pub stage: Stage,
    pub tally: Tally,
}

// The records that began so far, counted up to 1,000, and whether one of them is no host or no function by its length.
#[derive(Clone, Copy)]
pub struct Tally {
    pub records: usize,
    pub misframed: bool,
}

impl Feed {
    pub fn start() -> Self
        ensures { result ≡ started }
    {
        Feed {
            count: 0,
            stage: Stage::Start,
            tally: Tally {
                records: 0,
                misframed: false,
            },
        }
    }

    // With a piece more.
    pub fn feed(self, piece: &[u8], kept: &mut [u8; KEPT]) -> Self
        ensures { (result ≡ fed_of self piece.now)
            × (kept.new ≡ sets kept.old self.count piece.now) }
    {
        let count = text::put_text(kept, self.count, piece);
        let mut stage = self.stage;
        let mut tally = self.tally;
        for byte in piece {
            let event = frame::event_of(stage, shown(stage, *byte));
            tally = tally.hear(event);
            stage = frame::stage_after(event);
        }
        Feed {
            count,
            stage,
            tally,
        }
    }

    // The plan of all the bytes fed.
    pub fn plan(self, kept: &[u8; KEPT], sheet: &mut [u8]) -> Planning
        ensures { (result ≡ planning_of self kept.now (length sheet.old))
            × (sheet.new ≡ sheet_of self kept.now sheet.old) }
    {
        if self.is_long() {
            return Planning::Refused(self.frame_number());
        }
        planner::plan(text::front(kept, self.count), sheet)
    }

    // The plan as document 01 prints it: so many bytes of the answer, from its start.
    pub fn print(self, kept: &[u8; KEPT], sheet: &mut [u8], answer: &mut [u8; LONGEST]) -> usize
        ensures { (result ≡ length (answer_of self kept.now sheet.old))
            × (answer.new ≡ answer_of self kept.now sheet.old ++ drop result answer.old)
            × (sheet.new ≡ sheet_of self kept.now sheet.old) }
    {
        let planning = self.plan(kept, sheet);
        sheet_text::put_planning(answer, 0, planning, sheet)
    }

    pub fn is_long(self) -> bool
        ensures { result ≡ is_long self }
    {
        KEPT <= self.count
    }

    // The number of an input that is longer than any lawful board.
    pub fn frame_number(self) -> u8
        ensures { result ≡ frame_number self }
    {
        let stage = self.stage;
        let tally = self.tally;
        match frame::ending_of(stage) {
            Ending::Empty => 20,
            Ending::Unread => 21,
            Ending::Whole => tally.number(),
            Ending::Cut => 20,
        }
    }
}

impl Tally {
    fn hear(self, event: Event) -> Self
        ensures { result ≡ heard_by self event }
    {
        match event {
            Event::Version => self,
            Event::Foreign => self,
            Event::Passed => self,
            Event::Half(_) => self,
            Event::Begins(size) => self.begin(size),
            Event::Byte(_, _) => self,
        }
    }

    // A record of this size begins.
    fn begin(self, size: u32) -> Self
        ensures { result ≡ begun_of self size }
    {
        let misfits = misfits(self.records, size);
        Tally {
            records: counted(self.records),
            misframed: self.misframed | misfits,
        }
    }

    // Of whole records.
    fn number(self) -> u8
        ensures { result ≡ whole_number self }
    {
        if (self.records == 0) | self.misframed {
            return 20;
        }
        if MOST_RECORDS < self.records {
            return 22;
        }
        24
    }
}

// The frame of a board is that of traces and sheets, of version 1; a first byte 2 is shown to it as 1.
fn shown(stage: Stage, byte: u8) -> u8
    ensures { result ≡ shown_at stage byte }
{
    match stage {
        Stage::Start => first_shown(byte),
        Stage::Other => byte,
        Stage::Between => byte,
        Stage::Length(_) => byte,
        Stage::Inside(_) => byte,
    }
}

fn first_shown(byte: u8) -> u8
    ensures { result ≡ shown_at Start byte }
{
    if byte == 2 { 1 } else { byte }
}

// After so many records: the host first, then functions.
fn misfits(records: usize, size: u32) -> bool
    ensures { result ≡ misfits_of records size }
{
    if records == 0 {
        return size != HOST_LENGTH;
    }
    size < SHORTEST_FUNCTION
}

fn counted(records: usize) -> usize
    ensures { result ≡ counted_of records }
{
    if records < MOST_COUNTED {
        return records + 1;
    }
    records
}
