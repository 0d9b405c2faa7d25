// A host record and then a sheet, an input of any length fed in pieces and audited. As many bytes are kept as the two can have, and one
// more. Of a longer input the sheet's frame is looked at, which tells its number: 21 or 20, and else 22, since the records, of 90 bytes
// each, are more than a sheet can have.
#![tactic(auto)]

ghost use Rattle.std.specs.Prelude.{◌≡◌, ◌++◌, ◌-◌, length, drop};
ghost use Rattle.std.proofs.lemmas.List.Edits.{sets};
ghost use Rattle.text.specs.Text.{Put};
ghost use Rattle.board_record.specs.Host.{host_length};
ghost use Rattle.audit_feed.specs.Program.{input_number, number_text};
ghost use Rattle.audit_feed.specs.Feed.{started, heard_by, fed_of, is_long, frame_number, long_number, number_of, answer_of};

use board_record::HOST_LENGTH;
use records::frame;
use records::frame::{Ending, Event, Stage};
use sheet_record::places;

// A host record and a full sheet; one byte more tells that an input is longer.
pub const KEPT: usize = HOST_LENGTH + sheet::FULL + 1;

// The longest answer: `refused`, a number of three digits, and the end of the line.
pub const LONGEST: usize = 12;

// What was fed so far. The first bytes are in the caller's room. The stage is the sheet's, after the host record, and a sheet is misframed
// where a record of another length began.
#[derive(Clone, Copy)]
pub struct Feed {
    pub count: usize,
    pub stage: Stage,
    pub misframed: bool,
}

impl Feed {
    pub fn start() -> Self
        ensures { result ≡ started }
    {
        Feed {
            count: 0,
            stage: Stage::Start,
            misframed: false,
        }
    }

    // With a piece more.
    pub fn feed(self, piece: &[u8], kept: &mut [u8; KEPT]) -> Self
        ensures { (result ≡ fed_of self piece.now)
            × (kept.new ≡ sets kept.old self.count piece.now) }
    {
        let before = HOST_LENGTH.saturating_sub(self.count);
        let (_, part) = piece.split_at(before.min(piece.len()));
        let count = text::put_text(kept, self.count, piece);
        let mut stage = self.stage;
        let mut misframed = self.misframed;
        for byte in part {
            let event = frame::event_of(stage, *byte);
            misframed = hear(misframed, event);
            stage = frame::stage_after(event);
        }
        Feed {
            count,
            stage,
            misframed,
        }
    }

    // The audit of all the bytes fed.
    pub fn number(self, kept: &[u8; KEPT]) -> u8
        ensures { result ≡ number_of self kept.now }
    {
        if self.is_long() {
            return self.long_number(text::front(kept, HOST_LENGTH));
        }
        audit(text::front(kept, self.count))
    }

    // The audit as a line: so many bytes of the answer, from its start.
    pub fn print(self, kept: &[u8; KEPT], answer: &mut [u8; LONGEST]) -> usize
        ensures { (result ≡ length (answer_of self kept.now))
            × (answer.new ≡ answer_of self kept.now ++ drop result answer.old) }
    {
        let number = self.number(kept);
        put_number(answer, number)
    }

    fn is_long(self) -> bool
        ensures { result ≡ is_long self }
    {
        KEPT <= self.count
    }

    // The number of an input whose sheet is longer than a full one.
    fn long_number(self, host: &[u8]) -> u8
        requires { length host.now ≡ host_length }
        ensures { result ≡ long_number self host.now }
    {
        let h = board_record::host_of(host);
        if board_record::host_wrong(h) {
            return 26;
        }
        self.frame_number()
    }

    fn frame_number(self) -> u8
        ensures { result ≡ frame_number self }
    {
        let stage = self.stage;
        match frame::ending_of(stage) {
            Ending::Empty => 20,
            Ending::Unread => 21,
            Ending::Whole => if self.misframed { 20 } else { 22 },
            Ending::Cut => 20,
        }
    }
}

// Whether a record of another length than a sheet's has begun.
fn hear(misframed: bool, event: Event) -> bool
    ensures { result ≡ heard_by misframed event }
{
    match event {
        Event::Version => misframed,
        Event::Foreign => misframed,
        Event::Passed => misframed,
        Event::Half(_) => misframed,
        Event::Begins(size) => misframed | (size as usize != places::SIZE),
        Event::Byte(_, _) => misframed,
    }
}

// An input at hand.
fn audit(input: &[u8]) -> u8
    ensures { result ≡ input_number input.now }
{
    let (host, sheet) = input.split_at(HOST_LENGTH.min(input.len()));
    auditor::audit(host, sheet)
}

fn put_number(answer: &mut [u8], number: u8) -> usize
    ensures { Put answer.old 0 (number_text number) answer.new result }
{
    if number == 0 {
        return text::put_text(answer, 0, b"accepted\n");
    }
    text::put_refusal(answer, 0, number)
}
