// The frame of boards and traces, one byte at a time: version byte 1, then length-first records. The bytes may come in pieces, and none
// is kept here: who takes them hears of each byte what it is.
ghost use Rattle.std.specs.Prelude.{◌≡◌, ◌+◌, ◌-◌, ◌*◌};
ghost use Rattle.records.specs.Frame.{version_of, inside_of, event_of, stage_after, ending_of};

// Where the next byte falls.
#[derive(Clone, Copy)]
pub enum Stage {
    // Before the version byte.
    Start,
    // After another version than 1: the rest is not looked at.
    Other,
    // Where a record starts, or the end.
    Between,
    // After the first byte of a length.
    Length(u8),
    // Inside a record, with so many bytes to come.
    Inside(u32),
}

// What a byte is, where it falls.
#[derive(Clone, Copy)]
pub enum Event {
    // The version, 1.
    Version,
    // Another version.
    Foreign,
    // A byte after another version.
    Passed,
    // The first byte of a length.
    Half(u8),
    // The second byte of a length: a record of so many bytes begins. One of no bytes is whole with it.
    Begins(u32),
    // This byte of a record, with so many to come. With the last, of which none are to come, the record is whole.
    Byte(u8, u32),
}

// What all the bytes are, where they end.
#[derive(Clone, Copy)]
pub enum Ending {
    // There was none.
    Empty,
    // Of another version.
    Unread,
    // Whole records.
    Whole,
    // They end inside a record or its length.
    Cut,
}

pub fn event_of(stage: Stage, byte: u8) -> Event
    ensures { result ≡ event_of stage byte }
{
    match stage {
        Stage::Start => version(byte),
        Stage::Other => Event::Passed,
        Stage::Between => Event::Half(byte),
        Stage::Length(high) => Event::Begins(joined(high, byte)),
        Stage::Inside(left) => Event::Byte(byte, one_less(left)),
    }
}

// Where the byte after this one falls.
pub fn stage_after(event: Event) -> Stage
    ensures { result ≡ stage_after event }
{
    match event {
        Event::Version => Stage::Between,
        Event::Foreign => Stage::Other,
        Event::Passed => Stage::Other,
        Event::Half(high) => Stage::Length(high),
        Event::Begins(size) => inside(size),
        Event::Byte(_, left) => inside(left),
    }
}

pub fn ending_of(stage: Stage) -> Ending
    ensures { result ≡ ending_of stage }
{
    match stage {
        Stage::Start => Ending::Empty,
        Stage::Other => Ending::Unread,
        Stage::Between => Ending::Whole,
        Stage::Length(_) => Ending::Cut,
        Stage::Inside(_) => Ending::Cut,
    }
}

fn version(byte: u8) -> Event
    ensures { result ≡ version_of byte }
{
    if byte == 1 {
        return Event::Version;
    }
    Event::Foreign
}

fn joined(high: u8, low: u8) -> u32
    ensures { result ≡ high * 256 + low }
{
    (high as u32) * 256 + low as u32
}

// A record of which so many bytes are to come.
fn inside(left: u32) -> Stage
    ensures { result ≡ inside_of left }
{
    if left == 0 {
        return Stage::Between;
    }
    Stage::Inside(left)
}

fn one_less(left: u32) -> u32
    ensures { result ≡ left - 1 }
{
    if left == 0 {
        return 0;
    }
    left - 1
}
