// Length-first records, the frame of boards and sheets: two bytes of length, then as many bytes. A record is read as the part after its
// own length. Here all the bytes are at hand; `frame` takes them one by one. And how many records there may be.
#![tactic(auto)]

pub mod frame;

ghost use Rattle.std.specs.Iterator.{item_count};
ghost use Rattle.std.specs.Prelude.{◌≡◌, [], ◌+◌, ◌≤◌, length, take, drop, not};
ghost use Rattle.records.specs.Iterating.{PartsGive, left_of, parts_left};
ghost use Rattle.records.specs.Records.{next_of, parts_of};

// The most functions that a board or a sheet has, and the most bridges that stand above one of them.
pub const MOST_FUNCTIONS: usize = 512;

pub const MOST_ABOVE: usize = 32;

// What stands at a place of the bytes after the version byte: the end, a record whose part has this many bytes, or a length that does
// not end at or before the end.
#[derive(Clone, Copy)]
pub enum Next {
    End,
    Record(usize),
    Broken,
}

// At the end and past it stands the end.
pub fn next_at(s: &[u8], at: usize) -> Next
    ensures { result ≡ next_of (drop at s.now) }
{
    if s.len() <= at {
        return Next::End;
    }
    let left = s.len() - at;
    if left < 2 {
        return Next::Broken;
    }
    let n = endian::read_be16(s, at) as usize;
    if left - 2 < n {
        return Next::Broken;
    }
    Next::Record(n)
}

// The part of the record at a place, after its own length.
pub fn part_at(s: &[u8], at: usize, n: usize) -> &[u8]
    requires { at + 2 + n ≤ length s.now }
    ensures { result.now ≡ take n (drop (at + 2) s.now) }
{
    let start = at + 2;
    let end = start + n;
    &s[start..end]
}

// The parts of the records from a place on, in order. They end where the bytes end, and where they break off.
#[derive(Drop)]
pub struct Records<'a> {
    bytes: &'a [u8],
    at: usize,
}

pub fn parts_from(bytes: &[u8], at: usize) -> Records
    ensures { left_of result ≡ parts_of (drop at bytes.now) }
{
    Records { bytes, at }
}

impl<'a> Iterator for Records<'a> {
    type Item = &'a [u8];

    ghost next_gives = { PartsGive };

    ghost remaining = { item_count parts_left };

    fn next(&mut self) -> Option<&'a [u8]> {
        let Next::Record(n) = next_at(self.bytes, self.at) else {
            return None;
        };
        let part = part_at(self.bytes, self.at, n);
        self.at = self.at + 2 + n;
        Some(part)
    }
}

impl Records<'_> {
    // Where no part is left: the bytes broke off.
    pub fn broke_off(&self) -> bool
        ensures { parts_left self.now ≡ [] → result ≡ not (left_of self.now).whole }
    {
        matches!(next_at(self.bytes, self.at), Next::Broken)
    }
}
