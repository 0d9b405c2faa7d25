// Numbers in bytes: 2, 4 and 8 bytes of a slice read as a number, and a number stored as that many, in both orders.
// The bytes are std's: compiled, each read is one load and each write one store. The definitions and their laws stand in specs/Endian and
// specs/EndianLaws.
#![tactic(auto)]

ghost use Rattle.std.specs.Prelude.{◌≡◌, ◌+◌, ◌<◌, ◌≤◌, length};
ghost use Rattle.std.proofs.lemmas.List.Edits.{sets};
ghost use Rattle.endian.specs.Endian.{be, be_bytes, le, le_bytes};

// A byte as a number, with its range.
pub fn wide(x: u8) -> u64
    ensures { (result ≡ x) × (result < 256) }
{
    u64::from(x)
}

// ---- big-endian

pub fn read_be16(s: &[u8], at: usize) -> u64
    requires { at + 2 ≤ length s.now }
    ensures { (result ≡ be 2 s.now at) × (result < 65536) }
{
    u64::from(u16::from_be_bytes([s[at], s[at + 1]]))
}

pub fn read_be32(s: &[u8], at: usize) -> u64
    requires { at + 4 ≤ length s.now }
    ensures { (result ≡ be 4 s.now at) × (result < 4294967296) }
{
    u64::from(u32::from_be_bytes([s[at], s[at + 1], s[at + 2], s[at + 3]]))
}

pub fn read_be64(s: &[u8], at: usize) -> u64
    requires { at + 8 ≤ length s.now }
    ensures { (result ≡ be 8 s.now at) × (result < 18446744073709551616) }
{
    u64::from_be_bytes([
        s[at],
        s[at + 1],
        s[at + 2],
        s[at + 3],
        s[at + 4],
        s[at + 5],
        s[at + 6],
        s[at + 7],
    ])
}

// The low 2 bytes of v.
pub fn write_be16(out: &mut [u8], at: usize, v: u64)
    requires { at + 2 ≤ length out.old }
    ensures { out.new ≡ sets out.old at (be_bytes 2 v) }
{
    let low = (v % 65536) as u16;
    out[at..at + 2].copy_from_slice(&low.to_be_bytes());
}

// The low 4 bytes of v.
pub fn write_be32(out: &mut [u8], at: usize, v: u64)
    requires { at + 4 ≤ length out.old }
    ensures { out.new ≡ sets out.old at (be_bytes 4 v) }
{
    let low = (v % 4294967296) as u32;
    out[at..at + 4].copy_from_slice(&low.to_be_bytes());
}

pub fn write_be64(out: &mut [u8], at: usize, v: u64)
    requires { at + 8 ≤ length out.old }
    ensures { out.new ≡ sets out.old at (be_bytes 8 v) }
{
    out[at..at + 8].copy_from_slice(&v.to_be_bytes());
}

// ---- little-endian

pub fn read_le16(s: &[u8], at: usize) -> u64
    requires { at + 2 ≤ length s.now }
    ensures { (result ≡ le 2 s.now at) × (result < 65536) }
{
    u64::from(u16::from_le_bytes([s[at], s[at + 1]]))
}

pub fn read_le32(s: &[u8], at: usize) -> u64
    requires { at + 4 ≤ length s.now }
    ensures { (result ≡ le 4 s.now at) × (result < 4294967296) }
{
    u64::from(u32::from_le_bytes([s[at], s[at + 1], s[at + 2], s[at + 3]]))
}

pub fn read_le64(s: &[u8], at: usize) -> u64
    requires { at + 8 ≤ length s.now }
    ensures { (result ≡ le 8 s.now at) × (result < 18446744073709551616) }
{
    u64::from_le_bytes([
        s[at],
        s[at + 1],
        s[at + 2],
        s[at + 3],
        s[at + 4],
        s[at + 5],
        s[at + 6],
        s[at + 7],
    ])
}

// The low 2 bytes of v.
pub fn write_le16(out: &mut [u8], at: usize, v: u64)
    requires { at + 2 ≤ length out.old }
    ensures { out.new ≡ sets out.old at (le_bytes 2 v) }
{
    let low = (v % 65536) as u16;
    out[at..at + 2].copy_from_slice(&low.to_le_bytes());
}

// The low 4 bytes of v.
pub fn write_le32(out: &mut [u8], at: usize, v: u64)
    requires { at + 4 ≤ length out.old }
    ensures { out.new ≡ sets out.old at (le_bytes 4 v) }
{
    let low = (v % 4294967296) as u32;
    out[at..at + 4].copy_from_slice(&low.to_le_bytes());
}

pub fn write_le64(out: &mut [u8], at: usize, v: u64)
    requires { at + 8 ≤ length out.old }
    ensures { out.new ≡ sets out.old at (le_bytes 8 v) }
{
    out[at..at + 8].copy_from_slice(&v.to_le_bytes());
}
