// Where everything stands in an index of n functions, what the keys of its slots are, and what a slot's word says (docs/FORMATS.md, "Its
// bytes"). All numbers are little-endian.
#![tactic(auto)]

ghost use Rattle.std.specs.Prelude.{◌≡◌, ◌<◌, ◌≤◌};
ghost use Rattle.index_layout.specs.Places.{base_place, shift_place, bucket_place, key_place, word_place};
ghost use Rattle.index_layout.specs.Keys.{segment_of};
ghost use Rattle.index_layout.specs.Words.{word_end, word_limit, record_in, bridges_in};

// ---- places

// "1,024 bytes and 256 a function".
pub const LEAST: usize = 1024;

pub const EACH: usize = 256;

// The first bytes: how many functions there are (2), the root bus (1), the width (2), which is the most slots that one bucket has.
pub const FUNCTIONS: usize = 0;

pub const ROOT: usize = 2;

pub const WIDTH: usize = 4;

// The most slots, for each function: six BARs and its ID. Keys stand for twice as many positions.
pub const SLOTS: usize = 7;

pub const KEYS: usize = 2 * SLOTS;

// The segments of the keys, and the buckets of one and of all, for each function.
pub const SEGMENTS: usize = 4;

pub const SEGMENT_BUCKETS: usize = 8;

pub const BUCKETS: usize = SEGMENTS * SEGMENT_BUCKETS;

// A segment's base (8 bytes) and shift (1).
pub fn base_place(w: usize) -> usize
    requires { w < 4 }
    ensures { result ≡ base_place w }
{
    16 + 16 * w
}

pub fn shift_place(w: usize) -> usize
    requires { w < 4 }
    ensures { result ≡ shift_place w }
{
    24 + 16 * w
}

// A bucket's entry (2 bytes): how many slots stand in earlier buckets.
pub fn bucket_place(q: usize) -> usize
    requires { bucket_place q < 18446744073709551616 }
    ensures { result ≡ bucket_place q }
{
    1008 + 2 * q
}

// The key (8 bytes) of position i, and its word (8 bytes).
pub fn key_place(n: usize, i: usize) -> usize
    requires { key_place n i < 18446744073709551616 }
    ensures { result ≡ key_place n i }
{
    1008 + 64 * n + 8 * i
}

pub fn word_place(n: usize, i: usize) -> usize
    requires { word_place n i < 18446744073709551616 }
    ensures { result ≡ word_place n i }
{
    1016 + 176 * n + 8 * i
}

// ---- keys

// One line: low memory and high memory at their addresses, then I/O, then IDs. 2^32, 2^52.
pub const LOW_END: u64 = 4294967296;

pub const MEMORY_END: u64 = 4503599627370496;

// I/O addresses and IDs have 16 bits.
pub const IO_SIZE: u64 = 65536;

pub const ID_SIZE: u64 = 65536;

// The keys of I/O address 0 and of ID 0.
pub const IO_BASE: u64 = MEMORY_END;

pub const ID_BASE: u64 = IO_BASE + IO_SIZE;

// Above every key: 2^62.
pub const NO_KEY: u64 = 4611686018427387904;

// The segments of I/O and of IDs, behind those of low and high memory.
pub const IO_SEGMENT: usize = 2;

pub const ID_SEGMENT: usize = 3;

// The segment of a key.
pub fn segment_of(key: u64) -> usize
    ensures { result ≡ segment_of key }
{
    if key < LOW_END {
        return 0;
    }
    if key < MEMORY_END {
        return 1;
    }
    if key < ID_BASE {
        return IO_SEGMENT;
    }
    ID_SEGMENT
}

// ---- words

// Every word is below 2^32: an exponent, 8 bits of bridges and 16 of the record.
pub const WORD_LIMIT: u64 = 4294967296;

// What a word says beside the exponent.
pub fn word_end(bridges: u8, number: usize) -> u64
    requires { number ≤ 65535 }
    ensures { (result ≡ word_end bridges number) × (result < word_limit) }
{
    256 * (bridges as u64) + 65536 * (number as u64)
}

// The record of a word, 0 where it is nobody's.
pub fn record_in(word: u64) -> u64
    ensures { (result ≡ record_in word) × (result < 65536) }
{
    (word >> 16) % 65536
}

// How many bridges are above it.
pub fn bridges_in(word: u64) -> u64
    ensures { (result ≡ bridges_in word) × (result < 256) }
{
    (word >> 8) % 256
}
