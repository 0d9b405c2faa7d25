// The kinds that byte 0 tells by comparison, each with the table's row as its proof: memory, I/O and configuration requests, and
// completions. Who has a path of its own for a kind needs no search in the table, and no packet.
// A test leaves out the bit of byte 0 that its kinds may have or not: bit 5, the form, of a memory request, and of completions and
// configuration requests bit 6, whether data follow. What is left is a range and one comparison, where each byte was a branch of its own.
#![tactic(auto)]

ghost use Rattle.std.specs.Prelude.{◌≡◌};
ghost use Rattle.tlp_kinds.specs.Kinds.{is_memory, memory_kind, memory_form, is_io, io_kind, is_config, config_kind, is_completion};
ghost use Rattle.tlp_kinds.specs.Kinds.{completion_kind};

use pairs::{CompletionKind, ConfigKind, IoKind, MemoryKind};

pub fn is_memory(b: u8) -> bool
    ensures { result ≡ is_memory b }
{
    let formless = b / 64 * 64 + b % 32;
    matches!(formless, 0x00..=0x01) | (formless == 0x40)
}

pub fn memory_kind(b: u8) -> MemoryKind
    ensures { result ≡ memory_kind b }
{
    match b {
        0x40 | 0x60 => MemoryKind::MWr,
        0x01 | 0x21 => MemoryKind::MRdLk,
        _ => MemoryKind::MRd,
    }
}

pub fn memory_form(b: u8) -> u8
    ensures { result ≡ memory_form b }
{
    3 + b / 32 % 2
}

pub fn is_io(b: u8) -> bool
    ensures { result ≡ is_io b }
{
    matches!(b, 0x02 | 0x42)
}

pub fn io_kind(b: u8) -> IoKind
    ensures { result ≡ io_kind b }
{
    if b == 0x02 {
        IoKind::IORd
    } else {
        IoKind::IOWr
    }
}

pub fn is_config(b: u8) -> bool
    ensures { result ≡ is_config b }
{
    matches!(b % 64, 0x04..=0x05) & (b < 128)
}

pub fn config_kind(b: u8) -> ConfigKind
    ensures { result ≡ config_kind b }
{
    match b {
        0x04 => ConfigKind::CfgRd0,
        0x44 => ConfigKind::CfgWr0,
        0x05 => ConfigKind::CfgRd1,
        _ => ConfigKind::CfgWr1,
    }
}

pub fn is_completion(b: u8) -> bool
    ensures { result ≡ is_completion b }
{
    matches!(b % 64, 0x0a..=0x0b) & (b < 128)
}

pub fn completion_kind(b: u8) -> CompletionKind
    ensures { result ≡ completion_kind b }
{
    match b {
        0x0a => CompletionKind::Cpl,
        0x4a => CompletionKind::CplD,
        0x0b => CompletionKind::CplLk,
        _ => CompletionKind::CplDLk,
    }
}
