// A header's label as the code holds it: the kind's name in a word, and where the packet goes as a number; and the label as text.
#![tactic(auto)]

ghost use Rattle.std.specs.Prelude.{◌≡◌, ◌++◌, ◌%◌, ◌≤◌};
ghost use Rattle.text.specs.Text.{Put, ascii};
ghost use Rattle.packet_text.specs.Labels.{kind_text};
ghost use Rattle.pairs.specs.declared.Kind.TheVariants.{Memory as MemoryOf, Io as IoOf, Config as ConfigOf, Completion as CompletionOf};
ghost use Rattle.packet.specs.Fields.{kind_of};
ghost use Rattle.trace_label.specs.Word.{name_in, Names, way_text, Over};

use packet::Packet;
use pairs::{CompletionKind, ConfigKind, IoKind, MemoryKind, MessageKind};
use text::{put_named, put_text};

// What a header is labelled with, made before its line is begun: a space and the kind's name or `-` in a word, where the packet goes, and
// the owner's number or the refusal's.
#[derive(Clone, Copy)]
pub struct Label {
    pub name: u64,
    pub way: u8,
    pub number: u16,
}

// Where a packet goes. As plain numbers a label is quicker than as an enum (docs/PROVING.md).
pub const OWNER: u8 = 0;

pub const REFUSED: u8 = 1;

pub const ALL: u8 = 2;

pub const PORT: u8 = 3;

// Not told by a header's bytes alone: it takes a packet.
pub const UNTOLD: u8 = 4;

// The name of a header that is refused: ` -`.
pub const NONE: u64 = 0x202d000000000002;

pub fn untold() -> Label
    ensures { result.way ≡ 4 }
{
    Label {
        name: NONE,
        way: UNTOLD,
        number: 0,
    }
}

// ---- names

// A space and the kind's name, as it was read and not as it arrives: a CfgRd1 stays one. The last byte says how many bytes they are.
pub fn name_of(p: Packet) -> u64
    ensures { Names result (ascii " " ++ kind_text (kind_of p)) }
{
    match p {
        Packet::Memory(k, _, _, _) => name_of_memory(k),
        Packet::Io(k, _, _, _) => name_of_io(k),
        Packet::Config(k, _, _, _) => name_of_config(k),
        Packet::Completion(k, _, _) => name_of_completion(k),
        Packet::Message(k, _, _, _, _) => match k {
            MessageKind::Msg => 0x204d736700000004,
            MessageKind::MsgD => 0x204d736744000005,
        },
    }
}

pub fn name_of_memory(k: MemoryKind) -> u64
    ensures { Names result (ascii " " ++ kind_text (MemoryOf k)) }
{
    match k {
        MemoryKind::MRd => 0x204d526400000004,
        MemoryKind::MRdLk => 0x204d52644c6b0006,
        MemoryKind::MWr => 0x204d577200000004,
    }
}

pub fn name_of_io(k: IoKind) -> u64
    ensures { Names result (ascii " " ++ kind_text (IoOf k)) }
{
    match k {
        IoKind::IORd => 0x20494f5264000005,
        IoKind::IOWr => 0x20494f5772000005,
    }
}

pub fn name_of_config(k: ConfigKind) -> u64
    ensures { Names result (ascii " " ++ kind_text (ConfigOf k)) }
{
    match k {
        ConfigKind::CfgRd0 => 0x2043666752643007,
        ConfigKind::CfgWr0 => 0x2043666757723007,
        ConfigKind::CfgRd1 => 0x2043666752643107,
        ConfigKind::CfgWr1 => 0x2043666757723107,
    }
}

pub fn name_of_completion(k: CompletionKind) -> u64
    ensures { Names result (ascii " " ++ kind_text (CompletionOf k)) }
{
    match k {
        CompletionKind::Cpl => 0x2043706c00000004,
        CompletionKind::CplD => 0x2043706c44000005,
        CompletionKind::CplLk => 0x2043706c4c6b0006,
        CompletionKind::CplDLk => 0x2043706c444c6b07,
    }
}

// ---- a label as text

// Where there is room for the word it is stored whole, and what is put next stands over the rest of it.
pub fn put_name(out: &mut [u8], start: usize, name: u64) -> usize
    requires { name % 256 ≤ 8 }
    ensures { Over out.old start (name_in name) out.new result }
{
    let at = text::place(out, start);
    if out.len() - at < 8 {
        return put_short(out, start, name);
    }
    endian::write_be64(out, at, name);
    at + (name % 256) as usize
}

fn put_short(out: &mut [u8], at: usize, name: u64) -> usize
    ensures { Put out.old at (name_in name) out.new result }
{
    let mut word = [0u8; 8];
    endian::write_be64(&mut word, 0, name);
    let count = (name % 256) as usize;
    put_text(out, at, text::front(&word, count))
}

pub fn put_way(out: &mut [u8], at: usize, way: u8, number: u16) -> usize
    ensures { Put out.old at (way_text way number) out.new result }
{
    if way == OWNER {
        return put_named(out, at, b" owner ", number as u64);
    }
    if way == REFUSED {
        return put_named(out, at, b" refused ", number as u64);
    }
    if way == ALL {
        return put_text(out, at, b" owner all");
    }
    put_text(out, at, b" owner port")
}
