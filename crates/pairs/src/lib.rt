// The Fmt and Type pairs of a TLP header's byte 0: one constant table, searched by byte for the reader and by kind and form for the writer.
#![tactic(auto)]

ghost use Rattle.std.specs.Prelude.{◌≡◌, ◌<◌};
ghost use Rattle.pairs.specs.Pairs.{table, kind_named, routing_number, kind_number, key_of, is_key, find_pair, find_key};
ghost use Rattle.pairs.specs.Pairs.{answer_of, pair_of, row_of};

#[derive(Clone, Copy)]
pub enum MemoryKind {
    MRd,
    MRdLk,
    MWr,
}

#[derive(Clone, Copy)]
pub enum IoKind {
    IORd,
    IOWr,
}

#[derive(Clone, Copy)]
pub enum ConfigKind {
    CfgRd0,
    CfgWr0,
    CfgRd1,
    CfgWr1,
}

#[derive(Clone, Copy)]
pub enum CompletionKind {
    Cpl,
    CplD,
    CplLk,
    CplDLk,
}

#[derive(Clone, Copy)]
pub enum MessageKind {
    Msg,
    MsgD,
}

// How a message goes, by the last three bits of its Type: 000 to 101. The base specification reserves 110 and 111.
#[derive(Clone, Copy)]
pub enum MessageRouting {
    ToRoot,
    ByAddress,
    ById,
    Broadcast,
    Local,
    Gathered,
}

#[derive(Clone, Copy)]
pub enum Kind {
    Memory(MemoryKind),
    Io(IoKind),
    Config(ConfigKind),
    Completion(CompletionKind),
    Message(MessageKind, MessageRouting),
    FetchAdd,
    Swap,
    Cas,
}

// What a kind is called, a message with its routing: one byte, so that a row is four bytes and a search looks at it by one load.
#[derive(Clone, Copy)]
pub enum Name {
    MRd,
    MRdLk,
    MWr,
    IORd,
    IOWr,
    CfgRd0,
    CfgWr0,
    CfgRd1,
    CfgWr1,
    Cpl,
    CplD,
    CplLk,
    CplDLk,
    MsgToRoot,
    MsgByAddress,
    MsgById,
    MsgBroadcast,
    MsgLocal,
    MsgGathered,
    MsgDToRoot,
    MsgDByAddress,
    MsgDById,
    MsgDBroadcast,
    MsgDLocal,
    MsgDGathered,
    FetchAdd,
    Swap,
    Cas,
}

// One pair: byte 0 of the header, Fmt in bits 7:5 and Type in 4:0, its kind's name, the header's length in dwords (3 or 4),
// and whether the codec carries it.
#[derive(Clone, Copy)]
pub struct Row {
    pub byte: u8,
    pub name: Name,
    pub form: u8,
    pub carried: bool,
}

// What the table says of a byte 0, or of a kind and form.
#[derive(Clone, Copy)]
pub enum Pair {
    Carried(Row),
    NotCarried,
    Unknown,
}

// Fmt 100 is a TLP prefix, whatever the Type: known and not carried.
const PREFIX_FMT: u8 = 0b100;

// The rows in document 01's order: the carried pairs, messages (Type 10rrr) last, then the AtomicOps.
const ROWS: usize = 34;

const TABLE: [Row; ROWS] = [
    Row {
        byte: 0b000_00000,
        name: Name::MRd,
        form: 3,
        carried: true,
    },
    Row {
        byte: 0b001_00000,
        name: Name::MRd,
        form: 4,
        carried: true,
    },
    Row {
        byte: 0b000_00001,
        name: Name::MRdLk,
        form: 3,
        carried: true,
    },
    Row {
        byte: 0b001_00001,
        name: Name::MRdLk,
        form: 4,
        carried: true,
    },
    Row {
        byte: 0b010_00000,
        name: Name::MWr,
        form: 3,
        carried: true,
    },
    Row {
        byte: 0b011_00000,
        name: Name::MWr,
        form: 4,
        carried: true,
    },
    Row {
        byte: 0b000_00010,
        name: Name::IORd,
        form: 3,
        carried: true,
    },
    Row {
        byte: 0b010_00010,
        name: Name::IOWr,
        form: 3,
        carried: true,
    },
    Row {
        byte: 0b000_00100,
        name: Name::CfgRd0,
        form: 3,
        carried: true,
    },
    Row {
        byte: 0b010_00100,
        name: Name::CfgWr0,
        form: 3,
        carried: true,
    },
    Row {
        byte: 0b000_00101,
        name: Name::CfgRd1,
        form: 3,
        carried: true,
    },
    Row {
        byte: 0b010_00101,
        name: Name::CfgWr1,
        form: 3,
        carried: true,
    },
    Row {
        byte: 0b000_01010,
        name: Name::Cpl,
        form: 3,
        carried: true,
    },
    Row {
        byte: 0b010_01010,
        name: Name::CplD,
        form: 3,
        carried: true,
    },
    Row {
        byte: 0b000_01011,
        name: Name::CplLk,
        form: 3,
        carried: true,
    },
    Row {
        byte: 0b010_01011,
        name: Name::CplDLk,
        form: 3,
        carried: true,
    },
    Row {
        byte: 0b001_10000,
        name: Name::MsgToRoot,
        form: 4,
        carried: true,
    },
    Row {
        byte: 0b001_10001,
        name: Name::MsgByAddress,
        form: 4,
        carried: true,
    },
    Row {
        byte: 0b001_10010,
        name: Name::MsgById,
        form: 4,
        carried: true,
    },
    Row {
        byte: 0b001_10011,
        name: Name::MsgBroadcast,
        form: 4,
        carried: true,
    },
    Row {
        byte: 0b001_10100,
        name: Name::MsgLocal,
        form: 4,
        carried: true,
    },
    Row {
        byte: 0b001_10101,
        name: Name::MsgGathered,
        form: 4,
        carried: true,
    },
    Row {
        byte: 0b011_10000,
        name: Name::MsgDToRoot,
        form: 4,
        carried: true,
    },
    Row {
        byte: 0b011_10001,
        name: Name::MsgDByAddress,
        form: 4,
        carried: true,
    },
    Row {
        byte: 0b011_10010,
        name: Name::MsgDById,
        form: 4,
        carried: true,
    },
    Row {
        byte: 0b011_10011,
        name: Name::MsgDBroadcast,
        form: 4,
        carried: true,
    },
    Row {
        byte: 0b011_10100,
        name: Name::MsgDLocal,
        form: 4,
        carried: true,
    },
    Row {
        byte: 0b011_10101,
        name: Name::MsgDGathered,
        form: 4,
        carried: true,
    },
    Row {
        byte: 0b010_01100,
        name: Name::FetchAdd,
        form: 3,
        carried: false,
    },
    Row {
        byte: 0b011_01100,
        name: Name::FetchAdd,
        form: 4,
        carried: false,
    },
    Row {
        byte: 0b010_01101,
        name: Name::Swap,
        form: 3,
        carried: false,
    },
    Row {
        byte: 0b011_01101,
        name: Name::Swap,
        form: 4,
        carried: false,
    },
    Row {
        byte: 0b010_01110,
        name: Name::Cas,
        form: 3,
        carried: false,
    },
    Row {
        byte: 0b011_01110,
        name: Name::Cas,
        form: 4,
        carried: false,
    },
];

// The pair in byte 0 of a header.
pub fn pair_of(byte: u8) -> Pair
    ensures { result ≡ pair_of byte }
{
    if byte / 32 == PREFIX_FMT {
        return Pair::NotCarried;
    }
    answer(find_pair(byte))
}

// The pair that a kind is written with in a form of so many dwords.
pub fn row_of(kind: Kind, form: u8) -> Pair
    ensures { result ≡ row_of kind form }
{
    answer(find_key(key(kind_number(kind), form)))
}

// The whole table.
pub fn rows() -> [Row; ROWS]
    ensures { result ≡ table }
{
    TABLE
}

// The kind that a name stands for.
pub fn kind_named(name: Name) -> Kind
    ensures { result ≡ kind_named name }
{
    match name {
        Name::MRd => Kind::Memory(MemoryKind::MRd),
        Name::MRdLk => Kind::Memory(MemoryKind::MRdLk),
        Name::MWr => Kind::Memory(MemoryKind::MWr),
        Name::IORd => Kind::Io(IoKind::IORd),
        Name::IOWr => Kind::Io(IoKind::IOWr),
        Name::CfgRd0 => Kind::Config(ConfigKind::CfgRd0),
        Name::CfgWr0 => Kind::Config(ConfigKind::CfgWr0),
        Name::CfgRd1 => Kind::Config(ConfigKind::CfgRd1),
        Name::CfgWr1 => Kind::Config(ConfigKind::CfgWr1),
        Name::Cpl => Kind::Completion(CompletionKind::Cpl),
        Name::CplD => Kind::Completion(CompletionKind::CplD),
        Name::CplLk => Kind::Completion(CompletionKind::CplLk),
        Name::CplDLk => Kind::Completion(CompletionKind::CplDLk),
        Name::MsgToRoot => Kind::Message(MessageKind::Msg, MessageRouting::ToRoot),
        Name::MsgByAddress => Kind::Message(MessageKind::Msg, MessageRouting::ByAddress),
        Name::MsgById => Kind::Message(MessageKind::Msg, MessageRouting::ById),
        Name::MsgBroadcast => Kind::Message(MessageKind::Msg, MessageRouting::Broadcast),
        Name::MsgLocal => Kind::Message(MessageKind::Msg, MessageRouting::Local),
        Name::MsgGathered => Kind::Message(MessageKind::Msg, MessageRouting::Gathered),
        Name::MsgDToRoot => Kind::Message(MessageKind::MsgD, MessageRouting::ToRoot),
        Name::MsgDByAddress => Kind::Message(MessageKind::MsgD, MessageRouting::ByAddress),
        Name::MsgDById => Kind::Message(MessageKind::MsgD, MessageRouting::ById),
        Name::MsgDBroadcast => Kind::Message(MessageKind::MsgD, MessageRouting::Broadcast),
        Name::MsgDLocal => Kind::Message(MessageKind::MsgD, MessageRouting::Local),
        Name::MsgDGathered => Kind::Message(MessageKind::MsgD, MessageRouting::Gathered),
        Name::FetchAdd => Kind::FetchAdd,
        Name::Swap => Kind::Swap,
        Name::Cas => Kind::Cas,
    }
}

// A kind's number, by which kinds are compared.
pub fn kind_number(kind: Kind) -> u8
    ensures { result ≡ kind_number kind }
{
    match kind {
        Kind::Memory(k) => k as u8,
        Kind::Io(k) => 3 + k as u8,
        Kind::Config(k) => 5 + k as u8,
        Kind::Completion(k) => 9 + k as u8,
        Kind::Message(k, routing) => match k {
            MessageKind::Msg => 13 + routing_number(routing),
            MessageKind::MsgD => 19 + routing_number(routing),
        },
        Kind::FetchAdd => 25,
        Kind::Swap => 26,
        Kind::Cas => 27,
    }
}

// The last three bits of a message's Type.
pub fn routing_number(routing: MessageRouting) -> u8
    ensures { (result ≡ routing_number routing) × (result < 6) }
{
    routing as u8
}

fn answer(found: Option<Row>) -> Pair
    ensures { result ≡ answer_of found }
{
    let Some(row) = found else {
        return Pair::Unknown;
    };
    if row.carried {
        return Pair::Carried(row);
    }
    Pair::NotCarried
}

fn find_pair(byte: u8) -> Option<Row>
    ensures { result ≡ find_pair byte }
{
    let table = rows();
    for i in 0..ROWS {
        let row = table[i];
        if row.byte == byte {
            return Some(row);
        }
    }
    None
}

fn find_key(wanted: u32) -> Option<Row>
    ensures { result ≡ find_key wanted }
{
    let table = rows();
    for i in 0..ROWS {
        let row = table[i];
        if is_key(row, wanted) {
            return Some(row);
        }
    }
    None
}

fn is_key(row: Row, wanted: u32) -> bool
    ensures { result ≡ is_key wanted row }
{
    let name = row.name;
    key(name_number(name), row.form) == wanted
}

// A kind and a form as one number: with one comparison for each row the compiled search is a jump by the number.
fn key(number: u8, form: u8) -> u32
    ensures { result ≡ key_of number form }
{
    256 * u32::from(form) + u32::from(number)
}

// The number of the kind that a name stands for, with no detour by the kind: a search asks for it row by row.
fn name_number(name: Name) -> u8
    ensures { result ≡ kind_number (kind_named name) }
{
    name as u8
}
