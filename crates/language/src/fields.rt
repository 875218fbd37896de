// The fields of statements, and what each takes.
use super::Named;

#[derive(Clone, Copy, Debug, PartialEq, Eq)]
pub enum Field {
    Tiles,
    Memory,
    Id,
    Act,
    CurCrd,
    MaxCrd,
    MsgSz,
    TgtTile,
    TgtEp,
    TgtChip,
    CrdEp,
    Reply,
    Label,
    Slots,
    SlotSize,
    Buffer,
    RplEps,
    Wpos,
    Rpos,
    Occupied,
    Unread,
    Rw,
    Tile,
    Addr,
    Size,
    Chip,
    Opcode,
    Arg0,
    Arg1,
}

// A field that a statement has: one that must be given, or one that is 0 where it is left out.
#[derive(Clone, Copy, Debug, PartialEq, Eq)]
pub enum Slot {
    Must(Field),
    May(Field),
}

impl Slot {
    pub fn field(self) -> Field {
        match self {
            Slot::Must(field) | Slot::May(field) => field,
        }
    }
}

impl Field {
    // So many fields there are.
    pub const COUNT: usize = 29;

    // The largest value, as the field's bits allow.
    pub fn most(self) -> u64 {
        match self {
            Field::Reply => 1,
            Field::Rw => 3,
            Field::Tiles => 8,
            Field::CurCrd | Field::MaxCrd | Field::MsgSz => 63,
            Field::TgtChip | Field::Chip => 63,
            Field::Slots | Field::SlotSize | Field::Wpos | Field::Rpos => 63,
            Field::TgtTile | Field::Tile => 255,
            Field::Id | Field::Act | Field::TgtEp | Field::CrdEp | Field::RplEps => 65535,
            Field::Memory => 65536,
            Field::Occupied | Field::Unread => 0xFFFF_FFFF,
            Field::Label | Field::Buffer | Field::Addr | Field::Size => u64::MAX,
            Field::Opcode | Field::Arg0 | Field::Arg1 => u64::MAX,
        }
    }

    // Is this a value that the field may have?
    pub fn allows(self, value: u64) -> bool {
        match self {
            Field::Tiles => value != 0 && value <= self.most(),
            Field::Memory => board::memory_allowed(value),
            _ => value <= self.most(),
        }
    }

    // The number that a name stands for, in a field that takes it.
    // Names are bytes here: a script need not be UTF-8.
    pub fn value_of(self, name: &[u8]) -> Option<u64> {
        match (self, name) {
            (Field::CrdEp | Field::RplEps | Field::Arg0, b"none") => Some(65535),
            (Field::CurCrd | Field::MaxCrd, b"unlimited") => Some(63),
            (Field::Rw, b"r") => Some(1),
            (Field::Rw, b"w") => Some(2),
            (Field::Rw, b"rw") => Some(3),
            _ => None,
        }
    }
}

impl Named for Field {
    fn all() -> &'static [Field] {
        &[
            Field::Tiles,
            Field::Memory,
            Field::Id,
            Field::Act,
            Field::CurCrd,
            Field::MaxCrd,
            Field::MsgSz,
            Field::TgtTile,
            Field::TgtEp,
            Field::TgtChip,
            Field::CrdEp,
            Field::Reply,
            Field::Label,
            Field::Slots,
            Field::SlotSize,
            Field::Buffer,
            Field::RplEps,
            Field::Wpos,
            Field::Rpos,
            Field::Occupied,
            Field::Unread,
            Field::Rw,
            Field::Tile,
            Field::Addr,
            Field::Size,
            Field::Chip,
            Field::Opcode,
            Field::Arg0,
            Field::Arg1,
        ]
    }

    fn name(self) -> &'static str {
        match self {
            Field::Tiles => "tiles",
            Field::Memory => "memory",
            Field::Id => "id",
            Field::Act => "act",
            Field::CurCrd => "cur_crd",
            Field::MaxCrd => "max_crd",
            Field::MsgSz => "msg_sz",
            Field::TgtTile => "tgt_tile",
            Field::TgtEp => "tgt_ep",
            Field::TgtChip => "tgt_chip",
            Field::CrdEp => "crd_ep",
            Field::Reply => "reply",
            Field::Label => "label",
            Field::Slots => "slots",
            Field::SlotSize => "slot_size",
            Field::Buffer => "buffer",
            Field::RplEps => "rpl_eps",
            Field::Wpos => "wpos",
            Field::Rpos => "rpos",
            Field::Occupied => "occupied",
            Field::Unread => "unread",
            Field::Rw => "rw",
            Field::Tile => "tile",
            Field::Addr => "addr",
            Field::Size => "size",
            Field::Chip => "chip",
            Field::Opcode => "opcode",
            Field::Arg0 => "arg0",
            Field::Arg1 => "arg1",
        }
    }
}
