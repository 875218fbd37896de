// The fields of a statement: NAME=VALUE, in any order, up to the line's end.
ghost use Rattle.std.specs.Prelude.{◌≤◌};
ghost use Rattle.lexer.specs.Left.{left_of};

use super::Mistake;
use language::Slot::{May, Must};
use language::{Field, Named, Slot, Want};
use lexer::{Kind, Token, Tokens};

pub const BOARD: &[Slot] = &[Must(Field::Tiles), Must(Field::Memory)];

pub const ACTIVITY: &[Slot] = &[Must(Field::Id)];

pub const SEND: &[Slot] = &[
    Must(Field::Act),
    Must(Field::CurCrd),
    Must(Field::MaxCrd),
    Must(Field::MsgSz),
    Must(Field::TgtTile),
    Must(Field::TgtEp),
    May(Field::TgtChip),
    May(Field::CrdEp),
    May(Field::Reply),
    May(Field::Label),
];

pub const RECEIVE: &[Slot] = &[
    Must(Field::Act),
    Must(Field::Slots),
    Must(Field::SlotSize),
    Must(Field::Buffer),
    Must(Field::RplEps),
    May(Field::Wpos),
    May(Field::Rpos),
    May(Field::Occupied),
    May(Field::Unread),
];

pub const MEMORY: &[Slot] = &[
    Must(Field::Act),
    Must(Field::Rw),
    Must(Field::Tile),
    Must(Field::Addr),
    Must(Field::Size),
    May(Field::Chip),
];

pub const COMMAND: &[Slot] = &[
    May(Field::Addr),
    May(Field::Size),
    May(Field::Arg0),
    May(Field::Arg1),
];

pub const ANY_COMMAND: &[Slot] = &[
    May(Field::Addr),
    May(Field::Size),
    Must(Field::Opcode),
    May(Field::Arg0),
    May(Field::Arg1),
];

pub const XCHG_ACT: &[Slot] = &[Must(Field::Arg0)];

pub const PRIVILEGED: &[Slot] = &[Must(Field::Opcode), May(Field::Arg0), May(Field::Arg1)];

pub const EXPECT: &[Slot] = &[May(Field::Arg1)];

// The values that were given, each at its field's number.
#[derive(Clone, Copy)]
pub struct Values {
    given: [Option<u64>; Field::COUNT],
}

impl Values {
    fn new() -> Self {
        Values {
            given: [None; Field::COUNT],
        }
    }

    pub fn get(&self, field: Field) -> Option<u64> {
        self.given.get(field as usize).copied().flatten()
    }

    // 0 where the field was left out.
    pub fn number(&self, field: Field) -> u64 {
        self.get(field).unwrap_or(0)
    }

    // The same as a type that the field's values fit, since they were checked.
    pub fn fitting<T: TryFrom<u64> + Default + Drop>(&self, field: Field) -> T
    where
        T::Error: Drop,
    {
        T::try_from(self.number(field)).unwrap_or_default()
    }

    fn set(&mut self, field: Field, value: u64) {
        if let Some(given) = self.given.get_mut(field as usize) {
            *given = Some(value);
        }
    }
}

// The field whose name is a token, where the statement has it and it was not given before.
fn field<'a>(
    found: Token<'a>,
    slots: &'static [Slot],
    values: &Values,
) -> Result<Field, Mistake<'a>> {
    let wrong = |want| Err(Mistake { found, want });
    if slots.is_empty() {
        return wrong(Want::LineEnd);
    }
    for slot in slots {
        let field = slot.field();
        if field.name().as_bytes() == found.text {
            return match values.get(field) {
                None => Ok(field),
                Some(_) => wrong(Want::NotTwice),
            };
        }
    }
    wrong(Want::FieldOf(slots))
}

fn equals<'a>(tokens: &mut Tokens<'a>) -> Result<(), Mistake<'a>>
    ensures { left_of tokens.new ≤ left_of tokens.old }
{
    let found = tokens.take_or_end();
    match found.kind {
        Kind::Equals => Ok(()),
        _ => Err(Mistake {
            found,
            want: Want::Equals,
        }),
    }
}

// The value of a field, a number or a name that stands for one.
fn value<'a>(tokens: &mut Tokens<'a>, field: Field) -> Result<u64, Mistake<'a>>
    ensures { left_of tokens.new ≤ left_of tokens.old }
{
    let found = tokens.take_or_end();
    let value = match found.kind {
        Kind::Number(Ok(value)) if field.allows(value) => Some(value),
        Kind::Word => field.value_of(found.text),
        _ => None,
    };
    value.ok_or(Mistake {
        found,
        want: Want::Value(field),
    })
}

// The line's end, where all fields are given that must be.
fn whole<'a>(found: Token<'a>, slots: &'static [Slot], values: &Values) -> Result<(), Mistake<'a>> {
    for slot in slots {
        if let Must(field) = *slot
            && values.get(field).is_none()
        {
            return Err(Mistake {
                found,
                want: Want::Must(field),
            });
        }
    }
    Ok(())
}

pub fn read<'a>(tokens: &mut Tokens<'a>, slots: &'static [Slot]) -> Result<Values, Mistake<'a>> {
    let mut values = Values::new();
    while let Some(found) = tokens.next() {
        let field = field(found, slots, &values)?;
        equals(tokens)?;
        values.set(field, value(tokens, field)?);
    }
    whole(tokens.peek(), slots, &values)?;
    Ok(values)
}

// The end of a statement that has no fields.
pub fn none<'a>(tokens: &mut Tokens<'a>) -> Result<(), Mistake<'a>> {
    read(tokens, &[])?;
    Ok(())
}
