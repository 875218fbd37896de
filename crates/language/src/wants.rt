// What can be expected where a mistake was found, in words.
use super::{Field, Named, Slot};
use std::fmt::{self, Formatter, Write};

#[derive(Clone, Copy, Debug)]
pub enum Want {
    Statement,
    BoardFirst,
    BoardOnce,
    BoardForm,
    AnswerBefore,
    EndpointKind,
    // A number from 0 to the largest one that is admitted.
    Tile(u64),
    Endpoint(u64),
    Address(u64),
    Word(u64),
    // The same, from 1 on.
    Count(u64),
    Pages(u64),
    Colon,
    Byte,
    ClosingQuote,
    // No more bytes than find a place.
    Room(u64),
    AnswerName,
    YesOrNo,
    NoArg1,
    FieldOf(&'static [Slot]),
    Equals,
    Value(Field),
    Must(Field),
    NotTwice,
    LineEnd,
}

// What a field takes.
fn value<W: Write>(f: &mut Formatter<W>, field: Field) -> fmt::Result {
    let name = field.name();
    let most = field.most();
    match field {
        Field::Tiles => write!(f, "{name}, a number from 1 to {most}"),
        Field::Memory => write!(f, "{name}, a multiple of 4096 from 4096 to {most}"),
        Field::Rw => write!(f, "{name}, a number from 0 to {most}, or r, w or rw"),
        Field::CurCrd | Field::MaxCrd => {
            write!(f, "{name}, a number from 0 to {most}, or unlimited")
        }
        Field::CrdEp | Field::RplEps | Field::Arg0 => {
            write!(f, "{name}, a number from 0 to {most}, or none")
        }
        _ => write!(f, "{name}, a number from 0 to {most}"),
    }
}

// One of a statement's fields.
fn field_of<W: Write>(f: &mut Formatter<W>, slots: &[Slot]) -> fmt::Result {
    f.write_str("a field of this statement:")?;
    for slot in slots {
        let name = slot.field().name();
        write!(f, " {name}")?;
    }
    Ok(())
}

impl fmt::Display for Want {
    fn fmt<W: Write>(&self, f: &mut Formatter<W>) -> fmt::Result {
        match *self {
            Want::Statement => f.write_str("a statement"),
            Want::BoardFirst => f.write_str("board, before any other statement"),
            Want::BoardOnce => f.write_str("board only once"),
            Want::BoardForm => f.write_str("tiles and memory, or pages"),
            Want::AnswerBefore => f.write_str("a statement that answers right before it"),
            Want::EndpointKind => f.write_str("a kind: send, receive, memory or words"),
            Want::Tile(most) => write!(f, "a tile, a number from 0 to {most}"),
            Want::Endpoint(most) => write!(f, "an endpoint, a number from 0 to {most}"),
            Want::Address(most) => write!(f, "an address, a number from 0 to {most}"),
            Want::Word(most) => write!(f, "a word, a number from 0 to {most}"),
            Want::Count(most) => write!(f, "how many bytes, a number from 1 to {most}"),
            Want::Pages(most) => write!(f, "a tile's pages, a number from 1 to {most}"),
            Want::Colon => f.write_str("':'"),
            Want::Byte => f.write_str("a byte, 0 to 255, or text in double quotes"),
            Want::ClosingQuote => f.write_str("a closing quote"),
            Want::Room(bytes) => {
                write!(f, "no more bytes than the {bytes} up to the memory's end")
            }
            Want::AnswerName => f.write_str("an answer's name, such as NONE or NO_CREDITS"),
            Want::YesOrNo => f.write_str("yes or no"),
            Want::NoArg1 => f.write_str("arg1 only after a command"),
            Want::FieldOf(slots) => field_of(f, slots),
            Want::Equals => f.write_str("'='"),
            Want::Value(field) => value(f, field),
            Want::Must(field) => write!(f, "field {}, which must be given", field.name()),
            Want::NotTwice => f.write_str("a field that was not given already"),
            Want::LineEnd => f.write_str("the line's end"),
        }
    }
}
