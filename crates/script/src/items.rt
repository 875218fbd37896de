// The items of `bytes`: what is put into a tile's memory.
use super::Mistake;
use language::Want;
use lexer::{Kind, Tokens};

#[derive(Clone, Copy)]
pub enum Item<'a> {
    Byte([u8; 1]),
    Text(&'a [u8]),
}

impl<'a> Item<'a> {
    pub fn as_bytes(&self) -> &[u8] {
        match self {
            Item::Byte(byte) => byte,
            Item::Text(text) => text,
        }
    }
}

// A token as an item, or what was expected in its place.
impl<'a> TryFrom<Kind<'a>> for Item<'a> {
    type Error = Want;

    fn try_from(kind: Kind<'a>) -> Result<Self, Want> {
        match kind {
            Kind::Number(Ok(value)) => match u8::try_from(value) {
                Ok(byte) => Ok(Item::Byte([byte])),
                Err(_) => Err(Want::Byte),
            },
            Kind::Text(inside) => Ok(Item::Text(inside)),
            Kind::OpenText => Err(Want::ClosingQuote),
            _ => Err(Want::Byte),
        }
    }
}

// The items up to the line's end, one at least, of which no more come than find a place.
pub fn read<'a>(tokens: &mut Tokens<'a>, room: u64) -> Result<Tokens<'a>, Mistake<'a>> {
    let items = *tokens;
    let found = items.peek();
    if let Kind::End = found.kind {
        let want = Want::Byte;
        return Err(Mistake { found, want });
    }
    let mut left = room;
    for found in tokens.by_ref() {
        let item = Item::try_from(found.kind).map_err(|want| Mistake { found, want })?;
        let want = Want::Room(left);
        left = left
            .checked_sub(item.as_bytes().len() as u64)
            .ok_or(Mistake { found, want })?;
    }
    Ok(items)
}
