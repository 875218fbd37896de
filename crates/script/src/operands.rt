// The operands of statements: what stands before the fields.
use super::{Address, Before, Mistake, Place};
use board::Board;
use language::{Outcome, Want};
use lexer::{Kind, Tokens};

fn number<'a>(
    tokens: &mut Tokens<'a>,
    least: u64,
    most: u64,
    want: Want,
) -> Result<u64, Mistake<'a>> {
    let found = tokens.take_or_end();
    match found.kind {
        Kind::Number(Ok(value)) if least <= value && value <= most => Ok(value),
        _ => Err(Mistake { found, want }),
    }
}

pub fn tile<'a>(tokens: &mut Tokens<'a>, most: u64) -> Result<u64, Mistake<'a>> {
    number(tokens, 0, most, Want::Tile(most))
}

pub fn word<'a>(tokens: &mut Tokens<'a>) -> Result<u64, Mistake<'a>> {
    number(tokens, 0, u64::MAX, Want::Word(u64::MAX))
}

// How many bytes, of those for which there is room.
pub fn count<'a>(tokens: &mut Tokens<'a>, room: u64) -> Result<u64, Mistake<'a>> {
    number(tokens, 1, room, Want::Count(room))
}

fn colon<'a>(tokens: &mut Tokens<'a>) -> Result<(), Mistake<'a>> {
    let found = tokens.take_or_end();
    match found.kind {
        Kind::Colon => Ok(()),
        _ => Err(Mistake {
            found,
            want: Want::Colon,
        }),
    }
}

// TILE:ENDPOINT, up to the largest of each.
pub fn place<'a>(tokens: &mut Tokens<'a>, tiles: u64, most: u64) -> Result<Place, Mistake<'a>> {
    let tile = tile(tokens, tiles)?;
    colon(tokens)?;
    let endpoint = number(tokens, 0, most, Want::Endpoint(most))?;
    Ok(Place { tile, endpoint })
}

// TILE:ADDRESS, in the memory of that tile.
pub fn address<'a>(tokens: &mut Tokens<'a>, board: Board) -> Result<Address, Mistake<'a>> {
    let tile = tile(tokens, board.tiles.saturating_sub(1))?;
    colon(tokens)?;
    let most = board::size(board, tile).saturating_sub(1);
    let byte = number(tokens, 0, most, Want::Address(most))?;
    Ok(Address { tile, byte })
}

// The page counts of a board's tiles, from tile 0 on: one at least, and 8 at most.
pub fn pages<'a>(tokens: &mut Tokens<'a>) -> Result<Board, Mistake<'a>> {
    let mut board = Board { tiles: 0, pages: 0 };
    for tile in 0..8 {
        if tile > 0 && matches!(tokens.peek().kind, Kind::End) {
            break;
        }
        let count = number(tokens, 1, 16, Want::Pages(16))?;
        board.tiles = tile + 1;
        board.pages |= count << (8 * tile);
    }
    Ok(board)
}

// What is expected of the statement before, an answer of the kind that it gives.
pub fn outcome<'a>(tokens: &mut Tokens<'a>, before: Before) -> Result<Outcome, Mistake<'a>> {
    let found = tokens.take_or_end();
    let outcome = language::find(found.text).filter(|o: &Outcome| before.may_give(*o));
    let want = match before {
        Before::YesOrNo => Want::YesOrNo,
        _ => Want::AnswerName,
    };
    outcome.ok_or(Mistake { found, want })
}
