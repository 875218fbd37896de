// The statements of a script, one to a line (docs/SCRIPT.md). `parse` reads a line: it answers the statement, nothing where the
// line is blank, or the mistake.
#![tactic(auto)]

mod contexts;
mod endpoints;
mod fields;
mod items;
mod operands;
mod statements;

use board::Board;
use command::Registers;
pub use contexts::{Before, Context};
use fields::Values;
pub use items::Item;
use language::{Field, Keyword, Want};
use lexer::{Token, Tokens};
pub use statements::{Address, Given, Place, Statement};

// What stands where something else was expected. At the line's end the token has no byte.
#[derive(Clone, Copy, Debug)]
pub struct Mistake<'a> {
    pub found: Token<'a>,
    pub want: Want,
}

// The rest of a `board`: `pages`, or the fields. A mistake right after `board` may be one of either form, so both are told.
fn board<'a>(tokens: &mut Tokens<'a>) -> Result<Board, Mistake<'a>> {
    let found = tokens.peek();
    if matches!(found.text, b"pages") {
        tokens.take_or_end();
        return operands::pages(tokens);
    }
    match fields::read(tokens, fields::BOARD) {
        Ok(values) => Ok(Board {
            tiles: values.number(Field::Tiles),
            pages: contexts::alike(values.number(Field::Memory)),
        }),
        Err(mistake) if mistake.found.start == found.start => Err(Mistake {
            found,
            want: Want::BoardForm,
        }),
        Err(mistake) => Err(mistake),
    }
}

fn registers(values: &Values) -> Registers {
    Registers {
        arg0: values.number(Field::Arg0),
        addr: values.number(Field::Addr),
        size: values.number(Field::Size),
        arg1: values.number(Field::Arg1),
    }
}

// A command by its name, or by the opcode's number.
fn command<'a>(keyword: Keyword, tokens: &mut Tokens<'a>) -> Result<Statement<'a>, Mistake<'a>> {
    let at = operands::place(tokens, u64::MAX, u64::MAX)?;
    let (opcode, values) = match keyword {
        Keyword::Named(opcode) => (opcode.number(), fields::read(tokens, fields::COMMAND)?),
        _ => {
            let values = fields::read(tokens, fields::ANY_COMMAND)?;
            (values.number(Field::Opcode), values)
        }
    };
    Ok(Statement::Command {
        keyword,
        at,
        opcode,
        registers: registers(&values),
    })
}

// A privileged command by its name, or by the opcode's number.
fn privileged<'a>(keyword: Keyword, tokens: &mut Tokens<'a>) -> Result<Statement<'a>, Mistake<'a>> {
    let tile = operands::tile(tokens, u64::MAX)?;
    let (opcode, values) = match keyword {
        Keyword::XchgAct => (4, fields::read(tokens, fields::XCHG_ACT)?),
        _ => {
            let values = fields::read(tokens, fields::PRIVILEGED)?;
            (values.number(Field::Opcode), values)
        }
    };
    Ok(Statement::Privileged {
        keyword,
        tile,
        opcode,
        arg0: values.number(Field::Arg0),
        arg1: values.number(Field::Arg1),
    })
}

// ARG_1 can be expected of a command only.
fn expect<'a>(tokens: &mut Tokens<'a>, before: Before) -> Result<Statement<'a>, Mistake<'a>> {
    let outcome = operands::outcome(tokens, before)?;
    let found = tokens.peek();
    if matches!(found.text, b"arg1") && !before.may_be_command() {
        return Err(Mistake {
            found,
            want: Want::NoArg1,
        });
    }
    let values = fields::read(tokens, fields::EXPECT)?;
    Ok(Statement::Expect {
        outcome,
        arg1: values.get(Field::Arg1),
    })
}

fn activity<'a>(tokens: &mut Tokens<'a>, last: u64) -> Result<Statement<'a>, Mistake<'a>> {
    let tile = operands::tile(tokens, last)?;
    let values = fields::read(tokens, fields::ACTIVITY)?;
    Ok(Statement::Activity {
        tile,
        id: values.fitting(Field::Id),
    })
}

fn endpoint<'a>(tokens: &mut Tokens<'a>) -> Result<Statement<'a>, Mistake<'a>> {
    let at = operands::place(tokens, u64::MAX, u64::MAX)?;
    let given = endpoints::given(tokens)?;
    Ok(Statement::Endpoint { at, given })
}

fn bytes<'a>(tokens: &mut Tokens<'a>, board: Board) -> Result<Statement<'a>, Mistake<'a>> {
    let to = operands::address(tokens, board)?;
    let items = items::read(tokens, to.room(board))?;
    Ok(Statement::Bytes { to, items })
}

fn dump<'a>(tokens: &mut Tokens<'a>, board: Board) -> Result<Statement<'a>, Mistake<'a>> {
    let from = operands::address(tokens, board)?;
    let count = operands::count(tokens, from.room(board))?;
    Ok(Statement::Dump { from, count })
}

// The statement that a keyword starts, up to the line's end.
fn statement<'a>(
    keyword: Keyword,
    tokens: &mut Tokens<'a>,
    known: Board,
    before: Before,
) -> Result<Statement<'a>, Mistake<'a>> {
    let last = known.tiles.saturating_sub(1);
    let statement = match keyword {
        Keyword::Board => Statement::Board(board(tokens)?),
        Keyword::Activity => activity(tokens, last)?,
        Keyword::Endpoint => endpoint(tokens)?,
        Keyword::Invalidate => {
            Statement::Invalidate(operands::place(tokens, u64::MAX, u64::MAX)?)
        }
        Keyword::Bytes => bytes(tokens, known)?,
        Keyword::Named(_) | Keyword::Command => command(keyword, tokens)?,
        Keyword::XchgAct | Keyword::Privileged => privileged(keyword, tokens)?,
        Keyword::Respond => Statement::Respond {
            tile: operands::tile(tokens, u64::MAX)?,
        },
        Keyword::Wiring => Statement::Wiring,
        Keyword::Expect => expect(tokens, before)?,
        Keyword::Show => Statement::Show(operands::place(tokens, last, 63)?),
        Keyword::Dump => dump(tokens, known)?,
        Keyword::Waiting => Statement::Waiting {
            tile: operands::tile(tokens, last)?,
        },
        Keyword::Sheet => Statement::Sheet,
        Keyword::Drawing => Statement::Drawing,
    };
    fields::none(tokens)?;
    Ok(statement)
}

// May the statement of a keyword stand here? Else what was expected in its place.
fn in_its_place(keyword: Keyword, context: Context) -> Result<(), Want> {
    match keyword {
        Keyword::Board if context.has_read_board() => Err(Want::BoardOnce),
        Keyword::Board => Ok(()),
        _ if context.board().is_none() => Err(Want::BoardFirst),
        Keyword::Expect if context.before == Before::Nothing => Err(Want::AnswerBefore),
        _ => Ok(()),
    }
}

// What a line says. Before `board` no tile is known.
pub fn parse<'a>(line: &'a [u8], context: Context) -> Result<Option<Statement<'a>>, Mistake<'a>> {
    let mut tokens = Tokens::new(line);
    let Some(found) = tokens.next() else {
        return Ok(None);
    };
    let Some(keyword) = language::find(found.text) else {
        let want = Want::Statement;
        return Err(Mistake { found, want });
    };
    if let Err(want) = in_its_place(keyword, context) {
        return Err(Mistake { found, want });
    }
    let known = context.board().unwrap_or(Board { tiles: 0, pages: 0 });
    let statement = statement(keyword, &mut tokens, known, context.before)?;
    Ok(Some(statement))
}
