// Endpoints as statements give them.
use super::fields::{self, Values};
use super::{Given, Mistake, operands};
use endpoint::{MemoryFields, ReceiveFields, SendFields, Words};
use language::{EndpointKind, Field, Want};
use lexer::Tokens;

fn send(values: &Values) -> SendFields {
    SendFields {
        act: values.fitting(Field::Act),
        cur_crd: values.fitting(Field::CurCrd),
        max_crd: values.fitting(Field::MaxCrd),
        msg_sz: values.fitting(Field::MsgSz),
        crd_ep: values.fitting(Field::CrdEp),
        reply: values.number(Field::Reply) == 1,
        tgt_ep: values.fitting(Field::TgtEp),
        tgt_tile: values.fitting(Field::TgtTile),
        tgt_chip: values.fitting(Field::TgtChip),
        label: values.number(Field::Label),
    }
}

fn receive(values: &Values) -> ReceiveFields {
    ReceiveFields {
        act: values.fitting(Field::Act),
        rpl_eps: values.fitting(Field::RplEps),
        slots: values.fitting(Field::Slots),
        slot_size: values.fitting(Field::SlotSize),
        wpos: values.fitting(Field::Wpos),
        rpos: values.fitting(Field::Rpos),
        buffer: values.number(Field::Buffer),
        occupied: values.fitting(Field::Occupied),
        unread: values.fitting(Field::Unread),
    }
}

fn memory(values: &Values) -> MemoryFields {
    MemoryFields {
        act: values.fitting(Field::Act),
        rw: values.fitting(Field::Rw),
        tile: values.fitting(Field::Tile),
        chip: values.fitting(Field::Chip),
        addr: values.number(Field::Addr),
        size: values.number(Field::Size),
    }
}

fn words<'a>(tokens: &mut Tokens<'a>) -> Result<Words, Mistake<'a>> {
    let first = operands::word(tokens)?;
    let second = operands::word(tokens)?;
    let third = operands::word(tokens)?;
    Ok(Words {
        first,
        second,
        third,
    })
}

// The kind of an endpoint, and what it is made of.
pub fn given<'a>(tokens: &mut Tokens<'a>) -> Result<Given, Mistake<'a>> {
    let found = tokens.take_or_end();
    let Some(kind) = language::find(found.text) else {
        return Err(Mistake {
            found,
            want: Want::EndpointKind,
        });
    };
    match kind {
        EndpointKind::Send => Ok(Given::Send(send(&fields::read(tokens, fields::SEND)?))),
        EndpointKind::Receive => Ok(Given::Receive(receive(&fields::read(
            tokens,
            fields::RECEIVE,
        )?))),
        EndpointKind::Memory => Ok(Given::Memory(memory(&fields::read(tokens, fields::MEMORY)?))),
        EndpointKind::Words => Ok(Given::Words(words(tokens)?)),
    }
}
