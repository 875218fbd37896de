// An endpoint as eleven numbers: its kind, the fields of that kind, and zeros (`specs/Fields.antt`).
#![tactic(auto)]

ghost use Rattle.std.specs.Prelude.{◌≡◌, ◌==◌, length, slice_index};
ghost use Rattle.std.specs.List.{list_all, range_with_len};
ghost use Rattle.lists.specs.Fields.{field_values, send_at, receive_at, memory_at, read_list, pack_list};

use answers::{Error, check};
use endpoint::{Endpoint, MemoryFields, ReceiveFields, SendFields, Words};

// The numbers, their order and the number of a kind are the C interface's (`include/tcu.h`): each field stands once in each direction.
// ---- an endpoint into numbers

#[tactic(auto, using(endpoint::proofs::EndpointLaws::flag_as))]
fn send_values(s: SendFields) -> [u64; 11]
    ensures { result ≡ field_values (Endpoint.Send s) }
{
    [
        1,
        u64::from(s.act),
        u64::from(s.cur_crd),
        u64::from(s.max_crd),
        u64::from(s.msg_sz),
        u64::from(s.crd_ep),
        u64::from(s.reply),
        u64::from(s.tgt_ep),
        u64::from(s.tgt_tile),
        u64::from(s.tgt_chip),
        s.label,
    ]
}

fn receive_values(r: ReceiveFields) -> [u64; 11]
    ensures { result ≡ field_values (Endpoint.Receive r) }
{
    [
        2,
        u64::from(r.act),
        u64::from(r.rpl_eps),
        u64::from(r.slots),
        u64::from(r.slot_size),
        u64::from(r.wpos),
        u64::from(r.rpos),
        r.buffer,
        u64::from(r.occupied),
        u64::from(r.unread),
        0,
    ]
}

fn memory_values(m: MemoryFields) -> [u64; 11]
    ensures { result ≡ field_values (Endpoint.Memory m) }
{
    [
        3,
        u64::from(m.act),
        u64::from(m.rw),
        u64::from(m.tile),
        u64::from(m.chip),
        m.addr,
        m.size,
        0,
        0,
        0,
        0,
    ]
}

fn values(e: Endpoint) -> [u64; 11]
    ensures { result ≡ field_values e }
{
    match e {
        Endpoint::Invalid => [0; 11],
        Endpoint::Send(s) => send_values(s),
        Endpoint::Receive(r) => receive_values(r),
        Endpoint::Memory(m) => memory_values(m),
    }
}

// The list becomes that of an endpoint.
pub fn write(fields: &mut [u64], e: Endpoint)
    requires { length fields.old ≡ 11 }
    ensures { fields.new ≡ field_values e }
{
    fields.copy_from_slice(&values(e));
}

// ---- numbers into an endpoint: `as` keeps the number, since `%` has cut it to the bits of its field

fn read_send(fields: &[u64]) -> SendFields
    requires { length fields.now ≡ 11 }
    ensures { result ≡ send_at fields.now }
{
    SendFields {
        act: (fields[1] % 0x10000) as u16,
        cur_crd: (fields[2] % 0x40) as u8,
        max_crd: (fields[3] % 0x40) as u8,
        msg_sz: (fields[4] % 0x40) as u8,
        crd_ep: (fields[5] % 0x10000) as u16,
        reply: fields[6] == 1,
        tgt_ep: (fields[7] % 0x10000) as u16,
        tgt_tile: (fields[8] % 0x100) as u8,
        tgt_chip: (fields[9] % 0x40) as u8,
        label: fields[10],
    }
}

fn read_receive(fields: &[u64]) -> ReceiveFields
    requires { length fields.now ≡ 11 }
    ensures { result ≡ receive_at fields.now }
{
    ReceiveFields {
        act: (fields[1] % 0x10000) as u16,
        rpl_eps: (fields[2] % 0x10000) as u16,
        slots: (fields[3] % 0x40) as u8,
        slot_size: (fields[4] % 0x40) as u8,
        wpos: (fields[5] % 0x40) as u8,
        rpos: (fields[6] % 0x40) as u8,
        buffer: fields[7],
        occupied: (fields[8] % 0x1_0000_0000) as u32,
        unread: (fields[9] % 0x1_0000_0000) as u32,
    }
}

fn read_memory(fields: &[u64]) -> MemoryFields
    requires { length fields.now ≡ 11 }
    ensures { result ≡ memory_at fields.now }
{
    MemoryFields {
        act: (fields[1] % 0x10000) as u16,
        rw: (fields[2] % 0x4) as u8,
        tile: (fields[3] % 0x100) as u8,
        chip: (fields[4] % 0x40) as u8,
        addr: fields[5],
        size: fields[6],
    }
}

#[tactic(auto, unfolding(crate::specs::Fields::read_list))]
fn read(fields: &[u64]) -> Endpoint
    requires { length fields.now ≡ 11 }
    ensures { result ≡ read_list fields.now }
{
    match fields[0] {
        1 => Endpoint::Send(read_send(fields)),
        2 => Endpoint::Receive(read_receive(fields)),
        3 => Endpoint::Memory(read_memory(fields)),
        _ => Endpoint::Invalid,
    }
}

// Are the numbers of an endpoint those of a list? One number after another, and no comparison of slices: that one keeps both in memory.
fn is_same(own: [u64; 11], fields: &[u64]) -> bool
    requires { length fields.now ≡ 11 }
    ensures { result ≡ list_all (λ i. slice_index own i == slice_index fields.now i) (range_with_len 0 11) }
{
    (0..11).all(|i| own[i] == fields[i])
}

// The words of the endpoint that a list names, if it is the list of one.
#[tactic(auto, using(crate::proofs::ListLaws::eleven_same), unfolding(crate::specs::Fields::endpoint_of, crate::specs::Fields::pack_list, crate::specs::Fields::pack_named))]
pub fn pack(memory: u64, fields: &[u64]) -> Result<Words, Error>
    requires { length fields.now ≡ 11 }
    ensures { result ≡ pack_list memory fields.now }
{
    check(board::memory_allowed(memory), Error::BadMachine)?;
    let e = read(fields);
    check(is_same(values(e), fields), Error::BadConfig)?;
    endpoint::pack(memory, e)
}
