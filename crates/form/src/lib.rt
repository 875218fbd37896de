// How values are written, wherever a program tells of them.
#![tactic(auto)]

ghost use Rattle.std.specs.Prelude.{Some, codes};
ghost use Rattle.form.specs.Texts.{hexadecimal, plural, permission, allowed, named};

use std::fmt;

// An address, a label or a mask: 0x, and hexadecimal with no zero before it.
#[derive(Clone, Copy)]
pub struct Hexadecimal(pub u64);

impl fmt::Display for Hexadecimal {
    ghost output = { λ n. Some (hexadecimal n.0) };

    fn fmt<W: fmt::Write>(&self, f: &mut fmt::Formatter<W>) -> fmt::Result {
        write!(f, "0x{:x}", self.0)
    }
}

// The s of a plural: nothing where there is one.
#[derive(Clone, Copy)]
pub struct Plural(pub u64);

impl fmt::Display for Plural {
    ghost output = { λ n. Some (plural n.0) };

    fn fmt<W: fmt::Write>(&self, f: &mut fmt::Formatter<W>) -> fmt::Result {
        f.write_str(if self.0 == 1 { "" } else { "s" })
    }
}

// A permission as a script writes it.
#[derive(Clone, Copy)]
pub struct Permission(pub u8);

// The numbers 1 to 3 are document 01's; the field may hold any.
impl fmt::Display for Permission {
    ghost output = { λ n. Some (permission n.0) };

    fn fmt<W: fmt::Write>(&self, f: &mut fmt::Formatter<W>) -> fmt::Result {
        match self.0 {
            1 => f.write_str("r"),
            2 => f.write_str("w"),
            3 => f.write_str("rw"),
            other => write!(f, "{other}"),
        }
    }
}

// What a permission allows, in words.
#[derive(Clone, Copy)]
pub struct Allowed(pub u8);

impl fmt::Display for Allowed {
    ghost output = { λ n. Some (allowed n.0) };

    fn fmt<W: fmt::Write>(&self, f: &mut fmt::Formatter<W>) -> fmt::Result {
        f.write_str(match self.0 {
            1 => "read",
            2 => "write",
            3 => "read and write",
            _ => "neither read nor write",
        })
    }
}

// A number of credits; 63 has no limit.
#[derive(Clone, Copy)]
pub struct Credits(pub u8);

impl fmt::Display for Credits {
    ghost output = { λ n. Some (named 63 (codes "unlimited") n.0) };

    fn fmt<W: fmt::Write>(&self, f: &mut fmt::Formatter<W>) -> fmt::Result {
        match self.0 {
            63 => f.write_str("unlimited"),
            count => write!(f, "{count}"),
        }
    }
}

// An endpoint that another one names; 65535 names none.
#[derive(Clone, Copy)]
pub struct EndpointOrNone(pub u16);

impl fmt::Display for EndpointOrNone {
    ghost output = { λ n. Some (named 65535 (codes "none") n.0) };

    fn fmt<W: fmt::Write>(&self, f: &mut fmt::Formatter<W>) -> fmt::Result {
        match self.0 {
            65535 => f.write_str("none"),
            ep => write!(f, "{ep}"),
        }
    }
}
