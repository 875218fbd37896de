// What a line says of its statement. The text lies in an array, so that no line asks for memory.
ghost use Rattle.std.specs.Prelude.{◌≡◌, ◌++◌, codes, IfOk};
ghost use Rattle.std.specs.Fmt.{decimal};

use arrayvec::ArrayString;
use language::Named;
use script::Statement;
use std::fmt::{self, Write};

// Room for the longest, `endpoint 18446744073709551615 receive`, and to spare.
const ROOM: usize = 64;

pub type Label = ArrayString<ROOM>;

fn word(name: &str) -> Result<Label, fmt::Error>
    ensures { IfOk result (λ label. label.bytes ≡ name.now) }
{
    let mut label = Label::new();
    label.write_str(name)?;
    Ok(label)
}

#[tactic(auto, using(crate::proofs::Written::written))]
fn with_endpoint(name: &str, endpoint: u64) -> Result<Label, fmt::Error>
    ensures { IfOk result (λ label. label.bytes ≡ name.now ++ (codes " " ++ decimal endpoint)) }
{
    let mut label = Label::new();
    write!(label, "{name} {endpoint}")?;
    Ok(label)
}

#[tactic(auto, using(crate::proofs::Written::written))]
fn with_kind(endpoint: u64, kind: &str) -> Result<Label, fmt::Error>
    ensures { IfOk result (λ label. label.bytes ≡ codes "endpoint " ++ (decimal endpoint ++ (codes " " ++ kind.now))) }
{
    let mut label = Label::new();
    write!(label, "endpoint {endpoint} {kind}")?;
    Ok(label)
}

#[tactic(auto, using(crate::proofs::Written::written))]
pub fn expected(name: &str) -> Result<Label, fmt::Error>
    ensures { IfOk result (λ label. label.bytes ≡ codes "expect " ++ name.now) }
{
    let mut label = Label::new();
    write!(label, "expect {name}")?;
    Ok(label)
}

// NAME ENDPOINT KIND, as much of it as a statement that answers has.
pub fn of(statement: &Statement<'_>) -> Result<Label, fmt::Error> {
    match statement {
        Statement::Endpoint { at, given } => with_kind(at.endpoint, given.kind().name()),
        Statement::Invalidate(at) => with_endpoint("invalidate", at.endpoint),
        Statement::Command { keyword, at, .. } => with_endpoint(keyword.name(), at.endpoint),
        Statement::Privileged { keyword, .. } => word(keyword.name()),
        Statement::Respond { .. } => word("respond"),
        _ => word("wiring"),
    }
}
