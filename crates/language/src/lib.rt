// The language of scripts (docs/SCRIPT.md): its names, the fields of its statements, and what is expected where a mistake is found.
#![tactic(auto)]

mod fields;
mod keywords;
mod outcomes;
mod wants;

pub use fields::{Field, Slot};
pub use keywords::{EndpointKind, Keyword, Opcode};
pub use outcomes::Outcome;
pub use wants::Want;

// Things that a script says by their names.
pub trait Named: Copy + 'static {
    // All that have a name, in the order of the language's page.
    fn all() -> &'static [Self];

    fn name(self) -> &'static str;
}

// The one whose name is a word.
pub fn find<N: Named>(word: &[u8]) -> Option<N> {
    for named in N::all() {
        if named.name().as_bytes() == word {
            return Some(*named);
        }
    }
    None
}
