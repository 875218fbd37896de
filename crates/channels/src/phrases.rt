// What the sheet and the drawing say alike.
ghost use Rattle.std.specs.Prelude.{Some};
ghost use Rattle.channels.specs.Phrases.{tile, credits, missing, misfit};

use crate::{Misfit, Missing};
use endpoint::SendFields;
use form::Plural;
use std::fmt;

// A tile, and the activity that runs on it.
#[derive(Clone, Copy)]
pub struct Tile {
    pub number: usize,
    pub running: u16,
}

impl fmt::Display for Tile {
    ghost output = { λ t. Some (tile t.number t.running) };

    fn fmt<W: fmt::Write>(&self, f: &mut fmt::Formatter<W>) -> fmt::Result {
        write!(f, "tile {}, activity {}", self.number, self.running)
    }
}

// The credits of a send endpoint. The machine asks only cur_crd whether they are unlimited.
#[derive(Clone, Copy)]
pub struct Credits(pub SendFields);

impl fmt::Display for Credits {
    ghost output = { λ c. Some (credits c.0.cur_crd c.0.max_crd) };

    fn fmt<W: fmt::Write>(&self, f: &mut fmt::Formatter<W>) -> fmt::Result {
        match self.0.cur_crd {
            63 => f.write_str("unlimited credits"),
            left => write!(f, "{left} of {} credits left", self.0.max_crd),
        }
    }
}

impl fmt::Display for Missing {
    ghost output = { λ m. Some (missing m) };

    fn fmt<W: fmt::Write>(&self, f: &mut fmt::Formatter<W>) -> fmt::Result {
        match self {
            Missing::Chip(chip) => write!(f, "no chip {chip}"),
            Missing::Tile(tile) => write!(f, "no tile {tile}"),
            Missing::Receiver => f.write_str("no receive endpoint"),
        }
    }
}

impl fmt::Display for Misfit {
    ghost output = { λ m. Some (misfit m) };

    #[tactic(auto, using(std::proofs::Common::append_assoc))]
    fn fmt<W: fmt::Write>(&self, f: &mut fmt::Formatter<W>) -> fmt::Result {
        match *self {
            Misfit::Tiles(tiles) => write!(f, "{tiles} tiles are not allowed"),
            Misfit::Pages { tile, pages } => {
                write!(f, "tile {tile} with {pages} pages is not allowed")
            }
            Misfit::Lengths {
                tiles,
                words,
                activities,
            } => {
                let s = Plural(u64::from(tiles));
                let wanted = u64::from(tiles) * 192;
                write!(
                    f,
                    "for {tiles} tile{s} {wanted} words and {tiles} activities are needed, \
                    and here are {words} and {activities}"
                )
            }
            Misfit::Unacceptable(place) => {
                write!(f, "the words of endpoint {place} are not acceptable")
            }
        }
    }
}
