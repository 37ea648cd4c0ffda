// Origins gathered one by one: their lines, and whether all of them are one and the same line.
ghost use Rattle.std.specs.Prelude.{◌≡◌, []};
ghost use Rattle.endstate.specs.Gathering.{gathered_of, with_origin, gathered_one};

use crate::lines;
use crate::lines::Lines;

// The lines among some origins, and whether one of these is none. (No Option of the lines: they are kept beside it.)
#[derive(Clone, Copy)]
pub struct Gathered {
    pub lines: Lines,
    pub unset: bool,
}

// Of no origins.
pub fn nothing() -> Gathered
    ensures { result ≡ gathered_of [] }
{
    Gathered {
        lines: lines::no_lines(),
        unset: false,
    }
}

// Of one origin more.
#[tactic(auto, unfolding(crate::specs::Gathering::with_origin))]
pub fn with_origin(gathered: Gathered, number: u64) -> Gathered
    ensures { result ≡ with_origin number gathered }
{
    Gathered {
        lines: lines::with_line(gathered.lines, number),
        unset: number == 0 || gathered.unset,
    }
}

// Whether there is one line and every origin is it: one test after the other, as the definition has them.
pub fn is_one_line(gathered: Gathered) -> bool
    ensures { result ≡ gathered_one gathered }
{
    if gathered.unset {
        return false;
    }
    let found = gathered.lines;
    if found.numbers[0] == 0 {
        return false;
    }
    found.numbers[1] == 0
}
