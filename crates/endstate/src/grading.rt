// What is found of ports that share something, by the origins of what they share.
ghost use Rattle.std.specs.Prelude.{◌≡◌};
ghost use Rattle.endstate.specs.Gathering.{grade_gathered, clash_by};

use crate::findings::{Clash, Grade};
use crate::gathering;
use crate::gathering::Gathered;

// Meant, where the origins are one and the same line or it is asked for.
fn grade_by(gathered: Gathered, asked: bool) -> Grade
    ensures { result ≡ grade_gathered gathered «asked» }
{
    if asked || gathering::is_one_line(gathered) {
        Grade::Meant
    } else {
        Grade::Wrong
    }
}

// What is found of the ports that share something, with the origins of what they share.
#[tactic(auto, unfolding(crate::specs::Gathering::clash_by))]
pub fn shared_by(ports: u8, gathered: Gathered, asked: bool) -> Option<Clash>
    ensures { result ≡ clash_by ports gathered «asked» }
{
    if !ports::are_several(ports) {
        return None;
    }
    Some(Clash {
        grade: grade_by(gathered, asked),
        ports,
        lines: gathered.lines,
    })
}
