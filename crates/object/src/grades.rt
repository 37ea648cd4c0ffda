// How a finding is graded, by name.
use endstate::findings::Grade;
use std::fmt;
use words::kinds::Kind;

#[derive(Clone, Copy)]
pub(crate) enum FindingGrade {
    Wrong,
    Meant,
    Note,
}

impl From<Grade> for FindingGrade {
    fn from(grade: Grade) -> FindingGrade {
        match grade {
            Grade::Wrong => FindingGrade::Wrong,
            Grade::Meant => FindingGrade::Meant,
        }
    }
}

impl fmt::Display for FindingGrade {
    fn fmt<W: fmt::Write>(&self, f: &mut fmt::Formatter<W>) -> fmt::Result {
        match self {
            FindingGrade::Wrong => write!(f, "wrong"),
            FindingGrade::Meant => write!(f, "meant"),
            FindingGrade::Note => write!(f, "note"),
        }
    }
}

// How a finding at a write is graded.
pub(crate) fn grade_at_write(kind: Kind) -> FindingGrade {
    match kind {
        Kind::Replaced | Kind::NoPort => FindingGrade::Wrong,
        _ => FindingGrade::Note,
    }
}
