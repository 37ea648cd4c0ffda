// Lines that rise, each once: the lines that explain a fact.
ghost use Rattle.std.specs.Prelude.{◌≡◌, []};
ghost use Rattle.endstate.specs.RisingLines.{with_line};
ghost use Rattle.endstate.specs.LineRows.{lines_of, lines_row, placed_at, carried_on};

// The lines, then zeros: 0 is no line. What stands behind the first zero is none of them. (An array that 0 ends: fixed
// memory, with no heap.)
#[derive(Clone, Copy)]
pub struct Lines {
    pub numbers: [u64; 12],
}

// No lines.
pub fn no_lines() -> Lines
    ensures { result ≡ lines_row [] }
{
    Lines { numbers: [0; 12] }
}

// What stays at a place where a number is carried to the one there; 0 is not carried.
fn placed_at(carried: u64, at: u64) -> u64
    ensures { result ≡ placed_at carried at }
{
    if carried == 0 { at } else { carried.min(at) }
}

// What is carried on from there: nothing, where the number is there already.
fn carried_on(carried: u64, at: u64) -> u64
    ensures { result ≡ carried_on carried at }
{
    if carried == 0 || carried == at {
        0
    } else {
        carried.max(at)
    }
}

// The lines with one more in its place; 0, no line, adds nothing. There is no place for a thirteenth.
pub fn with_line(lines: Lines, number: u64) -> Lines
    ensures { result ≡ lines_row (with_line number (lines_of lines)) }
{
    let given = lines.numbers;
    let mut numbers = [0u64; 12];
    let mut carried = number;
    for i in 0..12usize {
        let at = given[i];
        if at == 0 {
            numbers[i] = carried;
            return Lines { numbers };
        }
        numbers[i] = placed_at(carried, at);
        carried = carried_on(carried, at);
    }
    Lines { numbers }
}
