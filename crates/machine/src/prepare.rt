// The start of a run: the initial values (the standard, "The step machine": "Start: initial values").
ghost use Rattle.std.specs.Prelude.{◌≡◌, take};
ghost use Rattle.program.specs.Layout.{program_of};
ghost use Rattle.program.specs.Internal.Sound.{SoundFile};
ghost use Rattle.machine.specs.State.{start};

use program::layout::Layout;
use program::limits::{RECORDS_START, VARIABLE_LIMIT, VARIABLE_SIZE};
use program::variable::initial_at;

// The initial values of a sound file's variables, and 0 past them. Of the file it asks bytes and layout, and no table of its sections.
pub fn initial_values(s: &[u8], l: Layout) -> [u32; VARIABLE_LIMIT]
    requires { SoundFile s.now l }
    ensures { take l.variables result ≡ (start (program_of s.now l)).variables }
{
    let mut variables = [0u32; VARIABLE_LIMIT];
    for i in 0..l.variables {
        variables[i] = initial_at(s, RECORDS_START + VARIABLE_SIZE * i);
    }
    variables
}
