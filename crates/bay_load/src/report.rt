// The size of a verified program, and the maximum cost of a scan.
ghost use Rattle.std.specs.Prelude.{◌≤◌, length};
ghost use Rattle.il_image.specs.Images.{IsCode};
ghost use Rattle.bay_load.specs.Report.{IsCount, IsReport};

use il_image::read::instr_at;
use il_verify::verify::Verified;

/// The size of a program's code, and the maximum cost of a scan.
#[derive(Clone, Copy, Debug, PartialEq, Eq)]
pub struct Report {
    /// The number of instructions in the code.
    pub instructions: u32,
    /// The maximum number of values on the stack before an instruction, 0 to 32.
    pub depth: u32,
    /// The maximum number of instructions that a scan executes, including HALT.
    pub budget: u32,
}

// Counts the instructions in code.
fn count_instructions(code: &[u8]) -> u32
    requires code { IsCode code.now }
    requires size { length code.now ≤ 65_535 }
    ensures { IsCount code.now result }
{
    let mut count = 0;
    let mut offset = 0;
    while let Some((_, next)) = instr_at(code, offset) {
        count += 1;
        offset = next;
    }
    count
}

/// Makes the report of a verified image.
pub fn report_of(verified: &Verified) -> Report
    ensures { IsReport verified.now result }
{
    Report {
        instructions: count_instructions(verified.image().code()),
        depth: verified.depth(),
        budget: verified.budget(),
    }
}
