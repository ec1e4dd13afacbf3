// The law of compiled code. The function does nothing, and its contract is the law.
ghost use Rattle.std.specs.Prelude.{◌≡◌, List, Ok};
ghost use Rattle.bay_base.specs.declared.point.Point.{Point};
ghost use Rattle.il_text.specs.Listing as text;
ghost use Rattle.il_check.specs.Checking.{checked_of};
ghost use Rattle.il_check.specs.Program.{Checked};
ghost use Rattle.bay_load.specs.Verified.{Verifies};

/// Compiled code verifies: the image of a program that was checked against points fits these
/// points, a table of kinds agrees with its code, and it writes no read-only point.
pub fn compiled_code_verifies()
    ensures { (points : List Point) (program : text.PlainProgram) (c : Checked)
        → checked_of points program ≡ Ok c → Verifies points c }
{}
