// A law of lines. The function does nothing, and its contract is the law.
ghost use Rattle.std.specs.Prelude.{List};
ghost use Rattle.bay_lines.specs.LineRemovals.{LosesNothing, BufferStep};

/// However the octets are cut into pieces, and whenever a line is removed from the buffer: the
/// removed lines, each with its line end, followed by the octets still in the buffer, are all
/// octets that arrived.
pub fn no_line_is_lost_repeated_or_joined()
    ensures { (moves : List BufferStep) → LosesNothing moves }
{}
