// Splits a scenario into its parts.
ghost use Rattle.std.specs.Prelude.{◌≡◌, ◌∷◌, [], ◌<◌, ◌≤◌, length, option_map, IfSome};
ghost use Rattle.bay_report.specs.TextLines.{pieces, without_end, CutsLine};
ghost use Rattle.cmd_replay.specs.Scenario.{part_of, scenario_of};
ghost use Rattle.cmd_replay.specs.Scenario as spec;
ghost use Rattle.cmd_replay.specs.ScenarioView.{scenario_view};

use bay_report::text_lines::split_line;

/// The three parts of a scenario, unchanged.
#[derive(Clone, Copy)]
pub struct Scenario<'a> {
    /// The bay file.
    pub bay: &'a [u8],
    /// The Instruction List program.
    pub logic: &'a [u8],
    /// The trace: one event per line.
    pub trace: &'a [u8],
}

// Returns whether the line separates two parts of a scenario.
fn is_separator(line: &[u8]) -> bool
    ensures { result ≡ spec.is_separator line.now }
{
    line == b"%%".as_slice()
}

// Returns the text before the first line that is `%%`, and the text after that line; `None` if
// there is no such line.
fn cut_part(text: &[u8]) -> Option<(&[u8], &[u8])>
    ensures part { option_map (λ p. (p.0.now, p.1.now)) result ≡ part_of (pieces text.now) }
    ensures within { IfSome result (λ p. length p.1.now ≤ length text.now) }
{
    let mut rest = text;
    let mut taken = 0;
    while !rest.is_empty() {
        let (line, after) = split_line(rest);
        if is_separator(line) {
            return Some((&text[..taken], after));
        }
        taken += rest.len() - after.len();
        rest = after;
    }
    None
}

/// Returns the parts of a scenario, separated by its first two lines that are `%%`; `None` if one
/// of them is missing.
pub fn split_scenario(text: &[u8]) -> Option<Scenario<'_>>
    ensures parts { option_map scenario_view result ≡ scenario_of text.now }
    ensures within { IfSome result (λ s. length s.trace.now ≤ length text.now) }
{
    let (bay, rest) = cut_part(text)?;
    let (logic, trace) = cut_part(rest)?;
    Some(Scenario { bay, logic, trace })
}
