// Finding the first line in octets.
ghost use Rattle.std.specs.Prelude.{◌≡◌, ◌+◌, ◌<◌, ◌≤◌, drop, take, length, position, IfSome};
ghost use Rattle.bay_lines.specs.FirstLines.{LiesIn, Whole, first_line_of, first_line_view, is_lf, without_return};
ghost use Rattle.bay_lines.specs.FirstLines as spec;

// The most octets of a line before its LF.
const MOST: usize = 256;

/// The result of a search for the first line.
#[derive(Clone, Copy, Debug, PartialEq, Eq)]
pub enum LineSearch {
    /// No complete line yet.
    Waiting,
    /// More octets than a line may have, without a line end.
    Overlong,
    /// A complete line: its length without the line end, and its length with it.
    Whole { line: usize, end: usize },
}

// Returns whether a line has a CR before its LF.
fn ends_in_return(line: &[u8]) -> bool
    ensures { result ≡ spec.ends_in_return line.now }
{
    match line.last() {
        Some(octet) => *octet == b'\r',
        None => false,
    }
}

// Returns the length of a line without the CR that may precede its LF.
fn length_of(line: &[u8]) -> usize
    ensures value { take result line.now ≡ without_return line.now }
    ensures within { result ≤ length line.now }
{
    if ends_in_return(line) {
        line.len() - 1
    } else {
        line.len()
    }
}

// Returns the first line, whose LF is at index `at`.
fn line_at(octets: &[u8], at: usize) -> LineSearch
    requires within { at < length octets.now }
    requires short { at ≤ 256 }
    ensures value { first_line_view octets.now result
        ≡ Whole (without_return (take at octets.now)) (drop (at + 1) octets.now) }
    ensures within { LiesIn (length octets.now) result }
{
    LineSearch::Whole {
        line: length_of(&octets[..at]),
        end: at + 1,
    }
}

// Returns the index of the first LF.
fn first_end(octets: &[u8]) -> Option<usize>
    ensures { result ≡ position is_lf octets.now }
{
    octets.iter().position(|octet| *octet == b'\n')
}

// Returns the index of the LF of the first line, if the line is not too long.
fn end_in_reach(octets: &[u8]) -> Option<usize>
    ensures value { result ≡ position is_lf (take 257 octets.now) }
    ensures within { IfSome result (λ at. (at < length octets.now) × (at ≤ 256)) }
{
    first_end(&octets[..(MOST + 1).min(octets.len())])
}

/// Finds the first line, which has at most 256 octets before its LF, or determines why there is
/// none. A CR before the LF is part of the line end.
pub fn first_line(octets: &[u8]) -> LineSearch
    ensures value { first_line_view octets.now result ≡ first_line_of octets.now }
    ensures within { LiesIn (length octets.now) result }
{
    match end_in_reach(octets) {
        Some(at) => line_at(octets, at),
        None if octets.len() > MOST => LineSearch::Overlong,
        None => LineSearch::Waiting,
    }
}
