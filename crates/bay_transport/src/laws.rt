// Laws of the definitions. Each function does nothing, and its contract is the law.
ghost use Rattle.std.specs.Prelude.{◌≡◌, ◌++◌, ◌∷◌, [], ◌↔◌, List, ℕ, Some, IsSome, take, drop};
ghost use Rattle.bay_transport.specs.Frame.{Cut, IsCut, cut_of};
ghost use Rattle.bay_transport.specs.Connect.{Parameter, parameter_octets, parameters_of};
ghost use Rattle.bay_transport.specs.Doings.{Doing, Delivers, StreamState, Stream, run_of, and_then, doings, after};
ghost use Rattle.bay_transport.specs.Feeding.{CompletesDoing, DoingThenRest, AcceptsOctets, size_agreed, size_after};

/// There is exactly one way to split a list of octets into complete frames and a rest that begins
/// with no complete frame (RFC 1006 6).
pub fn one_cutting()
    ensures cut { (octets : List ℕ) → IsCut octets (cut_of octets) }
    ensures only { (octets : List ℕ) (first second : Cut) → IsCut octets first → IsCut octets second
        → first ≡ second }
{}

/// The doings of octets do not depend on how the octets are cut into pieces. The doings of a list
/// followed by a piece are the doings of the list, followed by those of the piece from the state
/// after the list.
pub fn any_cutting()
    ensures run { (number : ℕ) (left : StreamState) (octets piece : List ℕ)
        → run_of number left (octets ++ piece) ≡ and_then number (run_of number left octets) piece }
    ensures doings { (s : Stream) (octets piece : List ℕ)
        → doings s (octets ++ piece) ≡ doings s octets ++ doings (after s octets) piece }
    ensures after { (s : Stream) (octets piece : List ℕ)
        → after s (octets ++ piece) ≡ after (after s octets) piece }
{}

/// The octets of a piece that one `feed` did not consume have the remaining doings of the piece,
/// from the state after that `feed`.
pub fn feeding_goes_on()
    ensures doings { (old new : Stream) (piece : List ℕ) (used : ℕ) (doing : Doing)
        → new ≡ after old (take used piece)
        → CompletesDoing old piece used doing → DoingThenRest old new piece used doing }
    ensures after { (old new : Stream) (piece : List ℕ) (used : ℕ)
        → new ≡ after old (take used piece) → after old piece ≡ after new (drop used piece) }
{}

/// An answer to a request agrees the size of a TPDU. The size stays until the connection ends or
/// fails. A TSDU arrives only after a size was agreed.
pub fn one_size()
    ensures after { (s : Stream) (octets : List ℕ)
        → size_agreed (after s octets) ≡ size_after (size_agreed s) (doings s octets) }
    ensures delivers { (s : Stream) (octets tsdu : List ℕ) (later : List Doing)
        → doings s octets ≡ Delivers tsdu ∷ later → IsSome (size_agreed s) }
{}

/// A stream that still accepts octets accepts more after octets that complete nothing.
pub fn incomplete_goes_on()
    ensures { (s : Stream) (octets : List ℕ) → AcceptsOctets s.state → doings s octets ≡ []
        → AcceptsOctets (after s octets).state }
{}

/// Octets encode parameters in at most one way, and only octets that encode them are read as
/// parameters (X.224 13.2.3).
pub fn one_reading()
    ensures { (octets : List ℕ) (ps : List Parameter) → (parameters_of octets ≡ Some ps)
        ↔ (octets ≡ parameter_octets ps) }
{}
