// Laws about the indications of a client's octets. Each function does nothing, and its contract is
// the law.
ghost use Rattle.std.specs.Prelude.{◌≡◌, ◌∷◌, ◌++◌, [], List, ℕ, take, drop};
ghost use Rattle.bay_transport.specs.Feeding.{AcceptsOctets};
ghost use Rattle.bay_connection.specs.ConnectionStates.{ConnectionState, Indication, connection_step, indications, connection_after};
ghost use Rattle.bay_connection.specs.Feeding.{Completes, IndicationThenRest, IsContinued, and_then};

/// The indications of octets do not depend on how the octets are cut into pieces. The indications
/// of a list followed by a piece are those of the list, followed by those of the piece from the
/// state after the list.
pub fn any_cutting()
    ensures told { (t : ConnectionState) (octets piece : List ℕ)
        → connection_step t (octets ++ piece)
        ≡ and_then (connection_step t octets) (connection_step (connection_after t octets) piece) }
    ensures indications { (t : ConnectionState) (octets piece : List ℕ)
        → indications t (octets ++ piece)
        ≡ indications t octets ++ indications (connection_after t octets) piece }
    ensures left { (t : ConnectionState) (octets piece : List ℕ)
        → connection_after t (octets ++ piece)
        ≡ connection_after (connection_after t octets) piece }
{}

/// The octets of a piece that one `feed` did not consume have the remaining indications of the
/// piece, from the state after that `feed`.
pub fn feeding_goes_on()
    ensures indications { (old new : ConnectionState) (piece : List ℕ) (used : ℕ)
        (indication : Indication)
        → new ≡ connection_after old (take used piece)
        → Completes old piece used indication → IndicationThenRest old new piece used indication }
    ensures left { (old new : ConnectionState) (piece : List ℕ) (used : ℕ)
        → new ≡ connection_after old (take used piece)
        → connection_after old piece ≡ connection_after new (drop used piece) }
{}

/// A connection that accepts octets accepts more after octets that complete nothing, an answer or a
/// PDU of MMS.
pub fn connection_goes_on()
    ensures quiet { (t : ConnectionState) (octets : List ℕ) → AcceptsOctets t.stream.state
        → indications t octets ≡ []
        → AcceptsOctets (connection_after t octets).stream.state }
    ensures heard { (t : ConnectionState) (octets : List ℕ) (indication : Indication)
        → indications t octets ≡ indication ∷ [] → IsContinued indication
        → AcceptsOctets (connection_after t octets).stream.state }
{}
