// Laws about the meaning of TSDUs. Each function does nothing, and its contract is the law.
ghost use Rattle.std.specs.Prelude.{◌≡◌, ◌↔◌, List, ℕ, Some, Ok, Err};
ghost use Rattle.bay_ber.specs.Octets.{AreOctets};
ghost use Rattle.bay_assoc.specs.declared.fault.AssocFault.{AssocFault};
ghost use Rattle.bay_assoc.specs.declared.receive.Phase.{Phase};
ghost use Rattle.bay_assoc.specs.Acse.{associate};
ghost use Rattle.bay_assoc.specs.TsduMeanings.{TsduMeaning, verdict, tsdu_meaning};
ghost use Rattle.bay_assoc.specs.Presentation.{ValueInContext, Connect, user_data, request};
ghost use Rattle.bay_assoc.specs.Session.{Spdu, spdu, spdu_in};

/// A TSDU has at most one meaning. If the layers spell a meaning and a next phase, the TSDU is read
/// as exactly these; and a TSDU is read only as what its layers spell.
pub fn one_meaning()
    ensures heard { (old new : Phase) (octets : List ℕ) (h : TsduMeaning)
        → (verdict old octets).Spells (h, new) → tsdu_meaning old octets ≡ Ok (h, new) }
    ensures spelled { (old new : Phase) (octets : List ℕ) (h : TsduMeaning) → AreOctets octets
        → tsdu_meaning old octets ≡ Ok (h, new) → (verdict old octets).Spells (h, new) }
    ensures one { (old new next : Phase) (octets : List ℕ) (h k : TsduMeaning)
        → (verdict old octets).Spells (h, new) → (verdict old octets).Spells (k, next)
        → (h ≡ k) × (new ≡ next) }
{}

/// Octets that encode an SPDU, user data, a request for a connection or a request for an
/// association are read as exactly that. So octets encode at most one of each.
pub fn one_spelling()
    ensures spdu { (octets : List ℕ) (s : Spdu) → spdu.Spells octets s → spdu_in octets ≡ Some s }
    ensures user { (octets : List ℕ) (c : ValueInContext) → user_data.Spells octets c
        → user_data.reads octets ≡ Some c }
    ensures request { (octets : List ℕ) (c : Connect) → request.Spells octets c
        → request.reads octets ≡ Some c }
    ensures associate { (octets : List ℕ) (c : ValueInContext) → associate.Spells octets c
        → associate.reads octets ≡ Some c }
{}

/// Octets that are read as an SPDU, user data, a request for a connection or a request for an
/// association are an encoding of it.
pub fn read_is_spelled()
    ensures spdu { (octets : List ℕ) (s : Spdu) → AreOctets octets → spdu_in octets ≡ Some s
        → spdu.Spells octets s }
    ensures user { (octets : List ℕ) (c : ValueInContext) → AreOctets octets
        → user_data.reads octets ≡ Some c → user_data.Spells octets c }
    ensures request { (octets : List ℕ) (c : Connect) → AreOctets octets
        → request.reads octets ≡ Some c → request.Spells octets c }
    ensures associate { (octets : List ℕ) (c : ValueInContext) → AreOctets octets
        → associate.reads octets ≡ Some c → associate.Spells octets c }
{}

/// A TSDU has at most one fault. It is refused with a fault if and only if the verdict of its
/// layers refuses it with that fault, which is the fault of the outermost wrongly encoded layer.
pub fn one_fault()
    ensures { (phase : Phase) (octets : List ℕ) (fault : AssocFault) → AreOctets octets
        → (tsdu_meaning phase octets ≡ Err fault) ↔ (verdict phase octets).Refuses fault }
{}
