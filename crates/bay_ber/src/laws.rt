// Laws of the encoding. Each function does nothing, and its contract is the law.
ghost use Rattle.std.specs.Prelude.{◌≡◌, ◌*◌, ◌^◌, ◌<◌, ◌≤◌, ◌↔◌, ◌++◌, Some, List, ℕ, ℤ, Bool, FitsSigned, length};
ghost use Rattle.std.specs.Int.{w64};
ghost use Rattle.bay_ber.specs.Content.{IsInteger, IsBits, IsTruth};
ghost use Rattle.bay_ber.specs.Octets.{AreOctets};
ghost use Rattle.bay_ber.specs.Reading.{TlvData, BeginsWithTlv, class_of, is_constructed, low_bits};
ghost use Rattle.bay_ber.specs.Spelling.{identifier, octet_of, Spells};
ghost use Rattle.bay_ber.specs.Writing.{element, element_length, integer_octets, truth_octets, bit_octets, bit_string_octets};
ghost use Rattle.bay_ber.specs.Values.{Part, SpellAll, values_in};
ghost use Rattle.bay_ber.specs.declared.tag.Tag.{Tag};

/// At most one prefix of some octets encodes a value, and it encodes only one.
pub fn one_spelling()
    ensures reading { (octets : List ℕ) (r s : TlvData) → BeginsWithTlv octets r
        → BeginsWithTlv octets s
        → r ≡ s }
    ensures prefix { (octets : List ℕ) (r s : TlvData) (a : BeginsWithTlv octets r)
        (b : BeginsWithTlv octets s)
        → a.front ≡ b.front }
{}

/// Octets are the encoding of at most one value, and of at most one list of values.
pub fn one_list()
    ensures value { (octets : List ℕ) (p q : Part) → Spells octets p.tag p.content
        → Spells octets q.tag q.content → p ≡ q }
    ensures list { (octets : List ℕ) (ps qs : List Part) → SpellAll octets ps → SpellAll octets qs
        → ps ≡ qs }
{}

/// The function `values_in` returns exactly the values that the octets encode.
pub fn values_are_spelled()
    ensures { (octets : List ℕ) (parts : List Part) → AreOctets octets
        → (values_in octets ≡ Some parts) ↔ SpellAll octets parts }
{}

/// Whatever is written can be read back, whatever octets follow. Each octet is the identifier octet
/// of its class, form and low bits. An encoded value, with a tag of one octet and a content below
/// 2^32 octets, is read as its tag and content, and each encoded content as the value that was
/// written.
pub fn written_is_read()
    ensures octet { (octet : ℕ) → octet < 256
        → octet ≡ identifier (class_of octet) (is_constructed octet) (low_bits octet) }
    ensures value { (tag : Tag) (content rest : List ℕ) → tag.number < 31 → length content < 2 ^ 32
        → BeginsWithTlv (element tag content ++ rest)
        (record { tag = tag; content = content; rest = rest }) }
    ensures integer { (value : ℤ) → FitsSigned w64 value → IsInteger (integer_octets value) value }
    ensures bits { (octets : List ℕ) (count : ℕ) → count ≤ 8 * length octets → count < 2 ^ 35
        → IsBits (bit_string_octets octets count) (bit_octets octets count) count }
    ensures truth { (value : Bool) → IsTruth (truth_octets value) value }
{}

/// The length of an encoded value.
pub fn written_is_as_long()
    ensures { (tag : Tag) (content : List ℕ)
        → length (element tag content) ≡ element_length (length content) }
{}

/// The canonical encoding is the shortest: no shorter octets encode the same value, and no shorter
/// content the same integer.
pub fn written_is_shortest()
    ensures value { (octets content : List ℕ) (tag : Tag) → AreOctets octets
        → Spells octets tag content → length (element tag content) ≤ length octets }
    ensures integer { (content : List ℕ) (value : ℤ) → AreOctets content → IsInteger content value
        → length (integer_octets value) ≤ length content }
{}
