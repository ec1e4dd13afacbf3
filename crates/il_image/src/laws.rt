// Laws of the definitions. Each function does nothing, and its contract is the law.
ghost use Rattle.std.specs.Prelude.{◌≡◌, ◌∷◌, ◌++◌, ◌⊎◌, ◌↔◌, ◌<◌, Err, IsTrue, length, List, Ok, Some, slice_index, take, true, ℕ};
ghost use Rattle.il_image.specs.Cuts.{IsRightSoFar};
ghost use Rattle.il_image.specs.Decoding.{IsFirstBad, decoded_image};
ghost use Rattle.il_image.specs.Images.{Image, IsImage, image_octets, mark};
ghost use Rattle.il_image.specs.Kinds.{HasKind, is_within, join};
ghost use Rattle.il_image.specs.Octets.{AreOctets};
ghost use Rattle.il_image.specs.Offsets.{InstrBegins, is_instruction_offset};
ghost use Rattle.il_image.specs.Reading.{HasInstructionAt, instr_at, instr_from};
ghost use Rattle.il_image.specs.Spelling.{IsInstr, spelling};
ghost use Rattle.il_image.specs.declared.fault.ImageFault.TheVariants.{BadMagic, BadOpcode, BadVersion, Truncated};
ghost use Rattle.il_image.specs.declared.instr.Instr.{Instr};
ghost use Rattle.il_image.specs.declared.kind.CellKind.{CellKind};
ghost use Rattle.il_image.specs.declared.value.Value.{Value};
ghost use Rattle.il_image.specs.declared.opcode.Version.{Version};
ghost use Rattle.il_image.specs.declared.opcode.Version.TheVariants.{One, Two};
ghost use Rattle.il_image.specs.Timers.{Call, HasNotPassed, HasPassed, timer_after};
ghost use Rattle.bay_base.specs.declared.types.TimerKind.TheVariants.{OnDelay, OffDelay};

/// After any calls, listed last first, Q of a TON is TRUE exactly if the last call has IN TRUE and
/// its PT has passed since the first call of the last unbroken run of calls with IN TRUE.
pub fn on_delay_timer()
    ensures { (last : Call) (earlier : List Call)
        → IsTrue (timer_after OnDelay (last ∷ earlier)).output
        ↔ HasPassed last earlier }
{}

/// After any calls, listed last first, Q of a TOF is TRUE exactly if the last call has IN TRUE, or
/// an earlier call has IN TRUE and less than the last call's PT has passed since the first call of
/// the last unbroken run of calls with IN FALSE.
pub fn off_delay_timer()
    ensures { (last : Call) (earlier : List Call)
        → IsTrue (timer_after OffDelay (last ∷ earlier)).output
        ↔ ((last.input ≡ true) ⊎ HasNotPassed last earlier) }
{}

/// Each instruction has one encoding, which decodes to the instruction whatever follows it. A
/// decoded instruction is encoded by the octets that were read. What version 1 decodes, version 2
/// decodes likewise. The instruction at an offset in the code is the one encoded there.
pub fn one_spelling_of_instructions()
    ensures written { (i : Instr) (rest : List ℕ) → IsInstr i
        → instr_from Two (spelling i ++ rest) ≡ Ok (i, rest) }
    ensures read { (version : Version) (octets : List ℕ) (i : Instr) (rest : List ℕ)
        → AreOctets octets →
        instr_from version octets ≡ Ok (i, rest) → IsInstr i × (octets ≡ spelling i ++ rest) }
    ensures newer { (octets : List ℕ) (i : Instr) (rest : List ℕ) → AreOctets octets
        → instr_from One octets ≡ Ok (i, rest) → instr_from Two octets ≡ Ok (i, rest) }
    ensures places { (code : List ℕ) (offset : ℕ) (i : Instr) (next : ℕ) → AreOctets code
        → (instr_at code offset ≡ Some (i, next)) ↔ HasInstructionAt code offset i next }
{}

/// `is_instruction_offset` accepts an offset exactly if one of the code's instructions begins
/// there. The instructions follow one another without gaps.
pub fn offsets_are_of_instructions()
    ensures { (code : List ℕ) (offset : ℕ) → IsTrue (is_instruction_offset code offset)
        ↔ InstrBegins code offset }
{}

/// Encoding an image in version 2 and decoding it yields the same image. A decoded image is one
/// that the format can represent, and the octets are its encoding in one of the format's versions.
/// Octets with the same fifth octet, the version, that decode to the same image are equal.
pub fn one_spelling_of_images()
    ensures written { (i : Image) → IsImage i → decoded_image (image_octets Two i) ≡ Ok i }
    ensures read { (octets : List ℕ) (i : Image) → AreOctets octets → decoded_image octets ≡ Ok i
        → IsImage i × ((version : Version) × (octets ≡ image_octets version i)) }
    ensures one { (octets others : List ℕ) (i : Image) → AreOctets octets → AreOctets others →
        decoded_image octets ≡ Ok i → decoded_image others ≡ Ok i
        → slice_index octets 4 ≡ slice_index others 4
        → octets ≡ others }
{}

/// The kinds are ordered by the values they include, and the join of two kinds is the least kind
/// above both.
pub fn join_is_least()
    ensures same { (a : CellKind) → IsTrue (is_within a a) }
    ensures along { (a b c : CellKind) → IsTrue (is_within a b) → IsTrue (is_within b c)
        → IsTrue (is_within a c) }
    ensures values { (v : Value) (a b : CellKind) → IsTrue (is_within a b) → HasKind v a
        → HasKind v b }
    ensures above { (a b : CellKind)
        → IsTrue (is_within a (join a b)) × IsTrue (is_within b (join a b)) }
    ensures least { (a b top : CellKind) → IsTrue (is_within a top) → IsTrue (is_within b top)
        → IsTrue (is_within (join a b) top) }
{}

/// The first octets decide two faults, whatever follows: an octet among the first four that differs
/// from the mark, and a version other than 1 or 2 after the mark.
pub fn first_octets_decide()
    ensures mark { (octets : List ℕ) (k : ℕ) → k < 4 → k < length octets
        → (slice_index octets k ≡ slice_index mark k → ⊥) → decoded_image octets ≡ Err BadMagic }
    ensures version { (octet : ℕ) (rest : List ℕ) → (octet ≡ 1 → ⊥) → (octet ≡ 2 → ⊥)
        → decoded_image (mark ++ octet ∷ rest) ≡ Err BadVersion }
{}

/// An image ends where its octets end: with more octets appended, or with some of the last ones
/// removed, the octets are `Truncated`. Octets that are a `BadOpcode` have a first bad octet: the
/// octets before it are `Truncated`, and those up to it are a `BadOpcode`, whatever follows.
pub fn images_end()
    ensures behind { (octets more : List ℕ) (i : Image) → decoded_image octets ≡ Ok i
        → 0 < length more
        → decoded_image (octets ++ more) ≡ Err Truncated }
    ensures front { (octets : List ℕ) (i : Image) (n : ℕ) → decoded_image octets ≡ Ok i
        → n < length octets → decoded_image (take n octets) ≡ Err Truncated }
    ensures first { (octets : List ℕ) → decoded_image octets ≡ Err BadOpcode → IsFirstBad octets }
{}

/// Octets that are `Truncated` are right so far. Either more octets complete them to an image; or
/// they are an image followed by more octets; or they end within an initial value, or their code
/// ends within an instruction, but no value, or no instruction that fits the code's length, begins
/// so.
pub fn cut_short_is_right_so_far()
    ensures { (octets : List ℕ) → AreOctets octets → decoded_image octets ≡ Err Truncated
        → IsRightSoFar octets }
{}
