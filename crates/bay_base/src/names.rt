// How Instruction List compares names.
ghost use Rattle.std.specs.Prelude.{◌≡◌};
ghost use Rattle.bay_base.specs.Names as spec;

/// Returns whether two names are the same. The case of letters is not significant (IEC
/// 61131-3:2003, 2.1.2).
pub fn same_name(a: &str, b: &str) -> bool
    ensures { result ≡ spec.same_name a.now b.now }
{
    same_letters(a.as_bytes(), b.as_bytes())
}

/// Returns whether two slices of octets are equal if the case of ASCII letters is ignored.
#[tactic(auto, using(crate::proofs::NameLemmas::other_lengths, crate::proofs::NameLemmas::same_from, crate::proofs::NameLemmas::other_from, crate::proofs::NameLemmas::same_at_end))]
pub fn same_letters(a: &[u8], b: &[u8]) -> bool
    ensures { result ≡ spec.same_name a.now b.now }
{
    if a.len() != b.len() {
        return false;
    }
    for i in 0..a.len() {
        if a[i].to_ascii_uppercase() != b[i].to_ascii_uppercase() {
            return false;
        }
    }
    true
}
