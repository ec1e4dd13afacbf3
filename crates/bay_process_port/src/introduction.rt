// The first line of a supervised process.
ghost use Rattle.std.specs.Prelude.{◌≡◌, nat_eq, length, option_map};
ghost use Rattle.std.specs.Cmp.Lexicographic.{pointwise};
ghost use Rattle.bay_process_port.specs.Introduction as spec;
ghost use Rattle.bay_server_turn.specs.Supervised.{text_without_end};

use bay_base::decimal::read_decimal;

// Compares all octets, so that the time of the comparison does not reveal where they differ.
fn is_same_key(given: &[u8], key: &[u8]) -> bool
    requires { length given.now ≡ length key.now }
    ensures { result ≡ pointwise nat_eq given.now key.now }
{
    let mut differences = 0;
    for i in 0..key.len() {
        let is_other = given[i] != key[i];
        differences += usize::from(is_other);
    }
    differences == 0
}

// Returns the text before a key at its end; `None` if it does not end with the key.
fn strip_key<'a>(text: &'a [u8], key: &[u8]) -> Option<&'a [u8]>
    ensures { option_map (λ rest. rest.now) result ≡ text_without_end key.now text.entry.now }
{
    if text.len() < key.len() {
        return None;
    }
    let (rest, given) = text.split_at(text.len() - key.len());
    if is_same_key(given, key) {
        Some(rest)
    } else {
        None
    }
}

/// Reads the first line of a supervised process, `T bay KEY DOMAIN REVISION`. Returns its moment T,
/// in milliseconds since 1970; `None` if the line has another form, key, domain or revision.
pub fn read_introduction(key: &[u8], domain: &str, revision: &str, line: &[u8]) -> Option<u64>
    ensures { result ≡ spec.introduction_moment key.now domain.now revision.now line.now }
{
    let rest = line.strip_suffix(revision.as_bytes())?;
    let rest = rest.strip_suffix(b" ")?;
    let rest = rest.strip_suffix(domain.as_bytes())?;
    let rest = rest.strip_suffix(b" ")?;
    let rest = strip_key(rest, key)?;
    read_decimal(rest.strip_suffix(b" bay ")?)
}
