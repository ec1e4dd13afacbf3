// Octets as cases spell them: in hexadecimal digits, `-` for none; `07*9` is nine times 07, and `+`
// joins parts.
use anyhow::{Result, bail};
use std::alloc::Global;

// Appends the octets that one part spells, repeated if the part has a count.
fn append_part(alloc: Global, part: &str, octets: &mut Vec<u8>) -> Result<()> {
    let (digits, times) = part.split_once("*").unwrap_or((part, "1"));
    let piece = hex::decode(alloc, digits)?;
    let times = times.parse::<usize>()?;
    if let [octet] = piece.as_slice() {
        return Ok(octets.resize(octets.len().saturating_add(times), *octet)?);
    }
    for _ in 0..times {
        octets.extend_from_slice(piece.as_slice())?;
    }
    Ok(())
}

/// Returns the octets that a word spells. Fails if the word does not spell octets.
pub fn octets_of(alloc: Global, word: &str) -> Result<Vec<u8>> {
    let mut octets = Vec::new(alloc);
    if word != "-" {
        for part in word.split("+") {
            append_part(alloc, part, &mut octets)?;
        }
    }
    Ok(octets)
}

/// Fails if the octets aren't those that a word spells, and names the octets found.
pub fn check_octets(alloc: Global, found: &[u8], word: &str) -> Result<()> {
    let wanted = octets_of(alloc, word)?;
    if found != wanted.as_slice() {
        bail!("it is {}", hex::encode(alloc, found)?);
    }
    Ok(())
}
