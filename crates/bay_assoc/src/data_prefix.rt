// The octets before a PDU of MMS in its TSDU.
ghost use Rattle.std.specs.Prelude.{◌≡◌, ◌+◌, ◌<◌, ◌≤◌, ◌∷◌, ◌++◌, length, pos};
ghost use Rattle.arrayvec.specs.ArrayVec.{array_vec_len};
ghost use Rattle.bay_ber.specs.Writing.{length_octets, element, integer_octets};
ghost use Rattle.bay_ber.specs.Tags.{int_tag};
ghost use Rattle.bay_assoc.specs.Texts.{user_text, transfer_text};

use arrayvec::ArrayVec;
use bay_ber::writer::octets_needed;

// Appends octets that fit into the capacity.
fn extend(out: &mut ArrayVec<u8, 27>, octets: &[u8])
    requires { array_vec_len out.old + length octets.now ≤ 27 }
    ensures text { out.new.items ≡ out.old.items ++ octets.now }
    ensures count { array_vec_len out.new ≡ array_vec_len out.old + length octets.now }
{
    match out.try_extend_from_slice(octets) {
        Ok(()) => {}
        Err(_) => unreachable!(),
    }
}

// Appends the identifier octet and the shortest length of a value whose content has `count` octets.
#[tactic(auto, unfolding(bay_ber::specs::Writing::length_octets))]
fn push_header(out: &mut ArrayVec<u8, 27>, identifier: u8, count: usize)
    requires { array_vec_len out.old + 6 ≤ 27 }
    ensures text { out.new.items ≡ out.old.items ++ identifier ∷ length_octets count }
    ensures few { array_vec_len out.new ≤ array_vec_len out.old + 6 }
{
    out.push(identifier);
    if count < 0x80 {
        out.push(count as u8);
        return;
    }
    let needed = octets_needed(count);
    out.push(0x80 + needed as u8);
    extend(out, &count.to_be_bytes()[8 - needed..]);
}

// Appends the identifier of a context as an integer.
fn push_id(out: &mut ArrayVec<u8, 27>, id: u16)
    requires { array_vec_len out.old + 5 ≤ 27 }
    ensures text { out.new.items ≡ out.old.items ++ element int_tag (integer_octets (pos id)) }
    ensures few { array_vec_len out.new ≤ array_vec_len out.old + 5 }
{
    out.push(2);
    match id {
        0..=0x7F => {
            out.push(1);
            out.push(id as u8);
        }
        0x80..=0x7FFF => {
            out.push(2);
            out.push((id / 256) as u8);
            out.push((id % 256) as u8);
        }
        0x8000..=0xFFFF => {
            out.push(3);
            out.push(0);
            out.push((id / 256) as u8);
            out.push((id % 256) as u8);
        }
    }
}

/// Returns the octets of a DATA TRANSFER before its value in the context `id`.
pub(crate) fn data_prefix(id: u16, value: &[u8]) -> ArrayVec<u8, 27>
    ensures text { result.items ++ value.now ≡ transfer_text (user_text id value.now) }
    ensures low { id < 65_536 }
{
    let mut inner = ArrayVec::new();
    push_id(&mut inner, id);
    push_header(&mut inner, 0xA0, value.len());
    let mut list = ArrayVec::new();
    push_header(&mut list, 0x30, inner.len() + value.len());
    extend(&mut list, inner.as_slice());
    let mut out = ArrayVec::new();
    extend(&mut out, &[1, 0, 1, 0]);
    push_header(&mut out, 0x61, list.len() + value.len());
    extend(&mut out, list.as_slice());
    out
}
