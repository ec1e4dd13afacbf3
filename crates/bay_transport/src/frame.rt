// The frames of a stream: TPKTs (RFC 1006 6).
ghost use Rattle.std.specs.Prelude.{◌≡◌, ◌<◌, ◌≤◌, length};
ghost use Rattle.bay_transport.specs.Frame as spec;
ghost use Rattle.bay_transport.specs.Connect as spec_connect;

/// What a list of octets begins with.
#[derive(Clone, Copy)]
pub enum FramePrefix {
    /// No octet, or an incomplete frame.
    Begun,
    /// Octets that can't begin a frame.
    NoFrame,
    /// A complete frame of this many octets.
    Whole(usize),
}

/// A kind of TPDU.
#[derive(Clone, Copy)]
pub enum Tpdu {
    /// A request for a connection (CR).
    Request,
    /// Data (DT).
    Data,
    /// The end of the connection (DR), or an error report from the other side (ER).
    Release,
    /// Any other.
    Unknown,
}

/// Returns the kind of the TPDU with this code.
pub(crate) fn tpdu_of(code: u8) -> Tpdu
    ensures { result ≡ spec.tpdu_of code }
{
    match code {
        0xE0 => Tpdu::Request,
        0xF0 => Tpdu::Data,
        0x80 | 0x70 => Tpdu::Release,
        _ => Tpdu::Unknown,
    }
}

// Returns the number of two octets, the high one first.
fn pair_of(high: u8, low: u8) -> usize
    ensures { result ≡ spec.pair_of high low }
{
    high as usize * 256 + low as usize
}

/// Returns the frame header of a TPDU of `count` octets.
pub(crate) fn frame_header(count: usize) -> [u8; 4]
    requires { count ≤ 65_531 }
    ensures { result ≡ spec_connect.frame_header count }
{
    let [high, low] = ((count + 4) as u16).to_be_bytes();
    [3, 0, high, low]
}

/// Returns whether the octets begin with a complete frame, an incomplete one, or none.
pub(crate) fn frame_prefix(octets: &[u8]) -> FramePrefix
    ensures front { result ≡ spec.frame_prefix octets.now }
    ensures short { result ≡ FramePrefix.Begun → length octets.now < 65_535 }
{
    match octets {
        [] => FramePrefix::Begun,
        [version, ..] if *version != 3 => FramePrefix::NoFrame,
        [_, _, high, low, ..] => {
            let frame = pair_of(*high, *low);
            if frame < 7 {
                FramePrefix::NoFrame
            } else if octets.len() < frame {
                FramePrefix::Begun
            } else {
                FramePrefix::Whole(frame)
            }
        }
        [_, ..] => FramePrefix::Begun,
    }
}

/// Returns how many octets an incomplete frame still needs: those up to the end of its length
/// field, or, after that, those up to the end of the frame.
pub(crate) fn missing_octets(begun: &[u8]) -> usize
    requires { spec.frame_prefix begun.now ≡ FramePrefix.Begun }
    ensures wanted { result ≡ spec.missing_count begun.now }
    ensures some { 0 < result }
{
    match begun {
        [_, _, high, low, ..] => pair_of(*high, *low) - begun.len(),
        _ => 4 - begun.len(),
    }
}
