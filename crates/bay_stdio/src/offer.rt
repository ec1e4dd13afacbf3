// Offering octets to a sink until it accepts no more.
ghost use Rattle.std.specs.Prelude.{◌≤◌, drop, is_none, length, take};
ghost use Rattle.std.specs.Io.KnownBytes.{Appends};
ghost use Rattle.bay_stdio.specs.Offers.{OfferEnds};

use bay_io::calls::Sink;
use std::io;

/// How many of the octets a sink accepted.
#[derive(Drop)]
pub struct WriteProgress {
    /// The number of octets that were accepted, from the first on.
    pub taken: usize,
    /// The error of the last write, if it failed.
    pub failed: Option<io::Error>,
}

/// Offers octets to a sink until it has accepted all, or accepts none of the rest, or fails.
pub fn write_available<S: Sink>(sink: &mut S, octets: &[u8]) -> WriteProgress
    ensures within { result.taken ≤ length octets.now }
    ensures taken { Appends (S.contents sink.old) (S.contents sink.new)
        (take result.taken octets.now) }
    ensures left { OfferEnds S.does (drop result.taken octets.now) sink.new
        (is_none result.failed) }
{
    let mut taken = 0;
    while taken < octets.len() {
        match sink.write_octets(&octets[taken..]) {
            Ok(0) => {
                return WriteProgress {
                    taken,
                    failed: None,
                };
            }
            Ok(n) => taken += n,
            Err(error) => {
                return WriteProgress {
                    taken,
                    failed: Some(error),
                };
            }
        }
    }
    WriteProgress {
        taken,
        failed: None,
    }
}
