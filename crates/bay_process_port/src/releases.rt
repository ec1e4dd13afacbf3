// The releases of switches that a process receives.
ghost use Rattle.std.specs.Prelude.{◌≡◌, length, map, slice_get, if◌then◌else◌};
ghost use Rattle.std.specs.List.{range_with_len};
ghost use Rattle.bay_device.specs.LookUps.{enabled_of};
ghost use Rattle.bay_process_port.specs.Releases.{no_releases_sent, release_line, release_part, releases_text, release_at, releases_from, new_releases, sent_releases_after};
ghost use Rattle.bay_process_port.specs.Releases as spec;
ghost use Rattle.bay_process_port.specs.ProcessOutput.{PutsWhole};

use crate::process_output::{ProcessQueue, QUEUE};
use bay_device::device::Device;
use std::marker::Model;

// The maximum number of switches in a bay.
const SWITCHES: usize = 32;

/// Whether a switch may be opened, and whether it may be closed.
pub type SwitchRelease = (bool, bool);

/// The release of each switch that a process was sent last, if it was sent one.
#[derive(Drop)]
pub struct ReportedReleases {
    releases: [Option<SwitchRelease>; SWITCHES],
}

impl Model for ReportedReleases {
    ghost use Rattle.std.specs.Prelude.{◌≡◌, List, Option, length};
    ghost use Rattle.bay_process_port.specs.Releases.{ReleaseData};

    ghost Value = { List (Option ReleaseData) };

    ghost view = { λ t. t.releases };

    ghost invariant = { λ t. length t.releases ≡ 32 };
}

impl ReportedReleases {
    /// Creates the state before anything was sent.
    #[tactic(auto, unfolding(crate::specs::Releases::no_releases_sent))]
    pub fn new() -> Self
        ensures { result ≡ no_releases_sent }
    {
        ReportedReleases {
            releases: [None; SWITCHES],
        }
    }

    // Records the releases of a device as those that were sent last.
    fn mark_sent(&mut self, device: &Device)
        ensures { self.new ≡ map (enabled_of device.now) (range_with_len 0 (length self.old)) }
    {
        for index in 0..SWITCHES {
            self.releases[index] = device.ena(index);
        }
    }
}

/// Returns the state before anything was sent, if a process receives releases.
pub fn nothing_reported(sends_releases: bool) -> Option<ReportedReleases>
    ensures { result ≡ (if sends_releases then Some no_releases_sent else None) }
{
    if sends_releases {
        Some(ReportedReleases::new())
    } else {
        None
    }
}

// Returns whether a release is the one that was sent last.
fn is_same(last: Option<SwitchRelease>, release: SwitchRelease) -> bool
    ensures { result ≡ spec.is_same last release }
{
    match last {
        Some(last) => last.0 == release.0 && last.1 == release.1,
        None => false,
    }
}

// Appends the line of the release of the switch with this id.
fn put_release_line(queue: &mut ProcessQueue, id: &str, release: SwitchRelease) -> bool
    ensures { PutsWhole queue.old (release_line id.now release) queue.new result }
{
    let opens: &[u8] = if release.0 { b"1" } else { b"0" };
    let closes: &[u8] = if release.1 { b"1" } else { b"0" };
    queue.put_parts(&[id.as_bytes(), b"=", opens, closes, b"\n"])
}

// Appends the line of the release of the switch at an index, if there is one.
fn put_release(
    queue: &mut ProcessQueue,
    device: &Device,
    index: usize,
    release: SwitchRelease,
) -> bool
    ensures { PutsWhole queue.old (release_part release (slice_get device.now.switches index))
        queue.new result }
{
    match device.id(index) {
        Some(id) => put_release_line(queue, id, release),
        None => queue.put_parts(&[]),
    }
}

// Appends the line of the switch at an index, if its release is not the one that was sent last.
fn put_change(
    queue: &mut ProcessQueue,
    device: &Device,
    index: usize,
    last: Option<SwitchRelease>,
) -> bool
    ensures { PutsWhole queue.old
        (releases_text device.now (release_at index last (enabled_of device.now index))) queue.new
        result }
{
    match device.ena(index) {
        Some(release) => {
            if is_same(last, release) {
                queue.put_parts(&[])
            } else {
                put_release(queue, device, index, release)
            }
        }
        None => queue.put_parts(&[]),
    }
}

// Appends the line of each switch whose release is not the one that was sent last.
fn put_changes(queue: &mut ProcessQueue, device: &Device, sent: &[Option<SwitchRelease>]) -> bool
    ensures { PutsWhole queue.old (releases_text device.now (releases_from device.now 0 sent.now))
        queue.new result }
{
    prove!(queue.as_slice().len() <= QUEUE);
    for index in 0..sent.len() {
        if !put_change(queue, device, index, sent[index]) {
            return false;
        }
    }
    true
}

/// Appends the line of each switch whose release is not the one that was sent last, if the process
/// receives releases, and records these releases as sent. Returns false if there is not room for
/// all of them.
pub fn put_releases(
    queue: &mut ProcessQueue,
    device: &Device,
    sent: &mut Option<ReportedReleases>,
) -> bool
    ensures queue { PutsWhole queue.old
        (releases_text device.now (new_releases device.now sent.old)) queue.new result }
    ensures sent { sent.new ≡ sent_releases_after device.now sent.old }
{
    match sent {
        Some(sent) => {
            let is_put = put_changes(queue, device, sent.releases.as_slice());
            sent.mark_sent(device);
            is_put
        }
        None => queue.put_parts(&[]),
    }
}
