// The releases of the switches, stored from one scan to the next as the text that is printed.
ghost use Rattle.std.specs.Prelude.{◌≡◌, ◌<◌, ℕ, List, IfOk, Some, length, slice_get, slice_set};
ghost use Rattle.bay_nodes.specs.declared.switch.Switch.{Switch};
ghost use Rattle.bay_process.specs.Layout.{layout_of, switches_of};
ghost use Rattle.bay_process.specs.Releases.{ShowsReleases};
ghost use Rattle.bay_process.specs.Releases as spec;
ghost use Rattle.bay_process.specs.ReportedRows.{AreInterlocked, AreStored};
ghost use Rattle.bay_process.specs.declared.switch.SwitchEnables.{SwitchEnables as EnablesData};

use crate::rows::is_truth;
use crate::switch::{BoundSwitch, SwitchEnables};
use bay_tree::tree::Tree;
use std::alloc::{AllocError, Global};

/// The EnaOpn and EnaCls of the switches, as the text that is printed: ` ID=xy` for each switch,
/// where `x` is the digit of EnaOpn and `y` that of EnaCls, and a line end.
#[derive(Drop)]
pub struct Releases {
    pub text: Vec<u8>,
    /// The offset of each switch's first digit in the text.
    pub offsets: Vec<usize>,
    /// Whether a scan has written them. Before the first scan their quality may not be good.
    pub is_written: bool,
}

// Returns the digit of a truth value.
#[inline(always)]
fn digit_octet(truth: bool) -> u8
    ensures { result ≡ spec.digit_octet truth }
{
    b'0' + u8::from(truth)
}

impl Releases {
    /// Returns the releases of the switch at an index.
    #[inline(always)]
    pub fn get(&self, index: usize) -> SwitchEnables
        requires within { index < length self.now.offsets.items }
        requires shows { (ss : List Switch) × (enables : List EnablesData)
            × ShowsReleases ss enables self.now.text.items self.now.offsets.items }
        ensures { (ss : List Switch) (enables : List EnablesData)
            → ShowsReleases ss enables self.now.text.items self.now.offsets.items
            → slice_get enables index ≡ Some result }
    {
        let at = self.offsets[index];
        SwitchEnables {
            may_open: self.text[at] == b'1',
            may_close: self.text[at + 1] == b'1',
        }
    }

    /// Sets the releases of the switch at an index.
    pub fn set(&mut self, index: usize, enabled: SwitchEnables)
        requires within { index < length self.old.offsets.items }
        requires shows { (ss : List Switch) × (enables : List EnablesData)
            × ShowsReleases ss enables self.old.text.items self.old.offsets.items }
        ensures shows { (ss : List Switch) (enables : List EnablesData)
            → ShowsReleases ss enables self.old.text.items self.old.offsets.items
            → ShowsReleases ss (slice_set enables index enabled) self.new.text.items
            self.new.offsets.items }
        ensures offsets { self.new.offsets ≡ self.old.offsets }
        ensures flag { self.new.is_written ≡ self.old.is_written }
    {
        let at = self.offsets[index];
        self.text[at] = digit_octet(enabled.may_open);
        self.text[at + 1] = digit_octet(enabled.may_close);
    }
}

/// Returns the releases of the switches as the tree has them, before the first scan. Fails only if
/// an allocation fails.
pub fn store_releases(
    alloc: Global,
    tree: &Tree,
    switches: &[BoundSwitch],
) -> Result<Releases, AllocError>
    requires { AreInterlocked (layout_of tree.now) switches.now }
    ensures { IfOk result (AreStored tree.now (switches_of switches.now) 0) }
{
    let mut text = Vec::new(alloc);
    let mut offsets = Vec::new(alloc);
    for index in 0..switches.len() {
        let bound = &switches[index];
        let opens = digit_octet(is_truth(tree, bound.rows.ena_opn.value, true));
        let closes = digit_octet(is_truth(tree, bound.rows.ena_cls.value, true));
        text.push(b' ')?;
        text.extend_from_slice(bound.switch.id.as_str().as_bytes())?;
        offsets.push(text.len() + 1)?;
        text.extend_from_slice(&[b'=', opens, closes])?;
    }
    text.push(b'\n')?;
    Ok(Releases {
        text,
        offsets,
        is_written: false,
    })
}
