// Laws of a device. Each function does nothing; its contract is the law.
ghost use Rattle.std.specs.Prelude.{◌≡◌};
ghost use Rattle.bay_device.specs.Device.{State, inputs_of};
ghost use Rattle.bay_device.specs.Entries.{IsIdle};
ghost use Rattle.bay_device.specs.Fresh.{IsSameProcess};
ghost use Rattle.bay_device.specs.ObservedRuns.{HaveAgreedSize};

/// If the process is the same in two states, each program of the bay reads the same values. The
/// comparison leaves out no position, no input and no measured value that a program can read.
pub fn programs_read_the_process()
    ensures { (s t : State) → t.switches ≡ s.switches → t.meters ≡ s.meters → t.reads ≡ s.reads
        → IsSameProcess s t → inputs_of t ≡ inputs_of s }
{}

/// A run can begin with a device as load made it, without an open association.
pub fn runs_begin_idle()
    ensures { (s : State) → IsIdle s → HaveAgreedSize s.connections }
{}
