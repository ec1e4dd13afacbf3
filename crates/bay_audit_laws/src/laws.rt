// Laws of a device for a rule that holds of its program, and for a release that is harmless. Each
// function does nothing; its contract is the law.
ghost use Rattle.std.specs.Prelude.{ℕ};
ghost use Rattle.bay_audit.specs.Rules.{RuleHolds};
ghost use Rattle.bay_audit_hazards.specs.Judged.{IsHarmless};
ghost use Rattle.bay_audit_laws.specs.Examples.{at_all_times, halting_program};
ghost use Rattle.bay_audit_laws.specs.Laws.{CommandsAreHarmless, CommandsObey, CommandsWait, ScansAreDue, ScansObey, ScansRelease, ScansWait};
ghost use Rattle.bay_audit_laws.specs.Lost.{LostIsBlind};
ghost use Rattle.bay_audit_rules.specs.declared.rule.RuleKind.TheVariants.{Always, Never};
ghost use Rattle.bay_base.specs.declared.switch.Operation.{Operation};
ghost use Rattle.bay_diagram.specs.declared.network.Network.{Network};

/// If a rule holds of a program, each scan of a device with this program leaves EnaOpn and EnaCls
/// so that they obey the rule, for the positions, the inputs and the measured values of the device,
/// in each run of events from load on.
pub fn each_scan_obeys()
    ensures { ScansObey }
{}

/// If the rule holds that a switch is never released in a direction while a condition is TRUE, no
/// device with this program ever issues a command to move the switch in this direction while the
/// condition is TRUE for the values that the process last reported: in each run of events from load
/// on, whatever its clients request and its process reports.
pub fn no_command_breaks_a_rule()
    ensures { CommandsObey }
{}

/// If a release of a switch in a direction is harmless in a single line diagram, as an audit
/// answers it, no device with this program ever issues a command to move the switch in this
/// direction while that is a hazard in the diagram by the values that the process last reported: in
/// each run of events from load on, whatever its clients request and its process reports.
pub fn no_command_is_a_hazard()
    ensures { CommandsAreHarmless }
{}

/// If a timer establishes the rule that a switch is not released in a direction until a condition
/// has held for a time, each scan of a device with this program that releases the switch so, and
/// each command to move it so, in a state that the rule covers, comes only after the condition was
/// TRUE at each scan for at least the time: for the values that the process had reported by then,
/// in each run of events from load on.
pub fn a_release_waits()
    ensures scans { ScansWait }
    ensures commands { CommandsWait }
{}

/// If a timer establishes the rule that a switch is released in a direction after a condition has
/// held for a time, each scan of a device with this program releases the switch so, in a state that
/// the rule covers, if the condition was TRUE at this scan and at each scan before it back to one
/// at least the time ago. If the condition alone releases the switch, each scan with the condition
/// TRUE does so. Both for the values that the process had reported by then, in each run of events
/// from load on.
pub fn a_release_comes()
    ensures due { ScansAreDue }
    ensures at_once { ScansRelease }
{}

/// While the process is lost, the program reads only the values of a lost process: from the loss
/// until the process reports a position, an input, or a measured value or its invalidity, and the
/// report is accepted, the position of each switch is bad with an invalid quality and each input is
/// FALSE, and so each scan reads them, in each run of events from load on.
pub fn a_lost_process_releases_only_what_lost_does()
    ensures { LostIsBlind }
{}

/// An example of a rule that holds and of one that does not: a program of HALT alone releases no
/// switch, so the rule holds of it that a switch is never released, and not the rule that a switch
/// is always released. Each of its releases is harmless in any diagram.
pub fn a_program_that_releases_nothing()
    ensures never { RuleHolds halting_program (at_all_times Never) }
    ensures always { RuleHolds halting_program (at_all_times Always) → ⊥ }
    ensures harmless { (net : Network) (k : ℕ) (operation : Operation)
        → IsHarmless halting_program net k operation }
{}
