// Laws of what an audit prints. Each function does nothing, and its contract is the law.
ghost use Rattle.cmd_audit.specs.Names.{BaysHaveWords, DiagramsHaveWords, NamesAreWords};
ghost use Rattle.cmd_audit.specs.Verdicts.{HoldsAreRead, NoJudgementIsRead};

/// Each name that an audit prints consists of letters, digits and `_` alone: the names of what a
/// program retains, the ids of switches, the names of points, and those of the nodes and switches of
/// a diagram. So none contains a line end or a space, and none prints a line of its own.
pub fn names_are_words()
    ensures program { NamesAreWords }
    ensures bay { BaysHaveWords }
    ensures diagram { DiagramsHaveWords }
{}

/// Among the lines of the answers and the releases, one reads `rule LINE ID OPERATION holds ..`
/// only for a rule of this line, switch and operation which the audit answered to hold; and this
/// answer is right. No line of the operations that a diagram judges reads so.
pub fn holds_are_read_back()
    ensures rules { HoldsAreRead }
    ensures diagram { NoJudgementIsRead }
{}
