// Laws of the meaning of a text. Each function does nothing; its contract is the law.
ghost use Rattle.bay_audit_rules.specs.Laws.{OneReading, AreConditions, AreTruths};

/// A text has at most one reading: one list of rules, or one fault.
pub fn text_is_read_once()
    ensures { OneReading }
{}

/// The items of each condition leave exactly one truth value on the stack. That of `and`, `or` and
/// `not` is the conjunction, the disjunction and the negation of their operands' truth values.
pub fn conditions_have_truths()
    ensures conditions { AreConditions }
    ensures truths { AreTruths }
{}
