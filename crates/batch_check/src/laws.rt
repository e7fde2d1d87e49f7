//! What holds of the rules. Each law is the contract of a function that does nothing.

ghost use Rattle.batch_check.specs.Laws.{KeptRulesAreNotBroken, OneRuleIsBrokenFirst, UnbrokenRulesAreKept};

/// A batch that keeps the rules breaks none.
pub fn kept_rules_are_not_broken()
    ensures { KeptRulesAreNotBroken }
{}

/// A batch of writes that fit, on good rows, keeps the rules where it breaks none.
pub fn unbroken_rules_are_kept()
    ensures { UnbrokenRulesAreKept }
{}

/// A batch has at most one first broken rule.
pub fn one_rule_is_broken_first()
    ensures { OneRuleIsBrokenFirst }
{}
