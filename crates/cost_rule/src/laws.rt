ghost use Rattle.cost_rule.specs.Laws.{SpelledByGrammar};

/// The constraint that is read of a text, stage by stage, is the one that the text spells by the grammar.
pub fn spelled_by_grammar()
    ensures { SpelledByGrammar }
{}
