// The rules of a trial.
ghost use Rattle.std.specs.Prelude.{◌≡◌};
ghost use Rattle.rule_terms.specs.RuleText.{IsRuleText};
ghost use Rattle.capture_generator.specs.TrialRules.{trial_list, trial_text};

use rule_terms::lines_read_as_written;

/// The text of the rules that a trial uses, as a file of rules holds it.
pub fn trial_rules() -> &'static [u8]
    ensures { result.now ≡ trial_text }
{
    b"rule a proto udp has \"ab\"\nrule b proto udp dport 53 has \"abc\" nocase\nrule c proto any has \"|61 62|\" from 8 to 40\n"
}

/// The text of a trial is one of three rules.
pub fn trial_rules_law()
    ensures { IsRuleText trial_text trial_list }
{
    lines_read_as_written();
}
