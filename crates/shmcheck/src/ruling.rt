//! The rules of Linux with which a script's machine is opened.
ghost use Rattle.std.specs.Prelude.{◌≡◌};
ghost use Rattle.shmcheck.specs.Ruled.{rules_of, under};

use shm_base::Rules;
use shm_text::Script;

/// Those that the script names, none, or all of them.
#[derive(Clone, Copy, Debug, PartialEq, Eq)]
pub(crate) enum RuleSet {
    Own,
    Profile,
    Linux,
}

// The rules that replace the script's own, if any do.
fn rules_of(set: RuleSet) -> Option<Rules>
    ensures { result ≡ rules_of set }
{
    let rules = match set {
        RuleSet::Own => return None,
        RuleSet::Profile => Rules::PROFILE,
        RuleSet::Linux => Rules::LINUX,
    };
    Some(rules)
}

/// Sets the rules with which the script's machine is opened.
pub(crate) fn put_rules(script: &mut Script, set: RuleSet)
    ensures { script.new ≡ under set script.old }
{
    let Some(rules) = rules_of(set) else {
        return;
    };
    if let Ok(limits) = script.limits.with_rules(rules) {
        script.limits = limits;
    }
}
