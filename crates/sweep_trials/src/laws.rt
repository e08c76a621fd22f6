ghost use Rattle.std.specs.Prelude.{◌≡◌, List, []};
ghost use Rattle.mcal_base.specs.declared.directive.Directive.{Directive};
ghost use Rattle.sweep_trials.specs.Grown.{IsPlain, IsSeen};
ghost use Rattle.sweep_trials.specs.declared.followed.Followed.{Followed};
ghost use Rattle.sweep_trials.specs.declared.reactions.Following.{Following};

use crate::seen::Runs;

/// Where no call follows a notice, what is seen is of the flat script of the directives that were given.
pub fn without_reactions_is_plain<R: Runs>()
    ensures { (runs : R) (following : Following) (first : List Directive) (found : Followed) → following.calls.now ≡ [] → IsSeen (R.is_seen runs) following first found → IsPlain (R.is_seen runs) first found }
{}
