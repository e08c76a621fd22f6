ghost use Rattle.std.specs.Prelude.{◌≡◌, ◌<◌, ℕ, Bool, List, Ok, length, true};
ghost use Rattle.std.specs.Str.Lines.{lines};
ghost use Rattle.bench_script.specs.Script.{script};
ghost use Rattle.mcal_base.specs.declared.directive.Directive.{Directive};
ghost use Rattle.mcal_base.specs.declared.service.Service.{Service};
ghost use Rattle.report_audit.specs.Judged.{CanAudit};

/// The reports of a script that was read can be audited, where each service is had: its lines rise, and what it names is
/// there, but for the channels of fills.
pub fn read_scripts_can_be_audited()
    ensures { (has_service : Service → Bool) (text : List ℕ) (directives : List Directive) → ((s : Service) → has_service s ≡ true) →
        length (lines text) < 4294967295 → script text ≡ Ok directives → CanAudit has_service directives }
{}
