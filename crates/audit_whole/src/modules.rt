use crate::agreeing;
use crate::aspects::Aspect;
use crate::at_rest::AtRest;
use crate::sizes::sizes_fit;
use crate::whole::Whole;
use audit_base::Outside;
use audit_machines::{AllModules, AnyCall, call_of};
use audit_subject::Origin;
use chip_model::Bus;
use mcal_base::{Config, Notice, Request, Shown};
use shown_rows::shown_text;
use std::alloc::{AllocError, Global};

impl Whole for AllModules {
    type Configuration = Config;

    ghost use Rattle.std.proofs.Common.{subst, sym};
    ghost use Rattle.config_facts.specs.Valid.{IsValid};
    ghost use Rattle.shown_rows.specs.Shows.{show_rows};
    ghost use Rattle.audit_machines.specs.Requests as requests;
    ghost use Rattle.audit_machines.specs.System.{all_tables};
    ghost use Rattle.audit_whole.specs.Aspects.{agrees};
    ghost use Rattle.audit_whole.specs.Resting.{serials_of};
    ghost use Rattle.audit_whole.specs.Whole.{InLimits};
    ghost use Rattle.audit_whole.specs.laws.Events.{kept_by_event};
    ghost use Rattle.audit_whole.specs.laws.Keeping.{kept_by_move, kept_by_order};
    ghost use Rattle.audit_whole.specs.laws.Opening.{opens, rests};
    ghost use Rattle.audit_whole.specs.laws.Places.{few_channels};
    ghost use Rattle.audit_whole.specs.laws.Lines.{due_asked, due_below, used_below};
    ghost use Rattle.audit_whole.specs.laws.Services.{serves};
    ghost use Rattle.audit_whole.specs.laws.Units.{ticked};
    ghost use Rattle.audit_whole.specs.laws.Waits.{any_waits};

    ghost table_of = { λ c. all_tables c (serials_of c) };

    ghost valid = { IsValid };

    ghost within = { λ m. InLimits (Self.table m).0 };

    ghost has_service = { requests.has_service };

    ghost call_of = { requests.call_of };

    ghost showing = { show_rows };

    ghost agrees = { λ a t chip w s. agrees a t.0 chip w s };

    fn call(&self, request: &Request) -> AnyCall {
        call_of(request)
    }

    fn agrees_open(&self, outside: &Outside, bus: &Bus, origins: &[Origin<AnyCall>]) -> bool {
        agreeing::agrees_open(self, outside, bus, origins)
    }

    fn agrees_at_rest(&self, _outside: &Outside, bus: &Bus) -> bool {
        agreeing::agrees_at_rest(self, bus)
    }

    fn agrees_in(&self, aspect: Aspect, outside: &Outside, bus: &Bus) -> bool {
        agreeing::agrees_in(self, aspect, outside, bus)
    }

    fn agrees_at(&self, bus: &Bus, origin: &Origin<AnyCall>, notice: Notice) -> bool {
        agreeing::agrees_at(self, bus, origin, notice)
    }

    /// A capture channel never has more stamps than places: no machine starts it so.
    fn shown(
        &self,
        alloc: Global,
        config: &Config,
        outside: &Outside,
        line: u32,
        what: Shown,
    ) -> Result<String, AllocError> {
        if !sizes_fit(config, &self.host.second.first.second) {
            return Err(AllocError);
        }
        let rest = AtRest::new(config, self, outside);
        shown_text(alloc, &rest, line, what)
    }

    ghost stays = { λ m n same limits. subst (λ t. InLimits t.0) (sym same) limits };

    ghost due_bounded = { λ m w s l stands due. due_below (Self.table m).0 w s l due };

    ghost used_lines = { λ m l used. used_below (Self.table m).0 l used };

    ghost asked_lines = { λ m w s l stands due. due_asked (Self.table m).0 w s l due };

    ghost ticked = { λ t w s n u off. ticked t.0 w s n u off };

    ghost waits = { λ t origin unit may. any_waits t.0 origin unit may };

    ghost serves = { λ t r has. serves r };

    ghost filled = { λ m c limits fills. few_channels (Self.table m).0 c limits fills };

    ghost opens = { λ t chip w s os outputs pins arrays. opens t.0 chip w s os outputs pins arrays };

    ghost rests = { λ t chip w s ram pins stamps results arrays. rests t.0 chip w s ram pins stamps results arrays };

    ghost kept_by_move = { λ a t chip w s made received off h. kept_by_move a t.0 chip w s made received off h };

    ghost kept_by_event = { λ a t chip w s o made received e off h. kept_by_event a t chip w s o made received e off h };

    ghost kept_by_order = { λ a t chip w s order off h. kept_by_order a t.0 chip w s order off h };
}
