use chip_model::Bus;
use mcal_base::{Answer, Event, Head, ModuleName, Move, Notice, NoticeKind, Routine, Short, Taken};
use run_model::{Class, Kind};
use step_runner::Module;

/// The notice that is given.
pub const NOTICE: Notice = Notice {
    kind: NoticeKind::GptNotification,
    id: 4,
};

/// Closes the mask, opens it, acts there, calls a callback, and calls it again at its end.
#[derive(Drop)]
pub struct Bell {
    place: u32,
}

impl Routine for Bell {
    ghost use Rattle.std.specs.Prelude.{cond, ◌==◌, Some, None, []};
    ghost use Rattle.mcal_base.specs.declared.answer.Head.TheVariants.{Nothing};
    ghost use Rattle.mcal_base.specs.declared.moves.Event.TheVariants.{Act};
    ghost use Rattle.mcal_base.specs.declared.moves.Move.TheVariants.{Mask, Unmask, Note};
    ghost use Rattle.base_tests.specs.declared.bells.TheConstants.{NOTICE};

    ghost move_of = { λ f. cond (f.place == 0) Mask (cond (f.place == 1) Unmask (Note NOTICE)) };

    ghost left = { λ f value. record { place = cond (f.place == 0) 1 (cond (f.place == 1) 2 3) } };

    ghost gave = { λ f value. record { event = cond (f.place == 1) (Some Act) None; ended = cond (f.place == 0) None (cond (f.place == 1) None (cond (f.place == 2) None (Some (record { head = Nothing; words = [] })))) } };

    fn next(&self) -> Move {
        match self.place {
            0 => Move::Mask,
            1 => Move::Unmask,
            _ => Move::Note(NOTICE),
        }
    }

    fn took(&mut self, _value: u32) -> Taken {
        let (after, event, ends) = match self.place {
            0 => (1, None, false),
            1 => (2, Some(Event::Act), false),
            2 => (3, None, false),
            _ => (3, None, true),
        };
        self.place = after;
        let ended = if ends {
            Some(Answer {
                head: Head::Nothing,
                words: Short::new(),
            })
        } else {
            None
        };
        Taken { event, ended }
    }
}

/// One exclusive call, and the handler of one line.
#[derive(Drop)]
pub struct Bells;

impl Module for Bells {
    type Call = ();

    type Frame = Bell;

    type State = ();

    ghost use Rattle.std.specs.Prelude.{cond, ◌==◌, Some, None, [], true, false};
    ghost use Rattle.mcal_base.specs.declared.module_name.ModuleName.TheVariants.{Gpt};
    ghost use Rattle.mcal_base.specs.declared.service.Service.TheVariants.{GptInit};
    ghost use Rattle.run_model.specs.declared.class.Kind.TheVariants.{Exclusive};
    ghost use Rattle.base_tests.specs.declared.bells.Bell.{Bell};

    ghost spec = { λ m. record {
      fits = ⊥;
      can_call = λ c. Unit {0};
      setting = record {
        machine = record { happens = λ w s h. None; ready = λ w s l. false; due = λ w s l. false; startable = λ w s u. false; rate = λ s. 1; expires = λ w s. None; service_of = λ c. GptInit; reporting = λ c. record { detect = false; classification = 1 }; polls = λ w s c. []; line_waits = λ w s l. false };
        first = tt {0};
        class_of = λ c. record { kind = Exclusive; «module» = Gpt; key = None };
        level_of = λ l. cond (l == 3) 2 1;
        owner_of = λ l. Gpt;
        used = λ l. l == 3;
        steps_of = λ o. 4;
        window_of = λ o. 2;
        must = λ c. [];
        may = λ o made. false;
        halves = λ c. None;
        fills = λ c. false;
        in_use = λ w s c. false;
        rest = λ chip w s. Unit {0};
        unmasked = λ chip w s origins. Unit {0};
        shows = λ origin n chip s. Unit {0};
      };
      frame_of = λ c. record { place = 0 };
      handler_of = λ l. cond (l == 3) (Some (record { place = 0 })) None;
      wired = λ chip. Unit {0};
      relates = λ chip w ps s. ⊥;
      fuel = λ f. 0;
      room = λ f. 0;
      lines = λ l. l == 3;
      watches = false;
      count = λ s. 0;
      owns = λ o made. false;
    } };

    fn frame(&self, _call: &()) -> Bell {
        Bell { place: 0 }
    }

    fn handler(&self, line: u32) -> Option<Bell> {
        if line == 3 {
            Some(Bell { place: 0 })
        } else {
            None
        }
    }

    fn class(&self, _call: &()) -> Class {
        Class {
            kind: Kind::Exclusive,
            module: ModuleName::Gpt,
            key: None,
        }
    }

    fn level(&self, line: u32) -> u32 {
        if line == 3 { 2 } else { 1 }
    }

    fn owner(&self, _line: u32) -> ModuleName {
        ModuleName::Gpt
    }

    fn source_use(&self, _bus: &Bus, _channel: u32) -> Option<bool> {
        None
    }

    ghost laws = { λ m fits. absurd fits };
}
