use chip_model::Bus;
use mcal_base::{Answer, Event, Head, ModuleName, Move, Routine, Short, Taken};
use run_model::{Class, Kind};
use step_runner::Module;

/// A call of a cell.
#[derive(Clone, Copy)]
pub enum CellCall {
    /// Gives the word.
    Get,
    /// Stores the word.
    Put(u32),
}

/// A call under way: it makes one step, and acts there.
#[derive(Clone, Copy)]
pub struct CellFrame {
    /// The number of the driver word.
    pub word: u32,
    /// The call.
    pub call: CellCall,
}

impl Routine for CellFrame {
    ghost use Rattle.driver_examples.specs.three.Cell.{cell_move, cell_gave};

    ghost move_of = { cell_move };

    ghost left = { λ f value. f };

    ghost gave = { cell_gave };

    fn next(&self) -> Move {
        match self.call {
            CellCall::Get => Move::Load(self.word),
            CellCall::Put(value) => Move::Store(self.word, value),
        }
    }

    fn took(&mut self, value: u32) -> Taken {
        let mut words = Short::new();
        let answer = match self.call {
            CellCall::Get => {
                words.push(value);
                Answer {
                    head: Head::Numbers,
                    words,
                }
            }
            CellCall::Put(_) => Answer {
                head: Head::Nothing,
                words,
            },
        };
        Taken {
            event: Some(Event::Act),
            ended: Some(answer),
        }
    }
}

/// A driver of one driver word.
#[derive(Clone, Copy)]
pub struct Cell {
    /// The number of the word.
    pub word: u32,
}

impl Module for Cell {
    type Call = CellCall;

    type Frame = CellFrame;

    type State = u32;

    ghost use Rattle.driver_examples.specs.three.Cell.{cell};
    ghost use Rattle.driver_examples.specs.three.CellLaws.{cell_lawful};

    ghost spec = { λ m. cell m.word };

    fn frame(&self, call: &CellCall) -> CellFrame {
        CellFrame {
            word: self.word,
            call: *call,
        }
    }

    fn handler(&self, _line: u32) -> Option<CellFrame> {
        None
    }

    fn class(&self, _call: &CellCall) -> Class {
        Class {
            kind: Kind::Query,
            module: ModuleName::Gpt,
            key: None,
        }
    }

    fn level(&self, _line: u32) -> u32 {
        1
    }

    fn owner(&self, _line: u32) -> ModuleName {
        ModuleName::Gpt
    }

    fn source_use(&self, _bus: &Bus, _channel: u32) -> Option<bool> {
        None
    }

    ghost laws = { λ m fits. cell_lawful m.word fits };
}
