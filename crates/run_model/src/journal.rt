ghost use Rattle.std.specs.Prelude.{ℕ, List, ◌≡◌, ◌<◌, ◌≤◌, ◌+◌, ◌^◌, ◌++◌, [], ◌∷◌, length, IfOk, map, true};
ghost use Rattle.run_model.specs.Packing.{IsNumbered, entries_in, step_with, what_of};
ghost use Rattle.run_model.specs.Entry.{Begins, Happens, Stays, Steps, Resets, written, said_at, step_at, answer_at, order_at, words_of_answer, words_of_order, is_happening, WhatFits, AnswerFits, HardwareFits};

use crate::item::{Hardware, LoggedAnswer, Span, Stepped};
use crate::items::Items;
use crate::kept::{JournalLists, KeptWhat, Rest, acts_alone, bare_end, is_plain};
use irq_control::Held;
use mcal_base::{Answer, Move, Order, Reason};
use std::alloc::{AllocError, Global};
use std::marker::Model;

/// The words of a journal's lists, with room that was taken before the run.
#[derive(Drop)]
pub struct Pool {
    words: Vec<u32>,
    room: usize,
}

impl Model for Pool {
    ghost use Rattle.std.specs.Prelude.{vec_len, vec_capacity, ◌≤◌, ◌<◌, ◌^◌};
    ghost use Rattle.run_model.specs.Rooms.{WordsKept};

    ghost Value = { WordsKept };

    ghost view = { λ p. record { words = p.words.items; room = p.room } };

    ghost invariant = { λ p. (vec_len p.words ≤ p.room) × (p.room ≤ vec_capacity p.words) × (p.room < 2 ^ 32) };
}

impl Pool {
    /// No words, and room for so many.
    pub fn with_room(alloc: Global, room: usize) -> Result<Pool, AllocError>
        requires { room < 2 ^ 32 }
        ensures { IfOk result (λ p. p ≡ record { words = []; room = room }) }
    {
        Ok(Pool {
            words: Vec::with_capacity(alloc, room)?,
            room,
        })
    }

    /// The words.
    pub fn as_slice(&self) -> &[u32]
        ensures { result.now ≡ self.now.words }
    {
        self.words.as_slice()
    }

    /// Keeps a list of words, and tells where. It takes no memory.
    pub fn keep(&mut self, words: &[u32]) -> Span
        requires { length self.old.words + length words.now ≤ self.old.room }
        ensures words { self.new ≡ record self.old { words = self.old.words ++ words.now } }
        ensures span { result ≡ record { at = length self.old.words; count = length words.now } }
    {
        let span = Span {
            at: self.words.len() as u32,
            count: words.len() as u32,
        };
        self.words.extend_from_slice(words).unwrap();
        span
    }
}

/// The journal of a run: its items, and the words of their lists. No call after `with_room` takes memory.
#[derive(Drop)]
pub struct Journal {
    items: Items,
    words: Pool,
}

impl Model for Journal {
    ghost use Rattle.std.specs.Prelude.{length};
    ghost use Rattle.run_model.specs.Entry.{Written, entries, AllFit};

    ghost Value = { Written };

    ghost view = { λ j. record { entries = entries j.words.words j.items.items; room = j.items.room; words = j.words.words; words_room = j.words.room } };

    ghost invariant = { λ j. AllFit (length j.words.words) j.items.items };
}

impl Journal {
    /// A journal with no items and no room. It takes no memory.
    pub fn empty(alloc: Global) -> Journal
        ensures { result ≡ record { entries = []; room = 0; words = []; words_room = 0 } }
    {
        Journal {
            items: Items::empty(alloc),
            words: Pool {
                words: Vec::new(alloc),
                room: 0,
            },
        }
    }

    /// A journal with room for so many items and so many words.
    pub fn with_room(alloc: Global, items: usize, words: usize) -> Result<Journal, AllocError>
        requires { words < 2 ^ 32 }
        ensures { IfOk result (λ j. j ≡ record { entries = []; room = items; words = []; words_room = words }) }
    {
        Ok(Journal {
            items: Items::with_room(alloc, items)?,
            words: Pool::with_room(alloc, words)?,
        })
    }

    /// The lists in which it stands.
    pub fn lists(&self) -> JournalLists<'_>
        ensures entries { entries_in result result.items.now ≡ self.now.entries }
        ensures words { result.words.now ≡ self.now.words }
    {
        self.items.lists(self.words.as_slice())
    }

    /// One more item that is no step with a rest, and whose lists stand among the words.
    fn push(&mut self, line: u32, depth: u32, what: KeptWhat)
        requires room { length self.old.entries < self.old.room }
        requires plain { IsNumbered 0 what }
        requires fits { WhatFits (length self.old.words) (what_of [] what) }
        ensures { self.new ≡ written self.old line depth (said_at self.old.words (what_of [] what)) [] }
    {
        self.items.push(line, depth, what);
    }

    /// One more step that has a rest, whose answer's words stand among the words.
    fn push_step(&mut self, line: u32, depth: u32, made: Move, rest: Rest)
        requires room { length self.old.entries < self.old.room }
        requires fits { AnswerFits (length self.old.words) rest.ended }
        ensures { self.new ≡ written self.old line depth (Steps (step_at self.old.words (step_with made rest.value rest))) [] }
    {
        self.items.push_step(line, depth, made, rest);
    }

    /// Keeps a list of words.
    fn keep(&mut self, words: &[u32]) -> Span
        requires { length self.old.words + length words.now ≤ self.old.words_room }
        ensures words { self.new ≡ record self.old { words = self.old.words ++ words.now } }
        ensures span { result ≡ record { at = length self.old.words; count = length words.now } }
    {
        self.words.keep(words)
    }

    /// Keeps the words of an answer.
    fn keep_answer(&mut self, answer: &Option<Answer>) -> Option<LoggedAnswer>
        requires { length self.old.words + length (words_of_answer answer.now) ≤ self.old.words_room }
        ensures words { self.new ≡ record self.old { words = self.old.words ++ words_of_answer answer.now } }
        ensures fits { AnswerFits (length self.new.words) result }
        ensures same { answer_at self.new.words result ≡ answer.now }
    {
        match answer {
            None => None,
            Some(answer) => Some(LoggedAnswer {
                head: answer.head,
                words: self.keep(answer.words.as_slice()),
            }),
        }
    }

    /// Keeps the words of an order by which the hardware moves, or something is shown.
    fn keep_order(&mut self, order: &Order) -> Hardware
        requires happening { is_happening order.now ≡ true }
        requires words { length self.old.words + length (words_of_order order.now) ≤ self.old.words_room }
        ensures words { self.new ≡ record self.old { words = self.old.words ++ words_of_order order.now } }
        ensures fits { HardwareFits (length self.new.words) result }
        ensures same { order_at self.new.words result ≡ order.now }
    {
        match order {
            Order::Tick(ticks) => Hardware::Tick(*ticks),
            Order::Level(pin, level) => Hardware::Level(*pin, *level),
            Order::Analog(input, value) => Hardware::Analog(*input, *value),
            Order::Trigger(input) => Hardware::Trigger(*input),
            Order::Miso(unit, words) => Hardware::Miso(*unit, self.keep(words.as_slice())),
            Order::SpiFault(unit) => Hardware::SpiFault(*unit),
            Order::Detach => Hardware::Detach,
            Order::Fill(channel, words) => Hardware::Fill(*channel, self.keep(words.as_slice())),
            Order::Show(shown) => Hardware::Show(*shown),
            _ => unreachable!(),
        }
    }

    /// Notes that a call or a handler began.
    pub fn begun(&mut self, line: u32, depth: u32)
        requires { length self.old.entries < self.old.room }
        ensures { self.new ≡ written self.old line depth Begins [] }
    {
        self.push(line, depth, KeptWhat::Begun);
    }

    /// Notes that a directive was held.
    pub fn held(&mut self, line: u32, depth: u32, cause: Held)
        requires { length self.old.entries < self.old.room }
        ensures { self.new ≡ written self.old line depth (Stays cause) [] }
    {
        self.push(line, depth, KeptWhat::Held(cause));
    }

    /// Notes a reset that dropped so many frames.
    pub fn reset(&mut self, line: u32, depth: u32, reason: Reason, dropped: u32)
        requires { length self.old.entries < self.old.room }
        ensures { self.new ≡ written self.old line depth (Resets reason dropped) [] }
    {
        self.push(line, depth, KeptWhat::Reset(reason, dropped));
    }

    /// Notes that the hardware moved, or that something was shown.
    pub fn happened(&mut self, line: u32, depth: u32, order: &Order)
        requires happening { is_happening order.now ≡ true }
        requires room { length self.old.entries < self.old.room }
        requires words { length self.old.words + length (words_of_order order.now) ≤ self.old.words_room }
        ensures { self.new ≡ written self.old line depth (Happens order.now) (words_of_order order.now) }
    {
        let hardware = self.keep_order(order);
        self.push(line, depth, KeptWhat::Happened(hardware));
    }

    /// Notes a step with what it has beside its move.
    fn stepped_whole(&mut self, line: u32, depth: u32, stepped: &Stepped)
        requires room { length self.old.entries < self.old.room }
        requires words { length self.old.words + length (words_of_answer stepped.now.ended) ≤ self.old.words_room }
        ensures { self.new ≡ written self.old line depth (Steps stepped.now) (words_of_answer stepped.now.ended) }
    {
        let ended = self.keep_answer(&stepped.ended);
        let rest = Rest {
            value: stepped.value,
            received: stepped.received,
            event: stepped.event,
            ended,
        };
        self.push_step(line, depth, stepped.made, rest);
    }

    /// Notes a step that has something beside its move and its value.
    fn stepped_more(&mut self, line: u32, depth: u32, stepped: &Stepped)
        requires room { length self.old.entries < self.old.room }
        requires words { length self.old.words + length (words_of_answer stepped.now.ended) ≤ self.old.words_room }
        ensures { self.new ≡ written self.old line depth (Steps stepped.now) (words_of_answer stepped.now.ended) }
    {
        if acts_alone(stepped) {
            self.push(line, depth, KeptWhat::Acted(stepped.made, stepped.value));
            return;
        }
        match bare_end(stepped) {
            Some(head) => self.push(line, depth, KeptWhat::Ended(stepped.made, head)),
            None => self.stepped_whole(line, depth, stepped),
        }
    }

    /// Notes a step.
    pub fn stepped(&mut self, line: u32, depth: u32, stepped: &Stepped)
        requires room { length self.old.entries < self.old.room }
        requires words { length self.old.words + length (words_of_answer stepped.now.ended) ≤ self.old.words_room }
        ensures { self.new ≡ written self.old line depth (Steps stepped.now) (words_of_answer stepped.now.ended) }
    {
        if is_plain(stepped) {
            self.push(line, depth, KeptWhat::Stepped(stepped.made, stepped.value));
        } else {
            self.stepped_more(line, depth, stepped);
        }
    }
}
