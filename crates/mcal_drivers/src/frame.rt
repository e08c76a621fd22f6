use adc_driver::AdcFrame;
use dio_driver::DioFrame;
use gpt_driver::GptFrame;
use icu_driver::IcuFrame;
use mcal_base::{Answer, Event, Move, Routine, Taken};
use mcu_driver::McuFrame;
use port_driver::PortFrame;
use pwm_driver::PwmFrame;
use spi_driver::SpiFrame;
use std::marker::Model;
use wdg_driver::WdgFrame;

/// A call or a handler of one of the modules, under way. Contracts see the union of their frames.
#[derive(Drop)]
pub struct Frame {
    pub(crate) frame: ModuleFrame,
}

/// The frame of one of the modules.
#[derive(Drop)]
pub(crate) enum ModuleFrame {
    /// Of the clock's driver.
    Clock(McuFrame),
    /// Of the watchdog's driver.
    Watchdog(WdgFrame),
    /// Of the pins' driver.
    Pins(PortFrame),
    /// Of the timers' driver.
    Timers(GptFrame),
    /// Of the pulse outputs' driver.
    Pulses(PwmFrame),
    /// Of the capture inputs' driver.
    Captures(IcuFrame),
    /// Of the converter driver.
    Converters(AdcFrame),
    /// Of the serial driver.
    Serial(SpiFrame),
    /// Of the driver of channels and ports.
    Ports(DioFrame),
}

impl Model for Frame {
    ghost use Rattle.mcal_drivers.specs.Frames.{SystemFrame, in_union};

    ghost Value = { SystemFrame };

    ghost view = { λ f. in_union f.frame };
}

impl Routine for Frame {
    ghost use Rattle.step_runner.specs.Union.{either, either_left, either_gave};

    ghost move_of = { either (either (either (either ⟦<McuFrame as Routine>⟧.move_of ⟦<WdgFrame as Routine>⟧.move_of) (either ⟦<PortFrame as Routine>⟧.move_of ⟦<GptFrame as Routine>⟧.move_of)) (either (either ⟦<PwmFrame as Routine>⟧.move_of ⟦<IcuFrame as Routine>⟧.move_of) (either ⟦<AdcFrame as Routine>⟧.move_of ⟦<SpiFrame as Routine>⟧.move_of))) ⟦<DioFrame as Routine>⟧.move_of };

    ghost left = { either_left (either_left (either_left (either_left ⟦<McuFrame as Routine>⟧.left ⟦<WdgFrame as Routine>⟧.left) (either_left ⟦<PortFrame as Routine>⟧.left ⟦<GptFrame as Routine>⟧.left)) (either_left (either_left ⟦<PwmFrame as Routine>⟧.left ⟦<IcuFrame as Routine>⟧.left) (either_left ⟦<AdcFrame as Routine>⟧.left ⟦<SpiFrame as Routine>⟧.left))) ⟦<DioFrame as Routine>⟧.left };

    ghost gave = { either_gave (either_gave (either_gave (either_gave ⟦<McuFrame as Routine>⟧.gave ⟦<WdgFrame as Routine>⟧.gave) (either_gave ⟦<PortFrame as Routine>⟧.gave ⟦<GptFrame as Routine>⟧.gave)) (either_gave (either_gave ⟦<PwmFrame as Routine>⟧.gave ⟦<IcuFrame as Routine>⟧.gave) (either_gave ⟦<AdcFrame as Routine>⟧.gave ⟦<SpiFrame as Routine>⟧.gave))) ⟦<DioFrame as Routine>⟧.gave };

    fn next(&self) -> Move {
        match &self.frame {
            ModuleFrame::Clock(frame) => frame.next(),
            ModuleFrame::Watchdog(frame) => frame.next(),
            ModuleFrame::Pins(frame) => frame.next(),
            ModuleFrame::Timers(frame) => frame.next(),
            ModuleFrame::Pulses(frame) => frame.next(),
            ModuleFrame::Captures(frame) => frame.next(),
            ModuleFrame::Converters(frame) => frame.next(),
            ModuleFrame::Serial(frame) => frame.next(),
            ModuleFrame::Ports(frame) => frame.next(),
        }
    }

    fn took(&mut self, value: u32) -> Taken {
        match &mut self.frame {
            ModuleFrame::Clock(frame) => frame.took(value),
            ModuleFrame::Watchdog(frame) => frame.took(value),
            ModuleFrame::Pins(frame) => frame.took(value),
            ModuleFrame::Timers(frame) => frame.took(value),
            ModuleFrame::Pulses(frame) => frame.took(value),
            ModuleFrame::Captures(frame) => frame.took(value),
            ModuleFrame::Converters(frame) => frame.took(value),
            ModuleFrame::Serial(frame) => frame.took(value),
            ModuleFrame::Ports(frame) => frame.took(value),
        }
    }

    fn took_into(&mut self, value: u32, ended: &mut Option<Answer>) -> Option<Event> {
        match &mut self.frame {
            ModuleFrame::Clock(frame) => frame.took_into(value, ended),
            ModuleFrame::Watchdog(frame) => frame.took_into(value, ended),
            ModuleFrame::Pins(frame) => frame.took_into(value, ended),
            ModuleFrame::Timers(frame) => frame.took_into(value, ended),
            ModuleFrame::Pulses(frame) => frame.took_into(value, ended),
            ModuleFrame::Captures(frame) => frame.took_into(value, ended),
            ModuleFrame::Converters(frame) => frame.took_into(value, ended),
            ModuleFrame::Serial(frame) => frame.took_into(value, ended),
            ModuleFrame::Ports(frame) => frame.took_into(value, ended),
        }
    }
}
