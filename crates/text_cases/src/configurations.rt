//! Configurations, each with the refusal or the record that it gives.

use crate::generated;
use mcal_base::Config;
use mcal_config::{Printed, read_config};
use std::io;

/// The title of a bench file that the generator is to make, too.
const GENERATED: &str = "generated";

/// Prints a record, a line a module.
fn print_record(rt: &HostRuntime, config: &Config) -> io::Result<()> {
    println!(rt; "  {:?}", config.mcu)?;
    println!(rt; "  {:?}", config.port)?;
    println!(rt; "  {:?}", config.gpt)?;
    println!(rt; "  {:?}", config.pwm)?;
    println!(rt; "  {:?}", config.icu)?;
    println!(rt; "  {:?}", config.adc)?;
    println!(rt; "  {:?}", config.spi)?;
    println!(rt; "  {:?}", config.dio)?;
    println!(rt; "  {:?}", config.wdg)
}

/// Prints what the text of a title gives, and nothing where there is no title.
pub fn show(rt: &HostRuntime, title: &str, text: &[u8]) -> io::Result<()> {
    if title.is_empty() {
        return Ok(());
    }
    if title == GENERATED {
        return generated::compare(rt, text);
    }
    match read_config(rt.alloc(), text) {
        Err(fault) => println!(rt; "{title}: {}", Printed(fault)),
        Ok(config) => {
            println!(rt; "{title}:")?;
            print_record(rt, &config)
        }
    }
}
