ghost use Rattle.std.specs.Prelude.{◌≡◌, ◌<◌, ◌≤◌, ◌==◌, true};
ghost use Rattle.std.specs.List.{list_any};
ghost use Rattle.std.specs.Option.{IfSome};
ghost use Rattle.module_machines.specs.icu.Machine.{IcuState};
ghost use Rattle.module_machines.specs.icu.Shown.{size_of};
ghost use Rattle.mcal_base.specs.Layout.{length_of, of_id};
ghost use Rattle.mcal_base.specs.declared.config.icu.IcuChannel as configs;
ghost use Rattle.mcal_base.specs.declared.layout.Array.TheVariants.{Stamps};
ghost use Rattle.audit_captures.specs.Stands.{StandsFor};
ghost use Rattle.audit_whole.specs.Sizes as spec;

use audit_captures::Captures;
use mcal_base::{Config, IcuChannel};

/// The places of a capture channel's stamps.
const STAMPS: u32 = 64;

/// Whether a capture channel is configured.
fn is_configured(channels: &[IcuChannel], number: u32) -> bool
    ensures { result ≡ list_any (λ (x : configs.IcuChannel). x.id == number) channels.now }
{
    channels.iter().any(|channel| channel.id == number)
}

/// How many places the stamps of a capture channel have.
fn places_in(channels: &[IcuChannel], number: u32) -> u32
    ensures { result ≡ of_id (λ (x : configs.IcuChannel). x.id) (λ (x : configs.IcuChannel). 64) channels.now number }
{
    if is_configured(channels, number) {
        return STAMPS;
    }
    0
}

/// A size, where it is at most so large.
fn up_to(size: u32, most: u32) -> Option<u32>
    ensures { result ≡ spec.up_to size most }
{
    if size <= most { Some(size) } else { None }
}

/// How many stamps of a capture channel are shown, where there are so many places.
pub(crate) fn shown_stamps(config: &Config, captures: &Captures, number: u32) -> Option<u32>
    requires { number < 8 }
    ensures size { (s : IcuState) → StandsFor captures.now s → spec.SizeFits config.now s number → result ≡ size_of s number }
    ensures few { IfSome result (λ n. n ≤ length_of config.now (Stamps number)) }
{
    let most = places_in(config.icu.channels.as_slice(), number);
    match captures.size(number) {
        Some(size) => up_to(size, most),
        None => None,
    }
}

/// Whether there are as many places of a capture channel as it shows.
fn size_fits(config: &Config, captures: &Captures, number: u32) -> bool
    requires { number < 8 }
    ensures { (s : IcuState) → StandsFor captures.now s → result ≡ true → spec.SizeFits config.now s number }
{
    match captures.size(number) {
        Some(size) => size <= places_in(config.icu.channels.as_slice(), number),
        None => true,
    }
}

/// Whether there are as many places of each capture channel as it shows. No machine starts one with more.
pub(crate) fn sizes_fit(config: &Config, captures: &Captures) -> bool
    ensures { (s : IcuState) → StandsFor captures.now s → result ≡ true → spec.SizesFit config.now s }
{
    for number in 0..8 {
        if !size_fits(config, captures, number) {
            return false;
        }
    }
    true
}
