ghost use Rattle.std.specs.Prelude.{◌≡◌};
ghost use Rattle.mcal_base.specs.Names as spec;

/// The modules, in the order of the configuration.
#[derive(Clone, Copy, Debug)]
pub enum ModuleName {
    /// `Mcu`
    Mcu,
    /// `Port`
    Port,
    /// `Gpt`
    Gpt,
    /// `Pwm`
    Pwm,
    /// `Icu`
    Icu,
    /// `Adc`
    Adc,
    /// `Spi`
    Spi,
    /// `Dio`
    Dio,
    /// `Wdg`
    Wdg,
}

impl ModuleName {
    /// The module's name, which is its key in a configuration.
    pub fn text(self) -> &'static str
        ensures { result.now ≡ spec.module_text self }
    {
        match self {
            ModuleName::Mcu => "Mcu",
            ModuleName::Port => "Port",
            ModuleName::Gpt => "Gpt",
            ModuleName::Pwm => "Pwm",
            ModuleName::Icu => "Icu",
            ModuleName::Adc => "Adc",
            ModuleName::Spi => "Spi",
            ModuleName::Dio => "Dio",
            ModuleName::Wdg => "Wdg",
        }
    }
}

impl ModuleName {
    /// The module's number, in the order of the configuration.
    pub fn number(self) -> u32
        ensures { result ≡ spec.module_number self }
    {
        match self {
            ModuleName::Mcu => 0,
            ModuleName::Port => 1,
            ModuleName::Gpt => 2,
            ModuleName::Pwm => 3,
            ModuleName::Icu => 4,
            ModuleName::Adc => 5,
            ModuleName::Spi => 6,
            ModuleName::Dio => 7,
            ModuleName::Wdg => 8,
        }
    }
}
