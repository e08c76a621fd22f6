use crate::keys::Table;
use crate::rows::{
    ADC_GROUP_KEYS, ADC_HW_UNIT_KEYS, ADC_KEYS, DIO_CHANNEL_GROUP_KEYS, DIO_KEYS,
    GPT_CHANNEL_CONFIGURATION_KEYS, GPT_KEYS, ICU_CHANNEL_KEYS, ICU_KEYS,
    MCU_CLOCK_SETTING_CONFIG_KEYS, MCU_KEYS, MCU_MODE_SETTING_CONF_KEYS,
    MCU_RAM_SECTOR_SETTING_CONF_KEYS, PORT_KEYS, PORT_PIN_KEYS, PWM_CHANNEL_KEYS, PWM_KEYS,
    SPI_CHANNEL_KEYS, SPI_JOB_KEYS, SPI_KEYS, SPI_SEQUENCE_KEYS, WDG_KEYS,
};
use config_keys::KeyName;
use mcal_base::ModuleName;

/// All tables, each module's own before those of its arrays.
static TABLES: [Table; 22] = [
    Table {
        module: ModuleName::Mcu,
        array: None,
        rows: &MCU_KEYS,
    },
    Table {
        module: ModuleName::Mcu,
        array: Some(KeyName::McuClockSettingConfig),
        rows: &MCU_CLOCK_SETTING_CONFIG_KEYS,
    },
    Table {
        module: ModuleName::Mcu,
        array: Some(KeyName::McuModeSettingConf),
        rows: &MCU_MODE_SETTING_CONF_KEYS,
    },
    Table {
        module: ModuleName::Mcu,
        array: Some(KeyName::McuRamSectorSettingConf),
        rows: &MCU_RAM_SECTOR_SETTING_CONF_KEYS,
    },
    Table {
        module: ModuleName::Port,
        array: None,
        rows: &PORT_KEYS,
    },
    Table {
        module: ModuleName::Port,
        array: Some(KeyName::PortPin),
        rows: &PORT_PIN_KEYS,
    },
    Table {
        module: ModuleName::Gpt,
        array: None,
        rows: &GPT_KEYS,
    },
    Table {
        module: ModuleName::Gpt,
        array: Some(KeyName::GptChannelConfiguration),
        rows: &GPT_CHANNEL_CONFIGURATION_KEYS,
    },
    Table {
        module: ModuleName::Pwm,
        array: None,
        rows: &PWM_KEYS,
    },
    Table {
        module: ModuleName::Pwm,
        array: Some(KeyName::PwmChannel),
        rows: &PWM_CHANNEL_KEYS,
    },
    Table {
        module: ModuleName::Icu,
        array: None,
        rows: &ICU_KEYS,
    },
    Table {
        module: ModuleName::Icu,
        array: Some(KeyName::IcuChannel),
        rows: &ICU_CHANNEL_KEYS,
    },
    Table {
        module: ModuleName::Adc,
        array: None,
        rows: &ADC_KEYS,
    },
    Table {
        module: ModuleName::Adc,
        array: Some(KeyName::AdcHwUnit),
        rows: &ADC_HW_UNIT_KEYS,
    },
    Table {
        module: ModuleName::Adc,
        array: Some(KeyName::AdcGroup),
        rows: &ADC_GROUP_KEYS,
    },
    Table {
        module: ModuleName::Spi,
        array: None,
        rows: &SPI_KEYS,
    },
    Table {
        module: ModuleName::Spi,
        array: Some(KeyName::SpiChannel),
        rows: &SPI_CHANNEL_KEYS,
    },
    Table {
        module: ModuleName::Spi,
        array: Some(KeyName::SpiJob),
        rows: &SPI_JOB_KEYS,
    },
    Table {
        module: ModuleName::Spi,
        array: Some(KeyName::SpiSequence),
        rows: &SPI_SEQUENCE_KEYS,
    },
    Table {
        module: ModuleName::Dio,
        array: None,
        rows: &DIO_KEYS,
    },
    Table {
        module: ModuleName::Dio,
        array: Some(KeyName::DioChannelGroup),
        rows: &DIO_CHANNEL_GROUP_KEYS,
    },
    Table {
        module: ModuleName::Wdg,
        array: None,
        rows: &WDG_KEYS,
    },
];

/// All tables, each module's own before those of its arrays.
pub fn tables() -> &'static [Table] {
    &TABLES
}
