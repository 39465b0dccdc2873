//! A configuration is read from a source.
ghost use Rattle.std.specs.Prelude.{◌≡◌, ◌≤◌, Err, IfOk};
ghost use Rattle.pcp_base.specs.Configs.{IsConfig};
ghost use Rattle.pcp_io.specs.Faults.{HasRisen};
ghost use Rattle.config_source.specs.ConfigSources.{ReadsConfig, ReadsNoFurther, RefusesConfig, StopsAtFault};
ghost use Rattle.config_source.specs.declared.reading.ConfigFault.TheVariants.{Read, Refused};
ghost use Rattle.server_commands.specs.declared.statuses.ConfigCause.{ConfigCause};

use pcp_base::Config;
use pcp_config::{ConfigRefused, LONGEST_CONFIG, read_config};
use pcp_io::Source;
use script_player::{WholeFault, read_whole};
use server_commands::ConfigCause;
use std::alloc::Global;

/// Why there is no configuration.
#[derive(Clone, Copy, Debug, PartialEq, Eq)]
pub enum ConfigFault {
    /// The text is refused.
    Refused(ConfigCause),
    /// The source failed, and counted that.
    Read,
    /// No memory was found.
    Memory,
}

impl From<WholeFault> for ConfigFault {
    ghost use Rattle.std.specs.Prelude.{◌≡◌};
    ghost use Rattle.config_source.specs.Causes.{fault_of_whole};

    ghost from_gives = { λ whole fault. fault ≡ fault_of_whole whole };

    fn from(whole: WholeFault) -> ConfigFault {
        match whole {
            WholeFault::TooLong => ConfigFault::Refused(ConfigCause::TooLong),
            WholeFault::Read => ConfigFault::Read,
            WholeFault::Memory => ConfigFault::Memory,
        }
    }
}

impl From<ConfigRefused> for ConfigFault {
    ghost use Rattle.std.specs.Prelude.{◌≡◌};
    ghost use Rattle.config_source.specs.Causes.{fault_of_text};

    ghost from_gives = { λ refused fault. fault ≡ fault_of_text refused };

    fn from(refused: ConfigRefused) -> ConfigFault {
        match refused {
            ConfigRefused::TooLong => ConfigFault::Refused(ConfigCause::TooLong),
            ConfigRefused::NotToml => ConfigFault::Refused(ConfigCause::NotToml),
            ConfigRefused::NotConfig => ConfigFault::Refused(ConfigCause::NotConfig),
            ConfigRefused::Memory => ConfigFault::Memory,
        }
    }
}

/// The configuration that the source has: it is read to its end, or until it gave more octets than a
/// configuration has, and no further. `Refused` exactly where what was read is refused, unless the
/// source fails or memory runs out before.
pub fn config_of<C: Source>(alloc: Global, source: &mut C) -> Result<Config, ConfigFault>
    ensures config { IfOk result (ReadsConfig (C.left source.old) (C.left source.new)) }
    ensures allowed { IfOk result IsConfig }
    ensures refused { (cause : ConfigCause) → result ≡ Err (Refused cause) →
        RefusesConfig (C.left source.old) (C.left source.new) cause }

    // What was read before the source failed, which isn't too long, and in any case.
    ensures stopped { result ≡ Err Read → StopsAtFault (C.left source.old) (C.left source.new) }
    ensures few { ReadsNoFurther (C.left source.old) (C.left source.new) }

    // A fault is told only where a count of faults rose.
    ensures read_fault { result ≡ Err Read → HasRisen (C.faults source.old) (C.faults source.new) }
    ensures reads { C.faults source.old ≤ C.faults source.new }
{
    let text = read_whole(alloc, source, LONGEST_CONFIG)?;
    let config = read_config(alloc, &text)?;
    Ok(config)
}
