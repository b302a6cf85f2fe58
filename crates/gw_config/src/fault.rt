//! Why a configuration document gives no setup.
ghost use Rattle.std.specs.Prelude.{◌≡◌, ◌++◌, IfOk};

use gw_base::{Bytes, Ident, Text};
use std::alloc::{AllocError, AllocFailed, Global};
use thiserror::Error;

/// Why a configuration document gives no setup.
#[derive(Debug, Drop, Error)]
pub enum ConfigFault {
    #[error("the document has more than 65,536 bytes")]
    Long,
    #[error("the document is no TOML at byte {at}")]
    NotToml { at: usize },
    #[error("the key {} is missing", .key.as_str())]
    Missing { key: Text },
    #[error("the key {} is unknown or its value is of another form", .key.as_str())]
    Wrong { key: Text },
    #[error("two terminals are named {poi}")]
    Twice { poi: Ident<40> },
    #[error("memory ran out")]
    Memory,
}

impl<T: Drop> From<AllocFailed<T>> for ConfigFault {
    ghost use Rattle.gw_config.specs.declared.fault.ConfigFault.TheVariants.{Memory};

    ghost from_gives = { λ _ fault. fault ≡ Memory };

    fn from(_: AllocFailed<T>) -> ConfigFault {
        ConfigFault::Memory
    }
}

impl From<AllocError> for ConfigFault {
    ghost use Rattle.gw_config.specs.declared.fault.ConfigFault.TheVariants.{Memory};

    ghost from_gives = { λ _ fault. fault ≡ Memory };

    fn from(_: AllocError) -> ConfigFault {
        ConfigFault::Memory
    }
}

impl ConfigFault {
    ghost use Rattle.std.specs.Prelude.{◌≡◌, IfOk};
    ghost use Rattle.gw_config.specs.FaultLine.{fault_line};

    /// The line that the program prints for the fault, without its end.
    pub fn line(&self, alloc: Global) -> Result<Bytes, AllocError>
        ensures { IfOk result (λ line. line ≡ fault_line self.now) }
    {
        match self {
            ConfigFault::Long => Bytes::copied(alloc, b"config long"),
            ConfigFault::NotToml { at } => {
                let at = at.to_string(alloc)?;
                joined(alloc, b"config not-toml ", at.as_bytes())
            }
            ConfigFault::Missing { key } => {
                joined(alloc, b"config missing ", key.as_str().as_bytes())
            }
            ConfigFault::Wrong { key } => {
                joined(alloc, b"config wrong ", key.as_str().as_bytes())
            }
            ConfigFault::Twice { poi } => joined(alloc, b"config twice ", poi.as_bytes()),
            ConfigFault::Memory => Bytes::copied(alloc, b"memory"),
        }
    }
}

/// These bytes, and those after them.
fn joined(alloc: Global, first: &[u8], second: &[u8]) -> Result<Bytes, AllocError>
    ensures { IfOk result (λ bytes. bytes ≡ first.now ++ second.now) }
{
    let mut bytes = Bytes::copied(alloc, first)?;
    bytes.extend(second)?;
    Ok(bytes)
}
