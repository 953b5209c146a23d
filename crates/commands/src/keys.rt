//! The keys of a circuit whose wire is sealed.

ghost use Rattle.std.specs.Prelude.{◌≡◌, Ok, None, IfOk, IfSome, IfNone, IsSome};
ghost use Rattle.configuration.specs.Stations.{IsCircuit};

use circuit_keys::{circuit_keys, read_key_file};
use command_ends::Fault;
use configuration::Config;
use seals::Keys;

/// The keys of the circuit of a configuration, from the file that it names: none where it names none, since its wire is plain then.
pub(crate) fn keys_of<'a>(rt: &HostRuntime, config: &'a Config) -> Result<Option<Keys>, Fault<'a>>
    requires { IsCircuit config.now.member config.now.stations.items }
    ensures plain { IfNone config.now.key (result ≡ Ok None) }
    ensures sealed { IfSome config.now.key (λ _. IfOk result IsSome) }
{
    let Some(path) = &config.key else {
        return Ok(None);
    };
    let shared = read_key_file(rt, path)?;
    let count = config.stations.len() as u8;
    let keys = circuit_keys(rt.alloc(), &shared, config.circuit, count)?;
    Ok(Some(keys))
}
