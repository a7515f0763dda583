ghost use Rattle.std.specs.Prelude.{◌≡◌, IfOk, MatchResult};
ghost use Rattle.funnel_io.specs.Counts.{counted};
ghost use Rattle.funnel_model.specs.Configuration.{IsValid};
ghost use Rattle.funnel_stats.specs.Reading.{EndsReading, IsConfigRead, is_failed_read};
ghost use Rattle.funnel_stats.specs.Steps.{IsTaken};

use crate::fault::ConfigFault;
use crate::parsing::parse;
use funnel_io::{Got, Source};
use funnel_model::Config;
use std::alloc::Global;

/// The most bytes of a configuration.
pub(crate) const LONGEST: usize = 16_777_216;

/// How many bytes one read asks for.
const PIECE: usize = 4_096;

/// Reads the source to its end as a configuration, however its reads cut the bytes. Of a source that is too long one
/// byte more is taken than a configuration may have, and no further one.
pub fn read_config<S: Source>(alloc: Global, source: &mut S) -> Result<Config, ConfigFault>
    ensures borrowed { S.borrowed source.new ≡ S.borrowed source.old }
    ensures beside { S.beside_read source.new ≡ S.beside_read source.old }
    ensures answer { IsConfigRead result (S.incoming source.old) (S.incoming source.new) }
    ensures faults { MatchResult result
        (λ _. (S.incoming source.new).faults ≡ (S.incoming source.old).faults)
        (λ fault. (S.incoming source.new).faults ≡ counted (is_failed_read fault) (S.incoming source.old).faults) }
    ensures valid { IfOk result IsValid }

    // It reads on only after a read that gave bytes, with room for 64 further ones, or for all that may still be taken.
    ensures reads { EndsReading S.read_gives result source.old source.new }
{
    let bytes = read_all(alloc, source)?;
    parse(alloc, &bytes)
}

/// All bytes of the source.
fn read_all<S: Source>(alloc: Global, source: &mut S) -> Result<Vec<u8>, ConfigFault>
    ensures borrowed { S.borrowed source.new ≡ S.borrowed source.old }
    ensures beside { S.beside_read source.new ≡ S.beside_read source.old }
    ensures taken { IsTaken result (S.incoming source.old) (S.incoming source.new) }
    ensures faults { MatchResult result
        (λ _. (S.incoming source.new).faults ≡ (S.incoming source.old).faults)
        (λ fault. (S.incoming source.new).faults ≡ counted (is_failed_read fault) (S.incoming source.old).faults) }
    ensures reads { EndsReading S.read_gives result source.old source.new }
{
    let mut bytes = Vec::new(alloc);
    let mut room = [0; PIECE];
    while bytes.len() <= LONGEST {
        let wanted = (LONGEST + 1 - bytes.len()).min(PIECE);
        match source.read(&mut room[..wanted]) {
            Got::Bytes(n) => bytes.extend_from_slice(&room[..n])?,
            Got::End => return Ok(bytes),
            Got::Failed => return Err(ConfigFault::ReadFault),
        }
    }
    Err(ConfigFault::TooLong(LONGEST as u64))
}
