// Reading a whole script.
ghost use Rattle.std.specs.Prelude.{◌≡◌, ◌≤◌, ◌+◌, ◌^◌, IfOk, IsErrOf, length};
ghost use Rattle.ev_port.specs.Causes.{Rose};
ghost use Rattle.ev_port.specs.Told.{counted};
ghost use Rattle.ev_script.specs.Play.{IsRead};
ghost use Rattle.ev_script.specs.Status.{Takes};
ghost use Rattle.ev_script.specs.ScriptReading.{is_long};

use ev_port::Source;
use std::alloc::{AllocError, Global};

/// The most bytes of a script.
const MAX_SCRIPT: usize = 1 << 24;

/// How many bytes are read at a time.
const PIECE: usize = 1 << 16;

/// Why a script wasn't read.
#[derive(Clone, Copy, Debug, PartialEq, Eq)]
pub enum ReadError {
    /// The source failed.
    Failed,
    /// The script has more than 16,777,216 bytes.
    TooLong,
    /// There was no room for it.
    NoMemory,
}

impl From<AllocError> for ReadError {
    ghost use Rattle.ev_script.specs.declared.source.ReadError.TheVariants.{NoMemory};

    ghost from_gives = { λ _ e. e ≡ NoMemory };

    fn from(_: AllocError) -> ReadError {
        ReadError::NoMemory
    }
}

/// Reads a source to its end, in large pieces.
pub fn read_script<S: Source>(alloc: Global, source: &mut S) -> Result<Vec<u8>, ReadError>
    ensures read { IfOk result (λ script. IsRead (S.left source.old) (S.left source.new)
        script.items) }
    ensures short { IfOk result (λ script. length script.items ≤ 2 ^ 24) }
    ensures takes { Takes (S.taken source.old) (S.taken source.new) (is_long result) }
    ensures cause { IsErrOf result ReadError.Failed
        → Rose (S.faults source.old) (S.faults source.new) }
{
    let mut script = Vec::new(alloc);
    let mut piece = [0; PIECE];
    loop {
        let count = match source.read(&mut piece) {
            Ok(0) => return Ok(script),
            Ok(count) => count,
            Err(_) => return Err(ReadError::Failed),
        };
        if count > MAX_SCRIPT - script.len() {
            return Err(ReadError::TooLong);
        }
        script.extend_from_slice(&piece[..count])?;
    }
}
