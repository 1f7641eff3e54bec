//! Reading an input to its end.
ghost use Rattle.std.specs.Prelude.{◌≡◌, ◌+◌, ◌<◌, ◌≤◌, ◌^◌, ℕ, length, IsErrOf, IfOk, OnOk};
ghost use Rattle.std.specs.Io.KnownBytes.{Consumes, IsAtEnd};
ghost use Rattle.delta_base.specs.Outside.{Rose};
ghost use Rattle.stream_replay.specs.Source.{ReadsPast};

use delta_base::Source;
use sink_writing::PIECE;
use std::alloc::{AllocError, Global};

/// Why an input was not read to its end.
#[derive(Clone, Copy)]
pub enum InputFault {
    Failed,
    TooLong,
    OutOfMemory,
}

impl From<AllocError> for InputFault {
    ghost use Rattle.std.specs.Prelude.{◌≡◌};
    ghost use Rattle.delta_cli.specs.declared.input.InputFault.TheVariants.{OutOfMemory};

    ghost from_gives = { λ _ e. e ≡ OutOfMemory };

    fn from(_error: AllocError) -> InputFault {
        InputFault::OutOfMemory
    }
}

/// All that is left, where it has at most `limit` bytes; else at most a piece more is read.
pub fn read_all<S: Source>(
    alloc: Global,
    input: &mut S,
    limit: usize,
) -> Result<Vec<u8>, InputFault>
    requires { limit < 2 ^ 40 }
    ensures bytes { IfOk result (λ text.
        Consumes (S.left input.old) (S.left input.new) text.items) }
    ensures end { OnOk result (IsAtEnd (S.left input.new)) }
    ensures too_long { IsErrOf result InputFault.TooLong
        → ReadsPast limit (S.left input.old) (S.left input.new) }
    ensures within { IfOk result (λ text. length text.items ≤ limit) }
    ensures failed { IsErrOf result InputFault.Failed
        → Rose (S.faults input.old) (S.faults input.new) }
    ensures never_falls { S.faults input.old ≤ S.faults input.new }
{
    let mut text = Vec::new(alloc);
    let mut piece = [0u8; PIECE];
    'reading: while text.len() <= limit {
        let count = match input.read(&mut piece) {
            Ok(count) => count,
            Err(_) => return Err(InputFault::Failed),
        };
        if count == 0 {
            return Ok(text);
        }
        text.extend_from_slice(&piece[..count])?;
    }
    Err(InputFault::TooLong)
}
