//! Why a command that asks a server has no result.
ghost use Rattle.std.specs.Prelude.{◌≡◌};
ghost use Rattle.client_commands.specs.Answers.{client_fault};

use delta_base::{Bytes, OutOfMemory};
use delta_client::AskFault;

/// Why a command that asks a server has no result.
#[derive(Debug, Drop)]
pub enum ClientFault {
    /// The answer has another status than 200, and this body.
    Refused { status: u16, body: Bytes },
    /// The connection failed, or none could be made.
    LinkFailed,
    /// The bytes end inside a reply or before it.
    CutShort,
    /// The bytes begin no reply, or the reply prints no answer, or one of another kind than
    /// the call takes.
    NotUnderstood { at: u64 },
    OutOfMemory,
}

impl ClientFault {
    // A call that has no answer, as the end of its command.
    pub(crate) fn of_ask(fault: AskFault) -> ClientFault
        ensures { result ≡ client_fault fault }
    {
        match fault {
            AskFault::LinkFault => ClientFault::LinkFailed,
            AskFault::CutShort => ClientFault::CutShort,
            AskFault::NotUnderstood { at } => ClientFault::NotUnderstood { at },
            AskFault::OutOfMemory => ClientFault::OutOfMemory,
        }
    }
}

impl From<OutOfMemory> for ClientFault {
    ghost use Rattle.client_commands.specs.declared.fault.ClientFault.TheVariants as faults;

    ghost from_gives = { λ _ e. e ≡ faults.OutOfMemory };

    fn from(_error: OutOfMemory) -> ClientFault {
        ClientFault::OutOfMemory
    }
}
