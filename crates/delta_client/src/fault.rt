//! Why a call has no answer.
ghost use Rattle.std.specs.Prelude.{◌≡◌};

use delta_base::OutOfMemory;
use http_heads::FrameFault;
use rpc_answers::AnswerFault;

/// Why a call has no answer.
#[derive(Clone, Copy, Debug, PartialEq, Eq)]
pub enum AskFault {
    /// The connection failed, or none could be made.
    LinkFault,
    /// The bytes end inside a reply or before it.
    CutShort,
    /// The bytes begin no reply, or the reply prints no answer, or one of another kind than the
    /// call takes.
    NotUnderstood { at: u64 },
    OutOfMemory,
}

impl AskFault {
    ghost use Rattle.delta_client.specs.Asking.{of_frame};

    // A fault of the bytes, as one of a call.
    pub(crate) fn of_frame(fault: FrameFault) -> AskFault
        ensures { result ≡ of_frame fault }
    {
        match fault {
            FrameFault::OutOfMemory => AskFault::OutOfMemory,
            _ => AskFault::NotUnderstood { at: 0 },
        }
    }
}

impl From<OutOfMemory> for AskFault {
    ghost use Rattle.delta_client.specs.declared.fault.AskFault.TheVariants as faults;

    ghost from_gives = { λ _ e. e ≡ faults.OutOfMemory };

    fn from(_error: OutOfMemory) -> AskFault {
        AskFault::OutOfMemory
    }
}

impl From<AnswerFault> for AskFault {
    ghost use Rattle.delta_client.specs.Asking.{of_answer};

    ghost from_gives = { λ fault e. e ≡ of_answer fault };

    fn from(fault: AnswerFault) -> AskFault {
        match fault {
            AnswerFault::NotUnderstood { at } => AskFault::NotUnderstood { at },
            AnswerFault::OutOfMemory => AskFault::OutOfMemory,
        }
    }
}
