//! Which answers a call takes.
ghost use Rattle.std.specs.Prelude.{◌≡◌, true, false};
ghost use Rattle.rpc_answers.specs.Answers.{status_of};
ghost use Rattle.delta_client.specs.Kinds.{IsAnswerTo, MayAnswer, kind_asked, kind_said};

use rpc_answers::Answer;
use rpc_calls::Call;

/// What an answer of status 200 says.
#[derive(Clone, Copy, Debug, PartialEq, Eq)]
pub enum Kind {
    Pong,
    Sources,
    Source,
    Info,
    Version,
    Run,
    Patch,
}

impl Kind {
    // The kind of answer that a call takes.
    fn asked(call: &Call) -> Kind
        ensures { result ≡ kind_asked call.now }
    {
        match call {
            Call::Ping => Kind::Pong,
            Call::List => Kind::Sources,
            Call::Source { .. } | Call::SourceById { .. } | Call::SourceByUri { .. } => {
                Kind::Source
            }
            Call::Create { .. } | Call::Rename { .. } | Call::Remove { .. } => Kind::Source,
            Call::Log { .. } => Kind::Info,
            Call::Version { .. } | Call::Append { .. } => Kind::Version,
            Call::AppendRun { .. } => Kind::Run,
            Call::FetchVersion { .. } | Call::FetchId { .. } => Kind::Patch,
        }
    }

    // The kind of an answer, where it is no refusal.
    fn said(answer: &Answer) -> Option<Kind>
        ensures { result ≡ kind_said answer.now }
    {
        match answer {
            Answer::Pong => Some(Kind::Pong),
            Answer::Sources(_) => Some(Kind::Sources),
            Answer::Source(_) => Some(Kind::Source),
            Answer::Info { .. } => Some(Kind::Info),
            Answer::Version { .. } => Some(Kind::Version),
            Answer::Run { .. } => Some(Kind::Run),
            Answer::Patch { .. } => Some(Kind::Patch),
            _ => None,
        }
    }
}

/// Whether a call takes an answer: a refusal, or one of the call's own kind.
pub(crate) fn takes(call: &Call, answer: &Answer) -> bool
    ensures yes { result ≡ true → MayAnswer call.now answer.now }
    ensures no { result ≡ false → status_of answer.now ≡ 200 }
    ensures other { result ≡ false → IsAnswerTo call.now answer.now → ⊥ }
{
    match Kind::said(answer) {
        Some(said) => said == Kind::asked(call),
        None => true,
    }
}
