//! What a request asks of a mirror's server.
ghost use Rattle.std.specs.Prelude.{◌≡◌, IfErr, IfOk};
ghost use Rattle.rpc_calls.specs.Calls.{call_on};
ghost use Rattle.rpc_calls.specs.Outcomes.{TellsMethods};
ghost use Rattle.rpc_calls.specs.Services.{post_refusal, service_of};
ghost use Rattle.rpc_calls.specs.declared.surface.Surface.TheVariants.{Mirror};
ghost use Rattle.mirror_session.specs.Asking.{AnswersAsked, IsTaken};
ghost use Rattle.mirror_session.specs.Asking.{call_asked, is_pull, mirror_asked, pull_asked};

use delta_base::OutOfMemory;
use http_heads::RawRequest;
use rpc_calls::{Call, CallFault, Surface, check_post, read_call_on, read_service};
use std::alloc::Global;

/// What is asked of a mirror.
#[derive(Drop)]
pub enum MirrorAsked {
    /// A call that reads its log, or whether it is there.
    Ask(Call),
    /// To catch up with its origin.
    Pull,
}

// Whether a path names the service of pulls.
fn names_pull(alloc: Global, path: &[u8]) -> Result<bool, OutOfMemory>
    ensures { IfOk result (λ names. names ≡ is_pull (service_of path.now)) }
{
    match read_service(alloc, path)? {
        Some(service) => Ok(service.as_str() == "pull"),
        None => Ok(false),
    }
}

fn read_pull(request: &RawRequest) -> Result<MirrorAsked, CallFault>
    ensures asked { AnswersAsked result (pull_asked (post_refusal request.now)) }
    ensures taken { IfOk result IsTaken }
    ensures methods { IfErr result TellsMethods }
{
    match check_post(request) {
        Ok(()) => Ok(MirrorAsked::Pull),
        Err(fault) => Err(fault),
    }
}

fn read_ask(alloc: Global, request: RawRequest) -> Result<MirrorAsked, CallFault>
    ensures asked { AnswersAsked result (call_asked (call_on Mirror request)) }
    ensures taken { IfOk result IsTaken }
    ensures methods { IfErr result TellsMethods }
{
    match read_call_on(alloc, Surface::Mirror, request) {
        Ok(call) => Ok(MirrorAsked::Ask(call)),
        Err(fault) => Err(fault),
    }
}

/// What a request asks, or the first reason why it asks nothing.
pub(crate) fn read_asked(alloc: Global, request: RawRequest) -> Result<MirrorAsked, CallFault>
    ensures asked { AnswersAsked result (mirror_asked request) }
    ensures taken { IfOk result IsTaken }
    ensures methods { IfErr result TellsMethods }
{
    match names_pull(alloc, request.path.as_slice()) {
        Ok(true) => read_pull(&request),
        Ok(false) => read_ask(alloc, request),
        Err(_) => Err(CallFault::OutOfMemory),
    }
}
