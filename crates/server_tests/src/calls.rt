//! Two calls for a version, and what is answered in short.
ghost use Rattle.std.specs.Prelude.{◌≡◌, ◌≤◌, ◌+◌, true};
ghost use Rattle.std.specs.List.{list_all};
ghost use Rattle.http_text.specs.Print.{is_visible};
ghost use Rattle.delta_client.specs.Lines.{opens};

use delta_base::{OutOfMemory, Text};
use delta_client::{AskFault, Dial, Line, ask_again};
use rpc_answers::Answer;
use rpc_calls::Call;
use std::alloc::Global;
use std::process::Abort;

/// The reply that it is 1.
pub(crate) const FIRST: &[u8] =
    b"HTTP/1.1 200 OK\r\nContent-Type: application/json\r\nContent-Length: 13\r\n\r\n{\"version\":1}";

/// The reply that it is 2.
pub(crate) const SECOND: &[u8] =
    b"HTTP/1.1 200 OK\r\nContent-Type: application/json\r\nContent-Length: 13\r\n\r\n{\"version\":2}";

/// What is answered to two calls in short.
pub(crate) type Both = [Result<u32, AskFault>; 2];

/// The call for the version of the log ABC.
fn call(alloc: Global) -> Result<Call, OutOfMemory> {
    let name = Text::from_str(alloc, "ABC")?;
    Ok(Call::Version { name })
}

/// The version that an answer tells; 0 where it tells none.
fn version_in(answer: &Answer) -> u32 {
    match answer {
        Answer::Version { version } => *version,
        _ => 0,
    }
}

/// What was answered in short. Want of memory ends a test.
fn version_told(told: Result<Answer, AskFault>) -> Result<Result<u32, AskFault>, OutOfMemory> {
    match told {
        Ok(answer) => {
            let version = version_in(&answer);
            drop(answer);
            Ok(Ok(version))
        }
        Err(AskFault::OutOfMemory) => Err(OutOfMemory),
        Err(fault) => Ok(Err(fault)),
    }
}

/// Asks a host for the version of the log ABC.
fn asks<N: Dial>(
    alloc: Global,
    net: &mut N,
    line: &mut Line<N::L>,
    host: &Text,
) -> Result<Result<u32, AskFault>, OutOfMemory>
    requires visible { list_all is_visible host.now ≡ true }
    requires count { opens line.old.open ≤ N.held net.old }
    ensures { N.held net.new + opens line.old.open ≡ N.held net.old + opens line.new.open }
{
    let call = call(alloc)?;
    let told = ask_again(alloc, net, line, host, &call);
    drop(call);
    version_told(told)
}

/// Asks twice.
pub(crate) fn asks_twice<N: Dial>(
    alloc: Global,
    net: &mut N,
    line: &mut Line<N::L>,
    host: &Text,
) -> Result<Both, OutOfMemory>
    requires visible { list_all is_visible host.now ≡ true }
    requires count { opens line.old.open ≤ N.held net.old }
    ensures { N.held net.new + opens line.old.open ≡ N.held net.old + opens line.new.open }
{
    let first = asks(alloc, net, line, host)?;
    let second = asks(alloc, net, line, host)?;
    Ok([first, second])
}

/// Two calls are answered so.
pub(crate) fn are_told(rt: &impl Abort, told: Both, wanted: Both) {
    assert!(rt; told == wanted);
}
