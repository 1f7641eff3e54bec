//! Laws of a hall's answers. These functions do nothing but call others like them: their
//! contracts are theorems.
ghost use Rattle.std.specs.Prelude.{◌≡◌, ◌≢◌, Bool, true, None};
ghost use Rattle.http_heads.specs.Faults.{frame_name};
ghost use Rattle.http_text.specs.Print.{reply_text};
ghost use Rattle.http_heads.specs.declared.framing.FrameFault.{FrameFault};
ghost use Rattle.http_heads.specs.declared.message.RawReply.{RawReply};
ghost use Rattle.http_session.specs.Texts.{memory_text, refusal_text};
ghost use Rattle.rpc_answers.specs.Prints.{IsCompactPrintOf};
ghost use Rattle.rpc_answers.specs.declared.answer.Answer.{Answer};
ghost use Rattle.delta_session.specs.Laws.{SessionsAreServed, PassesStay, HallsAreFoundAgain};

use disk_model::Disk;
use hall_logs::visits_are_calls;
use shared_log::calls_add_up;
use shared_registry::lookups_add_up;

/// Answers one after another are calls of one pass, which add up.
pub fn sessions_are_served<D: Disk>()
    ensures { SessionsAreServed D.Disk }
{
    lookups_add_up();
    calls_add_up::<D>();
    visits_are_calls::<D>();
}

/// Whatever legal calls the passes made, all are there and each has its number.
pub fn passes_stay<D: Disk>()
    ensures { PassesStay D.Disk }
{}

/// A hall that is opened again over what a stop left of its disks has all that its passes had seen.
pub fn halls_are_found_again<D: Disk>()
    ensures { HallsAreFoundAgain D.Disk }
{}

/// What a session writes by itself is the print of an answer: for want of memory, and for each
/// fault of framing that refuses a request.
pub fn sessions_say_answers()
    ensures memory { (reply : RawReply) (close : Bool)
        → IsCompactPrintOf reply Answer.OutOfMemory close
        → memory_text close ≡ reply_text reply None }
    ensures refusals { (reply : RawReply) (fault : FrameFault) → fault ≢ FrameFault.OutOfMemory
        → IsCompactPrintOf reply (Answer.BadRequest (frame_name fault)) true
        → refusal_text fault ≡ reply_text reply None }
{}
