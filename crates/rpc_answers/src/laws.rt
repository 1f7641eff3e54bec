//! Laws of answers and the replies that print them.
ghost use Rattle.std.specs.Prelude.{◌≡◌, Result, IfOk, IfErr};
ghost use Rattle.http_heads.specs.declared.message.RawReply.{RawReply};
ghost use Rattle.rpc_answers.specs.declared.answer.Answer.{Answer};
ghost use Rattle.rpc_answers.specs.declared.fault.AnswerFault.{AnswerFault};
ghost use Rattle.rpc_answers.specs.Prints.{IsPrintOf, IsReadBack, IsRefusedReply, without_spare};

/// A reply prints one answer at most, but for the room of a list.
pub fn replies_are_one_answer()
    ensures { (reply : RawReply) (a b : Answer) → IsPrintOf reply a → IsPrintOf reply b
        → without_spare a ≡ without_spare b }
{}

/// Whoever reads the print of an answer reads that answer, or wants memory.
pub fn prints_are_read()
    ensures { (reply : RawReply) (a : Answer) (read : Result Answer AnswerFault)
        → IsPrintOf reply a → IfOk read (λ b. IsPrintOf reply b)
        → IfErr read (λ fault. IsRefusedReply reply fault) → IsReadBack a read }
{}
