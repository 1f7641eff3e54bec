//! What is decided of a patch, and what an append answers.
use delta_base::Id;
use log_base::FullKind;

/// What a chain makes of one more patch.
#[derive(Clone, Copy, Debug, PartialEq, Eq)]
pub enum Decision {
    Accept {
        version: u32,
    },
    Known {
        version: u32,
        same: bool,
    },
    Conflict {
        version: u32,
        head: Option<Id>,
        prev_version: Option<u32>,
    },
    Full {
        what: FullKind,
        have: u64,
        limit: u64,
    },
}

/// What an append answers.
#[derive(Clone, Copy, Debug, PartialEq, Eq)]
pub enum LogAnswer {
    Accepted {
        version: u32,
    },
    /// A run, whose patches have the versions from `first` to `version`.
    AcceptedRun {
        first: u32,
        version: u32,
    },
    Known {
        version: u32,
        same: bool,
    },
    Conflict {
        version: u32,
        head: Option<Id>,
        prev_version: Option<u32>,
    },
    Full {
        what: FullKind,
        have: u64,
        limit: u64,
    },
    DiskFault,
    OutOfMemory,
}

impl LogAnswer {
    ghost use Rattle.std.specs.Prelude.{◌≡◌, ◌<◌, ◌≤◌, ℕ};
    ghost use Rattle.chain_core.specs.Stay.{answer_of};
    ghost use Rattle.chain_core.specs.Replies.{as_run};
    ghost use Rattle.chain_core.specs.declared.answer.LogAnswer.{LogAnswer as Answer};
    ghost use Rattle.chain_core.specs.declared.answer.LogAnswer.TheVariants as answers;

    /// The answer as one to a run of so many patches: that it is accepted is told with the version
    /// of its first patch.
    pub fn as_run(self, patches: u32) -> LogAnswer
        requires some { 0 < patches }
        requires counted { (version : ℕ) → self ≡ answers.Accepted version → patches ≤ version }
        ensures { result ≡ as_run patches self }
    {
        match self {
            LogAnswer::Accepted { version } => LogAnswer::AcceptedRun {
                first: version - (patches - 1),
                version,
            },
            answer => answer,
        }
    }

    /// The answer that tells a decision.
    pub fn told(decision: Decision) -> LogAnswer
        ensures { result ≡ answer_of decision }
    {
        match decision {
            Decision::Accept { version } => LogAnswer::Accepted { version },
            Decision::Known { version, same } => LogAnswer::Known { version, same },
            Decision::Conflict {
                version,
                head,
                prev_version,
            } => LogAnswer::Conflict {
                version,
                head,
                prev_version,
            },
            Decision::Full { what, have, limit } => LogAnswer::Full { what, have, limit },
        }
    }
}
