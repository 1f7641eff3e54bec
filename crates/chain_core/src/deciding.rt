//! What a chain makes of one more run of patches.
ghost use Rattle.std.specs.Prelude.{◌≡◌, ◌≤◌, ◌<◌, ◌+◌, ◌^◌, [], ◌∷◌, length, sum_by};
ghost use Rattle.log_base.specs.declared.limits.TheConstants.{PATCH_LIMIT};
ghost use Rattle.chain_core.specs.Patches.{patches_of, texts_of, framed};
ghost use Rattle.chain_core.specs.Runs.{patches_sent, prev_of_run, run_text};
ghost use Rattle.chain_core.specs.Decision.{
  decision,
  decision_on_new,
  run_decision,
  version_known,
  version_named,
  stands_at,
};

use crate::answer::Decision;
use crate::chain::Chain;
use crate::lookup::Lookup;
use crate::sent::LinkedText;
use delta_base::Id;
use log_base::{ChainLink, FullKind, LogLimits, PAYLOAD_FRAME, Sent};

// The version of the first patch of a run whose id the chain has.
fn version_known<L: Lookup, S: Sent>(chain: &L, run: &[S]) -> Option<u32>
    ensures { result ≡ version_known (patches_of (L.entries chain.now))
        (patches_sent S.link_sent S.text_sent run.now) }
{
    for (place, sent) in run.iter().enumerate() {
        let found = chain.version_of(sent.link().id);
        if found.is_some() {
            return found;
        }
    }
    None
}

// Whether the chain has the texts of the run from this version on.
fn stands_at<S: Sent>(chain: &Chain, version: u32, run: &[S]) -> bool
    requires version { 1 ≤ version }
    requires few { length run.now < 2 ^ 63 }
    ensures { result ≡ stands_at (patches_of chain.now.items) version
        (patches_sent S.link_sent S.text_sent run.now) }
{
    for (place, sent) in run.iter().enumerate() {
        if !chain.has_text_at(version as usize - 1 + place, sent.text()) {
            return false;
        }
    }
    true
}

// What the first patch of a run names as the one before it.
fn prev_of<S: Sent>(run: &[S]) -> Option<Id>
    ensures { result ≡ prev_of_run (patches_sent S.link_sent S.text_sent run.now) }
{
    match run.first() {
        None => None,
        Some(sent) => sent.link().prev,
    }
}

// The version that a patch names as the one before it.
fn named_by<L: Lookup>(chain: &L, prev: Option<Id>) -> Option<u32>
    ensures { result ≡ version_named (patches_of (L.entries chain.now)) prev }
{
    match prev {
        None => Some(0),
        Some(id) => chain.version_of(id),
    }
}

// The bytes that a journal has for the patches of a run, each with a frame of its own.
fn framed_length<S: Sent>(run: &[S]) -> u64
    requires { sum_by framed (texts_of (patches_sent S.link_sent S.text_sent run.now)) < 2 ^ 64 }
    ensures { result ≡ sum_by framed (texts_of (patches_sent S.link_sent S.text_sent run.now)) }
{
    let mut sum = 0;
    for (place, sent) in run.iter().enumerate() {
        sum += PAYLOAD_FRAME + sent.text().len() as u64;
    }
    sum
}

// What the chain makes of a run whose ids are new.
fn decide_new<S: Sent>(chain: &Chain, limits: &LogLimits, named: Option<u32>, run: &[S]) -> Decision
    requires text { length (run_text (patches_sent S.link_sent S.text_sent run.now)) ≤ PATCH_LIMIT }
    requires few { length run.now < 2 ^ 63 }
    requires named { named ≡ version_named (patches_of chain.now.items)
        (prev_of_run (patches_sent S.link_sent S.text_sent run.now)) }
    ensures { result ≡ decision_on_new (patches_of chain.now.items)
        (patches_sent S.link_sent S.text_sent run.now) limits.now }
{
    let version = chain.version();
    let head = chain.head();
    if prev_of(run) != head {
        return Decision::Conflict {
            version,
            head,
            prev_version: named,
        };
    }
    let longer = u64::from(version) + run.len() as u64;
    if longer > u64::from(limits.patches) {
        return Decision::Full {
            what: FullKind::Patches,
            have: u64::from(version),
            limit: u64::from(limits.patches),
        };
    }
    let have = chain.journal_length() + framed_length(run);
    if have > limits.bytes {
        return Decision::Full {
            what: FullKind::Bytes,
            have,
            limit: limits.bytes,
        };
    }
    Decision::Accept {
        version: longer as u32,
    }
}

/// What a chain makes of a run of patches.
pub fn decide_run<L: Lookup, S: Sent>(chain: &L, limits: &LogLimits, run: &[S]) -> Decision
    requires text { length (run_text (patches_sent S.link_sent S.text_sent run.now)) ≤ PATCH_LIMIT }
    requires few { length run.now < 2 ^ 63 }
    ensures { result ≡ run_decision (patches_of (L.entries chain.now))
        (patches_sent S.link_sent S.text_sent run.now) limits.now }
{
    match version_known(chain, run) {
        Some(version) => Decision::Known {
            version,
            same: stands_at(chain.chain(), version, run),
        },
        None => {
            let named = named_by(chain, prev_of(run));
            decide_new(chain.chain(), limits, named, run)
        }
    }
}

/// What a chain makes of the patch with this link and text.
pub fn decide<L: Lookup>(chain: &L, limits: &LogLimits, link: ChainLink, text: &[u8]) -> Decision
    requires text { length text.now ≤ PATCH_LIMIT }
    ensures { result ≡ decision (patches_of (L.entries chain.now))
        (record { id = link.id; prev = link.prev; text = text.now }) limits.now }
{
    decide_run(chain, limits, &[LinkedText { link, text }])
}
