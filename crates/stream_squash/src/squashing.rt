//! A stream in which one patch stands in the place of some.
ghost use Rattle.std.specs.Prelude.{◌≡◌, ◌<◌, ◌≤◌, ◌++◌, ◌^◌, ◌-◌, List, IfOk, IfErr, length, map};
ghost use Rattle.patch_meaning.specs.Checked.{CheckedPatch};
ghost use Rattle.stream_squash.specs.Faults.{StopsSquash};
ghost use Rattle.stream_squash.specs.Squashes.{HasSquashed, IsChained};

use crate::fault::SquashFault;
use crate::pieces::{net_of, replayed, total};
use crate::placing::read_chain;
use patch_meaning::Checked;
use std::alloc::Global;

/// A stream in which one patch stands in the place of some.
#[derive(Drop)]
pub struct Squashed<'a> {
    /// The texts of the patches before it, as they were.
    pub front: &'a [u8],
    /// The net patch.
    pub net: Checked,
    /// The texts of the patches behind it, as they were.
    pub behind: &'a [u8],
}

/// The stream with the net patch of those from one version to another, counted from 1, in their
/// place.
///
/// The first fault of the text comes before one of the chain, then that there are fewer patches,
/// and then that the net patch is too long.
pub fn squash(alloc: Global, text: &[u8], from: u32, to: u32) -> Result<Squashed<'_>, SquashFault>
    requires room { length text.now ≤ 2 ^ 31 }
    requires first { 0 < from }
    requires order { from ≤ to }
    ensures squashed { IfOk result (λ s. HasSquashed from to text.now
        (s.front.now ++ (s.net.text ++ s.behind.now))) }
    ensures fault { IfErr result (StopsSquash from to text.now) }
{
    let lengths = read_chain(alloc, text)?.lengths;
    if lengths.len() < to as usize {
        return Err(SquashFault::NoPatch { version: to });
    }
    squash_run(alloc, text, lengths.as_slice(), from as usize, to as usize)
}

// The same of the patches of a chain, of which there are so many, and each has so many bytes.
fn squash_run<'a>(
    alloc: Global,
    text: &'a [u8],
    lengths: &[usize],
    from: usize,
    to: usize,
) -> Result<Squashed<'a>, SquashFault>
    requires room { length text.now ≤ 2 ^ 31 }
    requires chained { (ps : List CheckedPatch) × IsChained text.now ps
        × (lengths.now ≡ map (λ p. length p.text) ps) }
    requires first { 0 < from }
    requires order { from ≤ to }
    requires enough { to ≤ length lengths.now }
    ensures squashed { IfOk result (λ s. HasSquashed from to text.now
        (s.front.now ++ (s.net.text ++ s.behind.now))) }
    ensures fault { IfErr result (StopsSquash from to text.now) }
{
    let (wanted, _others) = lengths.split_at(to);
    let (before, run) = wanted.split_at(from - 1);
    let (front, rest) = text.split_at(total(before));
    let (texts, behind) = rest.split_at(total(run));
    let base = replayed(alloc, front, before)?;
    let net = net_of(alloc, &base, texts, run)?;
    net.text();
    Ok(Squashed { front, net, behind })
}
