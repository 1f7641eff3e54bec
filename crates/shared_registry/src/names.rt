//! What a pass keeps of a registry between its calls.
ghost use Rattle.std.specs.Prelude.{◌≡◌, IsTrue, IsSome, IfSome, Some};
ghost use Rattle.shared_registry.specs.declared.names.Names.{Names as Kept};

use crate::value::RegistryValue;
use disk_model::Disk;
use log_base::{SourceInfo, Sources};
use std::marker::Model;
use turn_cell::Pass;

/// The sources that live after so many entries, in the order of their slots.
#[derive(Debug, Drop)]
pub struct Names {
    pub count: u64,
    pub living: Sources,
}

/// Whether these are the names behind so many entries.
pub(crate) fn counts(names: &Option<Names>, count: u64) -> bool
    ensures { IsTrue result → (kept : Kept) × (names.now ≡ Some kept) × (kept.count ≡ count) }
{
    match names {
        Some(kept) => kept.count == count,
        None => false,
    }
}

/// The sources that are kept.
pub(crate) fn living_in(names: &Option<Names>) -> &[SourceInfo]
    requires { IsSome names.now }
    ensures { IfSome names.now (λ kept. result.now ≡ kept.living.items) }
{
    match names {
        Some(kept) => kept.living.as_slice(),
        None => unreachable!(),
    }
}

/// What a pass knows of one registry, with the sources that it has looked up. They are used as long
/// as no entry was added.
#[derive(Drop)]
pub struct RegistryPass<D: Disk> {
    pub(crate) pass: Pass<RegistryValue<D>>,
    pub(crate) names: Option<Names>,
}

impl<D: Disk> Model for RegistryPass<D> {
    ghost use Rattle.shared_registry.specs.Names.{KeepsNames};
    ghost use Rattle.shared_registry.specs.History.{RegistrySight};

    ghost Value = { RegistrySight };

    ghost view = { λ p. p.pass };

    ghost invariant = { λ p. KeepsNames p.names p.pass };
}

impl<D: Disk> RegistryPass<D> {
    ghost use Rattle.turn_cell.specs.Knowing.{pass_number, own_faults_of};

    /// The pass with no source looked up yet.
    pub fn of(pass: Pass<RegistryValue<D>>) -> RegistryPass<D>
        ensures { result ≡ pass }
    {
        RegistryPass { pass, names: None }
    }

    /// The pass by itself, as it is handed back.
    pub fn into_pass(self) -> Pass<RegistryValue<D>>
        ensures { result ≡ self }
    {
        let RegistryPass { pass, names: _ } = self;
        pass
    }

    pub fn number(&self) -> u32
        ensures { result ≡ pass_number self.now }
    {
        self.pass.number()
    }

    pub fn own_faults(&self) -> u64
        ensures { result ≡ own_faults_of self.now }
    {
        self.pass.own_faults()
    }
}
