//! A registry that two passes share.
ghost use Rattle.std.specs.Prelude.{◌≡◌, ◌≤◌, [], IfOk, vec_capacity};
ghost use Rattle.registry_tests.specs.Sharing.{IsMemoryPassOf};
ghost use Rattle.turn_cell.specs.Knowing.{pass_number};

use crate::calls::{TWO_SLOTS, Told, changed, created, id_of, open_with};
use delta_base::Text;
use disk_model::MemDisk;
use log_registry::RegistryState;
use shared_registry::{RegistryPass, RegistryValue, SharedRegistry};
use std::alloc::Global;
use std::process::Abort;
use std::sync::Wait;
use std::test::Fail;
use turn_cell::Pass;

// Two passes, and the room that they came in.
#[derive(Drop)]
struct Passes {
    one: RegistryPass<MemDisk>,
    two: RegistryPass<MemDisk>,
    room: Vec<Pass<RegistryValue<MemDisk>>>,
}

// A registry that two passes share.
fn share(alloc: Global, failing: &[u64]) -> Result<(SharedRegistry<MemDisk>, Passes), Fail>
    ensures one { IfOk result (λ r. IsMemoryPassOf r.0 r.1.one
        × (pass_number r.1.one ≡ 1)) }
    ensures two { IfOk result (λ r. IsMemoryPassOf r.0 r.1.two
        × (pass_number r.1.two ≡ 2)) }
    ensures room { IfOk result (λ r.
        (r.0.seats ≡ 2) × (r.1.room.items ≡ []) × (2 ≤ vec_capacity r.1.room)) }
{
    let Ok((registry, mut room)) = SharedRegistry::new(
        alloc,
        open_with(alloc, TWO_SLOTS, failing)?,
        2,
    ) else {
        return Err(Fail::from("no memory"));
    };
    let Some(two) = room.pop() else {
        unreachable!()
    };
    let Some(one) = room.pop() else {
        unreachable!()
    };
    let one = RegistryPass::of(one);
    let two = RegistryPass::of(two);
    Ok((registry, Passes { one, two, room }))
}

// Gives both passes back.
fn close(registry: SharedRegistry<MemDisk>, passes: Passes) -> RegistryState<MemDisk>
    requires one { IsMemoryPassOf registry passes.one × (pass_number passes.one ≡ 1) }
    requires two { IsMemoryPassOf registry passes.two × (pass_number passes.two ≡ 2) }
    requires room { (registry.seats ≡ 2) × (passes.room.items ≡ [])
        × (2 ≤ vec_capacity passes.room) }
{
    let Passes { one, two, mut room } = passes;
    room.push_reserved(one.into_pass());
    room.push_reserved(two.into_pass());
    registry.close(room)
}

// The answer to a creation by this pass.
fn create<R: Wait>(
    rt: &R,
    alloc: Global,
    registry: &SharedRegistry<MemDisk>,
    pass: &mut RegistryPass<MemDisk>,
    name: &str,
    id: u128,
) -> Result<Told, Fail>
    requires { IsMemoryPassOf registry.now pass.old }
    ensures of { IsMemoryPassOf registry.now pass.new }
    ensures number { pass_number pass.new ≡ pass_number pass.old }
{
    let name = Text::from_str(alloc, name)?;
    let uri = Text::from_str(alloc, "http://e/x")?;
    let answer = registry.create(rt, pass, &name, &uri, id_of(id));
    Ok(created(answer))
}

// The slot of the source with a name, or 0.
fn slot_of<R: Wait>(
    rt: &R,
    alloc: Global,
    registry: &SharedRegistry<MemDisk>,
    pass: &mut RegistryPass<MemDisk>,
    name: &str,
) -> Result<u32, Fail>
    requires { IsMemoryPassOf registry.now pass.old }
    ensures of { IsMemoryPassOf registry.now pass.new }
    ensures number { pass_number pass.new ≡ pass_number pass.old }
{
    let name = Text::from_str(alloc, name)?;
    let found = registry.resolve(rt, pass, &name)?;
    Ok(found.map_or(0, |source| source.slot))
}

// Each pass makes a source.
fn both_make<R: Wait + Abort>(
    rt: &R,
    alloc: Global,
    registry: &SharedRegistry<MemDisk>,
    one: &mut RegistryPass<MemDisk>,
    two: &mut RegistryPass<MemDisk>,
) -> Result<(), Fail>
    requires one { IsMemoryPassOf registry.now one.old }
    requires two { IsMemoryPassOf registry.now two.old }
    ensures one { IsMemoryPassOf registry.now one.new }
    ensures two { IsMemoryPassOf registry.now two.new }
    ensures numbers { (pass_number one.new ≡ pass_number one.old)
        × (pass_number two.new ≡ pass_number two.old) }
{
    let told = create(rt, alloc, registry, one, "b", 1)?;
    assert!(rt; told == Told::Made { slot: 1 });
    let told = create(rt, alloc, registry, two, "a", 2)?;
    assert!(rt; told == Told::Made { slot: 2 });
    Ok(())
}

// Each pass finds what the other made.
fn each_finds<R: Wait + Abort>(
    rt: &R,
    alloc: Global,
    registry: &SharedRegistry<MemDisk>,
    one: &mut RegistryPass<MemDisk>,
    two: &mut RegistryPass<MemDisk>,
) -> Result<(), Fail>
    requires one { IsMemoryPassOf registry.now one.old }
    requires two { IsMemoryPassOf registry.now two.old }
    ensures one { IsMemoryPassOf registry.now one.new }
    ensures two { IsMemoryPassOf registry.now two.new }
    ensures numbers { (pass_number one.new ≡ pass_number one.old)
        × (pass_number two.new ≡ pass_number two.old) }
{
    both_make(rt, alloc, registry, one, two)?;
    assert!(rt; slot_of(rt, alloc, registry, one, "a")? == 2);
    assert!(rt; slot_of(rt, alloc, registry, two, "b")? == 1);
    assert!(rt; registry.slots() == 2);
    Ok(())
}

#[test]
fn what_one_pass_makes_the_other_finds(rt: HostRuntime) -> Result<(), Fail> {
    let alloc = rt.alloc();
    let (registry, mut passes) = share(alloc, &[])?;
    let found = each_finds(&rt, alloc, &registry, &mut passes.one, &mut passes.two);
    let state = close(registry, passes);
    let count = state.count();
    drop(state);
    found?;
    assert!(rt; count == 2);
    Ok(())
}

// The answer to a removal by this pass.
fn remove<R: Wait>(
    rt: &R,
    alloc: Global,
    registry: &SharedRegistry<MemDisk>,
    pass: &mut RegistryPass<MemDisk>,
    name: &str,
) -> Result<Told, Fail>
    requires { IsMemoryPassOf registry.now pass.old }
    ensures of { IsMemoryPassOf registry.now pass.new }
    ensures number { pass_number pass.new ≡ pass_number pass.old }
{
    let name = Text::from_str(alloc, name)?;
    let answer = registry.remove(rt, pass, &name);
    Ok(changed(answer))
}

// A pass lists no source.
fn lists_none<R: Wait + Abort>(
    rt: &R,
    registry: &SharedRegistry<MemDisk>,
    pass: &mut RegistryPass<MemDisk>,
) -> Result<(), Fail>
    requires { IsMemoryPassOf registry.now pass.old }
{
    let listed = registry.list(rt, pass)?;
    assert!(rt; listed.is_empty());
    Ok(())
}

// One pass makes a source, and the other removes it.
fn is_removed<R: Wait + Abort>(
    rt: &R,
    alloc: Global,
    registry: &SharedRegistry<MemDisk>,
    one: &mut RegistryPass<MemDisk>,
    two: &mut RegistryPass<MemDisk>,
) -> Result<(), Fail>
    requires one { IsMemoryPassOf registry.now one.old }
    requires two { IsMemoryPassOf registry.now two.old }
    ensures { IsMemoryPassOf registry.now one.new }
{
    create(rt, alloc, registry, one, "b", 1)?;
    assert!(rt; slot_of(rt, alloc, registry, one, "b")? == 1);
    let told = remove(rt, alloc, registry, two, "b")?;
    assert!(rt; told == Told::Made { slot: 1 });
    Ok(())
}

// The pass that made it neither finds nor lists it then.
fn is_found_no_more<R: Wait + Abort>(
    rt: &R,
    alloc: Global,
    registry: &SharedRegistry<MemDisk>,
    one: &mut RegistryPass<MemDisk>,
    two: &mut RegistryPass<MemDisk>,
) -> Result<(), Fail>
    requires one { IsMemoryPassOf registry.now one.old }
    requires two { IsMemoryPassOf registry.now two.old }
{
    is_removed(rt, alloc, registry, one, two)?;
    assert!(rt; slot_of(rt, alloc, registry, one, "b")? == 0);
    lists_none(rt, registry, one)
}

#[test]
fn a_removed_source_is_found_by_no_pass(rt: HostRuntime) -> Result<(), Fail> {
    let alloc = rt.alloc();
    let (registry, mut passes) = share(alloc, &[])?;
    let found = is_found_no_more(&rt, alloc, &registry, &mut passes.one, &mut passes.two);
    drop(passes);
    drop(registry);
    found
}

// A creation by one pass fails, and by the other it doesn't.
fn one_fails<R: Wait + Abort>(
    rt: &R,
    alloc: Global,
    registry: &SharedRegistry<MemDisk>,
    one: &mut RegistryPass<MemDisk>,
    two: &mut RegistryPass<MemDisk>,
) -> Result<(), Fail>
    requires one { IsMemoryPassOf registry.now one.old }
    requires two { IsMemoryPassOf registry.now two.old }
{
    let told = create(rt, alloc, registry, one, "b", 1)?;
    assert!(rt; told == Told::DiskFault);
    assert!(rt; one.own_faults() == 1 && two.own_faults() == 0);
    let told = create(rt, alloc, registry, two, "b", 1)?;
    assert!(rt; told == Told::Made { slot: 1 });
    Ok(())
}

// The first seven calls are those of the opening.
#[test]
fn a_fault_is_that_of_its_own_pass(rt: HostRuntime) -> Result<(), Fail> {
    let alloc = rt.alloc();
    let (registry, mut passes) = share(alloc, &[11])?;
    let failed = one_fails(&rt, alloc, &registry, &mut passes.one, &mut passes.two);
    drop(passes);
    drop(registry);
    failed
}
