//! Two slices of one column each, step by step. Contracts tell the whole table after each step.
ghost use Rattle.std.specs.Prelude.{◌≡◌, IfOk};
ghost use Rattle.slice_stages.specs.declared.stage.Stage.TheVariants as stage;
ghost use Rattle.index_tests.specs.Stages.{cleared, filled, retired, seen, unfilled};

use funnel_model::Memory;
use slice_stages::{Stage, Stages};
use std::alloc::Global;
use std::test::Fail;

fn two_slices(alloc: Global) -> Result<Stages, Memory>
    ensures { IfOk result (λ stages. stages ≡ unfilled) }
{
    Stages::new(alloc, 2, 1)
}

fn fill_first(stages: &mut Stages) -> u32
    requires { stages.old ≡ unfilled }
    ensures column { result ≡ 0 }
    ensures filled { stages.new ≡ filled }
{
    stages.claim(0)
}

fn retire_first(stages: &mut Stages)
    requires { stages.old ≡ filled }
    ensures { stages.new ≡ retired }
{
    stages.end_column(0, 2);
}

fn look(stages: &mut Stages)
    requires { stages.old ≡ retired }
    ensures { stages.new ≡ seen }
{
    stages.look(2);
}

fn clear_first(stages: &mut Stages)
    requires { stages.old ≡ seen }
    ensures { stages.new ≡ cleared }
{
    stages.clear(0, 3);
}

fn stage_of_first(stages: &Stages) -> Stage
    requires { stages.now ≡ retired }
    ensures { result ≡ stage.Retired 2 }
{
    stages.stage(0)
}

fn open_first(stages: &mut Stages)
    requires { stages.old ≡ cleared }
{
    stages.open(0);
}

/// The lowest slice with room, the lowest that can be cleared, and whether a find may read the first one.
type Told = (Option<u32>, Option<u32>, bool);

fn told(stages: &Stages) -> Told {
    (
        stages.with_room(),
        stages.clearable(),
        stages.in_use().has(0),
    )
}

/// The first slice is filled, retires, is seen to be retired, and is cleared and opened. What is told before and after each
/// step.
fn lead(stages: &mut Stages) -> [Told; 6]
    requires { stages.old ≡ unfilled }
{
    let unfilled = told(stages);
    fill_first(stages);
    let filled = told(stages);
    retire_first(stages);
    let retired = told(stages);
    look(stages);
    let seen = told(stages);
    clear_first(stages);
    let cleared = told(stages);
    open_first(stages);
    [unfilled, filled, retired, seen, cleared, told(stages)]
}

fn lead_two(alloc: Global) -> Result<[Told; 6], Memory> {
    let mut stages = two_slices(alloc)?;
    Ok(lead(&mut stages))
}

/// The first slice retires by the second event.
fn retire(stages: &mut Stages) -> (u32, Stage)
    requires { stages.old ≡ unfilled }
{
    let column = fill_first(stages);
    retire_first(stages);
    (column, stage_of_first(stages))
}

fn retire_one(alloc: Global) -> Result<(u32, Stage), Memory> {
    let mut stages = two_slices(alloc)?;
    Ok(retire(&mut stages))
}

static TOLD: [Told; 6] = [
    (Some(0), None, true),
    (Some(1), None, true),
    (Some(1), None, false),
    (Some(1), Some(0), false),
    (Some(1), None, false),
    (Some(0), None, true),
];

#[test]
fn slices_are_filled_retired_cleared_and_opened(rt: HostRuntime) -> Result<(), Fail> {
    assert!(rt; lead_two(rt.alloc())? == TOLD);
    assert!(rt; retire_one(rt.alloc())? == (0, Stage::Retired { at: 2 }));
    Ok(())
}

/// The lowest of many slices with room, and whether a find may read the last one.
fn many_slices(alloc: Global) -> Result<(Option<u32>, bool), Memory> {
    let stages = Stages::new(alloc, 1_000, 4_096)?;
    Ok((stages.with_room(), stages.in_use().has(999)))
}

#[test]
fn hundreds_of_slices_find_memory(rt: HostRuntime) -> Result<(), Fail> {
    assert!(rt; many_slices(rt.alloc())? == (Some(0), true));
    Ok(())
}
