//! The guards of slices.
ghost use Rattle.std.specs.Prelude.{◌≡◌, None, replicate};

use funnel_model::Memory;
use std::alloc::Global;
use std::test::Fail;
use token_manager::Tokens;

type Guard = Option<(u32, u64)>;

/// The guards of slices that retired at 200, 194, 130 and 129, and when passes 1 and 7 began.
type Told = (Guard, Guard, Guard, Guard, Option<u64>, Option<u64>);

fn told(tokens: &Tokens) -> Told {
    (
        tokens.guard_of(200),
        tokens.guard_of(194),
        tokens.guard_of(130),
        tokens.guard_of(129),
        tokens.opened_at(1),
        tokens.opened_at(7),
    )
}

/// Passes 1 and 2 of three begin, and then each ends. What is told before and after.
fn lead(tokens: &mut Tokens) -> [Told; 4]
    requires { tokens.old ≡ replicate 3 None }
{
    let none = told(tokens);
    tokens.open(1, 129);
    tokens.open(2, 130);
    let both = told(tokens);
    tokens.end(1);
    let one = told(tokens);
    tokens.end(2);
    [none, both, one, told(tokens)]
}

fn lead_three(alloc: Global) -> Result<[Told; 4], Memory> {
    let mut tokens = Tokens::new(alloc, 3)?;
    Ok(lead(&mut tokens))
}

static TOLD: [Told; 4] = [
    (None, None, None, None, None, None),
    (
        Some((1, 129)),
        Some((1, 129)),
        Some((1, 129)),
        None,
        Some(129),
        None,
    ),
    (Some((2, 130)), Some((2, 130)), None, None, None, None),
    (None, None, None, None, None, None),
];

#[test]
fn the_lowest_pass_that_began_before_guards(rt: HostRuntime) -> Result<(), Fail> {
    assert!(rt; lead_three(rt.alloc())? == TOLD);
    Ok(())
}
