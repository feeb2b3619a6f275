//! Where chains of clocks lead.

ghost use Rattle.std.specs.Prelude.{◌≡◌, ◌<◌, ◌^◌, suc, length, map, slice_index_or, IfOk};
ghost use Rattle.rv_types.specs.declared.typed.Clock.{Clock};
ghost use Rattle.rv_types.specs.declared.typed.Clock.TheVariants.{Base as OnBase};
ghost use Rattle.rv_types.specs.Chains.{follow, after, is_base};

use crate::typed::Clock;
use rv_base::Memory;
use std::alloc::Global;

/// The clock of the flow at a site; the base clock where there is none.
pub fn clock_of_site(clocks: &[Clock], site: usize) -> Clock
    ensures { result ≡ slice_index_or clocks.now site OnBase }
{
    match clocks.get(site) {
        None => Clock::Base,
        Some(clock) => *clock,
    }
}

/// The clock of a clock's flow.
pub fn follow_clock(clocks: &[Clock], clock: Clock) -> Clock
    ensures { result ≡ follow clocks.now clock }
{
    match clock {
        Clock::Base => Clock::Base,
        Clock::On(site) => clock_of_site(clocks, site as usize),
    }
}

/// For each flow the clock that is twice as far along its chain.
fn doubled(alloc: Global, clocks: &[Clock]) -> Result<Vec<Clock>, Memory>
    ensures { IfOk result (λ v. v.items ≡ map (follow clocks.now) clocks.now) }
{
    let mut further = Vec::new(alloc);
    for clock in clocks {
        further.push(follow_clock(clocks, *clock))?;
    }
    Ok(further)
}

/// For each flow the clock at the end of its chain, which is the base clock exactly where the chain ends. Each round
/// doubles the steps, so that their number is the logarithm of the number of flows.
pub fn chain_ends(alloc: Global, clocks: &[Clock]) -> Result<Vec<Clock>, Memory>
    requires { length clocks.now < 2 ^ 32 }
    ensures { IfOk result (λ v. (c : Clock) → is_base (follow v.items c) ≡ is_base (after clocks.now (suc (length clocks.now)) c)) }
{
    let mut jumps = clocks.to_vec(alloc)?;
    let mut steps = 1;
    while steps <= clocks.len() {
        jumps = doubled(alloc, jumps.as_slice())?;
        steps *= 2;
    }
    Ok(jumps)
}
