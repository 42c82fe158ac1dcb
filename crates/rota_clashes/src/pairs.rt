//! The pairs of shifts that share a moment.

ghost use Rattle.std.specs.Prelude.{◌≡◌, ℕ, ◌⊎◌, ◌<◌, ◌^◌, ◌++◌, length, map, IfOk, OnOk, All, Contains};
ghost use Rattle.std.specs.List.Sorted.{IsNonDecreasingBy};
ghost use Rattle.rota_moments.specs.Moments.{IsMoment};
ghost use Rattle.rota_clashes.specs.declared.shifts.Shift.{Shift};
ghost use Rattle.rota_clashes.specs.Clashes.{AreClashes};
ghost use Rattle.rota_clashes.specs.Gains.{Gains};
ghost use Rattle.rota_clashes.specs.Shifts.{start_of, AreShifts, IsBegun, IsRunning};

use crate::shifts::{Shift, begun_between, shifts_of};
use pg_messages::PgList;
use rota_moments::Moment;
use std::alloc::{AllocError, Global};

/// The pairs of a shift of the first rota and one of the second that share a moment. Each pair
/// stands once. They are sorted by the place of the first shift and then by that of the second;
/// places are counted from 0. The moments of either rota may stand in any order.
///
/// It takes the time to sort each of the lists and the pairs once. AllocError comes where memory ran
/// out.
pub fn clashes(
    alloc: Global,
    first: &[Moment],
    second: &[Moment],
) -> Result<PgList<(u32, u32)>, AllocError>
    requires first_valid { All IsMoment first.now }
    requires second_valid { All IsMoment second.now }
    requires first_few { length first.now < 2 ^ 32 }
    requires second_few { length second.now < 2 ^ 32 }
    ensures { IfOk result (λ pairs. AreClashes first.now second.now pairs) }
{
    let first = shifts_of(alloc, first)?;
    let second = shifts_of(alloc, second)?;
    let mut pairs = all_pairs(alloc, first.as_slice(), second.as_slice())?;
    pairs.sort_unstable();
    // No pair stands there twice. This call makes that plain to the proof.
    pairs.dedup();
    Ok(PgList::from_vec(pairs))
}

/// The pairs of shifts that share a moment, in any order. Of two such shifts one begins while the
/// other is on.
fn all_pairs(
    alloc: Global,
    first: &[Shift],
    second: &[Shift],
) -> Result<Vec<(u32, u32)>, AllocError>
    requires first_in_order { IsNonDecreasingBy start_of first.now }
    requires second_in_order { IsNonDecreasingBy start_of second.now }
    ensures begun { IfOk result (λ pairs. (p : ℕ × ℕ) → IsBegun first.now second.now p
        → Contains pairs.items p) }
    ensures running { IfOk result (λ pairs. (p : ℕ × ℕ) → IsRunning first.now second.now p
        → Contains pairs.items p) }
    ensures only { IfOk result (λ pairs. (p : ℕ × ℕ) → Contains pairs.items p
        → IsBegun first.now second.now p ⊎ IsRunning first.now second.now p) }
{
    let mut pairs = Vec::new(alloc);
    push_begun(&mut pairs, first, second)?;
    push_running(&mut pairs, first, second)?;
    Ok(pairs)
}

/// Appends the pairs whose second shift begins while the first is on.
fn push_begun(
    pairs: &mut Vec<(u32, u32)>,
    first: &[Shift],
    second: &[Shift],
) -> Result<(), AllocError>
    requires { IsNonDecreasingBy start_of second.now }
    ensures { OnOk result (Gains pairs.old.items pairs.new.items (IsBegun first.now second.now)) }
{
    for shift in first {
        let begun = begun_between(second, shift.start, shift.stop);
        push_with_first(pairs, shift.place, begun)?;
    }
    Ok(())
}

/// Appends the pairs whose first shift begins while the second is on already.
fn push_running(
    pairs: &mut Vec<(u32, u32)>,
    first: &[Shift],
    second: &[Shift],
) -> Result<(), AllocError>
    requires { IsNonDecreasingBy start_of first.now }
    ensures { OnOk result (Gains pairs.old.items pairs.new.items (IsRunning first.now second.now)) }
{
    for shift in second {
        let begun = begun_between(first, shift.start.saturating_add(1), shift.stop);
        push_with_second(pairs, begun, shift.place)?;
    }
    Ok(())
}

/// Appends the pairs of this place of the first rota and each of these shifts of the second.
fn push_with_first(
    pairs: &mut Vec<(u32, u32)>,
    place: u32,
    others: &[Shift],
) -> Result<(), AllocError>
    ensures { OnOk result (pairs.new.items
        ≡ pairs.old.items ++ map (λ (other : Shift). (place, other.place)) others.now) }
{
    for other in others {
        pairs.push((place, other.place))?;
    }
    Ok(())
}

/// Appends the pairs of each of these shifts of the first rota and this place of the second.
fn push_with_second(
    pairs: &mut Vec<(u32, u32)>,
    others: &[Shift],
    place: u32,
) -> Result<(), AllocError>
    ensures { OnOk result (pairs.new.items
        ≡ pairs.old.items ++ map (λ (other : Shift). (other.place, place)) others.now) }
{
    for other in others {
        pairs.push((other.place, place))?;
    }
    Ok(())
}
