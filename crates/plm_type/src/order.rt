//! An order of procedures in which each stands after those that it calls. Where there is one, none reaches itself.

ghost use Rattle.std.specs.Prelude.{◌≡◌, ℕ, ◌<◌, IsTrue, IfOk, Contains, length, slice_index_or};
ghost use Rattle.plm_type.specs.Inner.Reach.{rows, AreRanks};
ghost use Rattle.plm_type.specs.Inner.Order.{IsOrdered};

use crate::reach::row_at;
use std::alloc::{AllocError, Global};

/// The procedure's rank, counted from 1; 0 where it has none.
fn rank_of(ranks: &[usize], procedure: usize) -> usize
    ensures { result ≡ slice_index_or ranks.now procedure 0 }
{
    match ranks.get(procedure) {
        Some(rank) => *rank,
        None => 0,
    }
}

/// Whether the procedure stands above each of these.
fn is_above(ranks: &[usize], procedure: usize, called: &[usize]) -> bool
    ensures { IsTrue result → (q : ℕ) → Contains called.now q → slice_index_or ranks.now q 0 < slice_index_or ranks.now procedure 0 }
{
    let rank = rank_of(ranks, procedure);
    for other in called {
        if rank <= rank_of(ranks, *other) {
            return false;
        }
    }
    true
}

/// Whether each procedure stands above those that it calls.
pub fn are_ranks(ranks: &[usize], graph: &[Vec<usize>]) -> bool
    ensures { IsTrue result → AreRanks ranks.now (rows graph.now) }
{
    for (procedure, called) in graph.iter().enumerate() {
        if !is_above(ranks, procedure, called) {
            return false;
        }
    }
    true
}

/// Counts these calls.
fn add_calls(calls: &mut [usize], called: &[usize]) {
    for procedure in called {
        if let Some(count) = calls.get_mut(*procedure) {
            *count = count.saturating_add(1);
        }
    }
}

/// How many calls of each procedure there are.
fn count_calls(alloc: Global, graph: &[Vec<usize>]) -> Result<Vec<usize>, AllocError> {
    let mut calls = vec![in alloc; 0; graph.len()]?;
    for called in graph {
        add_calls(&mut calls, called);
    }
    Ok(calls)
}

/// Those of which there are no calls.
fn uncalled(alloc: Global, calls: &[usize]) -> Result<Vec<usize>, AllocError> {
    let mut free = Vec::new(alloc);
    for (procedure, count) in calls.iter().enumerate() {
        if *count == 0 {
            free.push(procedure)?;
        }
    }
    Ok(free)
}

/// Takes these calls away, and puts those of which no call is left on the list.
fn take_calls(
    calls: &mut [usize],
    free: &mut Vec<usize>,
    called: &[usize],
) -> Result<(), AllocError> {
    for procedure in called {
        if let Some(count) = calls.get_mut(*procedure) {
            *count = count.saturating_sub(1);
            if *count == 0 {
                free.push(*procedure)?;
            }
        }
    }
    Ok(())
}

/// A rank for each procedure, counted from 1, such that each stands above those that it calls, as far as there are such
/// ranks: each step takes the highest rank that is left for a procedure that no procedure without a rank calls. Nothing
/// rests on it that `are_ranks` does not test.
pub fn ranks_for(alloc: Global, graph: &[Vec<usize>]) -> Result<Vec<usize>, AllocError> {
    let mut calls = count_calls(alloc, graph)?;
    let mut free = uncalled(alloc, &calls)?;
    let mut ranks = vec![in alloc; 0; graph.len()]?;
    for taken in 0..graph.len() {
        let Some(procedure) = free.pop() else {
            return Ok(ranks);
        };
        if let Some(rank) = ranks.get_mut(procedure) {
            *rank = graph.len() - taken;
        }
        take_calls(&mut calls, &mut free, row_at(graph, procedure))?;
    }
    Ok(ranks)
}

/// The procedures by their ranks, from the lowest on.
pub fn by_rank(alloc: Global, ranks: &[usize]) -> Result<Vec<usize>, AllocError>
    ensures { IfOk result (λ order. IsOrdered ranks.now order.items) }
{
    let mut order = Vec::new(alloc);
    for procedure in 0..ranks.len() {
        order.push(procedure)?;
    }
    order.sort_by_key(|procedure| rank_of(ranks, *procedure))?;
    Ok(order)
}
