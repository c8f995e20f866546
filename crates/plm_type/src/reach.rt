//! Which procedures calls lead to, by a search; and from that a rank for each procedure, or the first that reaches itself.

ghost use Rattle.std.specs.Prelude.{◌≡◌, ◌++◌, ◌∷◌, [], ◌↔◌, ◌<◌, ℕ, true, false, cond, length, slice_get, OnOk, IfOk, IfErr, slice_set, slice_index_or, count_by};
ghost use Rattle.plm_type.specs.Inner.Reach.{rows, IsMarked, AreRanks, Marks};
ghost use Rattle.plm_type.specs.Reach.{row_of, Leads, IsOnCycle};

use crate::order::{are_ranks, ranks_for};
use std::alloc::{AllocError, Global};

/// Whether the procedure is marked.
pub fn is_marked(marks: &[bool], procedure: usize) -> bool
    ensures { result ≡ slice_index_or marks.now procedure false }
{
    match marks.get(procedure) {
        Some(mark) => *mark,
        None => false,
    }
}

/// Whether it is marked, or there is no such procedure.
fn is_done(marks: &[bool], procedure: usize) -> bool
    ensures { result ≡ slice_index_or marks.now procedure true }
{
    match marks.get(procedure) {
        Some(mark) => *mark,
        None => true,
    }
}

/// Marks a procedure, and puts it on the list if it was not marked.
fn mark_one(
    marks: &mut Vec<bool>,
    work: &mut Vec<usize>,
    procedure: usize,
) -> Result<(), AllocError>
    ensures marks { OnOk result (marks.new.items ≡ cond (slice_index_or marks.old.items procedure true) marks.old.items (slice_set marks.old.items procedure true)) }
    ensures work { OnOk result (work.new.items ≡ cond (slice_index_or marks.old.items procedure true) work.old.items (work.old.items ++ procedure ∷ [])) }
{
    if is_done(marks, procedure) {
        return Ok(());
    }
    work.push(procedure)?;
    if let Some(mark) = marks.get_mut(procedure) {
        *mark = true;
    }
    Ok(())
}

/// Marks each of these, and puts those that were not marked on the list.
pub fn mark(marks: &mut Vec<bool>, work: &mut Vec<usize>, next: &[usize]) -> Result<(), AllocError>
    ensures { OnOk result (Marks marks.old.items marks.new.items work.old.items work.new.items next.now) }
{
    for procedure in next {
        mark_one(marks, work, *procedure)?;
    }
    Ok(())
}

/// Those that a procedure calls.
pub fn row_at(graph: &[Vec<usize>], procedure: usize) -> &[usize]
    ensures { result.now ≡ row_of (slice_get (rows graph.now) procedure) }
{
    match graph.get(procedure) {
        Some(row) => row.as_slice(),
        None => &[],
    }
}

/// Which procedures are reached by calls from the first ones on, these among them.
pub fn reached(
    alloc: Global,
    graph: &[Vec<usize>],
    first: &[usize],
) -> Result<Vec<bool>, AllocError>
    ensures length { IfOk result (λ marks. length marks.items ≡ length graph.now) }
    ensures reached { IfOk result (λ marks. (k : ℕ) → k < length graph.now → IsMarked marks.items k ↔ Leads (rows graph.now) first.now k) }
{
    let mut marks = vec![in alloc; false; graph.len()]?;
    let mut work = Vec::new(alloc);
    mark(&mut marks, &mut work, first)?;
    while let Some(procedure) = work.pop() {
        mark(&mut marks, &mut work, row_at(graph, procedure))?;
    }
    Ok(marks)
}

/// How many of these are marked.
fn count_marks(marks: &[bool]) -> usize
    ensures { result ≡ count_by (λ mark. mark) marks.now }
{
    let mut count = 0;
    for mark in marks {
        if *mark {
            count += 1;
        }
    }
    count
}

/// A rank for each procedure, above those of all that it reaches: one more than how many these are. Or the first that
/// reaches itself.
fn search_ranks(
    alloc: Global,
    graph: &[Vec<usize>],
) -> Result<Result<Vec<usize>, usize>, AllocError>
    ensures ranks { IfOk result (λ found. IfOk found (λ ranks. AreRanks ranks.items (rows graph.now))) }
    ensures length { IfOk result (λ found. IfOk found (λ ranks. length ranks.items ≡ length graph.now)) }
    ensures none { IfOk result (λ found. IfOk found (λ ranks. (q : ℕ) → ¬ IsOnCycle (rows graph.now) q)) }
    ensures cycle { IfOk result (λ found. IfErr found (λ p. IsOnCycle (rows graph.now) p)) }
    ensures first { IfOk result (λ found. IfErr found (λ p. (q : ℕ) → q < p → ¬ IsOnCycle (rows graph.now) q)) }
    ensures within { IfOk result (λ found. IfErr found (λ p. p < length graph.now)) }
{
    let mut ranks = Vec::new(alloc);
    for procedure in 0..graph.len() {
        let marks = reached(alloc, graph, row_at(graph, procedure))?;
        if is_marked(&marks, procedure) {
            return Ok(Err(procedure));
        }
        ranks.push(1 + count_marks(&marks))?;
    }
    Ok(Ok(ranks))
}

/// A rank for each procedure, above those of all that it calls, or the first procedure that reaches itself. It takes time
/// in proportion to the procedures and calls where none does, and at most that for each procedure where one does.
pub fn ranks_or_cycle(
    alloc: Global,
    graph: &[Vec<usize>],
) -> Result<Result<Vec<usize>, usize>, AllocError>
    ensures ranks { IfOk result (λ found. IfOk found (λ ranks. AreRanks ranks.items (rows graph.now))) }
    ensures length { IfOk result (λ found. IfOk found (λ ranks. length ranks.items ≡ length graph.now)) }
    ensures none { IfOk result (λ found. IfOk found (λ ranks. (q : ℕ) → ¬ IsOnCycle (rows graph.now) q)) }
    ensures cycle { IfOk result (λ found. IfErr found (λ p. IsOnCycle (rows graph.now) p)) }
    ensures first { IfOk result (λ found. IfErr found (λ p. (q : ℕ) → q < p → ¬ IsOnCycle (rows graph.now) q)) }
    ensures within { IfOk result (λ found. IfErr found (λ p. p < length graph.now)) }
{
    let ranks = ranks_for(alloc, graph)?;
    if ranks.len() == graph.len() && are_ranks(&ranks, graph) {
        return Ok(Ok(ranks));
    }
    search_ranks(alloc, graph)
}
