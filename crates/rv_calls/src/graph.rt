//! Orders of the vertices of a graph, and loops in it.

ghost use Rattle.std.specs.Prelude.{◌≡◌, ◌<◌, ◌≤◌, ◌^◌, [], ◌∷◌, ◌++◌, true, false, length, take, drop, replicate, ℕ, ◌-◌, IfOk, OnOk, IfSome, IfNone};
ghost use Rattle.std.specs.Prelude.{slice_index_or, slice_set};
ghost use Rattle.std.specs.List.{Contains};
ghost use Rattle.rv_calls.specs.Graphs.{IsGraph, IsSortedOf, IsLoop, IsWalk, IsNext, Keeps, edges};

use rv_base::{Many, Memory};
use rv_instances::all_equal;
use std::alloc::Global;

/// All vertices, each after those that it points to, or some of which each points to the next, and the last to the
/// first.
#[derive(Drop)]
pub enum Sorted {
    /// All vertices, by their numbers.
    Ordered(Many<u32>),
    /// The vertices of a loop.
    Looped(Many<u32>),
}

/// A search in depth: which vertices have been entered and which are finished, how many edges of each have been looked
/// at, the path to where the search is, and the finished vertices in the order in which they were.
#[derive(Drop)]
pub struct Walk {
    pub entered: Many<bool>,
    pub finished: Many<bool>,
    pub cursor: Many<usize>,
    pub path: Many<u32>,
    pub order: Many<u32>,
}

/// Orders the vertices so that each stands after those that it points to, or finds a loop where there is one. Time
/// grows with the number of vertices and edges; the path is kept in a list, so no call is nested. The only error is want of
/// memory.
pub fn sort(alloc: Global, graph: &Many<Many<u32>>) -> Result<Sorted, Memory>
    requires vertices { IsGraph graph.now }
    requires few { length graph.now < 2 ^ 32 }
    ensures { IfOk result (IsSortedOf graph.now) }
{
    let mut walk = Walk::new(alloc, graph.len())?;
    for root in 0..graph.len() {
        match visit(alloc, graph, &mut walk, root as u32)? {
            None => {}
            Some(found) => return Ok(Sorted::Looped(found)),
        }
    }
    Ok(Sorted::Ordered(walk.order))
}

/// Enters a root, unless it has been, and goes on until all that it leads to are finished, or a loop is found.
fn visit(
    alloc: Global,
    graph: &Many<Many<u32>>,
    walk: &mut Walk,
    root: u32,
) -> Result<Option<Many<u32>>, Memory>
    requires vertices { IsGraph graph.now }
    requires walk { IsWalk graph.now walk.old }
    requires path { walk.old.path ≡ [] }
    requires root { root < length graph.now }
    ensures found { IfOk result (λ found. IfSome found (IsLoop graph.now)) }
    ensures walk { IfOk result (λ found. IfNone found (IsWalk graph.now walk.new)) }
    ensures path { IfOk result (λ found. IfNone found (walk.new.path ≡ [])) }
    ensures kept { IfOk result (λ found. IfNone found (Keeps walk.old walk.new)) }
    ensures root { IfOk result (λ found. IfNone found (slice_index_or walk.new.entered root false ≡ true)) }
{
    if *walk.entered.at(root as usize) {
        return Ok(None);
    }
    walk.enter(root)?;
    explore(alloc, graph, walk)
}

/// Goes on until the path is empty, or a loop is found.
fn explore(
    alloc: Global,
    graph: &Many<Many<u32>>,
    walk: &mut Walk,
) -> Result<Option<Many<u32>>, Memory>
    requires vertices { IsGraph graph.now }
    requires walk { IsWalk graph.now walk.old }
    ensures found { IfOk result (λ found. IfSome found (IsLoop graph.now)) }
    ensures walk { IfOk result (λ found. IfNone found (IsWalk graph.now walk.new)) }
    ensures path { IfOk result (λ found. IfNone found (walk.new.path ≡ [])) }
    ensures kept { IfOk result (λ found. IfNone found (Keeps walk.old walk.new)) }
{
    while let Some(top) = walk.top() {
        match walk.next_unfinished(graph, top) {
            None => walk.leave(top)?,
            Some(child) => {
                if *walk.entered.at(child as usize) {
                    return Ok(Some(walk.loop_from(alloc, child)?));
                }
                walk.enter(child)?;
            }
        }
    }
    Ok(None)
}

impl Walk {
    /// Nothing has been entered.
    pub fn new(alloc: Global, count: usize) -> Result<Walk, Memory>
        ensures { IfOk result (λ w. (w.entered ≡ replicate count false) × (w.finished ≡ replicate count false) × (w.cursor ≡ replicate count 0) × (w.path ≡ [])
            × (w.order ≡ [])) }
    {
        Ok(Walk {
            entered: all_equal(alloc, count, false)?,
            finished: all_equal(alloc, count, false)?,
            cursor: all_equal(alloc, count, 0)?,
            path: Many::new(alloc),
            order: Many::new(alloc),
        })
    }

    /// The last vertex on the path.
    pub fn top(&self) -> Option<u32>
        ensures some { IfSome result (λ v. (0 < length self.now.path) × (slice_index_or self.now.path (length self.now.path - 1) 0 ≡ v)) }
        ensures none { IfNone result (self.now.path ≡ []) }
    {
        let len = self.path.len();
        if len == 0 {
            None
        } else {
            Some(*self.path.at(len - 1))
        }
    }

    /// Goes on to a vertex.
    pub fn enter(&mut self, v: u32) -> Result<(), Memory>
        requires entered { v < length self.old.entered }
        requires cursor { v < length self.old.cursor }
        ensures { OnOk result (self.new ≡ record self.old {
          entered = slice_set self.old.entered v true;
          cursor = slice_set self.old.cursor v 0;
          path = self.old.path ++ v ∷ [];
        }) }
    {
        self.entered.set(v as usize, true);
        self.cursor.set(v as usize, 0);
        self.path.push(v)?;
        Ok(())
    }

    /// Finishes the last vertex on the path.
    pub fn leave(&mut self, v: u32) -> Result<(), Memory>
        requires { v < length self.old.finished }
        ensures { OnOk result (self.new ≡ record self.old {
          finished = slice_set self.old.finished v true;
          path = take (length self.old.path - 1) self.old.path;
          order = self.old.order ++ v ∷ [];
        }) }
    {
        self.finished.set(v as usize, true);
        let len = self.path.len();
        if len > 0 {
            self.path.truncate(len - 1);
        }
        self.order.push(v)?;
        Ok(())
    }

    /// The next vertex that this one points to and that is not finished.
    fn next_unfinished(&mut self, graph: &Many<Many<u32>>, v: u32) -> Option<u32>
        requires vertices { IsGraph graph.now }
        requires within { v < length graph.now }
        requires cursor { length self.old.cursor ≡ length graph.now }
        requires finished { length self.old.finished ≡ length graph.now }
        ensures { IsNext graph.now self.old v self.new result }
    {
        let targets = graph.at(v as usize).as_slice();
        let start = *self.cursor.at(v as usize);
        match first_unmarked(targets, start, self.finished.as_slice()) {
            None => None,
            Some(next) => {
                self.cursor.set(v as usize, next + 1);
                Some(targets[next])
            }
        }
    }

    /// The next vertex that this one points to and that has not been entered.
    pub fn next_new(&mut self, graph: &Many<Many<u32>>, v: u32) -> Option<u32>
        requires vertices { IsGraph graph.now }
        requires within { v < length graph.now }
        requires cursor { length self.old.cursor ≡ length graph.now }
        requires entered { length self.old.entered ≡ length graph.now }
        ensures cursor { length self.new.cursor ≡ length graph.now }
        ensures same { self.new ≡ record self.old { cursor = self.new.cursor } }
        ensures some { IfSome result (λ child. (child < length graph.now) × (slice_index_or self.old.entered child false ≡ false)) }
    {
        let targets = graph.at(v as usize).as_slice();
        let start = *self.cursor.at(v as usize);
        match first_unmarked(targets, start, self.entered.as_slice()) {
            None => None,
            Some(next) => {
                self.cursor.set(v as usize, next + 1);
                Some(targets[next])
            }
        }
    }

    /// The path from a vertex on.
    fn loop_from(&self, alloc: Global, v: u32) -> Result<Many<u32>, Memory>
        requires { Contains self.now.path v }
        ensures { IfOk result (λ xs. (i : ℕ) × (i < length self.now.path) × (slice_index_or self.now.path i 0 ≡ v) × (xs ≡ drop i self.now.path)) }
    {
        let path = self.path.as_slice();
        let start = position_of(path, v);
        Ok(Many::from_vec(Vec::from_slice(alloc, &path[start..])?))
    }
}

/// Where a vertex stands on the path.
fn position_of(path: &[u32], v: u32) -> usize
    requires { Contains path.now v }
    ensures { (result < length path.now) × (slice_index_or path.now result 0 ≡ v) }
{
    let mut k = 0;
    while k < path.len() {
        if path[k] == v {
            return k;
        }
        k += 1;
    }
    unreachable!()
}

/// The number of the first target, from a number on, that is not marked.
fn first_unmarked(targets: &[u32], start: usize, marked: &[bool]) -> Option<usize>
    requires { (j : ℕ) → j < length targets.now → slice_index_or targets.now j 0 < length marked.now }
    ensures some { IfSome result (λ k. (k < length targets.now) × (slice_index_or marked.now (slice_index_or targets.now k 0) false ≡ false)
        × ((j : ℕ) → start ≤ j → j < k → slice_index_or marked.now (slice_index_or targets.now j 0) false ≡ true)) }
    ensures none { IfNone result ((j : ℕ) → start ≤ j → j < length targets.now → slice_index_or marked.now (slice_index_or targets.now j 0) false ≡ true) }
{
    let mut k = start;
    while k < targets.len() {
        if !marked[targets[k] as usize] {
            return Some(k);
        }
        k += 1;
    }
    None
}
