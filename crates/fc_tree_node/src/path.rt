//! Paths down a tree.
ghost use Rattle.std.specs.Prelude.{◌≡◌, ◌+◌, ◌<◌, ◌≤◌, [], ◌∷◌, ◌++◌, length, slice_index, slice_index_or, slice_set, drop};
ghost use Rattle.fc_base.specs.Sizes.{most_levels};

use std::marker::Model;

/// The most steps that a path has: a tree of at most `usize::MAX` pairs has no more levels of nodes.
pub const MAX_STEPS: usize = 22;

/// A path down a tree: in each node that it leads through, the place of the child where it goes on, and at its end the
/// place of a pair or of a gap. It takes no memory, and a byte a step, since a node has few places. After its end all bytes are zero.
#[derive(Clone, Copy)]
pub struct Path {
    steps: [u8; MAX_STEPS],
    len: usize,
}

impl Model for Path {
    ghost use Rattle.std.specs.Prelude.{ℕ, List, length};

    ghost Value = { List ℕ };

    ghost use Rattle.fc_tree_node.specs.Steps.{path_of, padded, IsPadded};

    ghost view = { path_of };

    ghost invariant = { IsPadded };

    ghost inverse = { λ path. record { steps = padded path; len = length path } };

    ghost use Rattle.fc_tree_node.specs.Steps.{tells_fields};

    ghost inverse_ok = { tells_fields };
}

impl Path {
    /// A path of no step.
    pub fn new() -> Path
        ensures { result ≡ [] }
    {
        Path {
            steps: [0; MAX_STEPS],
            len: 0,
        }
    }

    /// How many steps the path has.
    pub fn len(&self) -> usize
        ensures value { result ≡ length self.now }
        ensures fits { length self.now ≤ most_levels }
    {
        self.len
    }

    /// The step at `index`.
    pub fn step(&self, index: usize) -> usize
        requires { index < length self.now }
        ensures { result ≡ slice_index self.now index }
    {
        self.as_slice()[index] as usize
    }

    /// The steps in order.
    pub fn as_slice(&self) -> &[u8]
        ensures value { result.now ≡ self.now }
        ensures fits { length self.now ≤ most_levels }
    {
        &self.steps[..self.len]
    }

    /// Puts a step at the end.
    pub fn push(&mut self, step: usize)
        requires room { length self.old < most_levels }
        requires small { step < 256 }
        ensures { self.new ≡ self.old ++ step ∷ [] }
    {
        self.steps[self.len] = step as u8;
        self.len += 1;
    }

    /// A path of these steps.
    pub fn of(steps: &[u8]) -> Path
        requires { length steps.now ≤ most_levels }
        ensures { result ≡ steps.now }
    {
        let mut all = [0; MAX_STEPS];
        all[..steps.len()].copy_from_slice(steps);
        Path {
            steps: all,
            len: steps.len(),
        }
    }

    /// Puts another step in the place of the one at `index`.
    pub fn set(&mut self, index: usize, step: usize)
        requires in_bounds { index < length self.old }
        requires small { step < 256 }
        ensures { self.new ≡ slice_set self.old index step }
    {
        self.steps[index] = step as u8;
    }

    /// Puts a step at the front.
    pub fn push_front(&mut self, step: usize)
        requires room { length self.old < most_levels }
        requires small { step < 256 }
        ensures { self.new ≡ step ∷ self.old }
    {
        let mut all = [0; MAX_STEPS];
        all[0] = step as u8;
        all[1..self.len + 1].copy_from_slice(&self.steps[..self.len]);
        self.steps = all;
        self.len += 1;
    }
}

/// The first step of a path and those after it; where it has none, the step that stands for it.
#[inline]
pub fn split_step(path: &[u8], otherwise: usize) -> (usize, &[u8])
    ensures first { result.0 ≡ slice_index_or path.now 0 otherwise }
    ensures rest { result.1.now ≡ drop 1 path.now }
{
    match path.split_first() {
        None => (otherwise, path),
        Some((first, rest)) => (*first as usize, rest),
    }
}
