//! Where a new pair stands once it is put in.
ghost use Rattle.std.specs.Prelude.{◌≡◌, ◌+◌, ◌<◌, ◌≤◌, nat_lt, if◌then◌else◌, length};
ghost use Rattle.std.specs.List.{AllByRecursion};
ghost use Rattle.fc_base.specs.Sizes.{capacity, most_levels};
ghost use Rattle.fc_tree_insertion.specs.NewPair.{step_from as child_step, goes_right as is_after, half_step as step_in_half, is_right, steps_to_new_pair as steps_in_halves, path_after};

use fc_tree_node::node::left_len;
use fc_tree_node::path::Path;

// Turns the path to a gap into the path to the pair that was put into it, by the number of nodes that were made for it: as many
// nodes of the path were split, from the leaf upwards, and one more than the path has made a new root. A new pair stays in a leaf.
pub(crate) fn lead_to_new_pair(path: &mut Path, nodes: usize)
    requires steps { AllByRecursion (λ i. i ≤ capacity) path.old }
    requires short { length path.old + (if nat_lt (length path.old) nodes then 1 else 0) ≤ most_levels }
    ensures { path.new ≡ path_after nodes path.old }
{
    if path.len() < nodes {
        let right = lead_within_halves(path, 0);
        path.push_front(step_from(0, right));
    } else {
        let whole = path.len() - nodes;
        let _right = lead_within_halves(path, whole);
    }
}

// Turns the path to a gap into the path to the pair that is put into it, where `whole` nodes of the path stay whole. Answers
// whether the pair is then in the right half of the first node.
fn lead_within_halves(place: &mut Path, whole: usize) -> bool
    requires { AllByRecursion (λ i. i ≤ capacity) place.old }
    ensures steps { place.new ≡ steps_in_halves whole place.old }
    ensures right { result ≡ is_right whole place.old }
{
    let mut right = false;
    let mut at = place.len();
    while at > 0 {
        at -= 1;
        let index = place.step(at);
        let step = step_from(index, right);
        if at < whole {
            place.set(at, step);
            right = false;
        } else {
            place.set(at, half_step(index, step));
            right = goes_right(index, step);
        }
    }
    right
}

// The step to the child at `index`, or to the node that was split off on its right.
fn step_from(index: usize, right: bool) -> usize
    requires { index ≤ capacity }
    ensures { result ≡ child_step index right }
{
    if right { index + 1 } else { index }
}

// Whether what stands at `step` of a node that is split for a pair at `index` is in the right half.
fn goes_right(index: usize, step: usize) -> bool
    ensures { result ≡ is_after index step }
{
    step > left_len(index)
}

// The step to it in its half.
fn half_step(index: usize, step: usize) -> usize
    ensures { result ≡ step_in_half index step }
{
    let kept = left_len(index);
    if step > kept { step - (kept + 1) } else { step }
}
