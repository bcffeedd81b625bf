//! Walking a JSON tree along a path.
ghost use Rattle.std.specs.Prelude.{◌≡◌, ◌≤◌, IfSome, option_map};
ghost use Rattle.serde_json.specs.Data.{depth};
ghost use Rattle.serde_json.specs.View.{view};
ghost use Rattle.smap_fault_places.specs.Paths.{child as child_of, value_at as data_at, there as steps_there};

use crate::step::Step;
use serde_json::Value;

/// What a step leads to.
fn child(value: &Value, step: Step) -> Option<&Value>
    ensures value { option_map (λ v. view v.now) result ≡ child_of step (view value.now) }
    ensures nests { IfSome result (λ v. depth (view v.now) ≤ depth (view value.now)) }
{
    match step {
        Step::Member(key) => value.get(key.name()),
        Step::Entry(index) => value.get(index),
    }
}

/// The value at a path; none if a step of it leads to nothing.
pub fn value_at<'v>(tree: &'v Value, path: &[Step]) -> Option<&'v Value>
    ensures value { option_map (λ v. view v.now) result ≡ data_at path.now (view tree.now) }
    ensures nests { IfSome result (λ v. depth (view v.now) ≤ depth (view tree.now)) }
{
    let mut value = tree;
    'steps: for step in path {
        value = child(value, *step)?;
    }
    Some(value)
}

/// As many steps of a path, from the first on, as lead to a value in the tree.
pub fn there<'p>(tree: &Value, path: &'p [Step]) -> &'p [Step]
    ensures { result.now ≡ steps_there path.now (view tree.now) }
{
    let mut value = tree;
    let mut len = 0;
    'steps: while len < path.len() {
        let Some(inner) = child(value, path[len]) else {
            return &path[..len];
        };
        value = inner;
        len += 1;
    }
    path
}
