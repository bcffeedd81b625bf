//! One member of an object, read as a string, an array, a number or an object.

ghost use Rattle.std.specs.Prelude.{◌≡◌, ◌<◌, All, IfSome, option_copied, option_map, option_and_then};
ghost use Rattle.std.specs.Prelude.{is_some, ◌||◌};
ghost use Rattle.std.specs.List.{list_all};
ghost use Rattle.serde_json.specs.View.{view};
ghost use Rattle.serde_json.specs.Find.{as_str, as_null};
ghost use Rattle.smap_shape.specs.Reading.{member_of, optional, list_member, text_or_null, number_below};
ghost use Rattle.smap_shape.specs.Reading.{object_only};
ghost use Rattle.smap_shape.specs.Inside.{texts, sure_texts, numbers};

use serde_json::Value;

/// The member, unless it is absent or null.
pub(crate) fn member<'v>(tree: &'v Value, key: &str) -> Option<&'v Value>
    ensures { option_map (λ v. view v.now) result ≡ member_of key.now (view tree.now) }
{
    let found = tree.get(key)?;
    if found.is_null() { None } else { Some(found) }
}

/// A string, or nothing if the member is absent.
pub(crate) fn optional_text<'v>(member: Option<&'v Value>) -> Option<Option<&'v str>>
    ensures { option_map option_copied result
        ≡ optional as_str (option_map (λ v. view v.now) member.entry) }
{
    match member {
        None => Some(None),
        Some(value) => Some(Some(value.as_str()?)),
    }
}

/// An object.
pub(crate) fn object<'v>(tree: &'v Value, key: &str) -> Option<&'v Value>
    ensures { option_map (λ v. view v.now) result
        ≡ option_and_then object_only (member_of key.now (view tree.now)) }
{
    let found = member(tree, key)?;
    if found.is_object() { Some(found) } else { None }
}

fn are_texts_or_nulls(list: &[Value]) -> bool
    ensures { result ≡ list_all (λ v. is_some (as_null (view v)) || is_some (as_str (view v))) list.now }
{
    list.iter().all(|v| v.is_null() || v.is_string())
}

/// An array of strings and nulls, empty if the member is absent.
#[tactic(auto, using(crate::proofs::ListLemmas::list_steps))]
pub(crate) fn texts_or_nulls<'v>(member: Option<&'v Value>) -> Option<&'v [Value]>
    ensures { option_map (λ s. texts s.now) result
        ≡ list_member text_or_null (option_map (λ v. view v.now) member.entry) }
{
    let Some(value) = member else {
        return Some(&[]);
    };
    let list = value.as_array()?;
    if are_texts_or_nulls(list) {
        Some(list.as_slice())
    } else {
        None
    }
}

fn are_texts(list: &[Value]) -> bool
    ensures { result ≡ list_all (λ v. is_some (as_str (view v))) list.now }
{
    list.iter().all(|v| v.is_string())
}

/// An array of strings, empty if the member is absent.
#[tactic(auto, using(crate::proofs::ListLemmas::list_steps))]
pub(crate) fn texts_only<'v>(member: Option<&'v Value>) -> Option<&'v [Value]>
    ensures { option_map (λ s. sure_texts s.now) result
        ≡ list_member as_str (option_map (λ v. view v.now) member.entry) }
{
    let Some(value) = member else {
        return Some(&[]);
    };
    let list = value.as_array()?;
    if are_texts(list) {
        Some(list.as_slice())
    } else {
        None
    }
}

#[tactic(auto, unfolding(crate::specs::Reading::number_below))]
fn is_below(value: &Value, count: usize) -> bool
    ensures { result ≡ is_some (number_below count (view value.now)) }
{
    match value.as_u64() {
        Some(n) => n < count as u64,
        None => false,
    }
}

fn are_below(list: &[Value], count: usize) -> bool
    ensures { result ≡ list_all (λ v. is_some (number_below count (view v))) list.now }
{
    list.iter().all(|v| is_below(v, count))
}

/// An array of integers below the count, empty if the member is absent.
#[tactic(auto, using(crate::proofs::ListLemmas::list_steps))]
pub(crate) fn numbers_below<'v>(member: Option<&'v Value>, count: usize) -> Option<&'v [Value]>
    ensures numbers { option_map (λ s. numbers s.now) result
        ≡ list_member (number_below count) (option_map (λ v. view v.now) member.entry) }
    ensures below { IfSome result (λ s. All (λ n. n < count) (numbers s.now)) }
{
    let Some(value) = member else {
        return Some(&[]);
    };
    let list = value.as_array()?;
    if are_below(list, count) {
        Some(list.as_slice())
    } else {
        None
    }
}
