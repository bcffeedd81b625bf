//! Budgets that name a growth.
ghost use Rattle.std.specs.Prelude.{◌≡◌};
ghost use Rattle.smap_view_page.specs.Budgets as spec;

/// By how much a build may have grown over another one.
#[derive(Clone, Copy)]
pub enum Growth {
    Bytes(u64),
    /// Hundredths of what the other one has.
    Percent(u32),
}

/// The number before a unit, in digits alone.
fn number(text: &str, unit: &str) -> Option<u64> {
    let digits = text.strip_suffix(unit)?;
    if digits.starts_with('+') {
        return None;
    }
    digits.parse::<u64>().ok()
}

/// So many bytes.
fn bytes(text: &str) -> Option<u64> {
    if let Some(number) = number(text, "KB") {
        return Some(number.saturating_mul(1_000));
    }
    if let Some(number) = number(text, "MB") {
        return Some(number.saturating_mul(1_000_000));
    }
    number(text.strip_suffix('B').unwrap_or(text), "")
}

/// The growth that a text such as `+5%` or `+10KB` names.
pub fn growth_named(text: &str) -> Option<Growth> {
    let text = text.strip_prefix('+')?;
    match number(text, "%") {
        Some(number) => Some(Growth::Percent(u32::try_from(number).ok()?)),
        None => Some(Growth::Bytes(bytes(text)?)),
    }
}

/// The most bytes that a build may have with this growth over one that has so many.
pub fn most_after(growth: Growth, old: u64) -> u64
    ensures { result ≡ spec.most_after growth old }
{
    match growth {
        Growth::Bytes(number) => old.saturating_add(number),
        Growth::Percent(number) => {
            let most = u128::from(old) * (100 + u128::from(number)) / 100;
            most.min(u128::from(u64::MAX)) as u64
        }
    }
}
