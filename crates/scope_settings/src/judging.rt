//! Which limit is passed.
ghost use Rattle.std.specs.Prelude.{◌≡◌, ℤ, map, length, filter};
ghost use Rattle.std.specs.List.{list_any};
ghost use Rattle.scope_settings.specs.Limits as spec;
ghost use Rattle.scope_settings.specs.steps.Judging as step;

use crate::limit::Limit;
use crate::reading::{depth, integers};
use eb_forms::too_wide;
use eb_model::{EbModel, ModelPart};
use eb_syntax::ScopeSetting;

fn lies_within(lo: i64, hi: i64, n: i64) -> bool
    ensures { result ≡ spec.lies_within lo hi n }
{
    lo <= n && n <= hi
}

/// Whether the integers lie outside -32768..32767, or there is none.
fn passes_int(least: i64, greatest: i64) -> bool
    ensures { result ≡ spec.passes_int (least, greatest) }
{
    !(lies_within(-32768, 32767, least)
        && lies_within(-32768, 32767, greatest)
        && least <= greatest)
}

/// Whether the setting gives a carrier set other than 1..16 atoms.
fn passes_size(setting: &ScopeSetting) -> bool
    ensures { result ≡ spec.passes_size setting.now }
{
    match setting {
        ScopeSetting::Size(_, atoms) => !lies_within(1, 16, *atoms),
        ScopeSetting::Integers(_, _, _) | ScopeSetting::Depth(_, _) => false,
    }
}

fn one_passes_size(settings: &[&ScopeSetting]) -> bool
    ensures { result ≡ list_any spec.passes_size (map (λ s. s.now) settings.now) }
{
    for setting in settings {
        if passes_size(*setting) {
            return true;
        }
    }
    false
}

/// Whether the depth lies outside 0..8.
fn passes_depth(events: i64) -> bool
    ensures { result ≡ spec.passes_depth events }
{
    !lies_within(0, 8, events)
}

fn is_other_event(part: &ModelPart) -> bool
    ensures { result ≡ spec.is_other_event part.now }
{
    match part {
        ModelPart::Event(event) => event.name.as_str() != "INITIALISATION",
        ModelPart::Carrier(_, _)
        | ModelPart::Constant(_)
        | ModelPart::Variable(_)
        | ModelPart::Axiom(_)
        | ModelPart::Invariant(_) => false,
    }
}

/// How many events the model has besides INITIALISATION.
fn event_count(parts: &[ModelPart]) -> usize
    ensures { result ≡ length (filter spec.is_other_event parts.now) }
{
    let mut count: usize = 0;
    for part in parts {
        if is_other_event(part) {
            count += 1;
        }
    }
    count
}

/// The first limit of the model that is passed.
fn passed_by_model(model: &EbModel) -> Option<Limit>
    ensures { result ≡ step.passed_by_model model.now }
{
    if event_count(model.parts.as_slice()) > 200 {
        return Some(Limit::Events);
    }
    let wide = too_wide(model);
    if wide.binder {
        Some(Limit::Binder)
    } else if wide.partition {
        Some(Limit::Partition)
    } else {
        None
    }
}

/// The first limit that is passed.
pub(crate) fn passed(settings: &[&ScopeSetting], model: &EbModel) -> Option<Limit>
    ensures { result ≡ step.passed_by (map (λ s. s.now) settings.now) model.now }
{
    let (least, greatest) = integers(settings);
    if passes_int(least, greatest) {
        Some(Limit::Int)
    } else if one_passes_size(settings) {
        Some(Limit::Size)
    } else if passes_depth(depth(settings)) {
        Some(Limit::Depth)
    } else {
        passed_by_model(model)
    }
}
