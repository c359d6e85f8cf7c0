//! What the settings of a text say, and the defaults for the rest.
ghost use Rattle.std.specs.Prelude.{◌≡◌, ◌++◌, IfOk, OnOk, map};
ghost use Rattle.scope_settings.specs.Scopes as spec;

use eb_syntax::{EbUnit, ScopeSetting};
use std::alloc::{AllocError, Global};

/// The atoms of a carrier set where no setting says otherwise.
const USUAL_SIZE: i64 = 3;

/// The greatest number of events of a sequence where no setting says otherwise.
const USUAL_DEPTH: i64 = 3;

/// Writes the settings of a scope block to the end.
fn push_settings<'u>(
    block: &'u [ScopeSetting],
    settings: &mut Vec<&'u ScopeSetting>,
) -> Result<(), AllocError>
    ensures { OnOk result (map (λ s. s.now) settings.new.items ≡ map (λ s. s.now) settings.old.items ++ block.now) }
{
    for setting in block {
        settings.push(setting)?;
    }
    Ok(())
}

/// Writes the settings of a unit to the end: those of a scope block, and none of another.
fn push_unit<'u>(unit: &'u EbUnit, settings: &mut Vec<&'u ScopeSetting>) -> Result<(), AllocError>
    ensures { OnOk result (map (λ s. s.now) settings.new.items ≡ map (λ s. s.now) settings.old.items ++ spec.unit_settings unit.now) }
{
    match unit {
        EbUnit::Scope(block) => push_settings(block.settings.as_slice(), settings),
        EbUnit::Context(_) | EbUnit::Machine(_) | EbUnit::Queries(_) => Ok(()),
    }
}

/// The settings of these units. The only error is want of memory.
pub(crate) fn settings_of<'u>(
    alloc: Global,
    units: &'u [EbUnit],
) -> Result<Vec<&'u ScopeSetting>, AllocError>
    ensures { IfOk result (λ settings. map (λ s. s.now) settings.items ≡ spec.settings units.now) }
{
    let mut settings = Vec::new(alloc);
    for unit in units {
        push_unit(unit, &mut settings)?;
    }
    Ok(settings)
}

/// The least integer and the greatest: -4 and 8 where no setting says otherwise.
pub(crate) fn integers(settings: &[&ScopeSetting]) -> (i64, i64)
    ensures { result ≡ spec.integers (map (λ s. s.now) settings.now) }
{
    for setting in settings {
        if let ScopeSetting::Integers(_, lo, hi) = *setting {
            return (*lo, *hi);
        }
    }
    (-4, 8)
}

/// How many atoms the carrier set of this name has: 3 where no setting says otherwise.
pub(crate) fn size(settings: &[&ScopeSetting], name: &str) -> i64
    ensures { result ≡ spec.size name.now (map (λ s. s.now) settings.now) }
{
    for setting in settings {
        if let ScopeSetting::Size(carrier, atoms) = *setting {
            if name == carrier.name.as_str() {
                return *atoms;
            }
        }
    }
    USUAL_SIZE
}

/// How many events a sequence has at most: 3 where no setting says otherwise.
pub(crate) fn depth(settings: &[&ScopeSetting]) -> i64
    ensures { result ≡ spec.depth (map (λ s. s.now) settings.now) }
{
    for setting in settings {
        if let ScopeSetting::Depth(_, events) = *setting {
            return *events;
        }
    }
    USUAL_DEPTH
}
