//! The scope of a text.
ghost use Rattle.std.specs.Prelude.{◌≡◌, ◌++◌, ℤ, pos, negsuc, ◌≤ℤ◌, false, None, IfOk, OnOk, IfErr, map};
ghost use Rattle.std.specs.List.{list_any, flat_map};
ghost use Rattle.scope_settings.specs.Scopes as spec;
ghost use Rattle.scope_settings.specs.Limits as limits;
ghost use Rattle.scope_settings.specs.Faults.{IsFaultOf};

use crate::fault::ScopeFault;
use crate::judging::passed;
use crate::reading::{depth, integers, settings_of, size};
use eb_model::{EbModel, ModelPart};
use eb_syntax::{EbUnit, ScopeSetting};
use eb_value::{Scope, Sizes};
use std::alloc::{AllocError, Global};

/// The number, 0 for a negative one.
fn natural(n: i64) -> u32
    requires { n ≤ℤ pos 16 }
    ensures { result ≡ spec.natural n }
{
    if n < 0 { 0 } else { n as u32 }
}

/// Writes the number of atoms of a carrier set to the end, and nothing for another part.
fn push_size(
    settings: &[&ScopeSetting],
    part: &ModelPart,
    sizes: &mut Sizes,
) -> Result<(), AllocError>
    requires { list_any limits.passes_size (map (λ s. s.now) settings.now) ≡ false }
    ensures { OnOk result (sizes.new ≡ sizes.old ++ spec.part_sizes (map (λ s. s.now) settings.now) part.now) }
{
    match part {
        ModelPart::Carrier(_, carrier) => {
            let atoms = size(settings, carrier.name.as_str());
            sizes.push(natural(atoms))
        }
        ModelPart::Constant(_)
        | ModelPart::Variable(_)
        | ModelPart::Axiom(_)
        | ModelPart::Invariant(_)
        | ModelPart::Event(_) => Ok(()),
    }
}

/// The number of atoms of each carrier set. The only error is want of memory.
fn sizes_of(
    alloc: Global,
    settings: &[&ScopeSetting],
    parts: &[ModelPart],
) -> Result<Sizes, AllocError>
    requires { list_any limits.passes_size (map (λ s. s.now) settings.now) ≡ false }
    ensures { IfOk result (λ sizes. sizes ≡ flat_map (spec.part_sizes (map (λ s. s.now) settings.now)) parts.now) }
{
    let mut sizes = Sizes::new(alloc);
    for part in parts {
        push_size(settings, part, &mut sizes)?;
    }
    Ok(sizes)
}

/// The scope of these units, which have this model: what their scope block says, and for the rest integers from -4 to 8, 3 atoms
/// of each carrier set and depth 3. The sizes stand in the order in which the model declares its carrier sets.
///
/// The error `Limit` comes exactly where a limit of the scope or of the model is passed: that the integers lie within
/// -32768..32767 and there is one, that each size lies within 1..16 and the depth within 0..8, that there are at most 200 events
/// besides INITIALISATION, that a binder has at most 8 identifiers, and a `partition` at most 64 sets behind its first. It is the
/// first in this order. `Memory` is want of memory.
pub fn scope_of(alloc: Global, units: &[EbUnit], model: &EbModel) -> Result<Scope, ScopeFault>
    ensures scope { IfOk result (λ s. s ≡ spec.scope_of units.now model.now) }
    ensures lawful { OnOk result (limits.passed units.now model.now ≡ None) }
    ensures least { IfOk result (λ s. negsuc 32767 ≤ℤ s.lo) }
    ensures greatest { IfOk result (λ s. s.hi ≤ℤ pos 32767) }
    ensures some { IfOk result (λ s. s.lo ≤ℤ s.hi) }
    ensures cause { IfErr result (IsFaultOf units.now model.now) }
{
    let settings = settings_of(alloc, units)?;
    if let Some(limit) = passed(settings.as_slice(), model) {
        return Err(ScopeFault::Limit(limit));
    }
    let sizes = sizes_of(alloc, settings.as_slice(), model.parts.as_slice())?;
    let (lo, hi) = integers(settings.as_slice());
    let depth = natural(depth(settings.as_slice()));
    Ok(Scope {
        lo,
        hi,
        sizes,
        depth,
    })
}
