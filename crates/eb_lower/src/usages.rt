//! Where the parts of a text use names, in its order.
ghost use Rattle.std.specs.Prelude.{[], ◌∷◌, ◌≡◌, ◌++◌, false, OnOk, map};
ghost use Rattle.eb_resolved.specs.Unknown.{free, used};
ghost use Rattle.eb_scoping.specs.FreeNames as uses;
ghost use Rattle.eb_declared.specs.Seen as parts;
ghost use Rattle.eb_lower.specs.Usages as spec;
ghost use Rattle.eb_lower.specs.steps.Positions as seen;

use eb_declared::{Part, Position};
use eb_names::Name;
use eb_scoping::{Use, free_uses};
use eb_syntax::Ast;
use std::alloc::{AllocError, Global};

/// A name where it is used.
#[derive(Clone, Copy)]
pub(crate) struct Usage<'a> {
    pub(crate) used: Use<'a>,
    pub(crate) position: Position<'a>,
}

fn push_name<'a>(
    position: Position<'a>,
    name: &'a Name,
    out: &mut Vec<Usage<'a>>,
) -> Result<(), AllocError>
    ensures { OnOk result (map seen.usage out.new.items ≡ map seen.usage out.old.items ++ spec.usage (parts.position position.entry) (used name.now false) ∷ []) }
{
    out.push(Usage {
        used: Use {
            name,
            is_primed: false,
        },
        position,
    })?;
    Ok(())
}

fn push_uses<'a>(
    position: Position<'a>,
    found: &[Use<'a>],
    out: &mut Vec<Usage<'a>>,
) -> Result<(), AllocError>
    ensures { OnOk result (map seen.usage out.new.items ≡ map seen.usage out.old.items ++ map (spec.usage (parts.position position.entry)) (map uses.seen found.now)) }
{
    for used in found {
        out.push(Usage {
            used: *used,
            position,
        })?;
    }
    Ok(())
}

fn push_formula<'a>(
    alloc: Global,
    position: Position<'a>,
    ast: &'a Ast,
    out: &mut Vec<Usage<'a>>,
) -> Result<(), AllocError>
    ensures { OnOk result (map seen.usage out.new.items ≡ map seen.usage out.old.items ++ map (spec.usage (parts.position position.entry)) (free ast.now)) }
{
    let found = free_uses(alloc, ast)?;
    push_uses(position, &found, out)
}

/// Writes the usages in the part to the end.
pub(crate) fn push_part<'a>(
    alloc: Global,
    part: Part<'a>,
    out: &mut Vec<Usage<'a>>,
) -> Result<(), AllocError>
    ensures { OnOk result (map seen.usage out.new.items ≡ map seen.usage out.old.items ++ spec.part_usages (parts.part part.entry)) }
{
    match part {
        Part::Declared(_, _) => Ok(()),
        Part::Used(position, name) => push_name(position, name, out),
        Part::Formula(position, formula) => push_formula(alloc, position, formula, out),
    }
}
