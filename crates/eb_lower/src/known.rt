//! Whether a used name is known where it is used.
ghost use Rattle.std.specs.Prelude.{◌≡◌, [], ◌∷◌, ℕ, List, Bool, false, Some, IfOk, IfSome, OnOk, map};
ghost use Rattle.eb_scoping.specs.Models.{AreMarked};
ghost use Rattle.eb_scoping.specs.Groups.{IsIndex};
ghost use Rattle.eb_scoping.specs.Walks.{IsWalk};
ghost use Rattle.eb_scoping.specs.FreeNames as uses;
ghost use Rattle.eb_declared.specs.Parts as parts;
ghost use Rattle.eb_declared.specs.Seen as held;
ghost use Rattle.eb_lower.specs.Unsupported.{is_initialisation as initial};
ghost use Rattle.eb_lower.specs.Usages as spec;
ghost use Rattle.eb_lower.specs.steps.Answers.{KnowsAll};
ghost use Rattle.eb_lower.specs.steps.Positions as seen;
ghost use Rattle.eb_lower.specs.steps.Known.{Tells, Text, ReachIs, JudgesUsage, IsOfModel, IsPlaced, ArePlaced, ExtendsAt, ExtendsOne};

use crate::facts::{Facts, facts_of, hinted_place};
use crate::fault::NameFault;
use crate::unsupported::is_initialisation;
use crate::usages::{Usage, push_part};
use eb_declared::{Part, Position};
use eb_names::Name;
use eb_scoping::{Use, Walk, has_name, is_among, lead_walk, walk_from, walk_reaches};
use eb_syntax::{Context, EbUnit, Event, Identifier};
use std::alloc::{AllocError, Global};

/// What a context reaches by `extends`, as far as it was asked.
#[derive(Drop)]
pub(crate) struct Reach<'a> {
    pub(crate) context: &'a str,
    pub(crate) walk: Walk<'a>,
}

/// Whether a context of the model has this carrier set or constant.
fn is_static(facts: &Facts<'_>, name: &str) -> bool
    ensures { (us : List seen.Unit) (marks : List Bool) → Text us marks facts.now → Tells result (spec.IsStatic us marks name.now) }
{
    match facts.statics.get(name) {
        Some(places) => !places.is_empty(),
        None => false,
    }
}

/// Whether the machine has this variable.
fn is_variable(facts: &Facts<'_>, name: &str) -> bool
    ensures { (us : List seen.Unit) (marks : List Bool) → Text us marks facts.now → Tells result (spec.IsVariable us name.now) }
{
    has_name(&facts.variables, name)
}

/// Whether the name is one of these, which stand in the event. Looks first where the facts have it.
fn is_listed(facts: &Facts<'_>, event: &Event, names: &[Identifier], name: &str) -> bool
    ensures { result ≡ uses.is_among (uses.names_of names.now) name.now }
{
    if let Some(other) = names.get(hinted_place(facts, event.name.name.as_str(), name)) {
        if other.name.as_str() == name {
            return true;
        }
    }
    is_among(names, name)
}

fn is_parameter(facts: &Facts<'_>, event: &Event, name: &str) -> bool
    ensures { result ≡ uses.is_among (parts.parameter_names event.now.parameters) name.now }
{
    match &event.parameters {
        Some(clause) => is_listed(facts, event, clause.names.as_slice(), name),
        None => false,
    }
}

/// Whether the machine has this variable and the event is another than INITIALISATION.
fn has_value_before(facts: &Facts<'_>, event: &Event, name: &str) -> bool
    ensures { (us : List seen.Unit) (marks : List Bool) → Text us marks facts.now → Tells result ((initial event.now ≡ false) × spec.IsVariable us name.now) }
{
    !is_initialisation(event) && is_variable(facts, name)
}

/// Whether the name is known in a guard or action of the event.
fn is_known_in_event(facts: &Facts<'_>, event: &Event, after: &[Identifier], used: Use<'_>) -> bool
    ensures { (us : List seen.Unit) (marks : List Bool) → Text us marks facts.now → Tells result (spec.IsKnownAt us marks (parts.in_event event.now (uses.names_of after.now)) (uses.seen used.entry)) }
{
    let name = used.name.as_str();
    if used.is_primed {
        return is_listed(facts, event, after, name);
    }
    if is_static(facts, name) {
        return true;
    }
    if has_value_before(facts, event, name) {
        return true;
    }
    is_parameter(facts, event, name)
}

/// Whether the walk reaches the context at this place, if one is there.
fn reaches_place<'a>(
    units: &'a [EbUnit],
    facts: &Facts<'_>,
    walk: &mut Walk<'a>,
    place: usize,
) -> Result<bool, AllocError>
    requires { IsIndex units.now facts.now.places }
    ensures walk { OnOk result ((first : List (List ℕ)) → IsWalk units.now first walk.old → IsWalk units.now first walk.new) }
    ensures answer { IfOk result (λ found. (from : List ℕ) → IsWalk units.now (from ∷ []) walk.old → Tells found (ExtendsAt units.now from place)) }
{
    match units.get(place) {
        Some(EbUnit::Context(context)) => {
            walk_reaches(&facts.places, walk, units, context.name.name.as_str())
        }
        Some(EbUnit::Machine(_) | EbUnit::Scope(_) | EbUnit::Queries(_)) | None => Ok(false),
    }
}

/// Whether the walk reaches a context at one of the places.
fn reaches_one<'a>(
    units: &'a [EbUnit],
    facts: &Facts<'_>,
    walk: &mut Walk<'a>,
    places: &[usize],
) -> Result<bool, AllocError>
    requires { IsIndex units.now facts.now.places }
    ensures walk { OnOk result ((first : List (List ℕ)) → IsWalk units.now first walk.old → IsWalk units.now first walk.new) }
    ensures answer { IfOk result (λ found. (from : List ℕ) → IsWalk units.now (from ∷ []) walk.old → Tells found (ExtendsOne units.now from places.now)) }
{
    for place in places {
        if reaches_place(units, facts, walk, *place)? {
            return Ok(true);
        }
    }
    Ok(false)
}

/// The known walk, where it serves the contexts of this name too.
fn walk_for<'a>(
    units: &'a [EbUnit],
    facts: &Facts<'_>,
    known: Reach<'a>,
    name: &'a str,
) -> Result<Option<Walk<'a>>, AllocError>
    requires { IsIndex units.now facts.now.places }
    ensures { ReachIs units.now (Some known.entry) → IfOk result (λ found. IfSome found (IsWalk units.now (name.now ∷ []))) }
{
    let Reach { context, mut walk } = known;
    if lead_walk(&facts.places, &mut walk, units, context, name)? {
        return Ok(Some(walk));
    }
    Ok(None)
}

/// A walk from the contexts of this name, with what is known.
fn walk_of<'a>(
    alloc: Global,
    units: &'a [EbUnit],
    facts: &Facts<'_>,
    known: Option<Reach<'a>>,
    name: &'a str,
) -> Result<Walk<'a>, AllocError>
    requires places { IsIndex units.now facts.now.places }
    requires reached { ReachIs units.now known }
    ensures { IfOk result (IsWalk units.now (name.now ∷ [])) }
{
    if let Some(known) = known {
        if let Some(walk) = walk_for(units, facts, known, name)? {
            return Ok(walk);
        }
    }
    walk_from(alloc, name)
}

/// Whether an axiom of the context may use the name. `reach` is what a context reaches, once that is asked.
fn is_known_in_axiom<'a>(
    alloc: Global,
    units: &'a [EbUnit],
    facts: &Facts<'_>,
    context: &'a Context,
    used: Use<'_>,
    reach: &mut Option<Reach<'a>>,
) -> Result<bool, AllocError>
    requires reached { ReachIs units.now reach.old }
    requires places { IsIndex units.now facts.now.places }
    requires placed { IsOfModel units.now context.now.name.name }
    ensures reached { OnOk result (ReachIs units.now reach.new) }
    ensures known { (marks : List Bool) → Text units.now marks facts.now → IfOk result (λ known. Tells known (spec.IsKnownAt units.now marks (parts.in_axiom context.now) (uses.seen used.entry))) }
{
    if used.is_primed {
        return Ok(false);
    }
    let Some(places) = facts.statics.get(used.name.as_str()) else {
        return Ok(false);
    };
    let name = context.name.name.as_str();
    let mut walk = walk_of(alloc, units, facts, reach.take(), name)?;
    let found = reaches_one(units, facts, &mut walk, places)?;
    *reach = Some(Reach {
        context: name,
        walk,
    });
    Ok(found)
}

/// Whether the name is known where it is used.
fn is_known<'a>(
    alloc: Global,
    units: &'a [EbUnit],
    facts: &Facts<'_>,
    usage: Usage<'a>,
    reach: &mut Option<Reach<'a>>,
) -> Result<bool, AllocError>
    requires reached { ReachIs units.now reach.old }
    requires places { IsIndex units.now facts.now.places }
    requires placed { IsPlaced units.now (seen.usage usage).position }
    ensures reached { OnOk result (ReachIs units.now reach.new) }
    ensures known { (marks : List Bool) → Text units.now marks facts.now → IfOk result (λ known. Tells known (spec.IsKnown units.now marks (seen.usage usage.entry))) }
{
    let name = usage.used.name.as_str();
    match usage.position {
        Position::Context => Ok(has_name(&facts.contexts, name)),
        Position::Size => Ok(has_name(&facts.carriers, name)),
        Position::Axiom(context) => is_known_in_axiom(
            alloc, units, facts, context, usage.used, reach,
        ),
        Position::Invariant => {
            Ok(!usage.used.is_primed && (is_static(facts, name) || is_variable(facts, name)))
        }
        Position::Event(event, after) => Ok(is_known_in_event(facts, event, after, usage.used)),
        Position::Assigned => Ok(is_variable(facts, name)),
        Position::Changed(event) => Ok(has_value_before(facts, event, name)),
    }
}

/// The used name as it is printed.
fn printed(alloc: Global, used: Use<'_>) -> Result<Name, AllocError>
    ensures { IfOk result (λ text. text ≡ spec.use_text (uses.seen used.entry)) }
{
    if !used.is_primed {
        return used.name.copied(alloc);
    }
    let mut text = String::from_str(alloc, used.name.as_str())?;
    text.push_str("'")?;
    Name::new(alloc, text.as_str())
}

/// Judges one usage.
fn judge_usage<'a>(
    alloc: Global,
    units: &'a [EbUnit],
    facts: &Facts<'_>,
    usage: Usage<'a>,
    reach: &mut Option<Reach<'a>>,
) -> Result<(), NameFault>
    requires reached { ReachIs units.now reach.old }
    requires places { IsIndex units.now facts.now.places }
    requires placed { IsPlaced units.now (seen.usage usage).position }
    ensures reached { OnOk result (ReachIs units.now reach.new) }
    ensures known { (marks : List Bool) → Text units.now marks facts.now → JudgesUsage units.now marks (seen.usage usage.entry) result }
{
    if is_known(alloc, units, facts, usage, reach)? {
        return Ok(());
    }
    let name = printed(alloc, usage.used)?;
    Err(NameFault::UnknownName(name))
}

/// Judges the usages in one part.
fn judge_part<'a>(
    alloc: Global,
    units: &'a [EbUnit],
    facts: &Facts<'_>,
    usages: &[Usage<'a>],
    reach: &mut Option<Reach<'a>>,
) -> Result<(), NameFault>
    requires reached { ReachIs units.now reach.old }
    requires places { IsIndex units.now facts.now.places }
    requires placed { ArePlaced units.now (map seen.usage usages.now) }
    ensures reached { OnOk result (ReachIs units.now reach.new) }
    ensures known { (marks : List Bool) → Text units.now marks facts.now → KnowsAll units.now marks (map seen.usage usages.now) result }
{
    for usage in usages {
        if let Err(fault) = judge_usage(alloc, units, facts, *usage, reach) {
            return Err(fault);
        }
    }
    Ok(())
}

/// Judges the usages in the parts of units with these marks, one part after the other.
pub(crate) fn judge_usages(
    alloc: Global,
    units: &[EbUnit],
    marks: &[bool],
    found: &[Part<'_>],
) -> Result<(), NameFault>
    requires marked { AreMarked units.now units.now marks.now }
    requires parts { map held.part found.now ≡ parts.parts units.now marks.now }
    ensures { KnowsAll units.now marks.now (spec.usages (parts.parts units.now marks.now)) result }
{
    let facts = facts_of(alloc, units, marks)?;
    let mut reach = None;
    for part in found {
        let mut usages = Vec::new(alloc);
        push_part(alloc, *part, &mut usages)?;
        if let Err(fault) = judge_part(alloc, units, &facts, &usages, &mut reach) {
            return Err(fault);
        }
    }
    Ok(())
}
