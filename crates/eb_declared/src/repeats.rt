//! Whether a declaration repeats an earlier one.
ghost use Rattle.std.specs.Prelude.{[], ◌∷◌, ◌≡◌, ◌++◌, ℕ, List, IfOk, IfErr, OnOk, map, bytes_eq, ◌||◌, ◌&&◌, codes, option_map};
ghost use Rattle.eb_scoping.specs.Sets.{has_text};
ghost use Rattle.eb_declared.specs.Declarations as spec;
ghost use Rattle.eb_declared.specs.Seen as held;
ghost use Rattle.eb_declared.specs.steps.Written as seen;
ghost use Rattle.eb_declared.specs.steps.Keys.{has, same_key, owner_of, kind_of, same_parts, is_parameter, is_taken, IsFirstTwice, BindsApart, Keeps, Judged, AreJudged};

use crate::declarations::{Declaration, declarations};
use crate::fault::RepeatFault;
use crate::part::{Part, Space};
use eb_names::Name;
use eb_scoping::{NameSet, has_name, insert_name, names, pattern_names};
use std::alloc::{AllocError, Global};
use std::collections::BTreeSet;

/// The kind of a space.
#[derive(Clone, Copy, Debug, PartialEq, Eq, PartialOrd, Ord)]
pub(crate) enum Kind {
    Units,
    Model,
    Parameters,
    Events,
    Axioms,
    Invariants,
    Assigned,
    Words,
    Sizes,
}

/// A name in a space, which is given by its kind and the event or context that it belongs to.
#[derive(Clone, Copy, Debug, PartialEq, Eq, PartialOrd, Ord)]
pub(crate) struct Key<'a> {
    pub(crate) kind: Kind,
    pub(crate) owner: &'a str,
    pub(crate) name: &'a str,
}

/// What is declared so far, in ordered sets, so that no choice of names makes them slow.
#[derive(Drop)]
pub(crate) struct Known<'a> {
    pub(crate) keys: BTreeSet<Key<'a>>,
    /// The parameters of all events.
    pub(crate) parameters: NameSet<'a>,
}

fn space_kind(space: Space<'_>) -> Kind
    ensures { result ≡ kind_of space.entry }
{
    match space {
        Space::Units => Kind::Units,
        Space::Model => Kind::Model,
        Space::Parameters(_) => Kind::Parameters,
        Space::Events => Kind::Events,
        Space::Axioms(_) => Kind::Axioms,
        Space::Invariants => Kind::Invariants,
        Space::Assigned(_) => Kind::Assigned,
        Space::Words => Kind::Words,
        Space::Sizes => Kind::Sizes,
    }
}

/// The name of the event or context that the space belongs to.
fn space_owner<'a>(space: Space<'a>) -> &'a str
    ensures { result.now ≡ owner_of (held.space space.entry) }
{
    match space {
        Space::Parameters(event) | Space::Assigned(event) => event,
        Space::Axioms(context) => context,
        Space::Units
        | Space::Model
        | Space::Events
        | Space::Invariants
        | Space::Words
        | Space::Sizes => "",
    }
}

fn key_of<'a>(space: Space<'a>, name: &'a str) -> Key<'a>
    ensures kind { result.kind ≡ kind_of space.entry }
    ensures owner { result.owner.now ≡ owner_of (held.space space.entry) }
    ensures name { result.name.now ≡ name.now }
{
    Key {
        kind: space_kind(space),
        owner: space_owner(space),
        name,
    }
}

fn has_key<'a>(keys: &BTreeSet<Key<'a>>, key: Key<'a>) -> bool
    ensures { result ≡ has keys.now key.entry.kind key.entry.owner.now key.entry.name.now }
{
    keys.contains(&key)
}

fn insert_key<'a>(keys: &mut BTreeSet<Key<'a>>, key: Key<'a>) -> Result<(), AllocError>
    ensures { OnOk result ((k : Kind) (o n : List ℕ) → has keys.new k o n ≡ (same_key key.entry k o n || has keys.old k o n)) }
{
    keys.insert(key)?;
    Ok(())
}

/// Whether the name may not be declared in the space.
fn is_repeated<'a>(known: &Known<'a>, space: Space<'a>, name: &'a str) -> bool
    ensures { result ≡ is_taken known.now.keys known.now.parameters space.entry name.now }
{
    if has_key(&known.keys, key_of(space, name)) {
        return true;
    }
    match space {
        Space::Parameters(_) => has_key(&known.keys, key_of(Space::Model, name)),
        Space::Model => has_name(&known.parameters, name),
        Space::Units
        | Space::Events
        | Space::Axioms(_)
        | Space::Invariants
        | Space::Assigned(_)
        | Space::Words
        | Space::Sizes => false,
    }
}

fn note<'a>(known: &mut Known<'a>, space: Space<'a>, name: &'a str) -> Result<(), AllocError>
    ensures keys { OnOk result ((k : Kind) (o n : List ℕ) → has known.new.keys k o n ≡ (same_parts (kind_of space.entry) (owner_of (held.space space.entry)) name.now k o n || has known.old.keys k o n)) }
    ensures parameters { OnOk result ((q : List ℕ) → has_text known.new.parameters q ≡ (is_parameter space.entry && bytes_eq name.now q || has_text known.old.parameters q)) }
{
    insert_key(&mut known.keys, key_of(space, name))?;
    if let Space::Parameters(_) = space {
        insert_name(&mut known.parameters, name)?;
    }
    Ok(())
}

/// The name as it is printed.
fn printed(alloc: Global, space: Space<'_>, name: &str) -> Result<Name, AllocError>
    ensures { IfOk result (λ text. text ≡ spec.printed (held.space space.entry) name.now) }
{
    match space {
        Space::Axioms(_) | Space::Invariants => label(alloc, name),
        Space::Units
        | Space::Model
        | Space::Parameters(_)
        | Space::Events
        | Space::Assigned(_)
        | Space::Words
        | Space::Sizes => Name::new(alloc, name),
    }
}

fn label(alloc: Global, name: &str) -> Result<Name, AllocError>
    ensures { IfOk result (λ text. text ≡ codes "@" ++ name.now) }
{
    let mut text = String::from_str(alloc, "@")?;
    text.push_str(name)?;
    Name::new(alloc, text.as_str())
}

/// The first name that stands a second time.
fn first_twice<'a>(alloc: Global, names: &[&'a Name]) -> Result<Option<&'a Name>, AllocError>
    ensures { IfOk result (λ found. IsFirstTwice (map (λ x. x.now) names.now) (option_map (λ x. x.now) found)) }
{
    let mut front = BTreeSet::new(alloc);
    for name in names {
        let text = name.as_str();
        if has_name(&front, text) {
            return Ok(Some(*name));
        }
        insert_name(&mut front, text)?;
    }
    Ok(None)
}

fn judge_binder(alloc: Global, names: &[&Name]) -> Result<(), RepeatFault>
    ensures { BindsApart (map (λ x. x.now) names.now) result }
{
    match first_twice(alloc, names)? {
        Some(name) => {
            let name = name.copied(alloc)?;
            Err(RepeatFault::Repeated(name))
        }
        None => Ok(()),
    }
}

fn judge_name<'a>(
    alloc: Global,
    known: &mut Known<'a>,
    space: Space<'a>,
    name: &'a str,
) -> Result<(), RepeatFault>
    ensures { (before : List spec.Declaration) → Keeps known.old.keys known.old.parameters before → Judged before (spec.declared (held.space space.entry) name.now) known.new.keys known.new.parameters result }
{
    if is_repeated(known, space, name) {
        let name = printed(alloc, space, name)?;
        return Err(RepeatFault::Repeated(name));
    }
    note(known, space, name)?;
    Ok(())
}

/// Judges one declaration behind those that are known, and notes it.
fn judge<'a>(
    alloc: Global,
    known: &mut Known<'a>,
    declaration: Declaration<'a>,
) -> Result<(), RepeatFault>
    ensures { (before : List spec.Declaration) → Keeps known.old.keys known.old.parameters before → Judged before (seen.declaration declaration.entry) known.new.keys known.new.parameters result }
{
    match declaration {
        Declaration::Name(space, name) => judge_name(alloc, known, space, name),
        Declaration::Identifiers(identifiers) => {
            let names = names(alloc, identifiers)?;
            judge_binder(alloc, &names)
        }
        Declaration::Pattern(marks) => {
            let names = pattern_names(alloc, marks)?;
            judge_binder(alloc, &names)
        }
    }
}

/// Judges the declarations one after the other.
fn judge_all(alloc: Global, declarations: &[Declaration<'_>]) -> Result<(), RepeatFault>
    ensures { AreJudged (map seen.declaration declarations.now) result }
{
    let mut known = Known {
        keys: BTreeSet::new(alloc),
        parameters: BTreeSet::new(alloc),
    };
    for declaration in declarations {
        if let Err(fault) = judge(alloc, &mut known, *declaration) {
            return Err(fault);
        }
    }
    Ok(())
}

/// Judges what the parts of a text declare, one declaration after the other. The fault is `Repeated` where one repeats an earlier one,
/// with the name of the first that does, a label behind its `@`; or want of memory.
pub fn judge_declarations(alloc: Global, parts: &[Part<'_>]) -> Result<(), RepeatFault>
    ensures distinct { IfOk result (λ _. spec.AreDistinct (spec.declarations (map held.part parts.now))) }
    ensures cause { IfErr result (spec.IsFaultOf (map held.part parts.now)) }
{
    let found = declarations(alloc, parts)?;
    judge_all(alloc, &found)
}
