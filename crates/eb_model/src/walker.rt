//! A model up to some place.
ghost use Rattle.std.specs.Prelude.{◌≡◌, OnOk, IfOk, fold, if◌then◌else◌};
ghost use Rattle.eb_model.specs.Models as spec;
ghost use Rattle.eb_model.specs.declared.model.ModelPart.TheVariants as part;
ghost use Rattle.eb_resolved.specs.Resolving.{entries_from};

use crate::model::{EbModel, ModelEvent, ModelPart};
use crate::rows::{actions, all_labelled, labelled};
use eb_names::Name;
use eb_resolved::entries_from;
use eb_syntax::{
    ContextClause, EbUnit, Event, Identifier, LabelledPredicate, MachineClause, NamesClause,
    PredicatesClause,
};
use numbered_names::{Entry, Names, Scope};
use sqlite_items::Items;
use std::alloc::{AllocError, Global};
use std::marker::Model;

/// The names in scope, how many carrier sets were declared, and the parts.
#[derive(Drop)]
pub(crate) struct Walker {
    names: Names,
    carriers: u32,
    parts: Items<ModelPart>,
}

impl Model for Walker {
    ghost use Rattle.std.specs.Coded.{codes};
    ghost use Rattle.eb_model.specs.Models.{Walk};
    ghost use Rattle.eb_resolved.specs.contracts.resolved.ResolvedNode as node;

    ghost Value = { Walk };

    ghost coded = { Prim.hlevel (codes, node.the_row.coded) };

    ghost view = { λ w. record { names = w.names; carriers = w.carriers; parts = w.parts } };
}

/// The parameters behind `any`, none without that word.
fn parameters_of(clause: &Option<NamesClause>) -> &[Identifier]
    ensures { result.now ≡ spec.parameters_of clause.now }
{
    match clause {
        Some(clause) => clause.names.as_slice(),
        None => &[],
    }
}

/// The guards behind `where` or `when`, none without those words.
fn guards_of(clause: &Option<PredicatesClause>) -> &[LabelledPredicate]
    ensures { result.now ≡ spec.guards_of clause.now }
{
    match clause {
        Some(clause) => clause.predicates.as_slice(),
        None => &[],
    }
}

impl Walker {
    /// Before the first unit.
    pub(crate) fn new(alloc: Global) -> Walker
        ensures { result ≡ spec.start }
    {
        Walker {
            names: Names::new(alloc),
            carriers: 0,
            parts: Items::new(alloc),
        }
    }

    fn constant(&mut self, alloc: Global, identifier: &Identifier) -> Result<(), AllocError>
        ensures { OnOk result (self.new ≡ spec.declare part.Constant self.old identifier.now) }
    {
        let number = self.names.mark()?;
        let entry = Entry::new(alloc, &identifier.name, number)?;
        self.parts.push(ModelPart::Constant(entry))?;
        Ok(())
    }

    fn constants(&mut self, alloc: Global, identifiers: &[Identifier]) -> Result<(), AllocError>
        ensures { OnOk result (self.new ≡ fold (spec.declare part.Constant) self.old identifiers.now) }
    {
        for identifier in identifiers {
            self.constant(alloc, identifier)?;
        }
        Ok(())
    }

    fn variable(&mut self, alloc: Global, identifier: &Identifier) -> Result<(), AllocError>
        ensures { OnOk result (self.new ≡ spec.declare part.Variable self.old identifier.now) }
    {
        let number = self.names.mark()?;
        let entry = Entry::new(alloc, &identifier.name, number)?;
        self.parts.push(ModelPart::Variable(entry))?;
        Ok(())
    }

    fn variables(&mut self, alloc: Global, identifiers: &[Identifier]) -> Result<(), AllocError>
        ensures { OnOk result (self.new ≡ fold (spec.declare part.Variable) self.old identifiers.now) }
    {
        for identifier in identifiers {
            self.variable(alloc, identifier)?;
        }
        Ok(())
    }

    fn carrier(&mut self, alloc: Global, identifier: &Identifier) -> Result<(), AllocError>
        ensures { OnOk result (self.new ≡ spec.carrier self.old identifier.now) }
    {
        let number = self.names.mark()?;
        let entry = Entry::new(alloc, &identifier.name, number)?;
        self.parts.push(ModelPart::Carrier(self.carriers, entry))?;
        self.carriers = self.carriers.checked_add(1).ok_or(AllocError)?;
        Ok(())
    }

    fn carriers(&mut self, alloc: Global, identifiers: &[Identifier]) -> Result<(), AllocError>
        ensures { OnOk result (self.new ≡ fold spec.carrier self.old identifiers.now) }
    {
        for identifier in identifiers {
            self.carrier(alloc, identifier)?;
        }
        Ok(())
    }

    fn axiom(
        &mut self,
        alloc: Global,
        scope: &Scope,
        unit: &Name,
        predicate: &LabelledPredicate,
    ) -> Result<(), AllocError>
        ensures { OnOk result (self.new ≡ spec.axiom_at scope.now.entries unit.now self.old predicate.now) }
    {
        let formula = labelled(alloc, scope, unit, predicate, &mut self.names)?;
        self.parts.push(ModelPart::Axiom(formula))?;
        Ok(())
    }

    fn axioms(
        &mut self,
        alloc: Global,
        scope: &Scope,
        unit: &Name,
        predicates: &[LabelledPredicate],
    ) -> Result<(), AllocError>
        ensures { OnOk result (self.new ≡ fold (spec.axiom_at scope.now.entries unit.now) self.old predicates.now) }
    {
        for predicate in predicates {
            self.axiom(alloc, scope, unit, predicate)?;
        }
        Ok(())
    }

    fn invariant(
        &mut self,
        alloc: Global,
        scope: &Scope,
        unit: &Name,
        predicate: &LabelledPredicate,
    ) -> Result<(), AllocError>
        ensures { OnOk result (self.new ≡ spec.invariant_at scope.now.entries unit.now self.old predicate.now) }
    {
        let formula = labelled(alloc, scope, unit, predicate, &mut self.names)?;
        self.parts.push(ModelPart::Invariant(formula))?;
        Ok(())
    }

    fn invariants(
        &mut self,
        alloc: Global,
        scope: &Scope,
        unit: &Name,
        predicates: &[LabelledPredicate],
    ) -> Result<(), AllocError>
        ensures { OnOk result (self.new ≡ fold (spec.invariant_at scope.now.entries unit.now) self.old predicates.now) }
    {
        for predicate in predicates {
            self.invariant(alloc, scope, unit, predicate)?;
        }
        Ok(())
    }

    /// An event: its parameters are in scope in its guards and actions.
    fn event_of(
        &mut self,
        alloc: Global,
        scope: &Scope,
        event: &Event,
    ) -> Result<ModelEvent, AllocError>
        ensures made { IfOk result (λ e. e ≡ (spec.event_of scope.now.entries event.now self.old.names).0) }
        ensures names { OnOk result (self.new.names ≡ (spec.event_of scope.now.entries event.now self.old.names).1) }
        ensures carriers { self.new.carriers ≡ self.old.carriers }
        ensures parts { self.new.parts ≡ self.old.parts }
    {
        let depth = self.names.depth();
        let bound = parameters_of(&event.parameters);
        let parameters = entries_from(alloc, self.names.next(), bound)?;
        self.names.bind_all(alloc, bound)?;
        let name = event.name.name.copied(alloc)?;
        let guards = guards_of(&event.guards);
        let guards = all_labelled(alloc, scope, &name, guards, &mut self.names)?;
        let actions = actions(alloc, scope, event.actions.as_slice(), &mut self.names)?;
        self.names.unbind(depth);
        Ok(ModelEvent {
            name,
            parameters,
            guards,
            actions,
        })
    }

    fn event(&mut self, alloc: Global, scope: &Scope, event: &Event) -> Result<(), AllocError>
        ensures { OnOk result (self.new ≡ spec.event_at scope.now.entries self.old event.now) }
    {
        let event = self.event_of(alloc, scope, event)?;
        self.parts.push(ModelPart::Event(event))?;
        Ok(())
    }

    fn events(&mut self, alloc: Global, scope: &Scope, events: &[Event]) -> Result<(), AllocError>
        ensures { OnOk result (self.new ≡ fold (spec.event_at scope.now.entries) self.old events.now) }
    {
        for event in events {
            self.event(alloc, scope, event)?;
        }
        Ok(())
    }

    fn context_clause(
        &mut self,
        alloc: Global,
        scope: &Scope,
        unit: &Name,
        clause: &ContextClause,
    ) -> Result<(), AllocError>
        ensures { OnOk result (self.new ≡ spec.context_clause scope.now.entries unit.now self.old clause.now) }
    {
        match clause {
            ContextClause::Sets(names) => self.carriers(alloc, names.as_slice()),
            ContextClause::Constants(names) => self.constants(alloc, names.as_slice()),
            ContextClause::Axioms(axioms) => self.axioms(alloc, scope, unit, axioms.as_slice()),
        }
    }

    fn context_clauses(
        &mut self,
        alloc: Global,
        scope: &Scope,
        unit: &Name,
        clauses: &[ContextClause],
    ) -> Result<(), AllocError>
        ensures { OnOk result (self.new ≡ fold (spec.context_clause scope.now.entries unit.now) self.old clauses.now) }
    {
        for clause in clauses {
            self.context_clause(alloc, scope, unit, clause)?;
        }
        Ok(())
    }

    fn machine_clause(
        &mut self,
        alloc: Global,
        scope: &Scope,
        unit: &Name,
        clause: &MachineClause,
    ) -> Result<(), AllocError>
        ensures { OnOk result (self.new ≡ spec.machine_clause scope.now.entries unit.now self.old clause.now) }
    {
        match clause {
            MachineClause::Variables(names) => self.variables(alloc, names.as_slice()),
            MachineClause::Invariants(invariants) => {
                self.invariants(alloc, scope, unit, invariants.as_slice())
            }
            MachineClause::Variant(_, _) => Ok(()),
            MachineClause::Events(events) => self.events(alloc, scope, events.as_slice()),
        }
    }

    fn machine_clauses(
        &mut self,
        alloc: Global,
        scope: &Scope,
        unit: &Name,
        clauses: &[MachineClause],
    ) -> Result<(), AllocError>
        ensures { OnOk result (self.new ≡ fold (spec.machine_clause scope.now.entries unit.now) self.old clauses.now) }
    {
        for clause in clauses {
            self.machine_clause(alloc, scope, unit, clause)?;
        }
        Ok(())
    }

    fn unit(&mut self, alloc: Global, scope: &Scope, unit: &EbUnit) -> Result<(), AllocError>
        ensures { OnOk result (self.new ≡ spec.one_unit scope.now.entries self.old unit.now) }
    {
        match unit {
            EbUnit::Context(context) => {
                let name = &context.name.name;
                self.context_clauses(alloc, scope, name, context.clauses.as_slice())
            }
            EbUnit::Machine(machine) => {
                let name = &machine.name.name;
                self.machine_clauses(alloc, scope, name, machine.clauses.as_slice())
            }
            EbUnit::Scope(_) | EbUnit::Queries(_) => Ok(()),
        }
    }

    /// A unit, if it belongs to the model.
    pub(crate) fn marked_unit(
        &mut self,
        alloc: Global,
        scope: &Scope,
        mark: bool,
        unit: &EbUnit,
    ) -> Result<(), AllocError>
        ensures { OnOk result (self.new ≡ (if mark then spec.one_unit scope.now.entries self.old unit.now else self.old)) }
    {
        if mark {
            self.unit(alloc, scope, unit)
        } else {
            Ok(())
        }
    }

    /// The model that was walked over.
    pub(crate) fn model(self) -> EbModel
        ensures { result ≡ record { parts = self.parts; numbers = self.names.next } }
    {
        EbModel {
            parts: self.parts,
            numbers: self.names.next(),
        }
    }
}
