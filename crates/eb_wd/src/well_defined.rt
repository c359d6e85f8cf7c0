//! What says that a predicate isn't Undefined (Abrial, "Modeling in Event-B", 2010, chapter 9; Métayer and Voisin, "The Event-B
//! Mathematical Language", 2009).

ghost use Rattle.std.specs.Prelude.{◌≡◌, IfOk, Bool, true, false, map, ◌∷◌, []};
ghost use Rattle.eb_term.specs.declared.operators.Binder.TheVariants as binder;
ghost use Rattle.eb_term.specs.Terms as term;
ghost use Rattle.narrow_terms.specs.Building as built;
ghost use Rattle.eb_wd.specs.WellDefined as spec;

use crate::parts::{all_defined, conjunction, defined, relation};
use eb_syntax::{Call, Operator, Prefix};
use eb_term::{Binary, Binder, Head, Many, Term, Unary};
use narrow_terms::{copied, operation};
use std::alloc::{AllocError, Global};

/// What says that the predicate isn't Undefined; of an expression, `true`. Of `P & Q` and `P => Q` it is that of P and, where P
/// holds, that of Q; of `P or Q` that of P and, where P doesn't hold, that of Q; of a quantifier that the set that it goes over is
/// defined and that of each instance; of a relation that each of its expressions is defined. The only error is want of memory.
#[cycle(defining)]
pub fn wd(alloc: Global, term: &Term) -> Result<Term, AllocError>
    ensures { IfOk result (λ t. t ≡ spec.wd term.now) }
{
    match &term.head {
        Head::Unary(operator, part) => match operator {
            Unary::Prefix(prefix) => match prefix {
                Prefix::Not => wd(alloc, part.get()),
                Prefix::Minus => Ok(Term::truth(true)),
            },
            Unary::Call(call) => match call {
                Call::Finite => defined(alloc, part.get()),
                _ => Ok(Term::truth(true)),
            },
            Unary::Functional => defined(alloc, part.get()),
            Unary::Inverse => Ok(Term::truth(true)),
            _ => Ok(Term::truth(true)),
        },
        Head::Binary(operator, left, right) => match operator {
            Binary::Operator(operator) => match operator {
                Operator::And | Operator::Implies => {
                    let first = wd(alloc, left.get())?;
                    let second = wd(alloc, right.get())?;
                    guarded(alloc, left.get(), Operator::Implies, first, second)
                }
                Operator::Or => {
                    let first = wd(alloc, left.get())?;
                    let second = wd(alloc, right.get())?;
                    guarded(alloc, left.get(), Operator::Or, first, second)
                }
                Operator::Equivalent => {
                    let first = wd(alloc, left.get())?;
                    let second = wd(alloc, right.get())?;
                    conjunction(alloc, first, second)
                }
                _ => relation(alloc, *operator, left.get(), right.get()),
            },
            Binary::Both => {
                let first = wd(alloc, left.get())?;
                let second = wd(alloc, right.get())?;
                conjunction(alloc, first, second)
            }
            Binary::If => Ok(Term::truth(true)),
        },
        Head::Many(operator, parts) => match operator {
            Many::Extension => Ok(Term::truth(true)),
            Many::Partition => all_defined(alloc, parts.as_slice()),
        },
        Head::Over(binder, range, body) => match binder {
            Binder::ForAll | Binder::Exists => {
                let body = wd(alloc, body.get())?;
                over_range(alloc, range.get(), body)
            }
            Binder::Collect => Ok(Term::truth(true)),
        },
        Head::All(binder, ty, body) => match binder {
            Binder::ForAll | Binder::Exists => {
                let body = wd(alloc, body.get())?;
                Term::all(alloc, Binder::ForAll, ty, body)
            }
            Binder::Collect => Ok(Term::truth(true)),
        },
        _ => Ok(Term::truth(true)),
    }
}

/// That the first holds, and the second joined to the left side.
fn guarded(
    alloc: Global,
    left: &Term,
    join: Operator,
    first: Term,
    second: Term,
) -> Result<Term, AllocError>
    ensures { IfOk result (λ t. t ≡ built.conjunction first (built.operation join left.now second)) }
{
    let left = copied(alloc, left)?;
    let second = operation(alloc, join, left, second)?;
    conjunction(alloc, first, second)
}

/// That the set is defined, and the body at each member of it.
fn over_range(alloc: Global, range: &Term, body: Term) -> Result<Term, AllocError>
    ensures { IfOk result (λ t. t ≡ built.conjunction (spec.is_defined range.now) (term.over binder.ForAll range.now body)) }
{
    let whole = defined(alloc, range)?;
    let range = copied(alloc, range)?;
    let each = Term::over(alloc, Binder::ForAll, range, body)?;
    conjunction(alloc, whole, each)
}
