ghost use Rattle.std.specs.Prelude.{◌≡◌, ◌<◌, ◌+◌, IfOk, ◌^◌};
ghost use Rattle.eb_parser.specs.Grammar as spec;
ghost use Rattle.eb_signs.specs.Levels as levels;
ghost use Rattle.eb_syntax.specs.Asts as trees;

use eb_lexer::Token;
use eb_signs::{call_level, constant_level, group_of, is_pred, level, level_of, prefix_level};
use eb_syntax::{
    Ast, Binder, Bound, Call, Constant, Identifiers, Node, Operator, Prefix, Quantifier,
};
use sqlite_items::{Boxed, Items};
use std::alloc::{AllocError, Global};

/// A formula with what its surroundings ask of it.
#[derive(Drop)]
pub struct Part {
    /// The formula. In a box, a part is let go by one call.
    pub tree: Boxed<Ast>,
    /// The level of its head, from 0 for a predicate with `=>` to 14 for a primary expression.
    pub level: u32,
    /// It ends with the body of a quantifier.
    pub loose: bool,
    /// The greatest number of operators, binders, calls, braces and parentheses on a path to a leaf.
    pub height: u32,
}

/// A number, an identifier or the like at its place.
pub(crate) fn leaf(alloc: Global, node: Node, place: u32) -> Result<Part, AllocError>
    ensures { IfOk result (λ p. p ≡ spec.leaf 14 (trees.at place node)) }
{
    let tree = Boxed::new(alloc, Ast { node, place })?;
    Ok(Part {
        tree,
        level: level::PRIM,
        loose: false,
        height: 0,
    })
}

/// A constant at its place.
pub(crate) fn constant(alloc: Global, constant: Constant, place: u32) -> Result<Part, AllocError>
    ensures { IfOk result (λ p. p ≡ spec.leaf (levels.constant_level constant) (trees.constant place constant)) }
{
    let node = Node::Constant(constant);
    let tree = Boxed::new(alloc, Ast { node, place })?;
    Ok(Part {
        tree,
        level: constant_level(constant),
        loose: false,
        height: 0,
    })
}

/// A formula behind `not` or the `-` of a negative number, which is the token.
pub(crate) fn prefixed(
    alloc: Global,
    token: &Token,
    prefix: Prefix,
    part: Part,
) -> Result<Part, AllocError>
    requires { part.height + 1 < 2 ^ 32 }
    ensures { IfOk result (λ p. p ≡ spec.prefixed token.now prefix part) }
{
    let loose = part.loose;
    let height = part.height + 1;
    let node = Node::Prefix(prefix, part.tree);
    let tree = Boxed::new(
        alloc,
        Ast {
            node,
            place: token.start,
        },
    )?;
    Ok(Part {
        tree,
        level: prefix_level(prefix),
        loose,
        height,
    })
}

/// A formula in the parentheses of a call, whose word is the token.
pub(crate) fn called(
    alloc: Global,
    token: &Token,
    call: Call,
    part: Part,
) -> Result<Part, AllocError>
    requires { part.height + 1 < 2 ^ 32 }
    ensures { IfOk result (λ p. p ≡ spec.called token.now call part) }
{
    let height = part.height + 1;
    let node = Node::Call(call, part.tree);
    let tree = Boxed::new(
        alloc,
        Ast {
            node,
            place: token.start,
        },
    )?;
    Ok(Part {
        tree,
        level: call_level(call),
        loose: false,
        height,
    })
}

/// A formula in parentheses, whose first is the token.
pub(crate) fn bracketed(alloc: Global, token: &Token, part: Part) -> Result<Part, AllocError>
    requires { part.height + 1 < 2 ^ 32 }
    ensures { IfOk result (λ p. p ≡ spec.bracketed token.now part) }
{
    let height = part.height + 1;
    let level = if is_pred(part.level) {
        level::LIT
    } else {
        level::PRIM
    };
    let node = Node::Parentheses(part.tree);
    let tree = Boxed::new(
        alloc,
        Ast {
            node,
            place: token.start,
        },
    )?;
    Ok(Part {
        tree,
        level,
        loose: false,
        height,
    })
}

/// A relation with `~` behind it.
pub(crate) fn inverted(alloc: Global, part: Part) -> Result<Part, AllocError>
    requires { part.height + 1 < 2 ^ 32 }
    ensures { IfOk result (λ p. p ≡ spec.inverted part) }
{
    let height = part.height + 1;
    let place = part.tree.get().place;
    let node = Node::Inverse(part.tree);
    let tree = Boxed::new(alloc, Ast { node, place })?;
    Ok(Part {
        tree,
        level: level::POST,
        loose: false,
        height,
    })
}

/// Two formulas with an operator between them.
pub(crate) fn joined(
    alloc: Global,
    operator: Operator,
    left: Part,
    right: Part,
) -> Result<Part, AllocError>
    requires left { left.height + 1 < 2 ^ 32 }
    requires right { right.height + 1 < 2 ^ 32 }
    ensures { IfOk result (λ p. p ≡ spec.joined operator left right) }
{
    let level = level_of(group_of(operator));
    let loose = right.loose;
    let height = left.height.max(right.height) + 1;
    let place = left.tree.get().place;
    let node = Node::Operator(operator, left.tree, right.tree);
    let tree = Boxed::new(alloc, Ast { node, place })?;
    Ok(Part {
        tree,
        level,
        loose,
        height,
    })
}

/// The body of a quantifier, whose sign is the token, with the names that it binds.
pub(crate) fn quantified(
    alloc: Global,
    token: &Token,
    quantifier: Quantifier,
    names: Identifiers,
    part: Part,
) -> Result<Part, AllocError>
    requires { part.height + 1 < 2 ^ 32 }
    ensures { IfOk result (λ p. p ≡ spec.quantified token.now quantifier names part) }
{
    let height = part.height + 1;
    let node = Node::Quantifier(quantifier, names, part.tree);
    let tree = Boxed::new(
        alloc,
        Ast {
            node,
            place: token.start,
        },
    )?;
    Ok(Part {
        tree,
        level: level::LIT,
        loose: true,
        height,
    })
}

/// The predicate and the value of a binder, whose sign is the token, with what it binds.
pub(crate) fn bound_by(
    alloc: Global,
    token: &Token,
    binder: Binder,
    bound: Bound,
    predicate: Part,
    value: Part,
) -> Result<Part, AllocError>
    requires predicate { predicate.height + 1 < 2 ^ 32 }
    requires value { value.height + 1 < 2 ^ 32 }
    ensures { IfOk result (λ p. p ≡ spec.bound_by token.now binder bound predicate value) }
{
    let loose = value.loose;
    let height = predicate.height.max(value.height) + 1;
    let node = Node::Binder(binder, bound, predicate.tree, value.tree);
    let tree = Boxed::new(
        alloc,
        Ast {
            node,
            place: token.start,
        },
    )?;
    Ok(Part {
        tree,
        level: level::EXPR,
        loose,
        height,
    })
}

/// A set `{x.P|E}`, whose brace is the token.
pub(crate) fn comprehended(
    alloc: Global,
    token: &Token,
    names: Identifiers,
    predicate: Part,
    value: Part,
) -> Result<Part, AllocError>
    requires predicate { predicate.height + 1 < 2 ^ 32 }
    requires value { value.height + 1 < 2 ^ 32 }
    ensures { IfOk result (λ p. p ≡ spec.comprehended token.now names predicate value) }
{
    let height = predicate.height.max(value.height) + 1;
    let node = Node::Comprehension(names, predicate.tree, value.tree);
    let tree = Boxed::new(
        alloc,
        Ast {
            node,
            place: token.start,
        },
    )?;
    Ok(Part {
        tree,
        level: level::PRIM,
        loose: false,
        height,
    })
}

/// A set `{E|P}`, whose brace is the token.
pub(crate) fn built(
    alloc: Global,
    token: &Token,
    value: Part,
    predicate: Part,
) -> Result<Part, AllocError>
    requires value { value.height + 1 < 2 ^ 32 }
    requires predicate { predicate.height + 1 < 2 ^ 32 }
    ensures { IfOk result (λ p. p ≡ spec.built token.now value predicate) }
{
    let height = value.height.max(predicate.height) + 1;
    let node = Node::Builder(value.tree, predicate.tree);
    let tree = Boxed::new(
        alloc,
        Ast {
            node,
            place: token.start,
        },
    )?;
    Ok(Part {
        tree,
        level: level::PRIM,
        loose: false,
        height,
    })
}

/// `{` and `}` apart.
pub(crate) fn empty_braces(alloc: Global, token: &Token) -> Result<Part, AllocError>
    ensures { IfOk result (λ p. p ≡ spec.empty_braces token.now) }
{
    leaf(alloc, Node::Extension(Items::new(alloc)), token.start)
}

/// A set of the members, the highest of which has this height; its brace is the token.
pub(crate) fn extended(
    alloc: Global,
    token: &Token,
    members: Items<Ast>,
    height: u32,
) -> Result<Part, AllocError>
    requires { height + 1 < 2 ^ 32 }
    ensures { IfOk result (λ p. p ≡ spec.extended token.now members height) }
{
    let node = Node::Extension(members);
    let tree = Boxed::new(
        alloc,
        Ast {
            node,
            place: token.start,
        },
    )?;
    Ok(Part {
        tree,
        level: level::PRIM,
        loose: false,
        height: height + 1,
    })
}

/// The word `partition`, which is the token, with its members, the highest of which has this height.
pub(crate) fn partitioned(
    alloc: Global,
    token: &Token,
    members: Items<Ast>,
    height: u32,
) -> Result<Part, AllocError>
    requires { height + 1 < 2 ^ 32 }
    ensures { IfOk result (λ p. p ≡ spec.partitioned token.now members height) }
{
    let node = Node::Partition(members);
    let tree = Boxed::new(
        alloc,
        Ast {
            node,
            place: token.start,
        },
    )?;
    Ok(Part {
        tree,
        level: level::LIT,
        loose: false,
        height: height + 1,
    })
}
