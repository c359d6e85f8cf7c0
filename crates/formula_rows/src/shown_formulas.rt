use super::writing::{put_at, put_name, put_pair};
use eb_syntax::{Ast, Bound, Identifier, Mark, Node};
use std::alloc::AllocError;

/// A formula with its operators first, each in parentheses, as in "(Plus 1 x)". Brackets stand for parentheses.
#[cycle(show)]
pub(crate) fn show(ast: &Ast, out: &mut String) -> Result<(), AllocError> {
    match &ast.node {
        Node::Number(n) => write!(out, "{n}"),
        Node::Identifier(name) => out.push_str(name.as_str()),
        Node::Primed(name) => put_pair(name.as_str(), "'", out),
        Node::Constant(constant) => put_name("", *constant, out),
        Node::Parentheses(part) => {
            out.push('[')?;
            show(part.get(), out)?;
            out.push(']')
        }
        node => {
            show_head(node, out)?;
            show_parts(node, out)?;
            out.push(')')
        }
    }
}

/// What stands before the parts of a formula that has some, with a blank behind it.
fn show_head(node: &Node, out: &mut String) -> Result<(), AllocError> {
    match node {
        Node::Prefix(prefix, _) => put_name("(", *prefix, out),
        Node::Call(call, _) => put_name("(", *call, out),
        Node::Inverse(_) => out.push_str("(Inverse"),
        Node::Operator(operator, _, _) => put_name("(", *operator, out),
        Node::Quantifier(quantifier, names, _) => {
            put_name("(", *quantifier, out)?;
            show_names(names.as_slice(), out)
        }
        Node::Binder(binder, bound, _, _) => {
            put_name("(", *binder, out)?;
            show_bound(bound, out)
        }
        Node::Comprehension(names, _, _) => {
            out.push_str("(Set")?;
            show_names(names.as_slice(), out)
        }
        Node::Builder(_, _) => out.push_str("(Build"),
        Node::Extension(_) => out.push_str("(Members"),
        Node::Partition(_) => out.push_str("(Partition"),
        _ => Ok(()),
    }
}

/// The parts of a formula, with a blank before each.
#[cycle(show)]
fn show_parts(node: &Node, out: &mut String) -> Result<(), AllocError> {
    match node {
        Node::Prefix(_, part)
        | Node::Call(_, part)
        | Node::Inverse(part)
        | Node::Quantifier(_, _, part) => show_part(part.get(), out),
        Node::Operator(_, left, right)
        | Node::Binder(_, _, left, right)
        | Node::Comprehension(_, left, right)
        | Node::Builder(left, right) => {
            show_part(left.get(), out)?;
            show_part(right.get(), out)
        }
        Node::Extension(members) | Node::Partition(members) => show_row(members.as_slice(), out),
        _ => Ok(()),
    }
}

#[cycle(show)]
fn show_part(part: &Ast, out: &mut String) -> Result<(), AllocError> {
    out.push(' ')?;
    show(part, out)
}

#[cycle(show)]
fn show_row(members: &[Ast], out: &mut String) -> Result<(), AllocError> {
    for member in members {
        show_part(member, out)?;
    }
    Ok(())
}

fn show_names(names: &[Identifier], out: &mut String) -> Result<(), AllocError> {
    for name in names {
        put_pair(" ", name.name.as_str(), out)?;
    }
    Ok(())
}

fn show_bound(bound: &Bound, out: &mut String) -> Result<(), AllocError> {
    match bound {
        Bound::Identifiers(names) => show_names(names.as_slice(), out),
        Bound::Pattern(pattern) => show_pattern(pattern.as_slice(), out),
    }
}

fn show_pattern(pattern: &[Mark], out: &mut String) -> Result<(), AllocError> {
    out.push(' ')?;
    for mark in pattern {
        show_mark(mark, out)?;
    }
    Ok(())
}

fn show_mark(mark: &Mark, out: &mut String) -> Result<(), AllocError> {
    match mark {
        Mark::Identifier(name) => out.push_str(name.name.as_str()),
        Mark::MapsTo => out.push('>'),
        Mark::Open => out.push('('),
        Mark::Close => out.push(')'),
    }
}

/// The places of a formula's parts, the whole before its parts.
#[cycle(placed)]
pub(crate) fn placed(ast: &Ast, out: &mut String) -> Result<(), AllocError> {
    put_at("", ast.place, out)?;
    out.push(' ')?;
    match &ast.node {
        Node::Prefix(_, part)
        | Node::Call(_, part)
        | Node::Parentheses(part)
        | Node::Inverse(part)
        | Node::Quantifier(_, _, part) => placed(part.get(), out),
        Node::Operator(_, left, right)
        | Node::Binder(_, _, left, right)
        | Node::Comprehension(_, left, right)
        | Node::Builder(left, right) => {
            placed(left.get(), out)?;
            placed(right.get(), out)
        }
        Node::Extension(members) | Node::Partition(members) => {
            placed_row(members.as_slice(), out)
        }
        _ => Ok(()),
    }
}

#[cycle(placed)]
fn placed_row(members: &[Ast], out: &mut String) -> Result<(), AllocError> {
    for member in members {
        placed(member, out)?;
    }
    Ok(())
}
