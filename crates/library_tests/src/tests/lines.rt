ghost use Rattle.std.specs.Prelude.{◌≡◌, IfOk, length};

use eb_names::Name;
use eb_term::{Choice, Choices, Problem, Term, Terms};
use eb_value::{EbType, Shape};
use std::alloc::{AllocError, Global};
use std::test::Fail;
use tree_form::{Line, LineFault, line_text, read_line};

/// Two choices, an integer and a truth value, and one fact.
fn problem(alloc: Global) -> Result<Problem, AllocError>
    ensures { IfOk result (λ problem. length problem.choices ≡ 2) }
{
    let mut choices = Choices::new(alloc);
    choices.push(Choice::integer(Name::new(alloc, "n")?))?;
    choices.push(Choice {
        name: Name::new(alloc, "b")?,
        ty: EbType { shape: Shape::Bool },
    })?;
    let mut facts = Terms::new(alloc);
    facts.push(Term::truth(true))?;
    Ok(Problem {
        choices,
        definitions: Terms::new(alloc),
        facts,
    })
}

/// Lines that no search prints and no accepted text has today, both ways.
#[test]
fn lines_have_one_text(rt: HostRuntime) -> Result<(), Fail> {
    let alloc = rt.alloc();
    let problem = problem(alloc)?;
    for (text, line) in [
        ("x c1", Line::Clash(1)),
        ("s c0 le - 4611686018427387904", Line::Split(0, 1 << 62)),
        ("refuted", Line::Header),
    ] {
        assert_eq!(rt; read_line(text.as_bytes(), &problem), Ok(line));
        assert_eq!(rt; line_text(alloc, &line)?.as_slice(), text.as_bytes());
    }
    let split = read_line(b"s c1 le - 0", &problem);
    assert_eq!(rt; split, Err(LineFault::BadTest));
    Ok(())
}
