//! Equations between the types of the parts of formulas.
ghost use Rattle.std.specs.Prelude.{◌≡◌, [], ◌∷◌, fold, IfOk, OnOk};
ghost use Rattle.eb_typing.specs.steps.Generating as spec;

use std::alloc::{AllocError, Global};
use type_equations::{Equation, Equations};
use type_table::{BinaryRow, Letter, Pattern, TernaryRow, UnaryRow};

/// What the formula is for which equations were made.
#[derive(Clone, Copy, Debug, PartialEq, Eq)]
pub(crate) enum Found {
    Predicate,
    /// An expression, whose type has this number.
    Expression(u32),
}

/// The numbers of the types that the letters of a row stand for.
#[derive(Clone, Copy, Debug, PartialEq, Eq)]
pub(crate) struct Letters {
    pub a: u32,
    pub b: u32,
    pub c: u32,
    pub d: u32,
}

impl Letters {
    fn at(self, letter: Letter) -> u32
        ensures { result ≡ spec.letter self letter }
    {
        match letter {
            Letter::A => self.a,
            Letter::B => self.b,
            Letter::C => self.c,
            Letter::D => self.d,
        }
    }
}

/// How many letters there are up to this one.
fn rank(letter: Letter) -> u32
    ensures { result ≡ spec.rank letter }
{
    match letter {
        Letter::A => 1,
        Letter::B => 2,
        Letter::C => 3,
        Letter::D => 4,
    }
}

/// How many letters there are up to the last one that the pattern has.
fn width(pattern: Pattern) -> u32
    ensures { result ≡ spec.width pattern }
{
    match pattern {
        Pattern::Predicate
        | Pattern::Integer
        | Pattern::Boolean
        | Pattern::Integers
        | Pattern::Booleans
        | Pattern::Atoms(_) => 0,
        Pattern::Type(x) | Pattern::Set(x) | Pattern::Sets(x) => rank(x),
        Pattern::Pair(x, y) | Pattern::Relation(x, y) | Pattern::Relations(x, y) => {
            rank(x).max(rank(y))
        }
        Pattern::ToPairs => 3,
        Pattern::BetweenPairs => 4,
        Pattern::ToFirst | Pattern::ToSecond => 2,
    }
}

fn ternary_width(row: TernaryRow) -> u32
    ensures { result ≡ spec.widest (row.first ∷ row.second ∷ row.third ∷ []) row.whole }
{
    let last = width(row.third).max(width(row.whole));
    width(row.first).max(width(row.second).max(last))
}

/// Equations, and the first number that they leave free.
#[derive(Drop)]
pub(crate) struct Generated {
    pub next: u32,
    pub equations: Equations,
}

impl Generated {
    pub(crate) fn new(alloc: Global, next: u32) -> Generated
        ensures { result ≡ spec.nothing next }
    {
        Generated {
            next,
            equations: Equations::new(alloc),
        }
    }

    fn put(&mut self, equation: Equation) -> Result<(), AllocError>
        ensures { OnOk result (self.new ≡ spec.put equation self.old) }
    {
        self.equations.push(equation)
    }

    fn fresh(&mut self) -> Result<u32, AllocError>
        ensures number { IfOk result (λ n. n ≡ self.old.next) }
        ensures made { OnOk result (self.new ≡ spec.after_fresh self.old) }
    {
        let number = self.next;
        self.next = number.checked_add(1).ok_or(AllocError)?;
        Ok(number)
    }

    fn integer(&mut self) -> Result<u32, AllocError>
        ensures number { IfOk result (λ n. n ≡ (spec.integer self.old).0) }
        ensures made { OnOk result (self.new ≡ (spec.integer self.old).1) }
    {
        let number = self.fresh()?;
        self.put(Equation::Integer(number))?;
        Ok(number)
    }

    fn boolean(&mut self) -> Result<u32, AllocError>
        ensures number { IfOk result (λ n. n ≡ (spec.boolean self.old).0) }
        ensures made { OnOk result (self.new ≡ (spec.boolean self.old).1) }
    {
        let number = self.fresh()?;
        self.put(Equation::Boolean(number))?;
        Ok(number)
    }

    fn carrier(&mut self, place: u32) -> Result<u32, AllocError>
        ensures number { IfOk result (λ n. n ≡ (spec.carrier place self.old).0) }
        ensures made { OnOk result (self.new ≡ (spec.carrier place self.old).1) }
    {
        let number = self.fresh()?;
        self.put(Equation::Carrier(number, place))?;
        Ok(number)
    }

    fn power(&mut self, members: u32) -> Result<u32, AllocError>
        ensures number { IfOk result (λ n. n ≡ (spec.power members self.old).0) }
        ensures made { OnOk result (self.new ≡ (spec.power members self.old).1) }
    {
        let number = self.fresh()?;
        self.put(Equation::Power(number, members))?;
        Ok(number)
    }

    pub(crate) fn product(&mut self, first: u32, second: u32) -> Result<u32, AllocError>
        ensures number { IfOk result (λ n. n ≡ (spec.product first second self.old).0) }
        ensures made { OnOk result (self.new ≡ (spec.product first second self.old).1) }
    {
        let number = self.fresh()?;
        self.put(Equation::Product(number, first, second))?;
        Ok(number)
    }

    /// Nothing solves these equations.
    pub(crate) fn contradict(&mut self, number: u32) -> Result<(), AllocError>
        ensures { OnOk result (self.new ≡ spec.contradict number self.old) }
    {
        self.put(Equation::Integer(number))?;
        self.put(Equation::Boolean(number))
    }

    /// The type with this number is that of the relations from a type to a type.
    fn state_relation(&mut self, number: u32, first: u32, second: u32) -> Result<(), AllocError>
        ensures { OnOk result (self.new ≡ spec.state_relation number first second self.old) }
    {
        let pair = self.product(first, second)?;
        self.put(Equation::Power(number, pair))
    }

    /// What the pattern of a relation, or of a set of relations, says of the type with this number.
    fn state_relations(
        &mut self,
        letters: Letters,
        pattern: Pattern,
        number: u32,
    ) -> Result<(), AllocError>
        ensures { OnOk result (self.new ≡ spec.state_relations letters pattern number self.old) }
    {
        match pattern {
            Pattern::Relation(x, y) => { self.state_relation(number, letters.at(x), letters.at(y)) }
            Pattern::Relations(x, y) => {
                let members = self.fresh()?;
                self.put(Equation::Power(number, members))?;
                self.state_relation(members, letters.at(x), letters.at(y))
            }
            Pattern::ToPairs => {
                let pair = self.product(letters.b, letters.c)?;
                self.state_relation(number, letters.a, pair)
            }
            Pattern::BetweenPairs => {
                let first = self.product(letters.a, letters.b)?;
                let second = self.product(letters.c, letters.d)?;
                self.state_relation(number, first, second)
            }
            Pattern::ToFirst => {
                let pair = self.product(letters.a, letters.b)?;
                self.state_relation(number, pair, letters.a)
            }
            Pattern::ToSecond => {
                let pair = self.product(letters.a, letters.b)?;
                self.state_relation(number, pair, letters.b)
            }
            _ => self.contradict(number),
        }
    }

    /// What the pattern of a set that is no relation says of the type with this number.
    fn state_sets(
        &mut self,
        letters: Letters,
        pattern: Pattern,
        number: u32,
    ) -> Result<(), AllocError>
        ensures { OnOk result (self.new ≡ spec.state_sets letters pattern number self.old) }
    {
        let members = match pattern {
            Pattern::Integers => self.integer()?,
            Pattern::Booleans => self.boolean()?,
            Pattern::Atoms(place) => self.carrier(place)?,
            Pattern::Set(x) => letters.at(x),
            Pattern::Sets(x) => self.power(letters.at(x))?,
            _ => return self.contradict(number),
        };
        self.put(Equation::Power(number, members))
    }

    /// What the pattern of an expression says of the type with this number.
    fn state(&mut self, letters: Letters, pattern: Pattern, number: u32) -> Result<(), AllocError>
        ensures { OnOk result (self.new ≡ spec.state letters pattern number self.old) }
    {
        match pattern {
            Pattern::Predicate => self.contradict(number),
            Pattern::Integer => self.put(Equation::Integer(number)),
            Pattern::Boolean => self.put(Equation::Boolean(number)),
            Pattern::Type(x) => self.put(Equation::Same(number, letters.at(x))),
            Pattern::Pair(x, y) => {
                self.put(Equation::Product(number, letters.at(x), letters.at(y)))
            }
            Pattern::Integers
            | Pattern::Booleans
            | Pattern::Atoms(_)
            | Pattern::Set(_)
            | Pattern::Sets(_) => self.state_sets(letters, pattern, number),
            Pattern::Relation(_, _)
            | Pattern::Relations(_, _)
            | Pattern::ToPairs
            | Pattern::BetweenPairs
            | Pattern::ToFirst
            | Pattern::ToSecond => self.state_relations(letters, pattern, number),
        }
    }

    /// What is as the pattern says.
    fn build(&mut self, letters: Letters, pattern: Pattern) -> Result<Found, AllocError>
        ensures found { IfOk result (λ found. found ≡ (spec.build letters pattern self.old).0) }
        ensures made { OnOk result (self.new ≡ (spec.build letters pattern self.old).1) }
    {
        match pattern {
            Pattern::Predicate => Ok(Found::Predicate),
            Pattern::Type(x) => Ok(Found::Expression(letters.at(x))),
            _ => {
                let number = self.fresh()?;
                self.state(letters, pattern, number)?;
                Ok(Found::Expression(number))
            }
        }
    }

    /// A predicate is as the pattern says.
    fn fit_predicate(&mut self, pattern: Pattern) -> Result<(), AllocError>
        ensures { OnOk result (self.new ≡ spec.no_expression pattern self.old) }
    {
        match pattern {
            Pattern::Predicate => Ok(()),
            _ => self.contradict(0),
        }
    }

    /// The part is as the pattern says.
    pub(crate) fn fit(
        &mut self,
        letters: Letters,
        pattern: Pattern,
        part: Found,
    ) -> Result<(), AllocError>
        ensures { OnOk result (self.new ≡ spec.fit letters pattern part self.old) }
    {
        match part {
            Found::Predicate => self.fit_predicate(pattern),
            Found::Expression(number) => self.state(letters, pattern, number),
        }
    }

    /// The numbers of that many letters, A first. The others are no numbers of their own.
    fn letters(&mut self, width: u32) -> Result<Letters, AllocError>
        ensures letters { IfOk result (λ letters. letters ≡ spec.letters_at self.old.next) }
        ensures made { OnOk result (self.new ≡ spec.after_letters width self.old) }
    {
        let a = self.next;
        let b = a.checked_add(1).ok_or(AllocError)?;
        let c = b.checked_add(1).ok_or(AllocError)?;
        let d = c.checked_add(1).ok_or(AllocError)?;
        self.next = a.checked_add(width).ok_or(AllocError)?;
        Ok(Letters { a, b, c, d })
    }

    /// What has no part.
    pub(crate) fn leaf(&mut self, whole: Pattern) -> Result<Found, AllocError>
        ensures found { IfOk result (λ found. found ≡ (spec.row [] whole [] self.old).0) }
        ensures made { OnOk result (self.new ≡ (spec.row [] whole [] self.old).1) }
    {
        let letters = self.letters(width(whole))?;
        self.build(letters, whole)
    }

    pub(crate) fn unary(&mut self, row: UnaryRow, part: Found) -> Result<Found, AllocError>
        ensures found { IfOk result (λ found. found ≡ (spec.row (row.part ∷ []) row.whole (part ∷ []) self.old).0) }
        ensures made { OnOk result (self.new ≡ (spec.row (row.part ∷ []) row.whole (part ∷ []) self.old).1) }
    {
        let letters = self.letters(width(row.part).max(width(row.whole)))?;
        self.fit(letters, row.part, part)?;
        self.build(letters, row.whole)
    }

    pub(crate) fn binary(
        &mut self,
        row: BinaryRow,
        left: Found,
        right: Found,
    ) -> Result<Found, AllocError>
        ensures found { IfOk result (λ found. found ≡ (spec.row (row.left ∷ row.right ∷ []) row.whole (left ∷ right ∷ []) self.old).0) }
        ensures made { OnOk result (self.new ≡ (spec.row (row.left ∷ row.right ∷ []) row.whole (left ∷ right ∷ []) self.old).1) }
    {
        let width = width(row.left).max(width(row.right).max(width(row.whole)));
        let letters = self.letters(width)?;
        self.fit(letters, row.left, left)?;
        self.fit(letters, row.right, right)?;
        self.build(letters, row.whole)
    }

    pub(crate) fn ternary(
        &mut self,
        row: TernaryRow,
        first: Found,
        second: Found,
        third: Found,
    ) -> Result<Found, AllocError>
        ensures found { IfOk result (λ found. found ≡ (spec.row (row.first ∷ row.second ∷ row.third ∷ []) row.whole (first ∷ second ∷ third ∷ []) self.old).0) }
        ensures made { OnOk result (self.new ≡ (spec.row (row.first ∷ row.second ∷ row.third ∷ []) row.whole (first ∷ second ∷ third ∷ []) self.old).1) }
    {
        let letters = self.letters(ternary_width(row))?;
        self.fit(letters, row.first, first)?;
        self.fit(letters, row.second, second)?;
        self.fit(letters, row.third, third)?;
        self.build(letters, row.whole)
    }

    /// The parts are as the pattern says.
    fn fit_all(
        &mut self,
        letters: Letters,
        pattern: Pattern,
        parts: &[Found],
    ) -> Result<(), AllocError>
        ensures { OnOk result (self.new ≡ fold (λ h f. spec.fit letters pattern f h) self.old parts.now) }
    {
        for found in parts {
            self.fit(letters, pattern, *found)?;
        }
        Ok(())
    }

    /// What has these parts, which are all as one pattern says.
    fn some(&mut self, part: Pattern, whole: Pattern, parts: &[Found]) -> Result<Found, AllocError>
        ensures found { IfOk result (λ found. found ≡ (spec.row_of_some part whole parts.now self.old).0) }
        ensures made { OnOk result (self.new ≡ (spec.row_of_some part whole parts.now self.old).1) }
    {
        let letters = self.letters(width(part).max(width(whole)))?;
        self.fit_all(letters, part, parts)?;
        let found = self.build(letters, whole)?;
        Ok(found)
    }

    /// What has parts that are all as one pattern says. Without a part it has no type.
    pub(crate) fn all(
        &mut self,
        part: Pattern,
        whole: Pattern,
        parts: &[Found],
    ) -> Result<Found, AllocError>
        ensures found { IfOk result (λ found. found ≡ (spec.row_of_all part whole parts.now self.old).0) }
        ensures made { OnOk result (self.new ≡ (spec.row_of_all part whole parts.now self.old).1) }
    {
        match parts {
            [] => {
                self.contradict(0)?;
                Ok(Found::Expression(0))
            }
            [_, ..] => self.some(part, whole, parts),
        }
    }

    /// The formula is a predicate.
    pub(crate) fn demand(&mut self, found: Found) -> Result<(), AllocError>
        ensures { OnOk result (self.new ≡ spec.demand found self.old) }
    {
        match found {
            Found::Predicate => Ok(()),
            Found::Expression(number) => self.contradict(number),
        }
    }
}
