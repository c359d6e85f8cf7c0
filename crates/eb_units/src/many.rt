//! Things that stand one behind the other, as long as one more begins.
ghost use Rattle.std.specs.Prelude.{◌≡◌, ◌<◌, ◌^◌, length, drop, IfErr, [], ◌∷◌, List, Bool};
ghost use Rattle.eb_lexer.specs.declared.token.Token.{Token};
ghost use Rattle.eb_parser.specs.steps.Finding.{Finds};
ghost use Rattle.eb_units.specs.steps.Descending.{IsPlaced};
ghost use Rattle.eb_units.specs.steps.Descending as spec;

use super::front::fault_at;
use eb_lexer::Tokens;
use eb_parser::ParseFault;
use sqlite_items::Items;
use std::alloc::Global;

/// A thing of which several may stand one behind the other.
pub(crate) trait Listed: Drop {
    // Whether one begins with these tokens.
    ghost begins: { List Token → Bool };

    // Among the first tokens, which are the whole text, what stands at the front of the second.
    ghost reads: { List Token → List Token → spec.Read Self };

    /// Whether one begins here.
    fn is_here(tokens: &Tokens, at: u32) -> bool
        ensures { result ≡ begins (drop at tokens.now) };

    /// The one here.
    fn take(alloc: Global, tokens: &Tokens, at: u32) -> Result<(Self, u32), ParseFault>
        requires { length tokens.now < 2 ^ 32 }
        ensures exact { Finds tokens.now result (reads tokens.now (drop at tokens.now)) }
        ensures placed { IfErr result (IsPlaced tokens.now) };
}

/// Those that were read before, and those that stand here.
fn behind<T: Listed>(
    alloc: Global,
    tokens: &Tokens,
    front: Items<T>,
    at: u32,
) -> Result<(Items<T>, u32), ParseFault>
    requires { length tokens.now < 2 ^ 32 }
    ensures exact { Finds tokens.now result (spec.with_front front (spec.many T.begins (T.reads tokens.now) (spec.room tokens.now) (drop at tokens.now))) }
    ensures placed { IfErr result (IsPlaced tokens.now) }
{
    let mut read = front;
    let mut rest = at;
    for _ in 0..tokens.len() + 1 {
        if !T::is_here(tokens, rest) {
            return Ok((read, rest));
        }
        let (one, after) = T::take(alloc, tokens, rest)?;
        read.push(one)?;
        rest = after;
    }
    Err(fault_at(tokens, rest))
}

/// Those that stand here.
#[tactic(auto, using(crate::proofs::Loops::begins))]
pub(crate) fn many<T: Listed>(
    alloc: Global,
    tokens: &Tokens,
    at: u32,
) -> Result<(Items<T>, u32), ParseFault>
    requires { length tokens.now < 2 ^ 32 }
    ensures exact { Finds tokens.now result (spec.many T.begins (T.reads tokens.now) (spec.room tokens.now) (drop at tokens.now)) }
    ensures placed { IfErr result (IsPlaced tokens.now) }
{
    behind(alloc, tokens, Items::new(alloc), at)
}

/// The first one and those that stand here.
pub(crate) fn more<T: Listed>(
    alloc: Global,
    tokens: &Tokens,
    first: T,
    at: u32,
) -> Result<(Items<T>, u32), ParseFault>
    requires { length tokens.now < 2 ^ 32 }
    ensures exact { Finds tokens.now result (spec.with_front (first ∷ []) (spec.many T.begins (T.reads tokens.now) (spec.room tokens.now) (drop at tokens.now))) }
    ensures placed { IfErr result (IsPlaced tokens.now) }
{
    let mut front = Items::new(alloc);
    front.push(first)?;
    behind(alloc, tokens, front, at)
}
