ghost use Rattle.std.specs.Prelude.{◌≡◌};
ghost use Rattle.eb_lexer.specs.steps.Lexing as lexing;

use eb_signs::{Sign, symbol};

/// No sign that is no word has more characters.
const LONGEST: usize = 5;

/// The longest sign of at most so many characters at the front that is no word, and its number of characters.
fn sign_up_to(most: usize, text: &[char]) -> Option<(Sign, usize)>
    ensures { result ≡ lexing.sign_up_to most text.now }
{
    if most == 0 {
        return None;
    }
    if most <= text.len()
        && let Some(sign) = symbol(text.split_at(most).0)
    {
        return Some((sign, most));
    }
    sign_up_to(most - 1, text)
}

/// The longest sign at the front that is no word, and its number of characters.
#[tactic(auto, unfolding(crate::specs::steps::Lexing::sign_at))]
pub(crate) fn sign_at(text: &[char]) -> Option<(Sign, usize)>
    ensures { result ≡ lexing.sign_at text.now }
{
    sign_up_to(LONGEST, text)
}
