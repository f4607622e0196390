//! The words behind `session`, read by hand: two names, and somewhere the option with no workers.

ghost use Rattle.std.specs.Prelude.{◌≡◌, ◌↔◌, ◌++◌, ◌∷◌, [], List, ℕ, Some, IfSome, option_map, IsTrue};
ghost use Rattle.std.specs.Prelude.{codes};
ghost use Rattle.cv_top.specs.Parts.{SessionParts};
ghost use Rattle.cv_top.specs.Words.{IsNamed, IsAlone, IsSession};

use crate::orders::SessionOrder;
use crate::words::{is_plain, whole};
use cv_model::Text;

/// Whether a word is the command `session`.
fn is_session(word: &str) -> bool
    ensures { IsTrue result ↔ (word.now ≡ codes "session") }
{
    word == "session"
}

/// Whether a word is the option, whose number is the next word.
fn is_option(word: &str) -> bool
    ensures { IsTrue result ↔ (word.now ≡ codes "--workers") }
{
    word == "--workers"
}

/// The number behind the option in one word.
fn number_in(word: &str) -> Option<&str>
    ensures found { IfSome result (λ n. word.now ≡ codes "--workers=" ++ n.now) }
    ensures only { (n : List ℕ) → word.now ≡ codes "--workers=" ++ n
        → option_map (λ m. m.now) result ≡ Some n }
{
    word.strip_prefix("--workers=")
}

/// A session of two names, where the number is 0.
fn named<'a>(project: &'a str, script: &'a str, number: &'a str) -> Option<SessionOrder<'a>>
    ensures found { IfSome result (λ order. IsNamed project.now script.now number.now order) }
    ensures only { (order : SessionParts) → IsNamed project.now script.now number.now order
        → result ≡ Some order }
{
    let plain = is_plain(project.as_bytes()) && is_plain(script.as_bytes());
    if !plain || whole(number)? != 0 {
        return None;
    }
    Some(SessionOrder {
        project,
        script,
        number,
    })
}

/// Three words as a session, one of which is the option.
fn in_one_word<'a>(a: &'a str, b: &'a str, c: &'a str) -> Option<SessionOrder<'a>>
    ensures found { IfSome result (IsAlone (a.now ∷ b.now ∷ c.now ∷ [])) }
    ensures only { (order : SessionParts) → IsAlone (a.now ∷ b.now ∷ c.now ∷ []) order
        → result ≡ Some order }
{
    if let Some(number) = number_in(a) {
        return named(b, c, number);
    }
    if let Some(number) = number_in(b) {
        return named(a, c, number);
    }
    match number_in(c) {
        Some(number) => named(a, b, number),
        None => None,
    }
}

/// Four words as a session, two of which are the option.
fn in_two_words<'a>(a: &'a str, b: &'a str, c: &'a str, d: &'a str) -> Option<SessionOrder<'a>>
    ensures found { IfSome result (IsAlone (a.now ∷ b.now ∷ c.now ∷ d.now ∷ [])) }
    ensures only { (order : SessionParts) → IsAlone (a.now ∷ b.now ∷ c.now ∷ d.now ∷ []) order
        → result ≡ Some order }
{
    if is_option(a) {
        return named(c, d, b);
    }
    if is_option(b) {
        return named(a, d, c);
    }
    if is_option(c) {
        return named(a, b, d);
    }
    None
}

/// The words behind `session`.
fn alone_order(rest: &[Text]) -> Option<SessionOrder<'_>>
    ensures found { IfSome result (IsAlone rest.now) }
    ensures only { (order : SessionParts) → IsAlone rest.now order → result ≡ Some order }
{
    if let [a, b, c] = rest {
        return in_one_word(a.as_str(), b.as_str(), c.as_str());
    }
    if let [a, b, c, d] = rest {
        return in_two_words(a.as_str(), b.as_str(), c.as_str(), d.as_str());
    }
    None
}

/// What the words ask for, if they are `session`, the name of a project and that of a script, and the option
/// `--workers` with the number 0: in front of the names, between them or behind them.
pub(crate) fn session_order(words: &[Text]) -> Option<SessionOrder<'_>>
    ensures found { IfSome result (λ order. IsSession words.now order) }
    ensures only { (order : SessionParts) → IsSession words.now order → result ≡ Some order }
{
    let [command, rest @ ..] = words else {
        return None;
    };
    if is_session(command.as_str()) {
        alone_order(rest)
    } else {
        None
    }
}
