//! Whether words are options with their values, and plain words.
ghost use Rattle.std.specs.Prelude.{◌↔◌, ◌∷◌, ℕ, List, map, string_bytes, IsTrue, IfSome, IfNone};
ghost use Rattle.command_words.specs.Parts.{IsPlain};
ghost use Rattle.command_words.specs.Forms.{IsForm, IsOptionForm, IsRestForm, HaveParts, Follow};
ghost use Rattle.command_words.specs.declared.parts.Form.{Form};

/// What a word is by itself.
#[derive(Clone, Copy, Debug, PartialEq, Eq)]
pub enum Form {
    /// It is not empty and does not begin with a hyphen.
    Plain,
    /// An option with its value behind `=`.
    Joined,
    /// An option whose value is the next word.
    Apart,
    /// None of these.
    Other,
}

/// Whether the words are options with their values, and plain words.
pub fn have_parts(words: &[String]) -> bool
    ensures { IsTrue result ↔ HaveParts (map string_bytes words.now) }
{
    let mut waits = false;
    for word in words {
        match behind(waits, form_of(word.as_str())) {
            Some(then) => waits = then,
            None => return false,
        }
    }
    !waits
}

#[tactic(auto, using(crate::proofs::Forms::plain_behind, crate::proofs::Forms::joined_behind, crate::proofs::Forms::apart_behind, crate::proofs::Forms::joined_waited, crate::proofs::Forms::apart_waited, crate::proofs::Forms::other_behind))]
/// Whether a value is wanted behind a word of this form, where one is wanted before it or is not.
/// `None` where no such word may stand there.
fn behind(waits: bool, form: Form) -> Option<bool>
    ensures some { IfSome result (λ then. (word : List ℕ) (words : List (List ℕ)) → IsForm word form
        → Follow waits (word ∷ words) ↔ Follow then words) }
    ensures none { IfNone result ((word : List ℕ) (words : List (List ℕ)) → IsForm word form
        → ¬ Follow waits (word ∷ words)) }
{
    match form {
        Form::Plain => Some(false),
        Form::Joined => {
            if waits {
                return None;
            }
            Some(false)
        }
        Form::Apart => {
            if waits {
                return None;
            }
            Some(true)
        }
        Form::Other => None,
    }
}

/// What a word is by itself.
fn form_of(word: &str) -> Form
    ensures { IsForm word.now result }
{
    if is_plain(word.as_bytes()) {
        return Form::Plain;
    }
    if let Some(form) = option_form(word, "--workers") {
        return form;
    }
    if let Some(form) = option_form(word, "--blocks") {
        return form;
    }
    if let Some(form) = option_form(word, "--layout") {
        return form;
    }
    Form::Other
}

/// Whether a word is not empty and does not begin with a hyphen.
fn is_plain(word: &[u8]) -> bool
    ensures { IsTrue result ↔ IsPlain word.now }
{
    match word {
        [] => false,
        [first, ..] => *first != b'-',
    }
}

/// The form of a word that is this option, alone or with a value.
fn option_form(word: &str, option: &str) -> Option<Form>
    ensures some { IfSome result (IsOptionForm word.now option.now) }
    ensures none { IfNone result ((form : Form) → ¬ IsOptionForm word.now option.now form) }
{
    match word.as_bytes().strip_prefix(option.as_bytes()) {
        Some(rest) => rest_form(rest),
        None => None,
    }
}

/// The form of a word by what stands behind the option: nothing, or `=` and a value.
fn rest_form(rest: &[u8]) -> Option<Form>
    ensures some { IfSome result (IsRestForm rest.now) }
    ensures none { IfNone result ((form : Form) → ¬ IsRestForm rest.now form) }
{
    match rest {
        [] => Some(Form::Apart),
        [b'=', _, ..] => Some(Form::Joined),
        _ => None,
    }
}
