// Steps that tidy a book. The definitions (specs/) say what a step makes of a book, the theorems (proofs/Theorems) what it keeps.
#![tactic(auto)]

ghost use Rattle.std.specs.Prelude.{◌≡◌};
ghost use Rattle.tidying.specs.Steps.{form_of};

// The forms of a step, each with the word that says it: not(not(x)) to x; an and, or an or, of one part to that part;
// implies(x,y) to or(not(x),y); hist to not, once and not; and none of these.
#[derive(Clone, Copy, Debug, PartialEq, Eq)]
pub enum Form {
    Nots,
    Single,
    Implication,
    History,
    Unknown,
}

// A step: its form, and the row that it names.
#[derive(Clone, Copy, Debug, PartialEq, Eq)]
pub struct Step {
    pub form: Form,
    pub row: usize,
}

impl Form {
    // The form that a word says.
    #[tactic(auto, unfolding(crate::specs::Steps::form_of))]
    pub fn of_word(word: u64) -> Form
        ensures { result ≡ form_of word }
    {
        match word {
            0 => Form::Nots,
            1 => Form::Single,
            2 => Form::Implication,
            3 => Form::History,
            _ => Form::Unknown,
        }
    }
}
