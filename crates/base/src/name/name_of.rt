//! The name of a text as a function.

ghost use Rattle.std.specs.Prelude.{◌≡◌, ◌↔◌, List, ℕ, Option, Ok, Err};
ghost use Rattle.base.specs.names.Labels.{NameValue};
ghost use Rattle.base.specs.texts.NameText.{IsNameText};
ghost use Rattle.base.specs.texts.TextFaults.{bad_name};
ghost use Rattle.base.specs.texts.NameOf.{name_of};

/// What `name_of` answers is what the text names: the name, or the fault where it names none.
pub fn name_of_is_the_name()
    ensures named { (text : List ℕ) (origin : Option NameValue) (name : NameValue)
        → (name_of text origin ≡ Ok name) ↔ IsNameText text origin name }
    ensures refused { (text : List ℕ) (origin : Option NameValue)
        → (name_of text origin ≡ Err bad_name)
        ↔ ((name : NameValue) → IsNameText text origin name → ⊥) }
{}
