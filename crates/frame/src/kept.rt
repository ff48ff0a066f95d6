ghost use Rattle.std.specs.Prelude.{◌≡◌, MatchResult};
ghost use Rattle.frame.specs.declared.faults.ReadFault.{ReadFault};

use super::faults::ReadFault;
use std::alloc::AllocError;

// What a message of one kind says. Not for other crates: there are three kinds.
pub trait Fields: Copy {
    // that they keep the rules of the kind
    ghost kept: { Self → Type 0 };

    // which a ghost field can say, as it has one proof at most
    ghost kept_once: { (fields : Self) → IsProp (kept fields) };

    // that they break the rule that a refusal names
    ghost breaks: { Self → ReadFault → Type 0 };

    fn judge(self) -> Result<(), ReadFault>
        ensures { MatchResult result (λ _. kept self) (breaks self) };
}

// A message: fields that keep the rules of their kind.
#[derive(Copy)]
pub struct Kept<F: Fields> {
    fields: F,
    ghost rules: { F.kept fields } by { F.kept_once fields },
}

impl<F: Fields> Kept<F> {
    pub fn new(fields: F) -> Result<Kept<F>, ReadFault>
        ensures { MatchResult result (λ message. (message.fields ≡ fields) × F.kept fields) (F.breaks fields) }
    {
        fields.judge()?;
        Ok(Kept { fields })
    }

    pub fn fields(self) -> F
        ensures { result ≡ self.fields }
    {
        self.fields
    }
}

// By hand, since no derive of `Clone` is to be had for a generic struct with a ghost field.
impl<F: Fields> Clone for Kept<F> {
    ghost is_clone = { λ x y. y ≡ x };

    ghost is_infallible = { λ _. Unit {0} };

    fn clone(&self) -> Result<Kept<F>, AllocError> {
        Ok(*self)
    }
}
