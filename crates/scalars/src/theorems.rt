// Theorems on how integers and nulls are spelled. Each function stands for the theorem that it ensures.
ghost use Rattle.scalars.specs.Computed.{IntegersComputed, NullsComputed};
ghost use Rattle.scalars.specs.Examples.{IntegerExamples};
ghost use Rattle.scalars.specs.Spelling.{SpellingUnique};

/// A text spells one integer at most.
pub fn spelling_is_unique()
    ensures { SpellingUnique }
{}

/// Zero in three spellings, a negative number, underscores, and both sides of 64 bits.
pub fn integer_examples()
    ensures { IntegerExamples }
{}

/// What is computed of a text is the integer of 64 bits that it spells, or that it spells none.
pub fn integers_are_computed()
    ensures { IntegersComputed }
{}

/// What is computed of a text is whether it stands for null.
pub fn nulls_are_computed()
    ensures { NullsComputed }
{}
