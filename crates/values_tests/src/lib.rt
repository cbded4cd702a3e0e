// Values, column sets and expressions on examples.
#![tactic(auto)]

#[cfg(test)]
mod cells;
#[cfg(test)]
mod codes;
#[cfg(test)]
mod operators;
#[cfg(test)]
mod sets;

ghost use Rattle.values_tests.specs.Worked.{Condition, Choice};

// The code in the tests stands for the expressions that are said there.
#[tactic(auto, unfolding(code::specs::Words::code_in))]
pub fn words_stand_for_expressions()
    ensures condition { Condition }
    ensures choice { Choice }
{}
