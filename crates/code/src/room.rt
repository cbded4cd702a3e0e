ghost use Rattle.code.specs.Room.{ExpressionsFit};

// Code, marks and stacks have room in 112 words for each byte of the text and 512.
pub fn expressions_fit()
    ensures { ExpressionsFit }
{}
