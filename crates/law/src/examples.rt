ghost use Rattle.law.specs.Examples.{WorkedExamples};

// Stands for the worked examples in its contract, and does nothing.
pub fn worked_examples()
    ensures { WorkedExamples }
{}
