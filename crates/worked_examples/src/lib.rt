// The worked examples of the documents, computed from the definitions: one table, under one theorem.
//
// The same definitions are what the contracts of the code cite, so that each line of the table is also what the code
// answers. specs/Table.antt has the table.
#![tactic(auto)]

ghost use Rattle.worked_examples.specs.Table.{WorkedExamples};

pub fn worked_examples()
    ensures { WorkedExamples }
{}
