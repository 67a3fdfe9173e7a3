// One function for each theorem about answers and runs. The contract is the theorem; the functions do nothing else.
ghost use Rattle.answers.specs.Theorems.{EquallyManyNodes, DeclaringNeverClashes, RightAnswersNeverClash, AnswersAreUnique, EveryRunKeepsItsPromise, ListedCanBeRead};

// Two graphs that hold the same statements have equally many nodes.
pub fn equally_many_nodes()
    ensures { EquallyManyNodes }
{}

// One variable more brings no clash.
pub fn declaring_never_clashes()
    ensures { DeclaringNeverClashes }
{}

// A right answer leaves no clash where there was none.
pub fn right_answers_never_clash()
    ensures { RightAnswersNeverClash }
{}

// Every call has at most one right answer.
pub fn answers_are_unique()
    ensures { AnswersAreUnique }
{}

// Calls that each keep their own promise keep that of whole runs.
pub fn every_run_keeps_its_promise()
    ensures { EveryRunKeepsItsPromise }
{}

// What is listed after a run can be read back, as a graph that holds what was said.
pub fn listed_can_be_read()
    ensures { ListedCanBeRead }
{}
