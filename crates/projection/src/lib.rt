// A question run on projected tables, each cut down to the columns that are used from there on. Each function here carries a theorem, which is its contract, and does nothing.
#![tactic(auto)]

ghost use Rattle.projection.specs.Cells.{AllProjected, GetByPlace, GroupByCells, JoinByCells, JoinUsedByMembership, MakeByCells, PlaceProjected, UsedByMembership};
ghost use Rattle.projection.specs.Course.{CourseEnds, CourseStarts, CourseTurns, TurnedTwice};
ghost use Rattle.projection.specs.Projected.{ProjectedAnswers, ProjectedReads, ProjectedTotals};

// The run on projected tables, which reads only what is used, comes to the answer.
pub fn projected_answers()
    ensures { ProjectedAnswers }
{}

// The rows and the pages of all tables can be counted in the run on projected tables.
pub fn projected_totals()
    ensures { ProjectedTotals }
{}

// The run on projected tables reads just the pages that were told beforehand.
pub fn projected_reads()
    ensures { ProjectedReads }
{}

// All turns of a run together have to do with each row at most twice.
pub fn turned_twice()
    ensures { TurnedTwice }
{}

// A run that goes on turn by turn, as the turns allow, ends with the answer at hand, and its touches add up.
pub fn course_leads()
    ensures starts { CourseStarts }
    ensures turns { CourseTurns }
    ensures ends { CourseEnds }
{}

// A value lies at the place of its column; among the columns that are used, that place is the number of those before it; where none is left out, rows stay as they are.
pub fn by_place()
    ensures get { GetByPlace }
    ensures place { PlaceProjected }
    ensures whole { AllProjected }
{}

// The steps that make new rows, on projected tables, cell by cell.
pub fn by_cells()
    ensures make { MakeByCells }
    ensures join { JoinByCells }
    ensures group { GroupByCells }
{}

// What is used before a step, and of the table that a join names, can be told by membership in what is used after it.
pub fn by_membership()
    ensures row { UsedByMembership }
    ensures join { JoinUsedByMembership }
{}
